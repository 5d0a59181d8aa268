//! The limits of a run.
use zs_num::Cycle;

/// The limit of the accesses of a run.
pub const ACCESS_LIMIT: u64 = 1 << 26;

/// The latest cycle of a clock or a component at which an interval may begin.
pub const CYCLE_LIMIT: Cycle = 1 << 56;

/// The limit of the events file of a run, in bytes.
pub const EVENTS_LIMIT: usize = 1 << 28;
