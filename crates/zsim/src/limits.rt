//! The limits of what is read.

/// The limit of a machine description, in bytes.
pub const MACHINE_LIMIT: usize = 1 << 20;

/// The limit of an executable, in bytes.
pub const EXE_LIMIT: usize = 1 << 26;

/// The limit of a schedule file, in bytes.
pub const SCHEDULE_LIMIT: usize = 1 << 28;

/// The limit of an events file, in bytes.
pub const EVENTS_LIMIT: usize = 1 << 28;
