//! What is counted of one core, and of one component.
use zs_num::Cycle;

/// What is counted of a core's accesses.
#[derive(Clone, Copy, PartialEq, Eq)]
pub struct CoreCount {
    /// The sum of the delays that the weave fed back, in cycles.
    pub delay: u128,
    /// How many loads.
    pub loads: u64,
    /// How many stores.
    pub stores: u64,
    /// How many load-reserved, store-conditional and read-modify-write accesses.
    pub atomics: u64,
    /// How many fetches of instructions.
    pub fetches: u64,
    /// How many of all these hit the core's own cache, with write permission where it was needed; of
    /// fetches, its instruction cache.
    pub hits: u64,
    /// How many hit it without the write permission that they needed.
    pub upgrades: u64,
    /// How many hit the shared cache.
    pub l2hits: u64,
    /// How many went to memory.
    pub misses: u64,
}

/// What is counted of a bank, a controller or a link.
#[derive(Clone, Copy, PartialEq, Eq)]
pub struct CompCount {
    /// How many events it served.
    pub events: u64,
    /// How long events waited for it, in cycles.
    pub waited: u128,
    /// The cycle from which on it is free.
    pub free: Cycle,
}
