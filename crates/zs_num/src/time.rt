//! Simulated time, and the order of events.

/// A point in simulated time, in cycles from the start of the run. Cycles of a run are below 2^62.
pub type Cycle = u64;

/// A logical clock (Lamport, 1978) of one interval. Stamps are below 2^62.
pub type Stamp = u64;

/// The place of an event in the order in which a weave takes events: by start, then by number.
#[derive(Clone, Copy, PartialEq, Eq, PartialOrd, Ord)]
pub struct Key {
    /// The cycle at which the event starts.
    pub start: Cycle,
    /// The number of the event in its interval.
    pub number: u32,
}

/// What is known of the finish of an event in another domain.
#[derive(Clone, Copy, Debug, PartialEq, Eq)]
pub enum Word {
    /// It finishes at this cycle or later.
    Bound(Cycle),
    /// It finishes at this cycle.
    Exact(Cycle),
}
