//! What was counted of intervals.
use crate::Tally;

/// What was counted of some intervals that follow each other.
#[derive(Drop)]
pub struct SeriesRow {
    /// The number of the first one.
    pub first: u64,
    /// How many they are.
    pub intervals: u64,
    /// How many instructions all cores executed.
    pub instructions: u64,
    /// What all accesses count. Waits are not among it.
    pub tally: Tally,
    /// How many events there were.
    pub events: u64,
    /// How many cycles events waited at each component, in order of the components' numbers.
    pub waits: Vec<u128>,
}
