//! The counters of a run: sums over the accesses and events of its intervals.
#![tactic(auto)]

mod comp_counts;
mod core_counts;
mod counters;
mod counts;
pub mod laws;

pub use core_counts::count_access;
pub use counters::Counters;
pub use counts::{CompCount, CoreCount};
