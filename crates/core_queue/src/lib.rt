//! A queue of the next events of cores, the least (start, core) first.
#![tactic(auto)]

mod minima;
mod queue;

pub use queue::CoreQueue;
