//! The pace of a pipelined core: when each instruction issues, and what it costs.
#![tactic(auto)]

mod latency;
pub mod laws;
mod pace;
mod prediction;

pub use pace::Pace;
