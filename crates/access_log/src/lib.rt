//! What a run keeps of its accesses: the log of each core in an interval, all logs in recorded
//! order, and the schedule of the whole run.
#![tactic(auto)]

mod core_log;
pub mod laws;
mod merger;
mod schedule;

pub use core_log::CoreLog;
pub use merger::{Merger, merge, sort};
pub use schedule::Schedule;
