//! The file of a run's events, and its checker.
#![tactic(auto)]

mod bad_events;
mod checker;
mod events_file;
mod interval;
mod keys;
pub mod laws;
mod numbers;
mod reader;
mod record;
mod serve;
mod verdict;

pub use bad_events::{BadEvents, CheckFail};
pub use checker::check;
pub use events_file::EventsFile;
pub use verdict::Verdict;

/// What a file begins with.
const MAGIC: [u8; 4] = *b"ZSEV";

/// The version of the format.
const VERSION: u32 = 1;
