//! The file of a schedule: written, and read again. Version 1 is for at most 64 cores and version 2
//! for more, so each schedule has one file, and each file one schedule.
#![tactic(auto)]

mod bad_schedule;
pub mod laws;
mod reader;
mod version;
mod writer;

pub use bad_schedule::{BadSchedule, ScheduleReadFail};
pub use reader::read;
pub use writer::write;

/// What a file begins with.
const MAGIC: [u8; 4] = *b"ZSCH";
