//! What is kept of an interval's accesses where their entries are not: a byte of each, from which
//! the recorded order of the cores follows, and 8 bytes of each that makes events, from which these
//! follow.
#![tactic(auto)]

mod accesses;
mod bank_log;
mod buffers;
mod core_marks;
pub mod laws;
mod listed;
mod marks;
mod order;
mod outcomes;
mod record;
mod record_log;
mod stamped;
mod turns;
mod unordered;

pub use accesses::recorded_accesses;
pub use bank_log::{BankLog, bank_of_byte, has_events};
pub use buffers::OrderBuffers;
pub use order::recorded_cores;
pub use record::Record;
pub use record_log::RecordLog;
pub use stamped::Stamped;
pub use turns::Turns;
pub use unordered::Unordered;
