//! The numbers of a run that every layer speaks of: cycles, stamps, requests, pairings, outcomes and
//! entries.
#![tactic(auto)]

mod bytes;
mod entry;
mod memory;
mod pairing;
mod request;
mod time;

pub use bytes::Bytes;
pub use entry::{Entries, Entry, Outcome};
pub use memory::NoMemory;
pub use pairing::Pairing;
pub use request::{AmoOp, LINE, Request};
pub use time::{Cycle, Key, Stamp, Word};
