//! A queue of keys, the least (start, number) first: of the events of a domain that are ready to
//! fire, or of the crossings for which it waits.
#![tactic(auto)]

mod ready;

pub use ready::Ready;
