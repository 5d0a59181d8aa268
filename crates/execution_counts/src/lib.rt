//! How often each core executed the instruction at each address: counted one by one, or many that
//! follow each other at once.
#![tactic(auto)]

mod counts;
mod one_more;
mod stretch;

pub use counts::ExecutionCounts;
pub use stretch::Stretch;
