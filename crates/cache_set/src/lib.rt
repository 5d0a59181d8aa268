//! Sets of a set-associative cache with replacement of the least recently used line: one, or those
//! of a whole cache in arrays; and the states of a line in a core's cache.
#![tactic(auto)]

mod ages;
mod letter;
mod set;
mod tags;
mod ticks;

pub use letter::Letter;
pub use set::{Set, Way};
pub use tags::{Entered, Tags, number_in_shard};
pub use ticks::next_age;
