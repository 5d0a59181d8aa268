//! Shards of the machine: the caches and the memory of the lines that are dealt to each.
#![tactic(auto)]

mod alone;
pub mod laws;
mod leaving;
mod new_parts;
mod other_parts;
mod parts;
mod shard;
mod shared;
mod some_parts;

pub use leaving::Leaving;
pub use other_parts::others_touched;
pub use parts::Parts;
pub use shard::Shard;
pub use some_parts::serve_at;
