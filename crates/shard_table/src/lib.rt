//! The shards of a machine, shared by cores that run in threads of their own. A core serves an
//! access of its own while it holds the shard, as one core at a time can. Whatever the order in
//! which cores hold the shards, the accesses are those of plain shards, one after the other in
//! recorded order.
#![tactic(auto)]

mod buffers;
mod hold;
pub mod laws;
mod plays;
mod rule;
mod seat;
mod table;
mod view;

pub use seat::{CoreSeat, Held};
pub use table::ShardTable;
