//! One core in an interval: its local instructions, and its accesses through a port.
#![tactic(auto)]

mod bounded;
pub mod laws;
mod loops;
mod paced;
mod parts_port;
mod shard_port;
mod turned;

pub use bounded::{BESIDE_CYCLES, BoundCore};
pub use parts_port::PartsPort;
pub use rv_core::Port;
pub use shard_port::ShardPort;
pub use turned::Turned;
