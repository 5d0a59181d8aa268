//! The L1 of one core: its data cache, which has the bytes of its lines, and its instruction cache.
//! What a core's L1 can serve alone touches nothing else.
#![tactic(auto)]

mod data_ways;
mod l1;
mod l1i;
mod near;

pub use l1::L1;
