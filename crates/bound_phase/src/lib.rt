//! The bound phase of an interval by several workers: each runs its cores to the end of the
//! interval, and their accesses go to shards that all share. Whatever the order in which they hold
//! the shards, the accesses in recorded order are those of the machine of one thread.
#![tactic(auto)]

mod crew;
mod hiring;
mod interval;
pub mod laws;
mod member;
mod seat_port;

pub use interval::{Bounded, PhaseBuffers, bound, bound_in};
