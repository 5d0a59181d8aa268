//! The memory of a machine as one list of bytes, with a reservation for each core.
#![tactic(auto)]

pub mod laws;
mod memory;
pub mod numbers;
mod reservation;

pub use memory::FlatMemory;
pub use reservation::{Reservation, end_others, is_reserved};
