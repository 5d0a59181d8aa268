//! Programs that are made from a number.
#![tactic(auto)]

mod assembly;
mod generator;
pub mod laws;
mod program;

pub use generator::generate;
