//! Things dealt to workers by number, and taken back in order: worker w of W has those whose number
//! is w modulo W, and runs them in ascending order.
#![tactic(auto)]

mod dealt;
pub mod laws;
mod worker;

pub use dealt::{give, take};
pub use worker::{Worker, workers};
