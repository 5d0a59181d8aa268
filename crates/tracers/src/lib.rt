//! What tracers share: the steps that they were told, and two of them that are told the same.
#![tactic(auto)]

mod both;
mod told;

pub use both::Both;
pub use told::Told;
