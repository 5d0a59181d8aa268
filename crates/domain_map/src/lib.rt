//! The domains of the weave: which events each fires, and which events wait across their borders.
#![tactic(auto)]

mod crossing;
mod make;
mod parts;

pub use crossing::Crossing;
pub use make::{component_domains, split};
pub use parts::Parts;
