//! The events of an interval, and the order in which the weave takes them.
#![tactic(auto)]

mod access_path;
mod builder;
mod event;
mod expand;
mod fired;
mod graph;
pub mod laws;
mod piece;
mod plain;

pub use access_path::AccessPath;
pub use builder::build;
pub use component::Kind;
pub use event::{Event, Parent};
pub use expand::Expand;
pub use fired::{Fired, FiredList};
pub use graph::Graph;
pub use piece::Piece;
pub use plain::Plain;
