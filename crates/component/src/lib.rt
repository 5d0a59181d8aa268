//! The components whose busy times the weave finds: the banks of the shared cache, the memory
//! controllers, and the links of the mesh.
#![tactic(auto)]

mod bank;
mod comp;
mod component;
mod comps;
mod controller;
mod fresh;
mod kind;
pub mod laws;
mod link;
mod rows;

pub use bank::Bank;
pub use comp::Comp;
pub use component::Component;
pub use comps::Comps;
pub use controller::Controller;
pub use fresh::components;
pub use kind::Kind;
pub use link::Link;
