//! One domain of the weave, apart from the threads that run it.
#![tactic(auto)]

mod answer;
mod children;
mod domain;
mod exits;
mod incoming;
pub mod laws;
mod next;
mod prepare;
mod waiting;

pub use domain::Domain;
pub use next::Next;
