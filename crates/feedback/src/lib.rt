//! What the weave found later than the bound phase did, by core: the delays by which clocks grow.
#![tactic(auto)]

mod core_delays;
pub mod laws;
mod list;

pub use core_delays::delays;
pub use list::Delays;
