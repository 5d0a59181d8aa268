//! The weave of the events of accesses that are listed core by core. A core's events fire in order,
//! so they are a chain, of which one event can fire next.
#![tactic(auto)]

mod accesses;
mod ahead;
mod alone;
mod beginning;
mod buffers;
mod chain;
mod firing;
mod kept;
mod laws;
mod passing;
mod tally;
mod weave;

pub use accesses::Accesses;
pub use buffers::ChainBuffers;
pub use kept::Kept;
pub use weave::{Woven, weave_chains};
