//! Values by number, of which few were set and these mostly near one another, with memory only for
//! what was set.
#![tactic(auto)]

pub mod by_core;
mod change;
mod chunk;
mod chunks;
pub mod laws;
mod next;
mod table;

pub use change::Change;
pub use next::earlier;
pub use table::SparseTable;
