//! Sets of cores, and a directory of a shared cache: which cores' caches have a line, and which core
//! may write it.
#![tactic(auto)]

mod core_set;
mod directory;
mod row;

pub use core_set::CoreSet;
pub use directory::Directory;
