//! How many workers run the cores of an interval: several, where what they save by sharing the work
//! is more than what it costs them to share caches and memory, and else one.
#![tactic(auto)]

mod load;
mod pace;

pub use load::{Load, SIZES, sizes};
pub use pace::Pace;
