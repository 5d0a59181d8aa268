//! The homes and L1s of a machine, shared by cores that run in threads of their own. A core keeps
//! its own L1 and serves by it alone what it can: no other core sees anything of that. For every
//! other access it takes the home of the line, and the L1s of the cores that have to change.
//! Whatever the order in which cores take them, the accesses are those of one machine, one after
//! the other in the order of their times.
#![tactic(auto)]

mod blocks;
mod buffers;
mod hold;
mod laws;
mod made_list;
mod merge;
mod numbers;
pub mod order_laws;
mod part;
mod pause;
mod places;
mod plays;
mod publish;
mod rule;
mod seat;
mod shared;
mod slots;
mod station;
mod table;
mod turn;
mod view;

pub use blocks::{Blocks, Run};
pub use merge::Merge;
pub use part::{Part, TimedPart};
pub use pause::Pause;
pub use places::Places;
pub use seat::CoreSeat;
pub use table::PartsTable;
pub use turn::CoreTurn;
