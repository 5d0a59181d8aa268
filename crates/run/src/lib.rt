//! The run of an executable by one worker or several: whoever ran the cores, what comes of it is what
//! the machine of one thread gives, which takes the cores' turns in the order of a schedule, weaves
//! each interval's events on one list, and delays the cores. A run between two intervals is a
//! `Simulation`, whoever goes on with it.
#![tactic(auto)]

mod chains;
mod context;
mod ending;
mod firing;
mod first_passes;
mod interval;
pub mod laws;
mod limits;
mod list_gate;
mod recording;
mod records;
mod results;
mod running;
mod simulation;
mod waiting;
mod weaving;

pub use ending::{access_room, has_ended};
pub use recording::Recording;
pub use records::weave_replayed;
pub use results::Final;
pub use running::run;
pub use simulation::{Simulation, delay_all, first_cores};
pub use weaving::{WovenInterval, events_of, woven_of};
