//! The top call of the simulator: from the words of the command line to the report, or to the verdict
//! on a file of events.
#![tactic(auto)]

mod checking;
mod command_line;
mod ended;
mod error_line;
pub mod laws;
mod limits;
mod options;
mod outputs;
mod put;
mod setup;
pub mod steps;
mod top;

pub use ended::{Ended, Kept, Said, ScheduleFault, Status, Which};
pub use top::zsim;
