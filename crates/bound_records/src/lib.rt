//! The bound phase of an interval by one worker, and what is kept of its accesses: of each a byte
//! and what it counts, and a record of each that makes events.
#![tactic(auto)]

mod accesses;
mod apart;
mod gated_port;
mod listed_turns;
mod own_program;
mod record_port;
mod recorder;
mod running;
mod turn_port;
mod turns_fail;

pub use apart::RecorderParts;
pub use own_program::OwnProgram;
pub use record_port::{CoreRecord, keep};
pub use recorder::{Recorder, reserve_all};
pub use turns_fail::TurnsFail;
