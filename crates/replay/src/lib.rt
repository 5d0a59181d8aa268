//! The replay of a run on one thread: what comes of it is what the machine of one thread gives, which
//! takes the cores' turns in the order of a schedule. The run itself, by one worker or several, is
//! the crate `run`'s.
#![tactic(auto)]

pub mod laws;
mod replay_fail;
mod replaying;
mod under;

pub use replay_fail::ReplayFail;
pub use replaying::replay;
pub use run::{Final, Recording, run};
