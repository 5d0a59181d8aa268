//! The machine of one thread and its run under a schedule, as definitions, and what is true of them.
//! There is no code that runs here: a core's turns are those of the machine (bound_core), and `run`
//! and `replay` give what the definition of a run says.
#![tactic(auto)]

pub mod laws;
