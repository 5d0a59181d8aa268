//! The run of an executable on one thread, under a schedule or core after core, that tells each of
//! its steps.
#![tactic(auto)]

mod alone;
mod each_core;
mod in_turn;
mod interval;
pub mod laws;
mod logged_port;
mod telling;
mod traced_run;
mod tracer;
mod tracing;
mod turns;

pub use tracer::Tracer;
pub use tracing::{trace, trace_in_turn};
