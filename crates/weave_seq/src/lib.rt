//! The weave on one list.
#![tactic(auto)]

mod before;
mod begin;
mod by_core;
mod children;
mod core_order;
mod ready;
mod state;
mod tell;
mod weave;

pub use by_core::weave_by_core;
pub use weave::{weave_gated, weave_seq};
