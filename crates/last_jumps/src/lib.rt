//! The last jumps of each core.
#![tactic(auto)]

mod core_jumps;
mod last_jumps;

pub use last_jumps::LastJumps;
pub use profile_rows::Jump;
