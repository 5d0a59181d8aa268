//! Which bytes of each line each core read and wrote.
#![tactic(auto)]

mod line_bytes;
mod line_use;
mod uses;

pub use line_use::LineUse;
