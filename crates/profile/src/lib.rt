//! What the steps of a run add up to: by core and address of the instruction, by core and line, and by interval.
#![tactic(auto)]

mod added;
mod address_rows;
mod contribution;
mod copies;
pub mod laws;
mod line_rows;
mod makers;
mod met;
mod parts;
mod profile;
mod rows;
mod series;
mod something;
mod suffered;

pub use contribution::{Contribution, Maker};
pub use copies::{CopyState, Leave};
pub use profile::Profile;
pub use series::OpenInterval;
