//! The files of a profile, as text.
#![tactic(auto)]

mod callgrind_file;
mod groups;
mod halts_file;
mod lines_file;
mod numbers;
mod series_file;
mod totals;

pub use callgrind_file::callgrind;
pub use halts_file::halts;
pub use lines_file::lines;
pub use series_file::series;
