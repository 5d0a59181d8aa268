//! The rows of a profile: by the address of the instruction, by line and core, by interval, and of each
//! core at its end.
#![tactic(auto)]

mod address_row;
mod halt_row;
mod line_row;
mod series_row;
mod tally;

pub use address_row::AddressRow;
pub use halt_row::{HaltRow, Jump};
pub use line_row::LineRow;
pub use series_row::SeriesRow;
pub use tally::{NONE, Tally};
