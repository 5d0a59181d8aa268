//! A memory controller whose banks each keep a row open.
#![tactic(auto)]

pub mod laws;
mod numbers;
mod rows;

pub use numbers::RowNumbers;
pub use rows::Rows;
