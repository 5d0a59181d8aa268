//! The home of a bank's lines: the bank's part of the L2 with a directory of it, the bytes of its
//! lines, and what the cores have marked in them.
#![tactic(auto)]

mod filling;
mod home;
mod lines;
mod marks;
mod met;
mod row;
mod rows;

pub use home::Home;
pub use row::Row;
