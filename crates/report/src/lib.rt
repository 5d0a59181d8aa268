//! The report of a run, as text.
#![tactic(auto)]

mod component_lines;
mod core_lines;
mod fields;
pub mod laws;
mod printed;
mod summary;
mod writer;

pub use core_lines::write_halt;
pub use fields::write_hexadecimal;
pub use printed::write_printed;
pub use writer::text;
