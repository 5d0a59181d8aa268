//! Reads executables: ELF-64 files for RISC-V (ELF-64 object file format, System V ABI).
#![tactic(auto)]

mod bad_elf;
mod checks;
pub mod constants;
mod header;
mod image;
pub mod laws;
mod loader;
mod range;
mod segment;

pub use bad_elf::{BadElf, LoadFail};
pub use image::Image;
pub use loader::load;
pub use segment::Segment;
