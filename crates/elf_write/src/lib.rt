//! Writes executables: ELF-64 files for RISC-V (ELF-64 object file format, System V ABI).
#![tactic(auto)]

mod field;
mod headers;
mod writer;

pub use writer::write;
