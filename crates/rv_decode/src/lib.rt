//! The decoder of RV64I with the extensions M and A (RISC-V Unprivileged ISA manual).
#![tactic(auto)]

mod decoder;
mod fields;
mod format;
mod formats;
mod inst;
pub mod laws;
mod name;
mod names;
pub mod opcodes;

pub use decoder::decode;
pub use fields::bits;
pub use format::Format;
pub use inst::Inst;
pub use name::Name;
