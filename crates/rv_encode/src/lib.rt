//! The encoder of RV64I with the extensions M and A (RISC-V Unprivileged ISA manual), the inverse
//! of the decoder.
#![tactic(auto)]

mod encoder;
mod immediates;
mod rows;

pub use encoder::encode;
