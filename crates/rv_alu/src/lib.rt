//! What the arithmetic instructions of RV64I with the extensions M and A compute (RISC-V
//! Unprivileged ISA manual): results of registers, conditions of branches, and the new numbers of
//! atomics.
#![tactic(auto)]

mod arithmetic;
mod atomic;
mod branch;
mod doublewords;
pub mod laws;
mod words;

pub use arithmetic::{alu, is_arithmetic};
pub use atomic::amo;
pub use branch::{is_branch, taken};
