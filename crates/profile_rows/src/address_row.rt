//! What was counted of an instruction.
use crate::Tally;

/// What was counted of the instruction at an address: of one core, or of all.
#[derive(Clone, Copy)]
pub struct AddressRow {
    /// The core, or None where it is all of them.
    pub core: Option<u16>,
    pub pc: u64,
    /// How often it was executed.
    pub instructions: u64,
    /// What its accesses count, its fetches among them.
    pub tally: Tally,
}
