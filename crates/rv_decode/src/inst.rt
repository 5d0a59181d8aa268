//! What a word decodes to.
use crate::Name;

/// A decoded instruction. A field that its format does not have is 0.
#[derive(Clone, Copy)]
pub struct Inst {
    pub name: Name,
    /// The destination register, 0 to 31.
    pub rd: u8,
    /// The first source register, 0 to 31.
    pub rs1: u8,
    /// The second source register, 0 to 31.
    pub rs2: u8,
    /// The immediate, sign-extended; the amount of a shift by immediate; `2 * aq + rl` of an
    /// atomic.
    pub imm: i64,
}
