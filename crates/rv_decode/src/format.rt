//! The formats of instructions.

/// What a word holds beside the bits that its row of the instruction table states (RISC-V
/// Unprivileged ISA manual, "Base Instruction Formats" and "Immediate Encoding Variants").
#[derive(Clone, Copy)]
pub enum Format {
    /// rd and the U immediate.
    U,
    /// rd and the J immediate.
    J,
    /// rd, rs1 and the I immediate.
    I,
    /// rs1, rs2 and the B immediate.
    B,
    /// rs1, rs2 and the S immediate.
    S,
    /// rd, rs1 and rs2.
    R,
    /// rd, rs1 and a shift amount of six bits.
    Shift,
    /// rd, rs1 and a shift amount of five bits.
    WordShift,
    /// rd, rs1, rs2 and the bits aq and rl.
    Atomic,
    /// rd, rs1 and the bits aq and rl.
    LoadReserved,
    /// Nothing: the row states the whole word.
    Whole,
}
