//! What was counted of a line.
use crate::Tally;

/// What was counted of a core's accesses to a line.
#[derive(Clone, Copy)]
pub struct LineRow {
    /// The number of the line: its address divided by 64.
    pub line: u64,
    pub core: u16,
    pub tally: Tally,
    /// The bytes that the core read, atomics among them: bit i for byte i of the line.
    pub read: u64,
    /// Those that it wrote, or may have written: those of all stores, store-conditionals and
    /// read-modify-writes.
    pub written: u64,
}
