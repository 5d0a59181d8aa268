//! Why a core halted.

/// Why a core halted.
#[derive(Clone, Copy, PartialEq, Eq)]
pub enum Why {
    /// The program ended with this number.
    Exit(u64),
    /// The word at pc is no instruction.
    Illegal { word: u32 },
    /// A jump to an address that is not a multiple of 4.
    Misaligned { target: u64 },
    /// An atomic at an address that is not a multiple of its width.
    AtomicAlign { addr: u64 },
    /// The four bytes at pc are not in one executable segment.
    Fetch { addr: u64 },
    /// A load or a store that is not wholly in memory. The address is the one that the instruction
    /// computes.
    Access { addr: u64 },
    /// A breakpoint.
    Break,
}
