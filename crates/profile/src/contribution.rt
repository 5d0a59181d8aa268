//! What a step adds to a profile.
use profile_rows::Tally;

/// What a step adds: to which core, to the instruction at which address, and to which line. What a
/// core suffered by an access of another is of no instruction of its own.
#[derive(Clone, Copy)]
pub struct Contribution {
    pub core: u16,
    pub pc: Option<u64>,
    pub line: u64,
    pub tally: Tally,
}

/// An access that makes events: of which core it is, of the instruction at which address, and to
/// which line.
#[derive(Clone, Copy)]
pub struct Maker {
    pub core: u16,
    pub pc: u64,
    pub line: u64,
}
