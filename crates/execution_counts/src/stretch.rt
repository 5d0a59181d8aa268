//! Instructions that follow each other.

/// How many instructions that follow each other are counted at once, at most.
pub(crate) const MOST: u64 = 128;

/// Instructions that follow each other, from an address on.
#[derive(Clone, Copy)]
pub struct Stretch {
    /// How many they are.
    pub count: u64,
    /// How often all of them were executed, one after the other.
    pub times: u64,
}

impl Stretch {
    /// None, never.
    pub(crate) const NONE: Stretch = Stretch { count: 0, times: 0 };
}
