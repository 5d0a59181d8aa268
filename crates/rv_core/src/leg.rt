//! Where a core went.

/// Instructions that a core executed one after the other, at addresses that follow each other.
#[derive(Clone, Copy)]
pub struct Leg {
    /// The address of the first one.
    pub pc: u64,
    /// How many they are.
    pub count: u64,
    /// Whether the last one made an access.
    pub made: bool,
}
