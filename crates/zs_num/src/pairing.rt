//! Which load-reserved a core's next store-conditional is paired with.

/// The address and the width of a core's latest load-reserved, where the core made no
/// store-conditional since (RISC-V Unprivileged ISA manual, "Load-Reserved/Store-Conditional
/// Instructions"). Unlike a reservation, no other core's access ends it.
#[derive(Clone, Copy)]
pub struct Pairing {
    pub addr: u64,
    /// In bytes, 4 or 8.
    pub width: u8,
}
