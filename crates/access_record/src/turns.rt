//! In which order cores take their turns.

/// In which order cores took their turns, in each of which one made its next access.
#[derive(Clone, Copy)]
pub enum Turns<'a> {
    /// One core after the other, by their numbers.
    CoreByCore,
    /// In that of a list, which names the core of each turn.
    Listed(&'a [u16]),
}
