//! The states of a line in a core's cache.
ghost use Rattle.std.specs.Prelude.{◌≡◌};
ghost use Rattle.cache_set.specs.Letters.{mark_of, letter_of};

/// The state of a line in a core's cache (the MESI protocol).
#[derive(Clone, Copy, PartialEq, Eq)]
pub enum Letter {
    /// Modified: this core alone has the line, and its bytes are newer than those of memory.
    M,
    /// Exclusive: this core alone has the line, and may write it.
    E,
    /// Shared: other cores may have the line too.
    S,
    /// Invalid: the cache doesn't have the line.
    I,
}

impl Letter {
    /// The number that stands for it in a set, from 0 to 3.
    pub fn mark(self) -> u8
        ensures { result ≡ mark_of self }
    {
        self as u8
    }

    /// The state that a number stands for. A number that is no other's mark stands for `I`.
    pub fn of_mark(mark: u8) -> Self
        ensures { result ≡ letter_of mark }
    {
        match mark {
            0 => Letter::M,
            1 => Letter::E,
            2 => Letter::S,
            _ => Letter::I,
        }
    }
}
