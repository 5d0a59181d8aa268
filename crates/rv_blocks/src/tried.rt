//! What came of an access that was tried at once.
ghost use Rattle.std.specs.Prelude.{◌≡◌};
ghost use Rattle.rv_blocks.specs.Tries.{is_served};

use rv_core::Single;

/// What came of the access of a load or a store that was to be made at once.
#[derive(Clone, Copy)]
pub enum Tried {
    /// It is made, and its instruction done.
    Served,
    /// The port didn't serve it: this one. It is not made.
    Meets(Single),
    /// It is not made, and nobody looked which it is.
    Not,
}

impl Tried {
    /// Whether it is made.
    #[inline(always)]
    pub fn is_served(self) -> bool
        ensures { result ≡ is_served self }
    {
        matches!(self, Tried::Served)
    }
}
