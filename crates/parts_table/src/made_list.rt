//! Accesses that only contracts see.
ghost use Rattle.std.specs.Prelude.{◌≡◌, ◌++◌, ◌∷◌, [], List};
ghost use Rattle.parts_table.specs.declared.view.Made.{Made};
ghost use base.Fml.{ftrue};

use crate::view::Made;
use std::marker::Model;

/// A list of accesses that has no bytes.
#[derive(Drop)]
pub(crate) struct MadeList {
    ghost list: { List Made },
}

impl Model for MadeList {
    ghost also_owns = { λ _. ftrue };
}

impl MadeList {
    /// No access.
    pub(crate) fn new() -> MadeList
        ensures { result.list ≡ [] }
    {
        MadeList {}
    }

    /// The accesses and one more.
    #[inline(always)]
    pub(crate) fn then(&self, _made: &Made) -> MadeList
        ensures { result.list ≡ self.now.list ++ _made.now ∷ [] }
    {
        MadeList {}
    }
}
