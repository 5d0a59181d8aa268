//! Entries that only contracts see.
ghost use Rattle.std.specs.Prelude.{◌≡◌, ◌++◌, ◌∷◌, [], List};
ghost use Rattle.zs_num.specs.declared.entry.Entry.{Entry};
ghost use Rattle.access_record.specs.Laws.{beyond_hits};
ghost use Rattle.access_record.specs.Restamped.{list_like, lists_of_stamped};
ghost use base.Fml.{ftrue};

use crate::stamped::Stamped;
use std::marker::Model;
use zs_num::Entry;

/// A list of entries that has no bytes.
#[derive(Drop)]
pub(crate) struct Listed {
    ghost entries: { List Entry },
}

impl Model for Listed {
    ghost also_owns = { λ _. ftrue };
}

impl Listed {
    /// No entry.
    pub(crate) fn new() -> Listed
        ensures { result.entries ≡ [] }
    {
        Listed {}
    }

    /// The entries and one more.
    #[inline(always)]
    pub(crate) fn then(&self, _entry: &Entry) -> Listed
        ensures { result.entries ≡ self.now.entries ++ _entry.now ∷ [] }
    {
        Listed {}
    }

    /// The entries with their stamps.
    pub(crate) fn restamped(&self, _stamped: &Stamped) -> Listed
        ensures { result.entries ≡ list_like (lists_of_stamped _stamped.now) self.now.entries }
    {
        Listed {}
    }

    /// Those of another list that are of accesses that make events.
    pub(crate) fn beyond_hits_of(&self, _list: &Listed) -> Listed
        ensures { result.entries ≡ beyond_hits _list.now.entries }
    {
        Listed {}
    }
}
