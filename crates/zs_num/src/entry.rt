//! The accesses of an interval, as they were served.
ghost use Rattle.std.specs.Prelude.{◌≡◌};

use crate::{Cycle, Request, Stamp};
use std::marker::Model;

/// How the caches met a request.
#[derive(Clone, Copy, PartialEq, Eq)]
pub enum Outcome {
    /// The core's own cache had the line with the permission that was needed: of a fetch its
    /// instruction cache, of every other access its data cache.
    Hit,
    /// The core's own cache had the line without write permission. `others`: another core
    /// had it too.
    Upgrade { others: bool },
    /// The shared cache had the line. `others`: another core had a copy that had to change.
    L2 { others: bool },
    /// Memory had the line. `dirty_victim`: the line that the L2 evicted was written back.
    Miss { dirty_victim: bool },
}

/// One access of a core, as it was served.
#[derive(Clone, Copy, PartialEq, Eq)]
pub struct Entry {
    /// By it, and then by the core, entries stand in recorded order. It is one more than the latest
    /// stamp of its core and of its bank in the interval.
    pub stamp: Stamp,
    /// The core's clock when the access began.
    pub start: Cycle,
    /// What the core was answered.
    pub reply: u64,
    pub request: Request,
    /// The number of the core.
    pub core: u16,
    pub outcome: Outcome,
}

/// A list of entries, which contracts see as a list.
#[derive(Drop)]
pub struct Entries {
    list: Vec<Entry>,
}

impl Model for Entries {
    ghost use Rattle.std.specs.Prelude.{List};
    ghost use Rattle.zs_num.specs.declared.entry.Entry.{Entry};

    ghost Value = { List Entry };

    ghost view = { λ e. e.list.items };
}

impl Entries {
    /// The entries of a list, which it takes over.
    pub fn of(list: Vec<Entry>) -> Self
        ensures { result ≡ list.items }
    {
        Entries { list }
    }

    /// The entries, in place.
    pub fn as_slice(&self) -> &[Entry]
        ensures { result.now ≡ self.now }
    {
        &self.list
    }

    /// The list of the entries.
    pub fn into_list(self) -> Vec<Entry>
        ensures { result.items ≡ self }
    {
        self.list
    }
}
