//! What a home keeps of a line of the L2.
ghost use Rattle.std.specs.Prelude.{◌≡◌, ◌<◌, ◌∷◌, [], true, false};
ghost use Rattle.mesi_dir.specs.CoreSets.{with_core, without_core};
ghost use Rattle.home.specs.HomeState.{nobody};
ghost use Rattle.home.specs.Rows.{line_in};

use mesi_dir::CoreSet;

/// What is kept of a line of the L2.
#[derive(Clone, Copy)]
pub struct Row {
    /// The cores whose L1 has the line.
    pub sharers: CoreSet,
    /// The cores whose instruction cache has it.
    pub fetchers: CoreSet,
    // Last: behind them is padding, and a copy in large pieces cuts none of the sets in two.
    /// Memory has other bytes of it.
    pub dirty: bool,
    /// One core alone has it, in M or E.
    pub alone: bool,
}

impl Row {
    /// That of a clean line that no core has.
    pub(crate) fn nobody() -> Self
        ensures { line_in result ≡ nobody }
    {
        Row {
            sharers: CoreSet::empty(),
            fetchers: CoreSet::empty(),
            dirty: false,
            alone: false,
        }
    }

    /// Memory has other bytes of the line.
    #[inline(always)]
    pub(crate) fn mark_dirty(&mut self)
        ensures { line_in self.new ≡ record (line_in self.old) { dirty = true } }
    {
        self.dirty = true;
    }

    /// A core's L1 has the line too.
    pub(crate) fn add_sharer(&mut self, core: u16, alone: bool)
        requires { core < 256 }
        ensures { line_in self.new ≡ record (line_in self.old) { sharers = with_core core (line_in self.old).sharers; alone = alone } }
    {
        self.sharers.add(core);
        self.alone = alone;
    }

    /// A core's L1 has the line, and no other.
    pub(crate) fn own(&mut self, core: u16)
        requires { core < 256 }
        ensures { line_in self.new ≡ record (line_in self.old) { sharers = core ∷ []; alone = true } }
    {
        // In its place: a set that is made elsewhere and copied here is waited for.
        self.sharers = CoreSet::empty();
        self.sharers.add(core);
        self.alone = true;
    }

    /// A core's L1 has the line no more.
    pub(crate) fn remove_sharer(&mut self, core: u16)
        requires { core < 256 }
        ensures { line_in self.new ≡ record (line_in self.old) { sharers = without_core core (line_in self.old).sharers; alone = false } }
    {
        self.sharers.remove(core);
        self.alone = false;
    }

    /// A core's L1 has the line no more, and wrote to it: memory has other bytes of it.
    #[inline(always)]
    pub(crate) fn remove_writer(&mut self, core: u16)
        requires { core < 256 }
        ensures { line_in self.new ≡ record (line_in self.old) { dirty = true; sharers = without_core core (line_in self.old).sharers; alone = false } }
    {
        self.mark_dirty();
        self.remove_sharer(core);
    }

    /// A core's instruction cache has the line too.
    pub(crate) fn add_fetcher(&mut self, core: u16)
        requires { core < 256 }
        ensures { line_in self.new ≡ record (line_in self.old) { fetchers = with_core core (line_in self.old).fetchers } }
    {
        self.fetchers.add(core);
    }

    /// A core's instruction cache has the line no more.
    pub(crate) fn remove_fetcher(&mut self, core: u16)
        requires { core < 256 }
        ensures { line_in self.new ≡ record (line_in self.old) { fetchers = without_core core (line_in self.old).fetchers } }
    {
        self.fetchers.remove(core);
    }
}
