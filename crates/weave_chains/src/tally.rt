//! What is counted of each component while its events fire.
ghost use Rattle.std.specs.Prelude.{◌≡◌, ◌+◌, ◌<◌, ◌^◌};
ghost use Rattle.weave_chains.specs.Tallies.{taken, ties};

use stats::CompCount;
use zs_num::Cycle;

/// An event that its component has served.
#[derive(Clone, Copy)]
pub(crate) struct Served {
    pub(crate) core: u16,
    pub(crate) component: u16,
    pub(crate) start: Cycle,
    /// How many cycles it took longer than at zero load.
    pub(crate) waited: u64,
}

/// The events of a component that have fired: how many, how long they waited, and the last of them.
#[derive(Clone, Copy)]
pub(crate) struct Tally {
    pub(crate) count: CompCount,
    pub(crate) last: Option<Served>,
}

/// Of a component before its first event.
pub(crate) const NO_TALLY: Tally = Tally {
    count: CompCount {
        events: 0,
        waited: 0,
        free: 0,
    },
    last: None,
};

impl Tally {
    /// The component has served one event more. Answers whether it ties with the last one: it is of
    /// another core, and starts in the same cycle.
    #[inline(always)]
    pub(crate) fn take(&mut self, served: Served) -> bool
        requires events { self.old.count.events + 1 < 2 ^ 64 }
        requires waited { self.old.count.waited + served.waited < 2 ^ 128 }
        ensures taken { self.new ≡ taken self.old served }
        ensures tie { result ≡ ties self.old.last served }
    {
        let tie = match self.last {
            Some(last) => last.start == served.start && last.core != served.core,
            None => false,
        };
        self.count.events += 1;
        self.count.waited += u128::from(served.waited);
        self.last = Some(served);
        tie
    }
}
