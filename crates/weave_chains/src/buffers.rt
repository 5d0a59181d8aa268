//! Memory that one weave leaves to the next.
ghost use Rattle.std.specs.Prelude.{◌≡◌, OnOk, slice_get, vec_len};
ghost use Rattle.std.specs.Option.{option_map_or};

use crate::chain::Chain;
use crate::tally::Tally;
use std::alloc::Global;
use zs_num::NoMemory;

/// Memory that one weave leaves to the next. A chain takes 1.1 kB, most of it for the events of an
/// access that have fired, which need not be cleared for another interval.
#[derive(Drop)]
pub struct ChainBuffers {
    pub(crate) chains: Vec<Chain>,
    pub(crate) tallies: Vec<Tally>,
}

impl ChainBuffers {
    /// No memory, as before the first weave.
    pub fn new(alloc: Global) -> Self {
        ChainBuffers {
            chains: Vec::new(alloc),
            tallies: Vec::new(alloc),
        }
    }

    /// There is a chain for each of so many cores. What it is of means nothing.
    pub(crate) fn make_room(&mut self, alloc: Global, cores: u16) -> Result<(), NoMemory>
        ensures { OnOk result (vec_len self.new.chains ≡ cores) }
    {
        let cores = usize::from(cores);
        if self.chains.len() != cores {
            self.chains = vec![in alloc; Chain::new(); cores]?;
        }
        Ok(())
    }

    /// How many events of a component the last weave fired. Where it ended at a tie, these are the
    /// events up to the second of the two, and that one too.
    pub fn fired(&self, component: usize) -> u64
        ensures { result ≡ option_map_or (λ t. t.count.events) (slice_get self.now.tallies.items component) 0 }
    {
        match self.tallies.get(component) {
            Some(tally) => tally.count.events,
            None => 0,
        }
    }
}
