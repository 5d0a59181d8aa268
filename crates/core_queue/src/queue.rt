//! A queue of keys, one for a core at most.
ghost use Rattle.std.specs.Prelude.{◌≡◌, ◌≢◌, ◌-◌, ◌<◌, ◌≤◌, ◌^◌, [], drop, Some, slice_get, Contains, IfOk, IfSome};
ghost use Rattle.zs_num.specs.declared.time.Key.{Key};
ghost use Rattle.domain_queue.specs.SortedKeys.{IsAscending, put};
ghost use Rattle.core_queue.specs.NextKeys.{with_next};

use crate::minima::{first_leaf, set_leaf};
use std::alloc::Global;
use std::marker::Model;
use zs_num::{Cycle, Key, NoMemory};

/// The start of a core that has no key.
const NEVER: Cycle = Cycle::MAX;

/// Keys whose numbers are those of cores, one for a core at most. Contracts see them as a list in
/// ascending order. They are kept as the start of each core, under a tree of minima: no key is
/// moved, and the least is found and replaced by one walk each.
#[derive(Drop)]
pub struct CoreQueue {
    /// The tree. Its leaves are the starts, in the order of the cores.
    nodes: Vec<Cycle>,
    leaves: usize,
    levels: u32,
    room: u32,
}

impl Model for CoreQueue {
    ghost use Rattle.domain_queue.specs.SortedKeys.{ReadyKeys};
    ghost use Rattle.core_queue.specs.Minima.{IsTree, queue_of};

    ghost Value = { ReadyKeys };

    ghost view = { queue_of };

    ghost invariant = { IsTree };
}

impl CoreQueue {
    ghost use Rattle.domain_queue.specs.SortedKeys.{ReadyKeys};

    /// No key, and room for one of each of so many cores.
    pub fn with_room(alloc: Global, cores: u16) -> Result<Self, NoMemory>
        ensures { IfOk result (λ queue. queue ≡ record { keys = []; room = cores }) }
    {
        let levels = levels_above(cores);
        let leaves = 1 << levels;
        Ok(CoreQueue {
            nodes: vec![in alloc; NEVER; 2 * leaves]?,
            leaves,
            levels,
            room: u32::from(cores),
        })
    }

    /// Takes in the key of a core that has none.
    pub fn push(&mut self, key: Key)
        requires core { key.number < self.old.room }
        requires soon { key.start < 2 ^ 64 - 1 }
        requires new { (k : Key) → Contains self.old.keys k → k.number ≢ key.number }
        ensures { self.new ≡ record self.old { keys = put key self.old.keys } }
    {
        set_leaf(&mut self.nodes, self.leaves, key.number as usize, key.start);
    }

    /// The least key. None exactly where there is none.
    #[inline(always)]
    pub fn first(&self) -> Option<Key>
        ensures first { result ≡ slice_get self.now.keys 0 }
        ensures ascending { IsAscending self.now.keys }
    {
        let start = self.nodes[1];
        if start >= NEVER {
            return None;
        }
        let core = first_leaf(&self.nodes, self.levels, self.leaves);
        Some(Key {
            start,
            number: core as u32,
        })
    }

    /// The core of the least key goes on with an event that starts then, in place of the one whose
    /// key it was. None where it has no more.
    #[inline(always)]
    pub fn settle(&mut self, core: u32, start: Option<Cycle>)
        requires first { (k : Key) × (slice_get self.old.keys 0 ≡ Some k) × (k.number ≡ core) }
        requires soon { IfSome start (λ s. s < 2 ^ 64 - 1) }
        ensures { self.new ≡ record self.old { keys = with_next core start (drop 1 self.old.keys) } }
    {
        set_leaf(
            &mut self.nodes,
            self.leaves,
            core as usize,
            start.unwrap_or(NEVER),
        );
    }
}

/// The least number of levels above so many leaves, of a tree that has two leaves for each node of
/// the level above.
fn levels_above(leaves: u16) -> u32
    ensures enough { leaves ≤ 2 ^ result }
    ensures few { result ≤ 16 }
{
    for levels in 0..16 {
        if u32::from(leaves) <= 1 << levels {
            return levels;
        }
    }
    16
}
