//! The schedule of a run: for each interval the numbers of the cores, in the order of their
//! accesses.
ghost use Rattle.access_log.specs.Schedule.{AreTurns};
ghost use Rattle.std.specs.Prelude.{◌≡◌, ◌<◌, ◌+◌, ◌-◌, ◌^◌, [], ◌∷◌, ◌++◌, All, Some, length, map, slice_get, vec_len, OnOk, OnErr};

use std::alloc::Global;
use std::marker::Model;
use zs_num::{Entries, NoMemory};

/// For each interval that was run, the numbers of the cores in the order of their accesses.
#[derive(Drop)]
pub struct Schedule {
    cores: u16,
    lists: Vec<Vec<u16>>,
}

impl Model for Schedule {
    ghost use Rattle.std.specs.Prelude.{◌^◌, ◌<◌, map, vec_len};
    ghost use Rattle.access_log.specs.Schedule.{AreTurns, ScheduleState};

    ghost Value = { ScheduleState };

    ghost view = { λ s. record { cores = s.cores; lists = map (λ v. v.items) s.lists.items } };

    ghost invariant = { λ s. AreTurns (record { cores = s.cores; lists = map (λ v. v.items) s.lists.items }) };
}

impl Schedule {
    /// A schedule without an interval, for so many cores.
    pub fn new(alloc: Global, cores: u16) -> Self
        ensures { result ≡ record { cores = cores; lists = [] } }
    {
        Schedule {
            cores,
            lists: Vec::new(alloc),
        }
    }

    /// How many cores the machine has.
    pub fn cores(&self) -> u16
        ensures { result ≡ self.now.cores }
    {
        self.cores
    }

    /// How many intervals there are.
    pub fn intervals(&self) -> u32
        ensures value { result ≡ length self.now.lists }
        ensures turns { AreTurns self.now }
    {
        self.lists.len() as u32
    }

    /// The list of an interval.
    pub fn list(&self, interval: u32) -> &[u16]
        requires { interval < length self.now.lists }
        ensures { slice_get self.now.lists interval ≡ Some result.now }
    {
        &self.lists[interval as usize]
    }

    /// Adds an interval with these turns.
    pub fn push(&mut self, turns: Vec<u16>) -> Result<(), NoMemory>
        requires cores { All (λ core. core < self.old.cores) turns.items }
        requires count { vec_len turns < 2 ^ 32 }
        requires room { length self.old.lists < 2 ^ 32 - 1 }
        ensures cores { self.new.cores ≡ self.old.cores }
        ensures ok { OnOk result (self.new.lists ≡ self.old.lists ++ turns.items ∷ []) }
        ensures err { OnErr result (self.new ≡ self.old) }
    {
        self.lists.push(turns)?;
        Ok(())
    }

    /// Adds an interval: the cores of its accesses, which are in recorded order.
    pub fn add(&mut self, alloc: Global, entries: &Entries) -> Result<(), NoMemory>
        requires cores { All (λ e. e.core < self.old.cores) entries.now }
        requires count { length entries.now < 2 ^ 32 }
        requires room { length self.old.lists < 2 ^ 32 - 1 }
        ensures cores { self.new.cores ≡ self.old.cores }
        ensures ok { OnOk result (self.new.lists ≡ self.old.lists ++ map (λ e. e.core) entries.now ∷ []) }
        ensures err { OnErr result (self.new ≡ self.old) }
    {
        let turns = entries.as_slice().iter().map(|e| e.core).collect(alloc)?;
        self.push(turns)
    }
}
