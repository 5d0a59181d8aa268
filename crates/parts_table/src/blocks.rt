//! The keys by which the accesses of a core are put in order.
ghost use Rattle.std.specs.Prelude.{◌≡◌, ◌+◌, ◌*◌, ◌<◌, ◌≤◌, ◌^◌, ◌++◌, ◌∷◌, [], IfOk, length, replicate, vec_capacity, vec_len};
ghost use Rattle.parts_table.specs.KeptKeys.{BlocksState, ended, first_of};
ghost use Rattle.parts_table.specs.TurnOrder.{AreRising};

use std::alloc::Global;
use std::marker::Model;
use zs_num::NoMemory;

/// Accesses of a core with the same key, one after the other.
#[derive(Clone, Copy)]
pub struct Run {
    pub key: u64,
    /// How many there are, at least 1.
    pub count: u32,
}

/// The accesses of one core in an interval, by their keys: a shared access has twice its time, a
/// private one twice its time and 1. They are put at the end, and when all are made they are taken
/// from the front. Private accesses of one time are a run, so that one more is but counted.
#[derive(Drop)]
pub struct Blocks {
    /// The runs that have ended, and how many of them were taken.
    runs: Vec<Run>,
    first: u32,
    /// How many accesses they were.
    closed: u32,
    /// The last run, which may be empty.
    key: u64,
    count: u32,
    room: u32,
}

impl Model for Blocks {
    ghost use Rattle.std.specs.Prelude.{◌+◌, ◌≤◌, ◌++◌, drop, replicate, vec_capacity};
    ghost use Rattle.parts_table.specs.KeptKeys.{AreKeptSo, BlocksState, keys_of};

    ghost Value = { BlocksState };

    ghost view = { λ b. record { keys = keys_of (drop b.first b.runs.items) ++ replicate b.count b.key; now = b.key; made = b.closed + b.count; room = b.room } };

    ghost invariant = { λ b. AreKeptSo b.runs.items b.first b.closed b.key b.count b.room × (b.room ≤ vec_capacity b.runs) };
}

impl Blocks {
    /// No access yet, at the time 0, and room for so many: no other call takes memory.
    pub fn with_room(alloc: Global, room: u32) -> Result<Self, NoMemory>
        ensures { IfOk result (λ b. b ≡ record { keys = []; now = 1; made = 0; room = room }) }
    {
        Ok(Blocks {
            runs: Vec::with_capacity(alloc, room as usize)?,
            first: 0,
            closed: 0,
            key: 1,
            count: 0,
            room,
        })
    }

    /// How many accesses were put.
    pub fn len(&self) -> u32
        ensures count { result ≡ self.now.made }
        ensures few { self.now.made ≤ self.now.room }
    {
        self.closed + self.count
    }

    /// For how many accesses there is room.
    pub fn room(&self) -> u32
        ensures { result ≡ self.now.room }
    {
        self.room
    }

    /// Forgets the accesses, at the time 0 again, and keeps the room.
    pub fn clear(&mut self)
        ensures { self.new ≡ record { keys = []; now = 1; made = 0; room = self.old.room } }
    {
        self.runs.clear();
        self.first = 0;
        self.closed = 0;
        self.key = 1;
        self.count = 0;
    }

    /// Private accesses that follow have this time, which isn't before that of those made.
    #[inline(always)]
    pub fn begin(&mut self, time: u64)
        requires time { self.old.now ≤ 2 * time + 1 }
        requires low { time < 2 ^ 54 }
        ensures { self.new ≡ record self.old { now = 2 * time + 1 } }
    {
        let key = 2 * time + 1;
        if key != self.key {
            end_run(&mut self.runs, self.key, self.count);
            self.closed += self.count;
            self.count = 0;
            self.key = key;
        }
    }

    /// Adds a private access, at the current time.
    #[inline(always)]
    pub fn put_alone(&mut self)
        requires room { self.old.made < self.old.room }
        ensures { self.new ≡ record self.old { keys = self.old.keys ++ self.old.now ∷ []; made = self.old.made + 1 } }
    {
        self.count += 1;
    }

    /// Adds a shared access, at this time, which is after that of those made. It is the current time
    /// then.
    pub fn put_shared(&mut self, time: u64)
        requires room { self.old.made < self.old.room }
        requires time { self.old.now < 2 * time }
        requires low { time < 2 ^ 54 }
        ensures { self.new ≡ record self.old { keys = self.old.keys ++ (2 * time) ∷ []; now = 2 * time + 1; made = self.old.made + 1 } }
    {
        end_run(&mut self.runs, self.key, self.count);
        self.closed += self.count;
        self.count = 0;
        self.runs.push_reserved(Run {
            key: 2 * time,
            count: 1,
        });
        self.closed += 1;
        self.key = 2 * time + 1;
    }

    /// The key of the first access that isn't taken, or where all are `u64::MAX`, which is no key.
    #[inline(always)]
    pub fn next_key(&self) -> u64
        ensures key { result ≡ first_of self.now.keys }
        ensures low { 0 < length self.now.keys → result < 2 ^ 55 }
        ensures rising { AreRising self.now.keys }
    {
        let first = self.first as usize;
        if first < self.runs.len() {
            self.runs[first].key
        } else if self.count > 0 {
            self.key
        } else {
            u64::MAX
        }
    }

    /// Takes accesses with the same key from the front.
    #[inline(always)]
    pub fn take_run(&mut self) -> Run
        requires { 0 < length self.old.keys }
        ensures keys { self.old.keys ≡ replicate result.count result.key ++ self.new.keys }
        ensures some { 0 < result.count }
        ensures others { self.new ≡ record self.old { keys = self.new.keys } }
    {
        let first = self.first as usize;
        if first < self.runs.len() {
            self.first += 1;
            return self.runs[first];
        }
        let run = Run {
            key: self.key,
            count: self.count,
        };
        self.closed += self.count;
        self.count = 0;
        run
    }
}

/// Puts the last run, where it isn't empty, to those that have ended.
fn end_run(runs: &mut Vec<Run>, key: u64, count: u32)
    requires { 0 < count → vec_len runs.old < vec_capacity runs.old }
    ensures runs { runs.new.items ≡ ended runs.old.items key count }
    ensures capacity { vec_capacity runs.new ≡ vec_capacity runs.old }
{
    if count > 0 {
        runs.push_reserved(Run { key, count });
    }
}
