//! The log of a core's accesses that make events, a record for each.
ghost use Rattle.std.specs.Prelude.{◌≡◌, ◌<◌, ◌≤◌, ◌^◌, ◌++◌, ◌∷◌, [], Some, length, map, slice_get, IfOk};
ghost use Rattle.access_record.specs.Laws.{beyond_hits, kept_of};
ghost use Rattle.access_record.specs.Restamped.{AreSameButStamps};

use crate::bank_log::BankLog;
use crate::listed::Listed;
use crate::record::Record;
use std::alloc::Global;
use std::marker::Model;
use zs_num::{Cycle, Entry, NoMemory};

/// Accesses of one core in an interval, in its order, with room for so many. It keeps a record of
/// each. Contracts see the entries.
#[derive(Drop)]
pub struct RecordLog {
    core: u16,
    begin: Cycle,
    base: u64,
    room: u32,
    records: Vec<Record>,
    list: Listed,
}

impl Model for RecordLog {
    ghost use Rattle.std.specs.Prelude.{◌≤◌, vec_capacity};
    ghost use Rattle.access_record.specs.RecordLogs.{AreRecorded, RecordLogState};

    ghost Value = { RecordLogState };

    ghost view = { λ l. record { core = l.core; begin = l.begin; base = l.base; entries = l.list.entries; room = l.room } };

    ghost invariant = { λ l. AreRecorded (record { core = l.core; begin = l.begin; base = l.base; entries = l.list.entries; room = l.room }) l.records.items × (l.room ≤ vec_capacity l.records) };
}

impl RecordLog {
    /// The log of a core in an interval that begins at cycle 0, where memory begins at this
    /// address. It has no access, and room for so many: no other call takes memory.
    pub fn with_room(alloc: Global, core: u16, base: u64, room: u32) -> Result<Self, NoMemory>
        requires { base < 2 ^ 63 }
        ensures { IfOk result (λ log. log ≡ record { core = core; begin = 0; base = base; entries = []; room = room }) }
    {
        Ok(RecordLog {
            core,
            begin: 0,
            base,
            room,
            records: Vec::with_capacity(alloc, room as usize)?,
            list: Listed::new(),
        })
    }

    /// A log without room, which stands where none is.
    pub fn none(alloc: Global) -> Self
        ensures { result ≡ record { core = 0; begin = 0; base = 0; entries = []; room = 0 } }
    {
        RecordLog {
            core: 0,
            begin: 0,
            base: 0,
            room: 0,
            records: Vec::new(alloc),
            list: Listed::new(),
        }
    }

    /// Forgets the accesses, and keeps the room: an interval begins at this cycle.
    pub fn begin(&mut self, begin: Cycle)
        requires { begin < 2 ^ 63 }
        ensures { self.new ≡ record self.old { begin = begin; entries = [] } }
    {
        self.records.clear();
        self.list = Listed::new();
        self.begin = begin;
    }

    /// Adds an access of the core at the end. Its record gives back its events where it is in reach
    /// of the interval's begin and of memory (`records_keep_each_access`).
    #[inline(always)]
    pub fn put(&mut self, entry: &Entry)
        requires core { entry.now.core ≡ self.old.core }
        requires room { length self.old.entries < self.old.room }
        ensures { self.new ≡ record self.old { entries = self.old.entries ++ entry.now ∷ [] } }
    {
        let record = Record::of(entry, self.begin, self.base);
        self.records.push_reserved(record);
        self.list = self.list.then(entry);
    }

    /// The accesses get the stamps that they have in the log of their core.
    pub fn restamp(&mut self, log: &BankLog)
        requires { AreSameButStamps self.old.entries (beyond_hits log.now.entries) }
        ensures { self.new ≡ record self.old { entries = beyond_hits log.now.entries } }
    {
        self.list = self.list.beyond_hits_of(&log.list);
    }

    /// How many accesses there are.
    pub fn len(&self) -> u32
        ensures count { result ≡ length self.now.entries }
    {
        self.records.len() as u32
    }

    /// The access for which the record at a place stands. It makes the events of the one that was
    /// put there (`records_keep_each_access`).
    pub fn entry(&self, place: u32) -> Entry
        requires { place < length self.now.entries }
        ensures entry { slice_get (map (kept_of self.now.begin self.now.base) self.now.entries) place ≡ Some result }
        ensures few { length self.now.entries < 2 ^ 32 }
    {
        self.records[place as usize].entry(self.core, self.begin, self.base)
    }
}
