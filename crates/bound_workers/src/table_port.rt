//! The accesses of a core through its seat at the table, and what is kept of them.
ghost use Rattle.std.specs.Prelude.{◌≡◌, ◌-◌, ◌+◌, ◌≤◌, IfNone, IfSome, Some, length};
ghost use Rattle.rv_core.specs.Port.{IsHit};
ghost use Rattle.zs_num.specs.Servable.{IsServable};
ghost use Rattle.bound_core.specs.ShardPort.{l1i_in};
ghost use Rattle.parts_table.specs.Access.{opening_shards};
ghost use Rattle.bound_workers.specs.Kept.{entries_of_seat};
ghost use Rattle.bound_workers.specs.Port.{IsAtTable};

use bound_core::Port;
use bound_records::{CoreRecord, keep};
use parts_table::{CoreTurn, PartsTable, Pause};
use std::marker::Model;
use std::sync::Wait;
use zs_num::{Cycle, Entry, Request};

/// The hits of loads, those of stores, and those of fetches: what is compiled for each is compiled
/// for one call.
struct Loads;

struct Stores;

struct Fetches;

/// What serves the accesses of a core at work, and keeps them.
#[derive(Drop)]
pub(crate) struct TablePort<'a, R: Wait> {
    pub rt: &'a R,
    pub table: &'a PartsTable,
    pub base: u64,
    pub size: u64,
    pub turn: CoreTurn,
    pub record: CoreRecord,
}

impl<'a, R: Wait> Model for TablePort<'a, R> {
    ghost use Rattle.bound_workers.specs.Port.{IsAtTable, TablePortState};

    ghost Value = { TablePortState };

    ghost view = { λ p. record { table = p.table.now; base = p.base; size = p.size; turn = p.turn; kept = p.record } };

    ghost invariant = { λ p. IsAtTable (record { table = p.table.now; base = p.base; size = p.size; turn = p.turn; kept = p.record }) };
}

impl<'a, R: Wait> TablePort<'a, R> {
    /// The core at work, and what was kept.
    pub(crate) fn finish(self) -> (CoreTurn, CoreRecord)
        ensures turn { result.0 ≡ self.entry.turn }
        ensures kept { result.1 ≡ self.entry.kept }
        ensures at { IsAtTable self.entry }
    {
        (self.turn, self.record)
    }

    /// The number of the core.
    pub(crate) fn core(&self) -> u16
        ensures { result ≡ self.now.turn.core }
    {
        self.turn.core()
    }

    /// Gives the core's own L1 to another core that wants it, if one does, and takes it back.
    #[inline(always)]
    pub(crate) fn give_way(&mut self)
        ensures made { self.new.turn.made ≡ self.old.turn.made }
        ensures core { self.new.turn.core ≡ self.old.turn.core }
        ensures table { self.new.table ≡ self.old.table }
        ensures kept { self.new.kept ≡ self.old.kept }
        ensures memory { (self.new.base ≡ self.old.base) × (self.new.size ≡ self.old.size) }
    {
        self.turn.give_way(self.rt, self.table);
    }

    /// Pauses before an access, while the core holds nothing.
    #[inline(always)]
    pub(crate) fn pause<P: Pause>(&mut self, pause: &P)
        ensures made { self.new.turn.made ≡ self.old.turn.made }
        ensures core { self.new.turn.core ≡ self.old.turn.core }
        ensures table { self.new.table ≡ self.old.table }
        ensures kept { self.new.kept ≡ self.old.kept }
        ensures memory { (self.new.base ≡ self.old.base) × (self.new.size ≡ self.old.size) }
    {
        self.turn.pause(self.rt, self.table, pause);
    }

    /// Serves an access that starts then, where nothing but the core's own L1 is needed, and nobody
    /// waits for that: a hit. The answer is the reply. None: nothing changes.
    #[inline(always)]
    fn hit<T>(&mut self, start: Cycle, request: Request) -> Option<u64>
        requires room { 1 ≤ self.old.table.room - length self.old.turn.made }
        requires servable { IsServable self.old.base self.old.size (l1i_in (opening_shards self.old.table)) request }
        ensures hit { IfSome result (λ reply. IsHit ⟦<TablePort<'a, R> as Port>⟧.gives (λ p. p.turn.core) (λ p. Some (entries_of_seat p.turn)) self.old start request reply self.new) }
        ensures none { IfNone result (self.new ≡ self.old) }
        ensures same_core { self.new.turn.core ≡ self.old.turn.core }
        ensures same_base { self.new.base ≡ self.old.base }
        ensures same_size { self.new.size ≡ self.old.size }
        ensures same_table { self.new.table ≡ self.old.table }
        ensures room { self.old.table.room - length self.old.turn.made ≤ (self.new.table.room - length self.new.turn.made) + 1 }
    {
        if self.turn.is_wanted(self.table) {
            return None;
        }
        self.table.may_ask();
        let entry = self.turn.serve_alone::<T>(start, request)?;
        let record = &mut self.record;
        keep::<T>(
            &mut record.log,
            &mut record.records,
            &mut record.count,
            &entry,
        );
        Some(entry.reply)
    }
}

impl<'a, R: Wait> Port for TablePort<'a, R> {
    ghost use Rattle.std.specs.Prelude.{◌≡◌, ◌-◌, length, Some};
    ghost use Rattle.zs_num.specs.Servable.{IsServable};
    ghost use Rattle.bound_core.specs.ShardPort.{l1i_in};
    ghost use Rattle.parts_table.specs.Access.{opening_shards};
    ghost use Rattle.bound_workers.specs.Kept.{blank_of, entries_of_seat};

    ghost core = { λ p. p.turn.core };

    ghost base = { λ p. p.base };

    ghost size = { λ p. p.size };

    ghost l1i = { λ p. l1i_in (opening_shards p.table) };

    ghost room = { λ p. p.table.room - length p.turn.made };

    ghost gives = { λ p start request e q. (e.request ≡ request) × (e.start ≡ start) × (e.stamp ≡ 0) × (q.table ≡ p.table) × (blank_of q.kept ≡ blank_of p.kept) × (q.base ≡ p.base) × (q.size ≡ p.size)
        × IsServable p.base p.size (l1i_in (opening_shards p.table)) request };

    ghost logged = { λ p. Some (entries_of_seat p.turn) };

    fn access(&mut self, start: Cycle, request: Request) -> Entry {
        self.table.may_ask();
        let entry = self.turn.serve(self.rt, self.table, start, request);
        let record = &mut self.record;
        keep::<CoreTurn>(
            &mut record.log,
            &mut record.records,
            &mut record.count,
            &entry,
        );
        entry
    }

    #[inline(always)]
    fn load_hit(&mut self, start: Cycle, addr: u64, width: u8) -> Option<u64> {
        self.hit::<Loads>(start, Request::Load { addr, width })
    }

    #[inline(always)]
    fn store_hit(&mut self, start: Cycle, addr: u64, width: u8, value: u64) -> bool {
        self.hit::<Stores>(start, Request::Store { addr, width, value })
            .is_some()
    }

    #[inline(always)]
    fn fetch_hit(&mut self, start: Cycle, addr: u64) -> bool {
        self.hit::<Fetches>(start, Request::Fetch { addr })
            .is_some()
    }
}
