//! A port through which a core accesses caches and memory, and which records what they do.
ghost use Rattle.std.specs.Prelude.{◌≡◌, ◌≤◌, ◌<◌, ◌+◌, ◌-◌, ◌++◌, ◌∷◌, [], length, min, IfNone, IfSome, Some};
ghost use Rattle.zs_num.specs.Servable.{IsServable};
ghost use Rattle.access_record.specs.BankLogs.{makes_events};
ghost use Rattle.access_record.specs.Laws.{beyond_hits};
ghost use Rattle.rv_core.specs.Port.{IsHit};
ghost use Rattle.bound_core.specs.ShardPort.{base_of, l1i_of, room_of, size_of};
ghost use Rattle.bound_records.specs.Counted.{count_of};
ghost use Rattle.bound_records.specs.Recorders.{GivesRecorded};

use access_record::{BankLog, RecordLog};
use bound_core::{PartsPort, Port};
use division::remainder;
use stats::{CoreCount, count_access};
use std::marker::Model;
use zs_num::{Cycle, Entry, Outcome, Request};

/// The hits of loads, those of stores, and those of fetches: what is compiled for each is compiled
/// for one call.
struct Loads;

struct Stores;

struct Fetches;

/// What is kept of a core's accesses in an interval: a byte of each, what all count, and a record of
/// each that makes events.
#[derive(Drop)]
pub struct CoreRecord {
    pub log: BankLog,
    pub records: RecordLog,
    pub count: CoreCount,
}

/// The caches and the memory of a machine, and what is kept of the accesses of the core that runs.
#[derive(Drop)]
pub(crate) struct RecordPort {
    port: PartsPort,
    record: CoreRecord,
}

impl Model for RecordPort {
    ghost use Rattle.bound_records.specs.Recorders.{IsRecordPort, RecordPortState};

    ghost Value = { RecordPortState };

    ghost view = { λ p. record { world = p.port.world; core = p.port.core; begin = p.record.records.begin; base = p.record.records.base; entries = p.record.log.entries; room = p.record.log.room } };

    ghost invariant = { λ p. IsRecordPort (record { world = p.port.world; core = p.port.core; begin = p.record.records.begin; base = p.record.records.base; entries = p.record.log.entries; room = p.record.log.room }) p.record.log p.record.records p.record.count };
}

impl RecordPort {
    /// A port of the core of this record, which has no access yet.
    pub(crate) fn new(mut port: PartsPort, record: CoreRecord) -> Self
        requires core { record.log.core < length port.world.stamps }
        requires banks { record.log.banks ≡ length port.world.shards }
        requires none { record.log.entries ≡ [] }
        requires kept { record.records ≡ record { core = record.log.core; begin = record.records.begin; base = record.records.base; entries = []; room = record.log.room } }
        requires count { record.count ≡ count_of [] }
        ensures { result ≡ record { world = port.world; core = record.log.core; begin = record.records.begin; base = record.records.base; entries = []; room = record.log.room } }
    {
        port.choose(record.log.core());
        RecordPort { port, record }
    }

    /// Serves an access that starts then, where the core's own L1 can serve it alone: a hit. The
    /// answer is the reply. None: nothing changes.
    #[inline(always)]
    fn hit<T>(&mut self, start: Cycle, request: Request) -> Option<u64>
        requires room { 1 ≤ min (room_of self.old.world) (self.old.room - length self.old.entries) }
        requires servable { IsServable (base_of self.old.world) (size_of self.old.world) (l1i_of self.old.world) request }
        ensures hit { IfSome result (λ reply. IsHit GivesRecorded (λ p. p.core) (λ p. Some p.entries) self.old start request reply self.new) }
        ensures none { IfNone result (self.new ≡ self.old) }
        ensures same_core { self.new.core ≡ self.old.core }
        ensures same_base { base_of self.new.world ≡ base_of self.old.world }
        ensures same_size { size_of self.new.world ≡ size_of self.old.world }
        ensures same_l1i { l1i_of self.new.world ≡ l1i_of self.old.world }
        ensures room { min (room_of self.old.world) (self.old.room - length self.old.entries) ≤ min (room_of self.new.world) (self.new.room - length self.new.entries) + 1 }
    {
        let entry = self.port.access_alone::<T>(start, request)?;
        let record = &mut self.record;
        keep::<T>(
            &mut record.log,
            &mut record.records,
            &mut record.count,
            &entry,
        );
        Some(entry.reply)
    }

    /// Gives back what it took in.
    pub(crate) fn finish(self) -> (PartsPort, CoreRecord)
        ensures port { result.0 ≡ record { world = self.world; core = self.core } }
        ensures log { result.1.log ≡ record { core = self.core; banks = length self.world.shards; entries = self.entries; room = self.room } }
        ensures records { result.1.records ≡ record { core = self.core; begin = self.begin; base = self.base; entries = beyond_hits self.entries; room = self.room } }
        ensures count { result.1.count ≡ count_of self.entries }
    {
        (self.port, self.record)
    }
}

impl Port for RecordPort {
    ghost use Rattle.std.specs.Prelude.{◌-◌, length, min, Some};
    ghost use Rattle.bound_core.specs.ShardPort.{base_of, l1i_of, room_of, size_of};
    ghost use Rattle.bound_records.specs.Recorders.{GivesRecorded};

    ghost core = { λ p. p.core };

    ghost base = { λ p. base_of p.world };

    ghost size = { λ p. size_of p.world };

    ghost l1i = { λ p. l1i_of p.world };

    ghost room = { λ p. min (room_of p.world) (p.room - length p.entries) };

    ghost gives = { GivesRecorded };

    ghost logged = { λ p. Some p.entries };

    #[inline(always)]
    fn access(&mut self, start: Cycle, request: Request) -> Entry {
        let entry = self.port.access(start, request);
        let record = &mut self.record;
        keep::<RecordPort>(
            &mut record.log,
            &mut record.records,
            &mut record.count,
            &entry,
        );
        entry
    }

    #[inline(always)]
    fn load_hit(&mut self, start: Cycle, addr: u64, width: u8) -> Option<u64> {
        self.hit::<Loads>(start, Request::Load { addr, width })
    }

    #[inline(always)]
    fn store_hit(&mut self, start: Cycle, addr: u64, width: u8, value: u64) -> bool {
        self.hit::<Stores>(start, Request::Store { addr, width, value })
            .is_some()
    }

    #[inline(always)]
    fn fetch_hit(&mut self, start: Cycle, addr: u64) -> bool {
        self.hit::<Fetches>(start, Request::Fetch { addr })
            .is_some()
    }
}

/// Keeps an access of a core.
#[inline(always)]
pub fn keep<T>(log: &mut BankLog, records: &mut RecordLog, count: &mut CoreCount, entry: &Entry)
    requires core { entry.now.core ≡ log.old.core }
    requires some { 0 < log.old.banks }
    requires room { length log.old.entries < log.old.room }
    requires records { records.old.core ≡ log.old.core }
    requires kept { records.old.entries ≡ beyond_hits log.old.entries }
    requires records_room { records.old.room ≡ log.old.room }
    requires count { count.old ≡ count_of log.old.entries }
    ensures log { log.new ≡ record log.old { entries = log.old.entries ++ entry.now ∷ [] } }
    ensures records { records.new ≡ record records.old { entries = beyond_hits (log.old.entries ++ entry.now ∷ []) } }
    ensures count { count.new ≡ count_of (log.old.entries ++ entry.now ∷ []) }
{
    let banks = u64::from(log.banks());
    let bank = remainder(entry.request.line(), banks) as u16;
    log.put(bank, entry);
    count_access(count, entry);
    if makes_events(entry.outcome) {
        records.put(entry);
    }
}

/// Whether an access with this outcome makes events.
#[inline(always)]
fn makes_events(outcome: Outcome) -> bool
    ensures { result ≡ makes_events outcome }
{
    match outcome {
        Outcome::Hit => false,
        _ => true,
    }
}
