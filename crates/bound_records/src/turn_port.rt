//! A port through which cores take turns, and which records what they do.
ghost use Rattle.std.specs.Prelude.{◌≡◌, ◌+◌, ◌-◌, ◌<◌, ◌≤◌, length, min, IfNone, IfSome, None};
ghost use Rattle.zs_num.specs.Servable.{IsServable};
ghost use Rattle.rv_core.specs.Port.{IsHit};
ghost use Rattle.weave_chains.specs.Listed.{list_of};
ghost use Rattle.bound_core.specs.ShardPort.{base_of, l1i_of, room_of, size_of};
ghost use Rattle.bound_records.specs.Recorders.{GivesTurn, with_access_of};

use crate::Recorder;
use crate::record_port::keep;
use access_record::{BankLog, RecordLog};
use bound_core::{PartsPort, Port};
use stats::CoreCount;
use std::marker::Model;
use zs_num::{Cycle, Entry, Request};

/// The hits of loads, those of stores, and those of fetches: what is compiled for each is compiled
/// for one call.
struct Loads;

struct Stores;

struct Fetches;

/// Caches and memory, and what is kept of the accesses of all cores, one of which is chosen.
#[derive(Drop)]
pub(crate) struct TurnPort {
    port: PartsPort,
    banks: u16,
    // In order of the numbers of the cores.
    logs: Vec<BankLog>,
    records: Vec<RecordLog>,
    counts: Vec<CoreCount>,
    begin: Cycle,
    base: u64,
    room: u32,
}

impl Model for TurnPort {
    ghost use Rattle.std.specs.Prelude.{◌<◌, length, map};
    ghost use Rattle.bound_records.specs.Recorders.{AreKeptOf, TurnPortState};

    ghost Value = { TurnPortState };

    ghost view = { λ p. record { recorder = record { world = p.port.world; lists = map (λ log. log.entries) p.logs.items; begin = p.begin; base = p.base; room = p.room }; core = p.port.core } };

    ghost invariant = { λ p. AreKeptOf (record { world = p.port.world; lists = map (λ log. log.entries) p.logs.items; begin = p.begin; base = p.base; room = p.room }) p.banks p.logs.items p.records.items p.counts.items × (p.port.core < length p.port.world.stamps) };
}

impl TurnPort {
    /// A port that keeps on, with the first core chosen.
    pub(crate) fn new(recorder: Recorder) -> Self
        requires { 0 < length recorder.world.stamps }
        ensures { result.recorder ≡ recorder }
    {
        let Recorder {
            mut port,
            banks,
            logs,
            records,
            counts,
            begin,
            base,
            room,
        } = recorder;
        port.choose(0);
        TurnPort {
            port,
            banks,
            logs,
            records,
            counts,
            begin,
            base,
            room,
        }
    }

    /// Gives back what it took in.
    pub(crate) fn finish(self) -> Recorder
        ensures { result ≡ self.recorder }
    {
        let TurnPort {
            port,
            banks,
            logs,
            records,
            counts,
            begin,
            base,
            room,
        } = self;
        Recorder {
            port,
            banks,
            logs,
            records,
            counts,
            begin,
            base,
            room,
        }
    }

    /// Serves an access of the chosen core that starts then, where the core's own L1 can serve it
    /// alone: a hit. The answer is the reply. None: nothing changes.
    #[inline(always)]
    fn hit<T>(&mut self, start: Cycle, request: Request) -> Option<u64>
        requires room { 1 ≤ min (room_of self.old.recorder.world) (self.old.recorder.room - length (list_of self.old.recorder.lists self.old.core)) }
        requires servable { IsServable (base_of self.old.recorder.world) (size_of self.old.recorder.world) (l1i_of self.old.recorder.world) request }
        ensures hit { IfSome result (λ reply. IsHit GivesTurn (λ p. p.core) (λ p. None) self.old start request reply self.new) }
        ensures none { IfNone result (self.new ≡ self.old) }
        ensures same_core { self.new.core ≡ self.old.core }
        ensures same_base { base_of self.new.recorder.world ≡ base_of self.old.recorder.world }
        ensures same_size { size_of self.new.recorder.world ≡ size_of self.old.recorder.world }
        ensures same_l1i { l1i_of self.new.recorder.world ≡ l1i_of self.old.recorder.world }
        ensures room { min (room_of self.old.recorder.world) (self.old.recorder.room - length (list_of self.old.recorder.lists self.old.core)) ≤ min (room_of self.new.recorder.world) (self.new.recorder.room - length (list_of self.new.recorder.lists self.new.core)) + 1 }
    {
        let entry = self.port.access_alone::<T>(start, request)?;
        self.put::<T>(&entry);
        Some(entry.reply)
    }

    /// Keeps an access of the chosen core, behind those that it has. What is compiled for `T`, any
    /// type, is compiled for the callers that name it.
    #[inline(always)]
    fn put<T>(&mut self, entry: &Entry)
        requires core { entry.now.core ≡ self.old.core }
        requires room { length (list_of self.old.recorder.lists self.old.core) < self.old.recorder.room }
        ensures { self.new ≡ record self.old { recorder = with_access_of self.old.recorder self.old.core entry.now self.old.recorder.world } }
    {
        let core = usize::from(entry.core);
        keep::<T>(
            &mut self.logs[core],
            &mut self.records[core],
            &mut self.counts[core],
            entry,
        );
    }

    /// Names the core whose turn it is.
    #[inline(always)]
    pub(crate) fn choose(&mut self, core: u16)
        requires { core < length self.old.recorder.world.stamps }
        ensures { self.new ≡ record self.old { core = core } }
    {
        self.port.choose(core);
    }
}

impl Port for TurnPort {
    ghost use Rattle.std.specs.Prelude.{◌-◌, length, min, None};
    ghost use Rattle.weave_chains.specs.Listed.{list_of};
    ghost use Rattle.bound_core.specs.ShardPort.{base_of, l1i_of, room_of, size_of};
    ghost use Rattle.bound_records.specs.Recorders.{GivesTurn};

    ghost core = { λ p. p.core };

    ghost base = { λ p. base_of p.recorder.world };

    ghost size = { λ p. size_of p.recorder.world };

    ghost l1i = { λ p. l1i_of p.recorder.world };

    ghost room = { λ p. min (room_of p.recorder.world) (p.recorder.room - length (list_of p.recorder.lists p.core)) };

    ghost gives = { GivesTurn };

    ghost logged = { λ p. None };

    #[inline(always)]
    fn access(&mut self, start: Cycle, request: Request) -> Entry {
        let entry = self.port.access(start, request);
        self.put::<TurnPort>(&entry);
        entry
    }

    #[inline(always)]
    fn load_hit(&mut self, start: Cycle, addr: u64, width: u8) -> Option<u64> {
        self.hit::<Loads>(start, Request::Load { addr, width })
    }

    #[inline(always)]
    fn store_hit(&mut self, start: Cycle, addr: u64, width: u8, value: u64) -> bool {
        self.hit::<Stores>(start, Request::Store { addr, width, value })
            .is_some()
    }

    #[inline(always)]
    fn fetch_hit(&mut self, start: Cycle, addr: u64) -> bool {
        self.hit::<Fetches>(start, Request::Fetch { addr })
            .is_some()
    }
}
