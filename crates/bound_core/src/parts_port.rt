//! The accesses of cores to all shards of a machine, by one worker.
ghost use Rattle.std.specs.Prelude.{◌≡◌, ◌<◌, ◌≤◌, ◌+◌, ◌-◌, ◌^◌, length, map, replicate, IfNone, IfOk, IfErr, IfSome, OnErr};
ghost use Rattle.zs_num.specs.Servable.{IsServable};
ghost use Rattle.zs_num.specs.declared.entry.Outcome.TheVariants.{Hit};
ghost use Rattle.bound_core.specs.ShardPort.{base_in, base_of, l1i_of, room_of, size_in, size_of, AreShardsOf};
ghost use Rattle.shard.specs.Leaving.{leaving_of};
ghost use Rattle.shard.specs.Served.{shard_for};
ghost use Rattle.reference.specs.ShardWorld.{begun_world, restarted, shards_serve};

use rv_core::Port;
use shard::{Leaving, Parts};
use std::alloc::{AllocError, Global};
use std::marker::Model;
use zs_num::{Cycle, Entry, NoMemory, Request, Stamp};

/// The caches and the memory of a machine, and the stamp of each core's latest access. The accesses
/// are those of one core until another is chosen. Contracts see the shards with the stamps, and the
/// core, as those of a port over a bare list of shards.
#[derive(Drop)]
pub struct PartsPort {
    parts: Parts,
    stamps: Vec<Stamp>,
    core: u16,
}

impl Model for PartsPort {
    ghost use Rattle.bound_core.specs.ShardPort.{ShardPortState, IsShardPort};

    ghost Value = { ShardPortState };

    ghost view = { λ p. record { world = record { shards = p.parts; stamps = p.stamps.items }; core = p.core } };

    ghost invariant = { λ p. IsShardPort (record { world = record { shards = p.parts; stamps = p.stamps.items }; core = p.core }) };
}

impl PartsPort {
    /// A port for so many cores, the first of which is chosen, before the first access of an
    /// interval. Where memory runs out, the parts come back as they were.
    pub fn new(alloc: Global, parts: Parts, cores: u16) -> Result<Self, (NoMemory, Parts)>
        requires some { 0 < cores }
        requires shards { AreShardsOf cores parts (base_in parts) (size_in parts) }
        ensures world { IfOk result (λ p. p.world ≡ begun_world cores (map restarted parts)) }
        ensures core { IfOk result (λ p. p.core ≡ 0) }
        ensures err { IfErr result (λ back. back.1 ≡ parts) }
    {
        match vec![in alloc; 0; usize::from(cores)] {
            Ok(stamps) => {
                let mut port = PartsPort {
                    parts,
                    stamps,
                    core: 0,
                };
                port.restart();
                Ok(port)
            }
            Err(AllocError) => Err((NoMemory, parts)),
        }
    }

    /// The caches and the memory, and the stamp of each core's latest access.
    pub fn take_apart(self) -> (Parts, Vec<Stamp>)
        ensures world { self.world ≡ record { shards = result.0; stamps = result.1.items } }
        ensures shards { AreShardsOf (length result.1.items) result.0 (base_in result.0) (size_in result.0) }
        ensures some { 0 < length result.1.items }
    {
        (self.parts, self.stamps)
    }

    /// A port of these, as `take_apart` gives them: of the caches and the memory, and of the stamp
    /// of each core's latest access. The first core is chosen.
    pub fn of(parts: Parts, stamps: Vec<Stamp>) -> Self
        requires some { 0 < length stamps.items }
        requires shards { AreShardsOf (length stamps.items) parts (base_in parts) (size_in parts) }
        ensures { result ≡ record { world = record { shards = parts; stamps = stamps.items }; core = 0 } }
    {
        PartsPort {
            parts,
            stamps,
            core: 0,
        }
    }

    /// As before the first access of an interval: all last stamps are 0.
    pub fn restart(&mut self)
        ensures world { self.new.world ≡ begun_world (length self.old.world.stamps) (map restarted self.old.world.shards) }
        ensures core { self.new.core ≡ self.old.core }
    {
        self.stamps.fill(0);
        self.parts.restart();
    }

    /// Names the core whose accesses follow.
    pub fn choose(&mut self, core: u16)
        requires { core < length self.old.world.stamps }
        ensures { self.new ≡ record self.old { core = core } }
    {
        self.core = core;
    }

    /// Serves an access that starts then, where the core's own L1 can serve it alone: a hit. None:
    /// nothing changes. What is compiled for `T`, any type, is compiled for the callers that name
    /// it.
    #[inline(always)]
    pub fn access_alone<T>(&mut self, start: Cycle, request: Request) -> Option<Entry>
        requires room { 1 ≤ room_of self.old.world }
        requires servable { IsServable (base_of self.old.world) (size_of self.old.world) (l1i_of self.old.world) request }
        ensures gives { IfSome result (λ entry. (entry, self.new.world) ≡ shards_serve self.old.world self.old.core start request) }
        ensures core { IfSome result (λ entry. entry.core ≡ self.old.core) }
        ensures start { IfSome result (λ entry. entry.start ≡ start) }
        ensures request { IfSome result (λ entry. entry.request ≡ request) }
        ensures hit { IfSome result (λ entry. entry.outcome ≡ Hit) }
        ensures none { IfNone result (self.new ≡ self.old) }
        ensures same_core { self.new.core ≡ self.old.core }
        ensures same_base { base_of self.new.world ≡ base_of self.old.world }
        ensures same_size { size_of self.new.world ≡ size_of self.old.world }
        ensures same_l1i { l1i_of self.new.world ≡ l1i_of self.old.world }
        ensures room { room_of self.old.world ≤ room_of self.new.world + 1 }
    {
        let core = usize::from(self.core);
        let last = self.stamps[core];
        let entry = self
            .parts
            .serve_alone::<T>(self.core, start, last, request)?;
        self.stamps[core] = entry.stamp;
        Some(entry)
    }

    /// The caches and the memory.
    pub fn parts(&self) -> &Parts
        ensures { result.now ≡ self.now.world.shards }
    {
        &self.parts
    }

    /// Which lines leave caches for this request of the chosen core, to make room.
    #[inline(always)]
    pub fn leaving(&self, request: Request) -> Leaving
        ensures { result ≡ leaving_of (shard_for self.now.world.shards request).caches self.now.core request }
    {
        self.parts.leaving(self.core, request)
    }

    /// Gives the parts back.
    pub fn finish(self) -> Parts
        ensures { result ≡ self.world.shards }
    {
        self.parts
    }
}

impl Port for PartsPort {
    ghost use Rattle.std.specs.Prelude.{None};

    ghost core = { λ p. p.core };

    ghost base = { λ p. base_of p.world };

    ghost size = { λ p. size_of p.world };

    ghost l1i = { λ p. l1i_of p.world };

    ghost room = { λ p. room_of p.world };

    ghost gives = { λ p start request e q. (e, q.world) ≡ shards_serve p.world p.core start request };

    ghost logged = { λ p. None };

    #[inline(always)]
    fn access(&mut self, start: Cycle, request: Request) -> Entry {
        let core = usize::from(self.core);
        let entry = self
            .parts
            .serve(self.core, start, self.stamps[core], request);
        self.stamps[core] = entry.stamp;
        entry
    }
}
