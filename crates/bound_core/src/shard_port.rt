//! The accesses of cores to a bare list of shards.
ghost use Rattle.std.specs.Prelude.{◌≡◌, ◌<◌, ◌≤◌, ◌-◌, ◌^◌, length, map, replicate, IfOk, IfErr, OnErr};
ghost use Rattle.bound_core.specs.ShardPort.{base_in, base_of, l1i_of, room_of, size_in, size_of, AreShardsOf};
ghost use Rattle.reference.specs.ShardWorld.{begun_world, restarted, shards_serve};

use division::remainder;
use rv_core::Port;
use shard::Shard;
use std::alloc::{AllocError, Global};
use std::marker::Model;
use zs_num::{Cycle, Entry, NoMemory, Request, Stamp};

/// Shards in order of their numbers, and the stamp of each core's latest access. The accesses are
/// those of one core until another is chosen. Contracts see the shards with the stamps, and the
/// core.
#[derive(Drop)]
pub struct ShardPort {
    shards: Vec<Shard>,
    stamps: Vec<Stamp>,
    core: u16,
}

impl Model for ShardPort {
    ghost use Rattle.bound_core.specs.ShardPort.{ShardPortState, IsShardPort};

    ghost Value = { ShardPortState };

    ghost view = { λ p. record { world = record { shards = p.shards.items; stamps = p.stamps.items }; core = p.core } };

    ghost invariant = { λ p. IsShardPort (record { world = record { shards = p.shards.items; stamps = p.stamps.items }; core = p.core }) };
}

impl ShardPort {
    /// A port for so many cores, the first of which is chosen, before the first access of an
    /// interval. Where memory runs out, the shards come back as they were.
    pub fn new(
        alloc: Global,
        shards: Vec<Shard>,
        cores: u16,
    ) -> Result<Self, (NoMemory, Vec<Shard>)>
        requires some { 0 < cores }
        requires shards { AreShardsOf cores shards.items (base_in shards.items) (size_in shards.items) }
        ensures world { IfOk result (λ p. p.world ≡ begun_world cores (map restarted shards.items)) }
        ensures core { IfOk result (λ p. p.core ≡ 0) }
        ensures err { IfErr result (λ back. back.1 ≡ shards) }
    {
        match vec![in alloc; 0; usize::from(cores)] {
            Ok(stamps) => {
                let mut port = ShardPort {
                    shards,
                    stamps,
                    core: 0,
                };
                port.restart();
                Ok(port)
            }
            Err(AllocError) => Err((NoMemory, shards)),
        }
    }

    /// As before the first access of an interval: all last stamps are 0.
    pub fn restart(&mut self)
        ensures world { self.new.world ≡ begun_world (length self.old.world.stamps) (map restarted self.old.world.shards) }
        ensures core { self.new.core ≡ self.old.core }
    {
        self.stamps.fill(0);
        restart_all(&mut self.shards);
    }

    /// Names the core whose accesses follow.
    pub fn choose(&mut self, core: u16)
        requires { core < length self.old.world.stamps }
        ensures { self.new ≡ record self.old { core = core } }
    {
        self.core = core;
    }

    /// Gives the shards back.
    pub fn finish(self) -> Vec<Shard>
        ensures { result.items ≡ self.world.shards }
    {
        self.shards
    }
}

/// Sets the last stamps of all shards to 0.
fn restart_all(shards: &mut [Shard])
    ensures { shards.new ≡ map restarted shards.old }
{
    for shard in shards {
        shard.restart();
    }
}

impl Port for ShardPort {
    ghost use Rattle.std.specs.Prelude.{None};

    ghost core = { λ p. p.core };

    ghost base = { λ p. base_of p.world };

    ghost size = { λ p. size_of p.world };

    ghost l1i = { λ p. l1i_of p.world };

    ghost room = { λ p. room_of p.world };

    ghost gives = { λ p start request e q. (e, q.world) ≡ shards_serve p.world p.core start request };

    ghost logged = { λ p. None };

    #[inline(always)]
    fn access(&mut self, start: Cycle, request: Request) -> Entry {
        let bank = remainder(request.line(), self.shards.len() as u64) as usize;
        let core = usize::from(self.core);
        let entry = self.shards[bank].serve(self.core, start, self.stamps[core], request);
        self.stamps[core] = entry.stamp;
        entry
    }
}
