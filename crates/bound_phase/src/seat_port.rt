//! The accesses of a core to shards that it shares.
ghost use Rattle.std.specs.Prelude.{◌≡◌, ◌<◌, ◌≤◌, length};
ghost use Rattle.bound_core.specs.ShardPort.{AreShardsOf};
ghost use Rattle.shard_table.specs.Access.{IsSeatOf};

use bound_core::Port;
use shard_table::{CoreSeat, ShardTable};
use std::sync::Wait;
use zs_host::{Gate, Point};
use zs_num::{Cycle, Entry, Request};

/// What serves the accesses of a core through its seat at a table of shards. Before each access,
/// when it holds no shard, it passes the gate.
#[derive(Drop)]
pub(crate) struct SeatPort<'a, R: Wait, G: Gate> {
    pub rt: &'a R,
    pub gate: &'a G,
    pub table: &'a ShardTable,
    pub worker: u16,
    pub base: u64,
    pub size: u64,
    pub seat: CoreSeat,
    pub ghost of_table: { IsSeatOf table.now seat },
    pub ghost room: { length seat.entries ≤ table.now.room },
    pub ghost shards: { AreShardsOf table.now.cores table.now.shards base size },
    pub ghost core: { seat.core < table.now.cores },
}

impl<'a, R: Wait, G: Gate> Port for SeatPort<'a, R, G> {
    ghost use Rattle.std.specs.Prelude.{◌≡◌, ◌-◌, length, Some};
    ghost use Rattle.bound_core.specs.ShardPort.{l1i_in};

    ghost core = { λ p. p.seat.core };

    ghost base = { λ p. p.base };

    ghost size = { λ p. p.size };

    ghost l1i = { λ p. l1i_in p.table.now.shards };

    ghost room = { λ p. p.table.now.room - length p.seat.entries };

    ghost gives = { λ p start request e q. (e.request ≡ request) × (e.start ≡ start) × (q.table.now ≡ p.table.now) };

    ghost logged = { λ p. Some p.seat.entries };

    fn access(&mut self, start: Cycle, request: Request) -> Entry {
        self.gate.pass(
            self.worker,
            Point::Access {
                core: self.seat.core(),
            },
        );
        self.table.access(self.rt, &mut self.seat, start, request)
    }
}
