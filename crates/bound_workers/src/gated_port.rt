//! The accesses of a core, each behind a gate.
ghost use Rattle.std.specs.Prelude.{◌≡◌, ◌+◌, ◌≤◌};

use crate::table_port::TablePort;
use crate::way::Way;
use bound_core::Port;
use parts_table::Pause;
use std::sync::Wait;
use zs_num::{Cycle, Entry, Request};

/// What serves the accesses of a core that a worker runs. Before each access the worker passes the
/// gate, and holds nothing then.
#[derive(Drop)]
pub(crate) struct GatedPort<'a, R: Wait, W: Way> {
    pub gate: &'a W,
    pub worker: u16,
    pub port: TablePort<'a, R>,
}

/// A worker passes the gate before an access of a core.
#[derive(Drop)]
struct Passing<'a, W: Way> {
    gate: &'a W,
    worker: u16,
    core: u16,
}

impl<'a, W: Way> Pause for Passing<'a, W> {
    fn pause(&self) {
        self.gate.pass(self.worker, self.core);
    }
}

impl<'a, R: Wait, W: Way> Port for GatedPort<'a, R, W> {
    ghost use Rattle.std.specs.Prelude.{◌≡◌, ◌-◌, length, Some};
    ghost use Rattle.zs_num.specs.Servable.{IsServable};
    ghost use Rattle.bound_core.specs.ShardPort.{l1i_in};
    ghost use Rattle.parts_table.specs.Access.{opening_shards};
    ghost use Rattle.bound_workers.specs.Kept.{blank_of, entries_of_seat};

    ghost core = { λ p. p.port.turn.core };

    ghost base = { λ p. p.port.base };

    ghost size = { λ p. p.port.size };

    ghost l1i = { λ p. l1i_in (opening_shards p.port.table) };

    ghost room = { λ p. p.port.table.room - length p.port.turn.made };

    ghost gives = { λ p start request e q. (e.request ≡ request) × (e.start ≡ start) × (e.stamp ≡ 0) × (q.port.table ≡ p.port.table) × (blank_of q.port.kept ≡ blank_of p.port.kept)
        × (q.port.base ≡ p.port.base) × (q.port.size ≡ p.port.size) × IsServable p.port.base p.port.size (l1i_in (opening_shards p.port.table)) request };

    ghost logged = { λ p. Some (entries_of_seat p.port.turn) };

    fn access(&mut self, start: Cycle, request: Request) -> Entry {
        if self.gate.is_open() {
            self.port.give_way();
        } else {
            let passing = Passing {
                gate: self.gate,
                worker: self.worker,
                core: self.port.core(),
            };
            self.port.pause(&passing);
        }
        self.port.access(start, request)
    }

    // A gate that somebody looks at is passed once before each access, whoever serves it.
    #[inline(always)]
    fn load_hit(&mut self, start: Cycle, addr: u64, width: u8) -> Option<u64> {
        if self.gate.is_open() {
            self.port.load_hit(start, addr, width)
        } else {
            None
        }
    }

    #[inline(always)]
    fn store_hit(&mut self, start: Cycle, addr: u64, width: u8, value: u64) -> bool {
        self.gate.is_open() && self.port.store_hit(start, addr, width, value)
    }

    #[inline(always)]
    fn fetch_hit(&mut self, start: Cycle, addr: u64) -> bool {
        self.gate.is_open() && self.port.fetch_hit(start, addr)
    }
}
