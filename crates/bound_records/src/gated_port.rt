//! The accesses of a core, each behind a gate.
ghost use Rattle.std.specs.Prelude.{◌≡◌, ◌+◌, ◌≤◌};

use crate::record_port::RecordPort;
use bound_core::Port;
use zs_host::{Gate, Point};
use zs_num::{Cycle, Entry, Request};

/// What serves the accesses of a core of this number. Before each access it passes the gate, as the
/// one worker that there is.
#[derive(Drop)]
pub(crate) struct GatedPort<'a, G: Gate> {
    pub(crate) gate: &'a G,
    pub(crate) core: u16,
    pub(crate) port: RecordPort,
}

impl<'a, G: Gate> Port for GatedPort<'a, G> {
    ghost use Rattle.std.specs.Prelude.{◌-◌, length, min, Some};
    ghost use Rattle.bound_core.specs.ShardPort.{base_of, l1i_of, room_of, size_of};
    ghost use Rattle.bound_records.specs.Recorders.{GivesRecorded};

    ghost core = { λ p. p.port.core };

    ghost base = { λ p. base_of p.port.world };

    ghost size = { λ p. size_of p.port.world };

    ghost l1i = { λ p. l1i_of p.port.world };

    ghost room = { λ p. min (room_of p.port.world) (p.port.room - length p.port.entries) };

    ghost gives = { λ p start request e q. GivesRecorded p.port start request e q.port };

    ghost logged = { λ p. Some p.port.entries };

    #[inline(always)]
    fn access(&mut self, start: Cycle, request: Request) -> Entry {
        self.gate.pass(0, Point::Access { core: self.core });
        self.port.access(start, request)
    }

    // A gate that somebody looks at is passed once before each access, whoever serves it.
    #[inline(always)]
    fn load_hit(&mut self, start: Cycle, addr: u64, width: u8) -> Option<u64> {
        if self.gate.is_open() {
            self.port.load_hit(start, addr, width)
        } else {
            None
        }
    }

    #[inline(always)]
    fn store_hit(&mut self, start: Cycle, addr: u64, width: u8, value: u64) -> bool {
        self.gate.is_open() && self.port.store_hit(start, addr, width, value)
    }

    #[inline(always)]
    fn fetch_hit(&mut self, start: Cycle, addr: u64) -> bool {
        self.gate.is_open() && self.port.fetch_hit(start, addr)
    }
}
