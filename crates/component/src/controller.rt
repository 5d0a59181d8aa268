//! A memory controller.
ghost use Rattle.std.specs.Prelude.{◌≤◌};

use crate::{Component, Kind};
use zs_num::Cycle;

/// A memory controller. It serves one event after the other. Times are in cycles.
#[derive(Drop)]
pub struct Controller {
    /// The time of a read.
    pub read: u64,
    /// The time of a write.
    pub write: u64,
    /// For how long an event keeps the controller busy.
    pub occupancy: u64,
    /// The cycle from which on it can serve the next event.
    pub free: Cycle,
    pub ghost read_at_least_one: { 1 ≤ read },
    pub ghost write_at_least_one: { 1 ≤ write },
}

impl Component for Controller {
    ghost use Rattle.component.specs.ComponentStep.{controller_latency, controller_step};
    ghost use Rattle.component.specs.Greatest.{controller_greatest};
    ghost use Rattle.component.specs.Serving.{controller_serves};
    ghost use Rattle.component.specs.Lawful.{controller_floor_at_least_one, controller_floor_holds, controller_serves_stays, controller_floor_stays, controller_finish_within_greatest};

    ghost serves = { controller_serves };

    ghost floor = { controller_latency };

    ghost stepped = { controller_step };

    ghost greatest = { controller_greatest };

    fn serves(&self, kind: Kind) -> bool {
        match kind {
            Kind::Read | Kind::Write => true,
            Kind::Lookup | Kind::Remote | Kind::Fill | Kind::Hop | Kind::RowRead { .. } => false,
        }
    }

    #[inline(always)]
    fn floor(&self, kind: Kind) -> u64 {
        match kind {
            Kind::Read => self.read,
            Kind::Write => self.write,
            Kind::Lookup | Kind::Remote | Kind::Fill | Kind::Hop | Kind::RowRead { .. } => 0,
        }
    }

    #[inline(always)]
    fn step(&mut self, kind: Kind, start: Cycle) -> Cycle {
        let latency = self.floor(kind);
        let served = start.max(self.free);
        self.free = served + self.occupancy;
        served + latency
    }

    ghost floor_at_least_one = { controller_floor_at_least_one };

    ghost floor_holds = { controller_floor_holds };

    ghost serves_stays = { controller_serves_stays };

    ghost floor_stays = { controller_floor_stays };

    ghost finish_within_greatest = { controller_finish_within_greatest };
}
