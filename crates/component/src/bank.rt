//! A bank of the shared cache.
ghost use Rattle.std.specs.Prelude.{◌≤◌};

use crate::{Component, Kind};
use zs_num::Cycle;

/// A bank of the shared cache. It serves one event after the other. Times are in cycles.
#[derive(Drop)]
pub struct Bank {
    /// The time of a look-up.
    pub lookup: u64,
    /// The whole time of a look-up of a line of which another core has to change its copy.
    pub remote: u64,
    /// The time to take in a line from memory.
    pub fill: u64,
    /// For how long an event keeps the bank busy.
    pub occupancy: u64,
    /// The cycle from which on it can serve the next event.
    pub free: Cycle,
    pub ghost lookup_at_least_one: { 1 ≤ lookup },
    pub ghost remote_at_least_one: { 1 ≤ remote },
    pub ghost fill_at_least_one: { 1 ≤ fill },
}

impl Component for Bank {
    ghost use Rattle.std.specs.Prelude.{◌+◌, max};
    ghost use Rattle.component.specs.ComponentStep.{bank_latency, bank_step};
    ghost use Rattle.component.specs.Greatest.{bank_greatest};
    ghost use Rattle.component.specs.Serving.{bank_serves};
    ghost use Rattle.component.specs.Lawful.{bank_floor_at_least_one, bank_floor_holds, bank_serves_stays, bank_floor_stays, bank_finish_within_greatest};

    ghost serves = { bank_serves };

    ghost floor = { bank_latency };

    ghost stepped = { bank_step };

    ghost greatest = { bank_greatest };

    fn serves(&self, kind: Kind) -> bool {
        match kind {
            Kind::Lookup | Kind::Remote | Kind::Fill => true,
            Kind::Read | Kind::Write | Kind::Hop | Kind::RowRead { .. } => false,
        }
    }

    #[inline(always)]
    fn floor(&self, kind: Kind) -> u64 {
        match kind {
            Kind::Lookup => self.lookup,
            Kind::Remote => self.remote,
            Kind::Fill => self.fill,
            Kind::Read | Kind::Write | Kind::Hop | Kind::RowRead { .. } => 0,
        }
    }

    #[inline(always)]
    fn step(&mut self, kind: Kind, start: Cycle) -> Cycle {
        let latency = self.floor(kind);
        let served = start.max(self.free);
        self.free = served + self.occupancy;
        served + latency
    }

    ghost floor_at_least_one = { bank_floor_at_least_one };

    ghost floor_holds = { bank_floor_holds };

    ghost serves_stays = { bank_serves_stays };

    ghost floor_stays = { bank_floor_stays };

    ghost finish_within_greatest = { bank_finish_within_greatest };
}
