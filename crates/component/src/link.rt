//! A link of the mesh.
ghost use Rattle.std.specs.Prelude.{◌≤◌};

use crate::{Component, Kind};
use zs_num::Cycle;

/// A link from a node of the mesh to the next. It serves one event after the other. Times are in
/// cycles.
#[derive(Drop)]
pub struct Link {
    /// The time from its node to the next.
    pub hop: u64,
    /// For how long an event keeps the link busy.
    pub occupancy: u64,
    /// The cycle from which on it can serve the next event.
    pub free: Cycle,
    pub ghost hop_at_least_one: { 1 ≤ hop },
}

impl Component for Link {
    ghost use Rattle.component.specs.ComponentStep.{link_latency, link_step};
    ghost use Rattle.component.specs.Greatest.{link_greatest};
    ghost use Rattle.component.specs.Serving.{link_serves};
    ghost use Rattle.component.specs.Lawful.{link_floor_at_least_one, link_floor_holds, link_serves_stays, link_floor_stays, link_finish_within_greatest};

    ghost serves = { link_serves };

    ghost floor = { link_latency };

    ghost stepped = { link_step };

    ghost greatest = { link_greatest };

    fn serves(&self, kind: Kind) -> bool {
        match kind {
            Kind::Hop => true,
            _ => false,
        }
    }

    #[inline(always)]
    fn floor(&self, kind: Kind) -> u64 {
        match kind {
            Kind::Hop => self.hop,
            _ => 0,
        }
    }

    #[inline(always)]
    fn step(&mut self, kind: Kind, start: Cycle) -> Cycle {
        let latency = self.floor(kind);
        let served = start.max(self.free);
        self.free = served + self.occupancy;
        served + latency
    }

    ghost floor_at_least_one = { link_floor_at_least_one };

    ghost floor_holds = { link_floor_holds };

    ghost serves_stays = { link_serves_stays };

    ghost floor_stays = { link_floor_stays };

    ghost finish_within_greatest = { link_finish_within_greatest };
}
