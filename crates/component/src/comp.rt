//! A component of this machine: a bank, a controller, with open rows or without, or a link.
use crate::{Bank, Component, Controller, Kind, Link};
use dram_rows::Rows;
use zs_num::Cycle;

/// A bank of the shared cache, a memory controller, a link of the mesh, or a memory controller that
/// keeps rows open.
#[derive(Drop)]
pub enum Comp {
    Bank(Bank),
    Controller(Controller),
    Link(Link),
    Rows(Rows),
}

impl Comp {
    ghost use Rattle.std.specs.Prelude.{◌≡◌};
    ghost use Rattle.component.specs.ComponentStep.{free_of};

    /// The cycle from which on it can serve the next event.
    pub fn free(&self) -> Cycle
        ensures { result ≡ free_of self.now }
    {
        match self {
            Comp::Bank(bank) => bank.free,
            Comp::Controller(controller) => controller.free,
            Comp::Link(link) => link.free,
            Comp::Rows(rows) => rows.free,
        }
    }
}

impl Component for Comp {
    ghost use Rattle.component.specs.ComponentStep.{comp_step};
    ghost use Rattle.component.specs.Greatest.{comp_greatest};
    ghost use Rattle.component.specs.Serving.{comp_serves, comp_latency};
    ghost use Rattle.component.specs.Lawful.{comp_floor_at_least_one, comp_floor_holds, comp_serves_stays, comp_floor_stays, comp_finish_within_greatest};

    ghost serves = { comp_serves };

    ghost floor = { comp_latency };

    ghost stepped = { comp_step };

    ghost greatest = { comp_greatest };

    fn serves(&self, kind: Kind) -> bool {
        match self {
            Comp::Bank(bank) => bank.serves(kind),
            Comp::Controller(controller) => controller.serves(kind),
            Comp::Link(link) => link.serves(kind),
            Comp::Rows(rows) => rows.serves(kind),
        }
    }

    #[inline(always)]
    fn floor(&self, kind: Kind) -> u64 {
        match self {
            Comp::Bank(bank) => bank.floor(kind),
            Comp::Controller(controller) => controller.floor(kind),
            Comp::Link(link) => link.floor(kind),
            Comp::Rows(rows) => rows.floor(kind),
        }
    }

    #[inline(always)]
    fn step(&mut self, kind: Kind, start: Cycle) -> Cycle {
        match self {
            Comp::Bank(bank) => bank.step(kind, start),
            Comp::Controller(controller) => controller.step(kind, start),
            Comp::Link(link) => link.step(kind, start),
            Comp::Rows(rows) => rows.step(kind, start),
        }
    }

    ghost floor_at_least_one = { comp_floor_at_least_one };

    ghost floor_holds = { comp_floor_holds };

    ghost serves_stays = { comp_serves_stays };

    ghost floor_stays = { comp_floor_stays };

    ghost finish_within_greatest = { comp_finish_within_greatest };
}
