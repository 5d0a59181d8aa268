//! A memory controller that keeps rows open, as a component.
use crate::{Component, Kind};
use dram_rows::Rows;
use zs_num::Cycle;

impl Component for Rows {
    ghost use Rattle.component.specs.ComponentStep.{rows_step};
    ghost use Rattle.component.specs.Greatest.{rows_greatest};
    ghost use Rattle.component.specs.Serving.{rows_serves, rows_latency};
    ghost use Rattle.component.specs.Lawful.{rows_floor_at_least_one, rows_floor_holds, rows_serves_stays, rows_floor_stays, rows_finish_within_greatest};

    ghost serves = { rows_serves };

    ghost floor = { rows_latency };

    ghost stepped = { rows_step };

    ghost greatest = { rows_greatest };

    fn serves(&self, kind: Kind) -> bool {
        match kind {
            Kind::RowRead { bank, .. } => bank < self.numbers.banks,
            Kind::Write => true,
            _ => false,
        }
    }

    fn floor(&self, kind: Kind) -> u64 {
        match kind {
            Kind::RowRead { .. } => self.numbers.hit,
            Kind::Write => self.numbers.write,
            _ => 0,
        }
    }

    #[inline(never)]
    fn step(&mut self, kind: Kind, start: Cycle) -> Cycle {
        match kind {
            Kind::RowRead { bank, row } => self.read(bank, row, start),
            _ => self.write(start),
        }
    }

    ghost floor_at_least_one = { rows_floor_at_least_one };

    ghost floor_holds = { rows_floor_holds };

    ghost serves_stays = { rows_serves_stays };

    ghost floor_stays = { rows_floor_stays };

    ghost finish_within_greatest = { rows_finish_within_greatest };
}
