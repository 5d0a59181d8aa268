//! A component whose times are easy to follow by hand.
use component::{Component, Kind};
use zs_num::Cycle;

/// Serves every kind, one event after the other.
#[derive(Clone, Copy)]
pub(crate) struct Server {
    /// For how long an event keeps it busy, in cycles.
    pub(crate) occupancy: u64,
    /// The cycle from which on it can serve the next event.
    pub(crate) free: Cycle,
}

impl Component for Server {
    ghost use Rattle.std.specs.Prelude.{◌≡◌, ◌+◌, ◌≤◌, true, max, refl};
    ghost use Rattle.std.proofs.Common.{rules, arith};
    ghost use Rattle.component.specs.declared.kind.Kind.TheVariants.{Lookup, Remote, Fill, Read, Write, Hop, RowRead};

    ghost serves = { λ c kind. true };

    ghost floor = { λ c kind. elim kind [ Lookup ↦ 10 | Remote ↦ 15 | Fill ↦ 2 | Read ↦ 100 | Write ↦ 100 | Hop ↦ 3 | RowRead bank row ↦ 100 ] };

    ghost stepped = { λ c kind start. (record c { free = max start c.free + c.occupancy }, max start c.free + elim kind [ Lookup ↦ 10 | Remote ↦ 15 | Fill ↦ 2 | Read ↦ 100 | Write ↦ 100 | Hop ↦ 3 | RowRead bank row ↦ 100 ]) };

    ghost greatest = { λ c kind start. max start c.free + (c.occupancy + 100) };

    fn serves(&self, _kind: Kind) -> bool {
        true
    }

    fn floor(&self, kind: Kind) -> u64 {
        match kind {
            Kind::Lookup => 10,
            Kind::Remote => 15,
            Kind::Fill => 2,
            Kind::Read | Kind::Write | Kind::RowRead { .. } => 100,
            Kind::Hop => 3,
        }
    }

    fn step(&mut self, kind: Kind, start: Cycle) -> Cycle {
        let latency = self.floor(kind);
        let served = start.max(self.free);
        self.free = served + self.occupancy;
        served + latency
    }

    ghost floor_at_least_one = { λ c kind s. elim kind as (λ k. 1 ≤ elim k [ Lookup ↦ 10 | Remote ↦ 15 | Fill ↦ 2 | Read ↦ 100 | Write ↦ 100 | Hop ↦ 3 | RowRead bank row ↦ 100 ]) [ Lookup ↦ Prim.omega arith | Remote ↦ Prim.omega arith | Fill ↦ Prim.omega arith | Read ↦ Prim.omega arith | Write ↦ Prim.omega arith | Hop ↦ Prim.omega arith | RowRead bank row ↦ Prim.omega arith ] };

    ghost floor_holds = { λ c kind start s. Prim.omega arith };

    ghost serves_stays = { λ c kind start other s. refl };

    ghost floor_stays = { λ c kind start other s. refl };

    ghost finish_within_greatest = { λ c kind start s. elim kind as (λ k. max start c.free + elim k [ Lookup ↦ 10 | Remote ↦ 15 | Fill ↦ 2 | Read ↦ 100 | Write ↦ 100 | Hop ↦ 3 | RowRead bank row ↦ 100 ] ≤ max start c.free + (c.occupancy + 100)) [ Lookup ↦ Prim.omega arith | Remote ↦ Prim.omega arith | Fill ↦ Prim.omega arith | Read ↦ Prim.omega arith | Write ↦ Prim.omega arith | Hop ↦ Prim.omega arith | RowRead bank row ↦ Prim.omega arith ] };
}
