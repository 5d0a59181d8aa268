//! What the weave asks of a component.
ghost use Rattle.std.specs.Prelude.{◌≡◌, ◌≤◌, ◌^◌, IsTrue};
ghost use Rattle.component.specs.ComponentLaws.{Serves, Floor, Stepped, Greatest};
ghost use Rattle.component.specs.ComponentLaws.{FloorAtLeastOne, FloorHolds, ServesStays};
ghost use Rattle.component.specs.ComponentLaws.{FloorStays, FinishWithinGreatest};

use crate::Kind;
use zs_num::Cycle;

/// What serves events one after the other, as a bank, a controller or a link does.
pub trait Component: Drop {
    /// Which kinds it serves.
    ghost serves: { Serves Self };

    /// The least time from an event's start to its finish.
    ghost floor: { Floor Self };

    /// The component after an event of a kind that starts then, and the event's finish.
    ghost stepped: { Stepped Self };

    /// The greatest sum that a step computes.
    ghost greatest: { Greatest Self };

    /// Whether it serves events of this kind.
    fn serves(&self, kind: Kind) -> bool
        ensures { result ≡ serves self.now kind };

    /// The least time from the start of an event of this kind to its finish, in cycles.
    fn floor(&self, kind: Kind) -> u64
        requires { IsTrue (serves self.now kind) }
        ensures { result ≡ floor self.now kind };

    /// Serves an event that starts at this cycle, and answers the cycle of its finish.
    fn step(&mut self, kind: Kind, start: Cycle) -> Cycle
        requires serves { IsTrue (serves self.old kind) }
        requires small { greatest self.old kind start ≤ 2 ^ 62 }
        ensures { (self.new, result) ≡ stepped self.old kind start };

    /// A floor is a cycle at least.
    ghost floor_at_least_one: { FloorAtLeastOne serves floor };

    /// No event finishes before its start and the floor.
    ghost floor_holds: { FloorHolds serves floor stepped };

    /// A step changes neither what is served nor the floors.
    ghost serves_stays: { ServesStays serves stepped };

    ghost floor_stays: { FloorStays serves floor stepped };

    /// The finish is no more than the greatest sum.
    ghost finish_within_greatest: { FinishWithinGreatest serves stepped greatest };
}
