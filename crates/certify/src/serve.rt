//! The components serve the events of an interval.
ghost use Rattle.std.specs.Prelude.{◌≡◌, ◌<◌, ◌^◌, ℕ, true, List, None, length, map};
ghost use Rattle.std.specs.List.{find};
ghost use Rattle.component.specs.Serving.{comp_serves};
ghost use Rattle.event_graph.specs.OneListWeave.{FiredEvent};
ghost use Rattle.certify.specs.Records.{AreFinishes, AreRecords, key_of};
ghost use Rattle.certify.specs.ShortTimes.{HaveShortTimes, capped_step, longest_time};
ghost use Rattle.certify.specs.Verdict.{after_all, in_order, is_wrong};

use crate::numbers::{CYCLES, record_at};
use component::{Comp, Component, Kind};
use zs_num::{Cycle, Key};

/// Each component serves its events in the order of the keys. `finishes` gets a cycle for each
/// event, which is that of its noted finish exactly where this is right.
pub(crate) fn serve_all(records: &[u8], keys: &[Key], comps: &mut [Comp], finishes: &mut [Cycle])
    requires interval { (timed : List FiredEvent) × AreRecords comps.old timed records.now × (keys.now ≡ map key_of (in_order timed)) × (length finishes.old ≡ length timed) }
    requires times { HaveShortTimes comps.old }
    ensures comps { (timed : List FiredEvent) → AreRecords comps.old timed records.now → find (is_wrong comps.old timed) timed ≡ None → comps.new ≡ after_all comps.old timed }
    ensures long { (timed : List FiredEvent) → AreRecords comps.old timed records.now → length finishes.new ≡ length timed }
    ensures finishes { (timed : List FiredEvent) → AreRecords comps.old timed records.now → AreFinishes comps.old timed finishes.new }
    ensures times { HaveShortTimes comps.new }
{
    for key in keys {
        let n = record_at(records, key.number);
        let Some(kind) = n.kind() else { unreachable!() };
        finishes[key.number as usize] = serve(&mut comps[n.component as usize], kind, key.start);
    }
}

/// A component serves an event. No finish of a file is 2^60 or later: where the component is busy
/// until then it stays so, and that cycle is the answer.
fn serve(comp: &mut Comp, kind: Kind, start: Cycle) -> Cycle
    requires serves { comp_serves comp.old kind ≡ true }
    requires start { start < 2 ^ 60 }
    requires times { longest_time comp.old < 2 ^ 60 }
    ensures { (comp.new, result) ≡ capped_step comp.old kind start }
{
    if comp.free() < CYCLES {
        comp.step(kind, start)
    } else {
        CYCLES
    }
}
