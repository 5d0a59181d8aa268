//! The verdict on an interval.
ghost use Rattle.std.specs.Prelude.{◌≡◌, ◌+◌, ◌*◌, ◌<◌, ◌≤◌, ◌^◌, ℕ, true, List, Some, length, slice_get, OnOk};
ghost use Rattle.std.specs.List.{find};
ghost use Rattle.std.specs.Option.{option_map};
ghost use Rattle.component.specs.declared.comp.Comp.{Comp};
ghost use Rattle.event_graph.specs.OneListWeave.{FiredEvent};
ghost use Rattle.certify.specs.EventsFile.{has_first, has_second};
ghost use Rattle.certify.specs.Records.{AreFinishes, AreRecords, IsParentAmong, parent_lets, parents_let};
ghost use Rattle.certify.specs.Verdict.{is_wrong, wrong_as};

use crate::Verdict;
use crate::numbers::{Numbers, record_at};
use zs_num::Cycle;

/// The verdict on the first event of an interval that is wrong. `finishes` has a cycle for each
/// event, which is that of its noted finish exactly where this is right.
pub(crate) fn first_wrong_event(
    records: &[u8],
    interval: u32,
    count: u32,
    finishes: &[Cycle],
) -> Option<Verdict>
    requires { (comps : List Comp) × (timed : List FiredEvent) × AreRecords comps timed records.now × (length timed ≡ count) × (length finishes.now ≡ count) }
    ensures { (comps : List Comp) (timed : List FiredEvent) → AreRecords comps timed records.now → AreFinishes comps timed finishes.now → result ≡ option_map (wrong_as timed interval) (find (is_wrong comps timed) timed) }
{
    for number in 0..count {
        let n = record_at(records, number);
        if n.start != start_of(records, &n) {
            return Some(Verdict::Start { interval, number });
        }
        if n.finish != finishes[number as usize] {
            return Some(Verdict::Finish { interval, number });
        }
    }
    None
}

/// When its parents let an event start, by their noted finishes.
fn start_of(records: &[u8], n: &Numbers) -> Cycle
    requires first { IsParentAmong records.now (has_first n.now) n.now.first n.now.first_delay }
    requires second { IsParentAmong records.now (has_second n.now) n.now.second n.now.second_delay }
    ensures { result ≡ parents_let records.now n.now }
{
    let first = let_by(records, n.has_first(), n.first, n.first_delay);
    let second = let_by(records, n.has_second(), n.second, n.second_delay);
    n.min_start.max(first.max(second))
}

/// When a parent that is there lets its child start, by its noted finish.
fn let_by(records: &[u8], there: bool, number: u32, delay: u64) -> Cycle
    requires { IsParentAmong records.now there number delay }
    ensures { result ≡ parent_lets records.now there number delay }
{
    if there {
        record_at(records, number).finish + delay
    } else {
        0
    }
}
