//! Whether a graph may be woven, seen when the program runs.
ghost use Rattle.std.specs.Prelude.{◌≡◌, ◌<◌, ◌≤◌, ◌^◌, IfSome, IsTrue, Some, nat_le};
ghost use Rattle.event_graph.specs.declared.event.Parent.{Parent};
ghost use Rattle.event_graph.specs.Fits.{EventFits, GraphFits};
ghost use Rattle.event_graph.specs.Numbered.{IsNumbered};
ghost use Rattle.event_graph.specs.Near.{AreNear, IsNear};
ghost use Rattle.event_graph.specs.Growth.{BeginBy};
ghost use Rattle.weave_core.specs.Beginning.{AreSmall, IsSmallEvent};

use crate::server::Server;
use component::Component;
use event_graph::{Event, Parent};

/// The greatest cycle, delay and number of events of these weaves.
pub(crate) const LIMIT: u64 = 1 << 22;

/// Whether the parent has a smaller number and a small delay.
fn is_parent_fine(parent: Option<Parent>, index: usize) -> bool
    ensures below { IsTrue result → (p : Parent) → parent ≡ Some p → p.number < index }
    ensures near { IsTrue result → (p : Parent) → parent ≡ Some p → p.delay ≤ LIMIT }
    ensures small { IsTrue result → IfSome parent (λ p. p.delay ≤ 2 ^ 62) }
{
    match parent {
        Some(p) => (p.number as usize) < index && p.delay <= LIMIT,
        None => true,
    }
}

/// Whether the event may stand at this index of a graph on these components.
fn is_fine<C: Component>(event: &Event, index: usize, comps: &[C]) -> bool
    ensures fits { IsTrue result → EventFits C.serves C.floor comps.now event.now }
    ensures number { IsTrue result → event.now.number ≡ index }
    ensures near { IsTrue result → IsNear LIMIT LIMIT event.now }
    ensures small { IsTrue result → IsSmallEvent event.now }
    ensures first { IsTrue result → (p : Parent) → event.now.first ≡ Some p → p.number < index }
    ensures second { IsTrue result → (p : Parent) → event.now.second ≡ Some p → p.number < index }
{
    let component = event.component as usize;
    if component >= comps.len() || !comps[component].serves(event.kind) {
        return false;
    }
    event.min_finish <= LIMIT
        && event.min_start < event.min_finish
        && event.min_finish - event.min_start == comps[component].floor(event.kind)
        && event.number as usize == index
        && is_parent_fine(event.first, index)
        && is_parent_fine(event.second, index)
}

/// Whether the events make a graph that fits the components.
pub(crate) fn is_graph<C: Component>(events: &[Event], comps: &[C]) -> bool
    ensures numbered { IsTrue result → IsNumbered events.now }
    ensures fits { IsTrue result → GraphFits C.serves C.floor events.now comps.now }
    ensures near { IsTrue result → AreNear LIMIT LIMIT events.now }
    ensures small { IsTrue result → AreSmall events.now }
{
    for (index, event) in events.iter().enumerate() {
        if !is_fine(event, index, comps) {
            return false;
        }
    }
    true
}

/// Whether the components are fast.
pub(crate) fn are_fast(servers: &[Server]) -> bool
    ensures { IsTrue result → BeginBy (λ c. nat_le c.occupancy LIMIT) (λ c. c.free) LIMIT servers.now }
{
    for server in servers {
        if server.occupancy > LIMIT || server.free > LIMIT {
            return false;
        }
    }
    true
}
