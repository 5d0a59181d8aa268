//! What is woven, which the functions of a weave speak of.
ghost use Rattle.std.specs.Prelude.{◌≡◌, ◌<◌};

use component::Comps;
use domain_map::Parts;
use event_graph::Graph;
use std::snapshot::Snapshot;

/// The graph, its partition and the components before the first event. It has no bytes: contracts
/// read it.
#[derive(Drop)]
pub(crate) struct Plan<C> {
    pub(crate) graph: Snapshot<Graph>,
    pub(crate) parts: Snapshot<Parts>,
    pub(crate) comps: Snapshot<Comps<C>>,
}

impl<C> Plan<C> {
    /// The plan to weave this graph, so divided, on these components.
    pub(crate) fn of(graph: &Graph, parts: &Parts, comps: &Comps<C>) -> Self
        ensures graph { result.graph.value ≡ graph.now }
        ensures parts { result.parts.value ≡ parts.now }
        ensures comps { result.comps.value ≡ comps.now }
    {
        Plan {
            graph: Snapshot::of(graph),
            parts: Snapshot::of(parts),
            comps: Snapshot::of(comps),
        }
    }
}

/// How many steps a domain makes in a round at most, where there are so many events: a fire for each
/// event, looks by which it learns of its parents, and the step that ends the round. A domain that
/// looks more often waits for the next round.
pub(crate) fn steps_for(events: u32) -> usize
    ensures { 0 < result }
{
    3 * events as usize + 1
}
