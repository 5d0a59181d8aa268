//! Theorems about the definitions alone, each the contract of a function that does nothing.
ghost use Rattle.noc_mesh.specs.Laws.{EventsAreOfLinesAndOutcomes, NetAccessesBeyondHitsHaveEvents, NetAccessesHaveFewEvents, NetFloorsAreOfComponents, NetEventsAreInARow, NetGraphsFit, NetsWithoutAMeshArePlain};
ghost use Rattle.noc_mesh.specs.RouteLaws.{RoutesLead};

use crate::Net;
use component::Comp;

/// Every route is a chain of links of the mesh from its source to its target, and as long as these
/// are apart.
pub fn routes()
    ensures { RoutesLead }
{}

/// The components of a machine have the floors of its `Net`.
pub fn net_floors_are_of_components()
    ensures { NetFloorsAreOfComponents }
{}

/// The components of a machine serve all events that `Net` expands its accesses into.
pub fn net_graphs_fit()
    ensures { NetGraphsFit }
{
    net_floors_are_of_components();
    event_graph::laws::graphs_with_their_floors_fit::<Net, Comp>();
}

/// `Net` expands an access into 60 events at most.
pub fn net_accesses_have_few_events()
    ensures { NetAccessesHaveFewEvents }
{}

/// `Net` is `Plain` where there are no mesh and no open rows.
pub fn nets_without_a_mesh_are_plain()
    ensures { NetsWithoutAMeshArePlain }
{}

/// What `Net` answers of an access depends on its core, its line, its outcome and whether it is a
/// fetch.
pub fn events_are_of_lines_and_outcomes()
    ensures { EventsAreOfLinesAndOutcomes }
{}

/// The events of an access stand in the order in which they can start.
pub fn net_events_are_in_a_row()
    ensures { NetEventsAreInARow }
{}

/// An access that the core's own cache does not answer has an event at least.
pub fn net_accesses_beyond_hits_have_events()
    ensures { NetAccessesBeyondHitsHaveEvents }
{}
