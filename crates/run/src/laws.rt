//! Laws over the definitions alone, each the contract of a function that does nothing.
ghost use Rattle.run.specs.IntervalWeave.{IntervalsAreWoven};

use component::Comp;
use noc_mesh::Net;

/// What holds of the weave of an interval.
pub fn intervals_are_woven()
    ensures { IntervalsAreWoven }
{
    noc_mesh::laws::net_graphs_fit();
    noc_mesh::laws::net_accesses_have_few_events();
    event_graph::laws::events_are_placed::<Net>();
    event_graph::laws::events_are_counted::<Net>();
    event_graph::laws::events_keep_their_cores::<Net>();
    event_graph::laws::events_begin_with_their_accesses::<Net>();
    event_graph::laws::machine_steps_stay_small();
    event_graph::laws::machine_components_stay();
    event_graph::laws::fitting_events_are_there::<Comp>();
    event_graph::laws::events_take_their_time::<Comp>();
    feedback::laws::delays_are_small();
}
