//! The weave of an interval: its events, when they fired, and the delays of the cores.
ghost use Rattle.std.specs.Prelude.{◌≡◌, ◌<◌, ◌≤◌, ◌^◌, All, IfOk, List, length};
ghost use Rattle.zs_num.specs.declared.entry.Entry.{Entry};
ghost use Rattle.machine_desc.specs.Machine.{IsMachine};
ghost use Rattle.component.specs.declared.comp.Comp.{Comp};
ghost use Rattle.component.specs.ComponentStep.{free_of};
ghost use Rattle.component.specs.Components.{AreComponents};
ghost use Rattle.bound_records.specs.CoreRuns.{IsNetOf};
ghost use Rattle.run.specs.IntervalWeave.{AreEventsOf, HaveFired, IsWeaveOf};

use component::{Comp, Comps};
use event_graph::{FiredList, Graph, build};
use feedback::{Delays, delays};
use machine_desc::Machine;
use noc_mesh::Net;
use std::alloc::Global;
use zs_num::{Entries, NoMemory};

/// What the weave of an interval gives.
#[derive(Drop)]
pub struct WovenInterval {
    /// The events of the interval's accesses.
    pub graph: Graph,
    /// When they fired.
    pub fired: FiredList,
    /// How many cycles each core waited.
    pub delays: Delays,
}

/// The events of an interval's accesses, ready for the weave.
pub fn events_of(
    alloc: Global,
    machine: &Machine,
    net: &Net,
    entries: &Entries,
    comps: &Comps<Comp>,
) -> Result<Graph, NoMemory>
    requires machine { IsMachine machine.now }
    requires net { IsNetOf machine.now net.now }
    requires components { AreComponents machine.now comps.now }
    requires free { All (λ c. free_of c ≤ 2 ^ 56) comps.now }
    requires cores { All (λ e. e.core < machine.now.cores) entries.now }
    requires starts { All (λ e. e.start ≤ 2 ^ 34) entries.now }
    requires few { length entries.now ≤ 2 ^ 22 }
    ensures { IfOk result (AreEventsOf machine.now comps.now entries.now) }
{
    noc_mesh::laws::net_graphs_fit();
    noc_mesh::laws::net_accesses_have_few_events();
    event_graph::laws::events_are_counted::<Net>();
    event_graph::laws::events_keep_their_cores::<Net>();
    event_graph::laws::events_begin_with_their_accesses::<Net>();
    event_graph::laws::machine_steps_stay_small();
    let graph = build(alloc, net, entries, machine.cores)?;
    // Its events are numbered in order, as the type keeps.
    let _numbered = graph.events();
    Ok(graph)
}

/// What the weave of an interval gives, once its events have fired.
#[tactic(auto, unfolding(reference::specs::ReferenceRun::woven_interval))]
pub fn woven_of(
    alloc: Global,
    machine: &Machine,
    graph: Graph,
    fired: FiredList,
) -> Result<WovenInterval, NoMemory>
    requires machine { IsMachine machine.now }
    requires fired { (comps : List Comp) × (entries : List Entry) × (after : List Comp) × HaveFired machine.now comps entries graph fired after }
    ensures { IfOk result (λ w. (comps : List Comp) (entries : List Entry) (after : List Comp) → HaveFired machine.now comps entries graph fired after → IsWeaveOf machine.now comps entries w) }
{
    event_graph::laws::fitting_events_are_there::<Comp>();
    event_graph::laws::events_take_their_time::<Comp>();
    feedback::laws::timely_events_have_finished();
    feedback::laws::delays_are_small();
    let delays = delays(alloc, &graph, &fired, machine.cores)?;
    Ok(WovenInterval {
        graph,
        fired,
        delays,
    })
}
