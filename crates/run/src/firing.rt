//! How the events of an interval fire: by one worker on one list, or by several in their domains.
ghost use Rattle.std.specs.Prelude.{◌≡◌, ◌+◌, ◌<◌, ◌≤◌, ◌^◌, IfOk, OnErr, OnOk, length, map};
ghost use Rattle.crew.specs.Crews.{free_seats};
ghost use Rattle.machine_desc.specs.Machine.{IsMachine};
ghost use Rattle.component.specs.ComponentStep.{comp_step};
ghost use Rattle.component.specs.Greatest.{comp_greatest};
ghost use Rattle.component.specs.Serving.{comp_latency, comp_serves};
ghost use Rattle.component.specs.Components.{AreComponents};
ghost use Rattle.event_graph.specs.Fits.{GraphFits};
ghost use Rattle.event_graph.specs.OneListWeave.{comps_after, fired_of, woven};
ghost use Rattle.event_graph.specs.SmallSteps.{AreSmallSteps};

use crate::first_passes::LaterPasses;
use crate::list_gate::ListGate;
use bound_workers::{Work, weave_by};
use component::{Comp, Comps};
use crew::{Asker, Post};
use domain_map::split;
use event_graph::{FiredList, Graph};
use machine_desc::Machine;
use std::alloc::Global;
use std::mem;
use std::sync::Wait;
use weave_seq::weave_gated;
use zs_host::Gate;
use zs_num::NoMemory;

/// How many events a round of the weave by domains fires where it is worth it: more than in any
/// graph in which it was measured, since one list was faster in all of them.
const WORTH_OF_DOMAINS: u64 = 1 << 16;

/// Fires all events by so many workers, who pass the gate before each, and moves the components on:
/// several fire them by their domains where that is worth it and there are posts for them, and then
/// say whether it was. Otherwise they fire on one list, of whose events `later` lets some go on at
/// once; before a weave by domains none has passed the gate. Answers when the events fired. `places`
/// has the domain of each component.
pub(crate) fn fire_all<'a, R: Wait + Sync, G: Gate>(
    rt: &R,
    alloc: Global,
    machine: &Machine,
    graph: &Graph,
    comps: &mut Comps<Comp>,
    workers: u16,
    gate: &'a G,
    later: &LaterPasses<'_, G>,
    places: &[u16],
    posts: &[Post<Work<'a, R, G>>],
    askers: &mut [Asker<Work<'a, R, G>>],
    domains_are_worth: &mut bool,
) -> Result<FiredList, NoMemory>
    requires machine { IsMachine machine.now }
    requires components { AreComponents machine.now comps.old }
    requires fits { GraphFits comp_serves comp_latency graph.now comps.old }
    requires small { AreSmallSteps comp_step comp_greatest graph.now comps.old }
    requires few { length graph.now < 2 ^ 31 }
    requires workers { (1 ≤ workers) × (workers ≤ 64) }
    requires askers { askers.old ≡ free_seats posts.now }
    ensures fired { IfOk result (λ fired. fired ≡ map fired_of (woven comp_step graph.now comps.old)) }
    ensures comps { OnOk result (comps.new ≡ comps_after comp_step graph.now comps.old) }
    ensures unchanged { OnErr result (comps.new ≡ comps.old) }
    ensures askers { askers.new ≡ askers.old }
{
    if workers > 1 && *domains_are_worth && usize::from(workers) - 1 <= posts.len() {
        return fire_by_domains(
            rt,
            alloc,
            machine,
            graph,
            comps,
            workers,
            gate,
            posts,
            askers,
            domains_are_worth,
        );
    }
    weave_gated(
        alloc,
        graph,
        comps,
        places,
        &ListGate {
            gate: later,
            workers,
        },
    )
}

/// Fires all events by their domains, each of which belongs to one of the workers: the first is here,
/// and each later one at the post of the number before its own. It was worth it where the rounds
/// fired many events each.
fn fire_by_domains<'a, R: Wait + Sync, G: Gate>(
    rt: &R,
    alloc: Global,
    machine: &Machine,
    graph: &Graph,
    comps: &mut Comps<Comp>,
    workers: u16,
    gate: &'a G,
    posts: &[Post<Work<'a, R, G>>],
    askers: &mut [Asker<Work<'a, R, G>>],
    domains_are_worth: &mut bool,
) -> Result<FiredList, NoMemory>
    requires machine { IsMachine machine.now }
    requires components { AreComponents machine.now comps.old }
    requires fits { GraphFits comp_serves comp_latency graph.now comps.old }
    requires small { AreSmallSteps comp_step comp_greatest graph.now comps.old }
    requires few { length graph.now < 2 ^ 31 }
    requires workers { (1 ≤ workers) × (workers ≤ 64) }
    requires posts { workers ≤ length posts.now + 1 }
    requires askers { askers.old ≡ free_seats posts.now }
    ensures fired { IfOk result (λ fired. fired ≡ map fired_of (woven comp_step graph.now comps.old)) }
    ensures comps { OnOk result (comps.new ≡ comps_after comp_step graph.now comps.old) }
    ensures unchanged { OnErr result (comps.new ≡ comps.old) }
    ensures askers { askers.new ≡ askers.old }
{
    event_graph::laws::fitting_events_are_there::<Comp>();
    // Its events are numbered in order, as the type keeps.
    let _numbered = graph.events();
    let parts = split(alloc, graph, machine)?;
    let own = mem::replace(comps, Comps::of(Vec::new(alloc)));
    match weave_by(rt, alloc, graph, &parts, own, workers, gate, posts, askers) {
        Ok(woven) => {
            // An interval without events has no round, and says nothing for domains.
            *domains_are_worth = graph.events().len() as u64
                >= WORTH_OF_DOMAINS * u64::from(woven.rounds.max(1));
            *comps = woven.comps;
            Ok(woven.fired)
        }
        Err((NoMemory, own)) => {
            *comps = own;
            Err(NoMemory)
        }
    }
}
