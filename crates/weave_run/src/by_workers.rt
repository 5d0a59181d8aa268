//! The weave of a graph that was split into domains.
ghost use Rattle.std.specs.Prelude.{◌≡◌, ◌≤◌, ◌<◌, ◌^◌, All, IfErr, IfOk, IsTrue, length};
ghost use Rattle.event_graph.specs.SmallSteps.{AreSmallSteps};
ghost use Rattle.weave_core.specs.Interleavings.{IsPartitioned};
ghost use Rattle.weave_core.specs.Keeping.{HaveAllFired, owns_of};
ghost use Rattle.weave_run.specs.Rounds.{AllKeep, CanWeavePlan};
ghost use Rattle.weave_run.specs.Setup.{IsPrepared};
ghost use Rattle.weave_run.specs.Weaving.{IsWoven};

use crate::ending::end;
use crate::plan::Plan;
use crate::rounds::run_rounds;
use crate::setup::{Prepared, prepare};
use crate::way::WatchedDomains;
use component::{Component, Comps};
use domain_map::Parts;
use event_graph::{FiredList, Graph};
use std::alloc::Global;
use std::thread::Threads;
use weave_core::laws;
use zs_host::Gate;
use zs_num::NoMemory;

/// What a weave gives.
#[derive(Drop)]
pub struct Woven<C: Component> {
    /// Each event once with its start and its finish, in order of number.
    pub fired: FiredList,
    /// The components after the last event, in order of their numbers.
    pub comps: Comps<C>,
    /// How many rounds it took: no more than there are events.
    pub rounds: u32,
}

/// The weave of a graph that was split into domains, by this many workers. All memory is taken
/// before the first event fires; where it runs out, the components come back. It waits for nobody
/// but the gate, which each worker passes before each event that it fires.
pub fn weave<R: Threads + Sync, C: Component + Send, G: Gate>(
    rt: &R,
    alloc: Global,
    graph: &Graph,
    parts: &Parts,
    comps: Comps<C>,
    workers: u16,
    gate: &G,
) -> Result<Woven<C>, (NoMemory, Comps<C>)>
    requires workers { (1 ≤ workers) × (workers ≤ 64) }
    requires partitioned { IsPartitioned C.serves C.floor graph.now parts.now comps }
    requires small { AreSmallSteps C.stepped C.greatest graph.now comps }
    ensures woven { IfOk result (λ w. IsWoven C.stepped graph.now comps w.fired w.comps w.rounds) }
    ensures back { IfErr result (λ e. e.1 ≡ comps) }
{
    laws::domains_keep_to_the_weave::<C>();
    if !has_numbers(graph, parts) {
        return Err((NoMemory, comps));
    }
    let plan = Plan::of(graph, parts, &comps);
    let way = WatchedDomains::of(gate);
    let prepared = prepare(alloc, graph, parts, &plan, comps, workers, &way)?;
    let events = graph.events().len() as u32;
    Ok(run(rt, prepared, &plan, parts, workers, &way, events))
}

/// Whether a domain has numbers for all events, crossings and components.
pub(crate) fn has_numbers(graph: &Graph, parts: &Parts) -> bool
    ensures events { IsTrue result → length graph.now < 2 ^ 30 }
    ensures crossings { IsTrue result → length parts.now.crossings < 2 ^ 31 }
    ensures places { IsTrue result → length parts.now.places < 2 ^ 16 }
{
    graph.events().len() < 1 << 30
        && parts.crossings().len() < 1 << 31
        && parts.places().len() < 1 << 16
}

/// Runs all rounds, and takes the times and the components.
fn run<R: Threads + Sync, C: Component + Send, G: Gate>(
    rt: &R,
    prepared: Prepared<C, WatchedDomains<'_, G>>,
    plan: &Plan<C>,
    parts: &Parts,
    workers: u16,
    way: &WatchedDomains<'_, G>,
    events: u32,
) -> Woven<C>
    requires can { CanWeavePlan C.serves C.floor C.stepped C.greatest plan.now }
    requires parts { parts.now ≡ plan.now.parts.value }
    requires prepared { IsPrepared C.stepped plan.now prepared }
    requires workers { 0 < workers }
    requires events { events ≡ length plan.now.graph.value }
    ensures { IsWoven C.stepped plan.now.graph.value plan.now.comps.value result.fired result.comps result.rounds }
{
    laws::domains_keep_to_the_weave::<C>();
    let Prepared {
        mut domains,
        outgoing,
        times,
        list,
        lists,
        mut team,
    } = prepared;
    let rounds = run_rounds(
        rt,
        &mut domains,
        &mut team,
        plan,
        parts,
        &outgoing,
        way,
        workers,
        events,
    );
    let left = Prepared {
        domains,
        outgoing,
        times,
        list,
        lists,
        team,
    };
    end(left, plan, parts, rounds)
}
