//! The weave by domains, in which the workers that live run their domains beside each other.
ghost use Rattle.std.specs.Prelude.{◌≡◌, ◌+◌, ◌<◌, ◌≤◌, [], List, All, IfErr, IfOk, length, map, vec_capacity};
ghost use denote.Param.Send.{IsSend};
ghost use Rattle.component.specs.ComponentStep.{comp_step};
ghost use Rattle.component.specs.Greatest.{comp_greatest};
ghost use Rattle.component.specs.Serving.{comp_latency, comp_serves};
ghost use Rattle.component.specs.declared.comp.Comp.{Comp};
ghost use Rattle.event_graph.specs.SmallSteps.{AreSmallSteps};
ghost use Rattle.weave_core.specs.Interleavings.{IsPartitioned};
ghost use Rattle.weave_run.specs.Shares.{AreAsked, CanRunShare, HaveRunShares};
ghost use Rattle.weave_run.specs.Weaving.{IsWoven};
ghost use Rattle.weave_run.specs.declared.share.DomainShare.{DomainShare};
ghost use Rattle.crew.specs.Crews.{free_seats};
ghost use Rattle.bound_workers.specs.Carrying.{CarriesShares};
ghost use Rattle.bound_workers.specs.Hands.{AreReady, most_of, stay};

use crate::carries::Carries;
use crate::hands::CrewHands;
use crate::work::Work;
use component::{Comp, Comps};
use crew::{Asker, Job, Post, do_all};
use domain_map::Parts;
use event_graph::Graph;
use std::alloc::Global;
use std::sync::Wait;
use weave_run::{DomainShare, DomainWay, WatchedDomains, Woven, weave_with};
use zs_host::Gate;
use zs_num::NoMemory;

/// The weave of a graph that was split into domains, by this many workers: worker 0 runs its domains
/// here, and each later one at the post of the number before its own, or here where that takes none.
/// All memory is taken before the first event fires; where it runs out, the components come back.
pub fn weave_by<'a, R: Wait + Sync, G: Gate>(
    rt: &R,
    alloc: Global,
    graph: &Graph,
    parts: &Parts,
    comps: Comps<Comp>,
    workers: u16,
    gate: &'a G,
    posts: &[Post<Work<'a, R, G>>],
    askers: &mut [Asker<Work<'a, R, G>>],
) -> Result<Woven<Comp>, (NoMemory, Comps<Comp>)>
    requires workers { (1 ≤ workers) × (workers ≤ 64) }
    requires posts { workers ≤ length posts.now + 1 }
    requires askers { askers.old ≡ free_seats posts.now }
    requires partitioned { IsPartitioned comp_serves comp_latency graph.now parts.now comps }
    requires small { AreSmallSteps comp_step comp_greatest graph.now comps }
    ensures woven { IfOk result (λ w. IsWoven comp_step graph.now comps w.fired w.comps w.rounds) }
    ensures back { IfErr result (λ e. e.1 ≡ comps) }
    ensures askers { askers.new ≡ askers.old }
{
    let way = WatchedDomains::of(gate);
    weave_by_jobs(rt, alloc, graph, parts, comps, workers, &way, posts, askers)
}

/// The same, whatever the workers can be asked for.
fn weave_by_jobs<R: Wait, W: DomainWay, J: Job + Carries<W>>(
    rt: &R,
    alloc: Global,
    graph: &Graph,
    parts: &Parts,
    comps: Comps<Comp>,
    workers: u16,
    way: &W,
    posts: &[Post<J>],
    askers: &mut [Asker<J>],
) -> Result<Woven<Comp>, (NoMemory, Comps<Comp>)>
    requires workers { (1 ≤ workers) × (workers ≤ 64) }
    requires posts { workers ≤ length posts.now + 1 }
    requires askers { askers.old ≡ free_seats posts.now }
    requires partitioned { IsPartitioned comp_serves comp_latency graph.now parts.now comps }
    requires small { AreSmallSteps comp_step comp_greatest graph.now comps }
    requires carries { CarriesShares J.of J.can J.done }
    ensures woven { IfOk result (λ w. IsWoven comp_step graph.now comps w.fired w.comps w.rounds) }
    ensures back { IfErr result (λ e. e.1 ≡ comps) }
    ensures askers { askers.new ≡ askers.old }
{
    let most = usize::from(workers);
    let Ok(mut jobs) = Vec::with_capacity(alloc, most) else {
        return Err((NoMemory, comps));
    };
    let mut hands = CrewHands {
        rt,
        posts,
        askers,
        jobs: &mut jobs,
        most,
    };
    weave_with(
        alloc,
        graph,
        parts,
        comps,
        workers,
        way,
        &mut hands,
        &|hands: &mut CrewHands<'_, '_, '_, '_, R, J>, shares: &mut Vec<DomainShare<Comp, W>>|
            requires { IsSend J.row × CarriesShares J.of J.can J.done × AreAsked (stay hands.now) AreReady most_of comp_serves comp_latency comp_step comp_greatest shares.now.items }
            ensures kept { stay hands.exit.now ≡ stay hands.entry.now }
            ensures ran { HaveRunShares comp_step shares.entry.now.items shares.exit.now.items }
        { ask(hands, shares) },
    )
}

/// The hands have all shares done.
fn ask<R: Wait, W: DomainWay, J: Job + Carries<W>>(
    hands: &mut CrewHands<'_, '_, '_, '_, R, J>,
    shares: &mut Vec<DomainShare<Comp, W>>,
)
    requires carries { CarriesShares J.of J.can J.done }
    requires asked { AreAsked (stay hands.old) AreReady most_of comp_serves comp_latency comp_step comp_greatest shares.old.items }
    ensures kept { stay hands.new ≡ stay hands.old }
    ensures ran { HaveRunShares comp_step shares.old.items shares.new.items }
{
    run_all(hands.rt, hands.posts, hands.askers, hands.jobs, shares);
}

/// All workers run their domains: the first here, and each later one at the post of the number before
/// its own, or here where that takes none. Takes no memory.
fn run_all<R: Wait, W: DomainWay, J: Job + Carries<W>>(
    rt: &R,
    posts: &[Post<J>],
    askers: &mut [Asker<J>],
    jobs: &mut Vec<J>,
    shares: &mut Vec<DomainShare<Comp, W>>,
)
    requires carries { CarriesShares J.of J.can J.done }
    requires askers { askers.old ≡ free_seats posts.now }
    requires few { length shares.old.items ≤ length posts.now + 1 }
    requires none { jobs.old.items ≡ [] }
    requires room { length shares.old.items ≤ vec_capacity jobs.old }
    requires can { All (CanRunShare comp_serves comp_latency comp_step comp_greatest) shares.old.items }
    ensures askers { askers.new ≡ askers.old }
    ensures none { jobs.new.items ≡ [] }
    ensures room { vec_capacity jobs.new ≡ vec_capacity jobs.old }
    ensures ran { HaveRunShares comp_step shares.old.items shares.new.items }
{
    give(shares, jobs);
    do_all(rt, posts, askers, jobs);
    take_back(jobs, shares);
}

/// Each share as what a worker is asked for.
fn give<W: DomainWay, J: Job + Carries<W>>(
    shares: &mut Vec<DomainShare<Comp, W>>,
    jobs: &mut Vec<J>,
)
    requires none { jobs.old.items ≡ [] }
    requires room { length shares.old.items ≤ vec_capacity jobs.old }
    ensures jobs { jobs.new.items ≡ map J.of shares.old.items }
    ensures none { shares.new.items ≡ [] }
    ensures room { vec_capacity shares.new ≡ vec_capacity shares.old }
    ensures jobs_room { vec_capacity jobs.new ≡ vec_capacity jobs.old }
{
    while !shares.is_empty() {
        jobs.push_reserved(J::with(shares.remove(0)));
    }
}

/// Takes the shares out, for which there is room.
fn take_back<W: DomainWay, J: Job + Carries<W>>(
    jobs: &mut Vec<J>,
    shares: &mut Vec<DomainShare<Comp, W>>,
)
    requires shares { All (λ s. (share : DomainShare Comp W) × (s ≡ J.of share)) jobs.old.items }
    requires none { shares.old.items ≡ [] }
    requires room { length jobs.old.items ≤ vec_capacity shares.old }
    ensures shares { (back : List (DomainShare Comp W)) → jobs.old.items ≡ map J.of back → shares.new.items ≡ back }
    ensures none { jobs.new.items ≡ [] }
    ensures room { vec_capacity jobs.new ≡ vec_capacity jobs.old }
{
    while !jobs.is_empty() {
        shares.push_reserved(jobs.remove(0).take());
    }
}
