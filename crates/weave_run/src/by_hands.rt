//! The weave of a machine's components by workers whom somebody else has at hand.
ghost use Rattle.std.specs.Prelude.{◌≡◌, ◌≤◌, ◌<◌, ◌^◌, ℕ, All, IfErr, IfOk, IfSome, IsTrue, length, slice_index_or};
ghost use Rattle.component.specs.ComponentStep.{comp_step};
ghost use Rattle.component.specs.Greatest.{comp_greatest};
ghost use Rattle.component.specs.Serving.{comp_latency, comp_serves};
ghost use Rattle.component.specs.declared.comp.Comp.{Comp};
ghost use Rattle.event_graph.specs.SmallSteps.{AreSmallSteps};
ghost use Rattle.weave_core.specs.Interleavings.{IsPartitioned};
ghost use Rattle.weave_core.specs.Keeping.{HaveAllFired, owns_of};
ghost use Rattle.weave_run.specs.Crews.{CanWork, Crew, HasWorked};
ghost use Rattle.weave_run.specs.Outgoing.{AreOutgoing};
ghost use Rattle.weave_run.specs.Rounds.{AllKeep, AreMet, CanWeavePlan, HasRunRound, HaveFloor};
ghost use Rattle.weave_run.specs.Setup.{IsPrepared};
ghost use Rattle.weave_run.specs.Shares.{AreShares, RunsAll};
ghost use Rattle.weave_run.specs.Teams.{IsTeam};
ghost use Rattle.weave_run.specs.Weaving.{IsWoven};

use crate::at_work::exchange;
use crate::beside::note;
use crate::by_workers::{Woven, has_numbers};
use crate::crew::Crew;
use crate::ending::end;
use crate::hands::Hands;
use crate::hiring::{hire, let_go};
use crate::outgoing::Outgoing;
use crate::plan::{Plan, steps_for};
use crate::post::Post;
use crate::rounds::{are_several_ready, fired_so_far, front_of, raise_floors, run_here};
use crate::setup::{Prepared, prepare};
use crate::share::DomainShare;
use crate::team::Team;
use crate::tell::tell_each;
use crate::way::DomainWay;
use component::{Comp, Comps};
use crossing::Crossings;
use domain_map::Parts;
use event_graph::Graph;
use std::alloc::Global;
use weave_core::{Domain, laws};
use zs_num::NoMemory;

/// The weave of a graph that was split into domains, by this many workers, whom hands have run their
/// domains beside each other where that is worth it and there are hands enough. All memory is taken
/// before the first event fires; where it runs out, the components come back. The gate is passed
/// before each event. It waits for nobody but the gate and the hands.
pub fn weave_with<W: DomainWay, H: Hands, F: Fn(&mut H, &mut Vec<DomainShare<Comp, W>>)>(
    alloc: Global,
    graph: &Graph,
    parts: &Parts,
    comps: Comps<Comp>,
    workers: u16,
    way: &W,
    hands: &mut H,
    run_all: &F,
) -> Result<Woven<Comp>, (NoMemory, Comps<Comp>)>
    requires workers { (1 ≤ workers) × (workers ≤ 64) }
    requires partitioned { IsPartitioned comp_serves comp_latency graph.now parts.now comps }
    requires small { AreSmallSteps comp_step comp_greatest graph.now comps }
    requires ready { H.ready (H.kept hands.old) }
    requires runs { RunsAll H.kept H.ready H.most comp_serves comp_latency comp_step comp_greatest (F.pre run_all.now) (F.post run_all.now) }
    ensures woven { IfOk result (λ w. IsWoven comp_step graph.now comps w.fired w.comps w.rounds) }
    ensures hands { H.kept hands.new ≡ H.kept hands.old }
    ensures back { IfErr result (λ e. e.1 ≡ comps) }
{
    laws::domains_keep_to_the_weave::<Comp>();
    if !has_numbers(graph, parts) {
        return Err((NoMemory, comps));
    }
    let plan = Plan::of(graph, parts, &comps);
    let prepared = prepare(alloc, graph, parts, &plan, comps, workers, way)?;
    let events = graph.events().len() as u32;
    Ok(run_by(hands, run_all, prepared, &plan, parts, workers, way, events))
}

/// Runs all rounds, and takes the times and the components.
fn run_by<W: DomainWay, H: Hands, F: Fn(&mut H, &mut Vec<DomainShare<Comp, W>>)>(
    hands: &mut H,
    run_all: &F,
    prepared: Prepared<Comp, W>,
    plan: &Plan<Comp>,
    parts: &Parts,
    workers: u16,
    way: &W,
    events: u32,
) -> Woven<Comp>
    requires can { CanWeavePlan comp_serves comp_latency comp_step comp_greatest plan.now }
    requires parts { parts.now ≡ plan.now.parts.value }
    requires prepared { IsPrepared comp_step plan.now prepared }
    requires workers { 0 < workers }
    requires events { events ≡ length plan.now.graph.value }
    requires ready { H.ready (H.kept hands.old) }
    requires runs { RunsAll H.kept H.ready H.most comp_serves comp_latency comp_step comp_greatest (F.pre run_all.now) (F.post run_all.now) }
    ensures hands { H.kept hands.new ≡ H.kept hands.old }
    ensures woven { IsWoven comp_step plan.now.graph.value plan.now.comps.value result.fired result.comps result.rounds }
{
    laws::domains_keep_to_the_weave::<Comp>();
    let Prepared {
        mut domains,
        outgoing,
        times,
        list,
        lists,
        mut team,
    } = prepared;
    let rounds = run_rounds_by(
        hands,
        run_all,
        &mut domains,
        &mut team,
        plan,
        parts,
        &outgoing,
        way,
        workers,
        events,
    );
    let left = Prepared {
        domains,
        outgoing,
        times,
        list,
        lists,
        team,
    };
    end(left, plan, parts, rounds)
}

/// Runs rounds until no event is ready, and answers how many there were. Takes no memory.
fn run_rounds_by<W: DomainWay, H: Hands, F: Fn(&mut H, &mut Vec<DomainShare<Comp, W>>)>(
    hands: &mut H,
    run_all: &F,
    domains: &mut Vec<Domain<Comp>>,
    team: &mut Option<Team<Comp, W>>,
    plan: &Plan<Comp>,
    parts: &Parts,
    outgoing: &Outgoing,
    way: &W,
    workers: u16,
    events: u32,
) -> u32
    requires can { CanWeavePlan comp_serves comp_latency comp_step comp_greatest plan.now }
    requires parts { parts.now ≡ plan.now.parts.value }
    requires outgoing { AreOutgoing plan.now.parts.value.crossings (length plan.now.graph.value) outgoing.now }
    requires met { AreMet comp_step plan.now domains.old.items }
    requires low { HaveFloor domains.old.items 0 }
    requires events { events ≡ length plan.now.graph.value }
    requires workers { 0 < workers }
    requires team { IfSome team.old (IsTeam comp_step plan.now domains.old.items) }
    requires ready { H.ready (H.kept hands.old) }
    requires runs { RunsAll H.kept H.ready H.most comp_serves comp_latency comp_step comp_greatest (F.pre run_all.now) (F.post run_all.now) }
    ensures all { HaveAllFired comp_step plan.now.graph.value plan.now.parts.value plan.now.comps.value (owns_of domains.new.items) }
    ensures kept { AllKeep comp_step plan.now domains.new.items }
    ensures rounds { result ≤ length plan.now.graph.value }
    ensures hands { H.kept hands.new ≡ H.kept hands.old }
    ensures team { IfSome team.new (IsTeam comp_step plan.now domains.new.items) }
{
    laws::domains_keep_to_the_weave::<Comp>();
    let steps = steps_for(events);
    let mut floor = 0;
    let mut fired = 0;
    let mut hands_are_worth = true;
    for round in 0..events {
        let Some(front) = front_of(domains, plan) else {
            return round;
        };
        floor = front.max(floor);
        raise_floors(domains, floor);
        run_round_by(
            hands,
            run_all,
            domains,
            team,
            plan,
            parts,
            outgoing,
            way,
            workers,
            steps,
            hands_are_worth,
        );
        let before = fired;
        fired = fired_so_far(domains);
        hands_are_worth = fired.saturating_sub(before) >= H::WORTH;
    }
    events
}

/// Runs all domains as far as they can go, and each then knows what the others fired: by the
/// workers beside each other where that is worth it and several domains have an event ready.
fn run_round_by<W: DomainWay, H: Hands, F: Fn(&mut H, &mut Vec<DomainShare<Comp, W>>)>(
    hands: &mut H,
    run_all: &F,
    domains: &mut Vec<Domain<Comp>>,
    team: &mut Option<Team<Comp, W>>,
    plan: &Plan<Comp>,
    parts: &Parts,
    outgoing: &Outgoing,
    way: &W,
    workers: u16,
    steps: usize,
    hands_are_worth: bool,
)
    requires can { CanWeavePlan comp_serves comp_latency comp_step comp_greatest plan.now }
    requires parts { parts.now ≡ plan.now.parts.value }
    requires outgoing { AreOutgoing plan.now.parts.value.crossings (length plan.now.graph.value) outgoing.now }
    requires met { AreMet comp_step plan.now domains.old.items }
    requires some { 0 < steps }
    requires workers { 0 < workers }
    requires team { IfSome team.old (IsTeam comp_step plan.now domains.old.items) }
    requires ready { H.ready (H.kept hands.old) }
    requires runs { RunsAll H.kept H.ready H.most comp_serves comp_latency comp_step comp_greatest (F.pre run_all.now) (F.post run_all.now) }
    ensures ran { HasRunRound comp_step plan.now domains.old.items domains.new.items }
    ensures hands { H.kept hands.new ≡ H.kept hands.old }
    ensures team { IfSome team.new (IsTeam comp_step plan.now domains.new.items) }
{
    let beside = are_asked(hands_are_worth, domains, team, hands.room());
    if let Some(team) = team {
        if beside {
            run_beside_by(hands, run_all, domains, team, plan, parts, outgoing);
            return;
        }
    }
    run_here(
        domains.as_mut_slice(),
        plan,
        parts,
        outgoing,
        way,
        workers,
        steps,
    );
}

/// Whether the workers are asked: where it is worth it, several domains have an event ready, and
/// there are hands for them.
fn are_asked<W: DomainWay>(
    hands_are_worth: bool,
    domains: &[Domain<Comp>],
    team: &Option<Team<Comp, W>>,
    most: usize,
) -> bool
    ensures { IsTrue result → IfSome team.now (λ t. length t.crews.items ≤ most) }
{
    match team {
        Some(team) => { team.crews.len() <= most && hands_are_worth && are_several_ready(domains) }
        None => false,
    }
}

/// Runs all domains by their workers, and once all of these have ended, tells every domain what the
/// others fired.
fn run_beside_by<W: DomainWay, H: Hands, F: Fn(&mut H, &mut Vec<DomainShare<Comp, W>>)>(
    hands: &mut H,
    run_all: &F,
    domains: &mut Vec<Domain<Comp>>,
    team: &mut Team<Comp, W>,
    plan: &Plan<Comp>,
    parts: &Parts,
    outgoing: &Outgoing,
)
    requires can { CanWeavePlan comp_serves comp_latency comp_step comp_greatest plan.now }
    requires parts { parts.now ≡ plan.now.parts.value }
    requires outgoing { AreOutgoing plan.now.parts.value.crossings (length plan.now.graph.value) outgoing.now }
    requires met { AreMet comp_step plan.now domains.old.items }
    requires team { IsTeam comp_step plan.now domains.old.items team.old }
    requires few { length team.old.crews.items ≤ H.most (H.kept hands.old) }
    requires ready { H.ready (H.kept hands.old) }
    requires runs { RunsAll H.kept H.ready H.most comp_serves comp_latency comp_step comp_greatest (F.pre run_all.now) (F.post run_all.now) }
    ensures ran { HasRunRound comp_step plan.now domains.old.items domains.new.items }
    ensures hands { H.kept hands.new ≡ H.kept hands.old }
    ensures team { IsTeam comp_step plan.now domains.new.items team.new }
{
    laws::domains_keep_to_the_weave::<Comp>();
    dealing::laws::dealt_are_among_these::<Post<Comp>, ()>();
    dealing::laws::changed_are_dealt::<Post<Comp>, ()>();
    let count = parts.domains();
    let crossings = &*team.crossings;
    let crews = team.crews.as_mut_slice();
    let counts = team.counts.as_mut_slice();
    note(domains, counts);
    hire(domains, &mut team.seats, crews);
    work_all_by(hands, run_all, crews, &mut team.shares, plan, crossings);
    let_go(crews, count, domains, &mut team.seats);
    tell_each(domains.as_mut_slice(), plan, parts, outgoing, counts);
}

/// The hands have all workers run their domains, each by its share.
fn work_all_by<W: DomainWay, H: Hands, F: Fn(&mut H, &mut Vec<DomainShare<Comp, W>>)>(
    hands: &mut H,
    run_all: &F,
    crews: &mut [Crew<Comp>],
    shares: &mut Vec<DomainShare<Comp, W>>,
    plan: &Plan<Comp>,
    crossings: &Crossings,
)
    requires can { CanWeavePlan comp_serves comp_latency comp_step comp_greatest plan.now }
    requires crews { All (CanWork comp_step plan.now crossings.now) crews.old }
    requires shares { AreShares plan.now crossings.now (length crews.old) shares.old.items }
    requires several { 0 < length crews.old }
    requires few { length crews.old ≤ H.most (H.kept hands.old) }
    requires ready { H.ready (H.kept hands.old) }
    requires runs { RunsAll H.kept H.ready H.most comp_serves comp_latency comp_step comp_greatest (F.pre run_all.now) (F.post run_all.now) }
    ensures hands { H.kept hands.new ≡ H.kept hands.old }
    ensures count { length crews.new ≡ length crews.old }
    ensures shares { AreShares plan.now crossings.now (length crews.old) shares.new.items }
    ensures worked { (worker : ℕ) (d : Crew Comp) → worker < length crews.old
        → HasWorked comp_step plan.now crossings.now (slice_index_or crews.old worker d) (slice_index_or crews.new worker d) }
{
    exchange(crews, shares);
    run_all(hands, shares);
    exchange(crews, shares);
}
