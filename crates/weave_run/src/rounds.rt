//! The rounds of the weave.
ghost use Rattle.std.specs.Prelude.{◌≡◌, ◌≤◌, ◌<◌, ◌^◌, IfSome, count_by, length, min, nat_lt, slice_get, Some};
ghost use Rattle.std.specs.Option.{option_map_or};
ghost use Rattle.weave_core.specs.DomainCalls.{DomainValue};
ghost use Rattle.weave_core.specs.Keeping.{HaveAllFired, owns_of};
ghost use Rattle.weave_run.specs.Outgoing.{AreOutgoing};
ghost use Rattle.weave_run.specs.Rounds.{AllKeep, AreMet, CanWeavePlan, HasRunHere, HasRunRound, HaveFloor, IsLeastStart, has_event, with_floors};
ghost use Rattle.weave_run.specs.Teams.{IsTeam};

use crate::beside::run_beside;
use crate::outgoing::Outgoing;
use crate::plan::{Plan, steps_for};
use crate::run::run_alone;
use crate::team::Team;
use crate::tell::{tell_bounds, tell_from};
use crate::way::{DomainWay, WatchedDomains};
use component::Component;
use domain_map::Parts;
use std::thread::Threads;
use weave_core::{Domain, laws};
use zs_host::Gate;
use zs_num::Cycle;

/// A round in threads is worth it where the one before fired so many events: to start threads and
/// to join them takes as long as to fire some two hundred. The first round is in threads whatever
/// there is to fire.
const WORTH_OF_THREADS: usize = 256;

/// Runs rounds until no event is ready, and answers how many there were. Takes no memory.
pub(crate) fn run_rounds<R: Threads + Sync, C: Component + Send, G: Gate>(
    rt: &R,
    domains: &mut Vec<Domain<C>>,
    team: &mut Option<Team<C, WatchedDomains<'_, G>>>,
    plan: &Plan<C>,
    parts: &Parts,
    outgoing: &Outgoing,
    way: &WatchedDomains<'_, G>,
    workers: u16,
    events: u32,
) -> u32
    requires can { CanWeavePlan C.serves C.floor C.stepped C.greatest plan.now }
    requires parts { parts.now ≡ plan.now.parts.value }
    requires outgoing { AreOutgoing plan.now.parts.value.crossings (length plan.now.graph.value) outgoing.now }
    requires met { AreMet C.stepped plan.now domains.old.items }
    requires low { HaveFloor domains.old.items 0 }
    requires events { events ≡ length plan.now.graph.value }
    requires workers { 0 < workers }
    requires team { IfSome team.old (IsTeam C.stepped plan.now domains.old.items) }
    ensures all { HaveAllFired C.stepped plan.now.graph.value plan.now.parts.value plan.now.comps.value (owns_of domains.new.items) }
    ensures kept { AllKeep C.stepped plan.now domains.new.items }
    ensures rounds { result ≤ length plan.now.graph.value }
    ensures team { IfSome team.new (IsTeam C.stepped plan.now domains.new.items) }
{
    laws::domains_keep_to_the_weave::<C>();
    let steps = steps_for(events);
    let mut floor = 0;
    let mut fired = 0;
    let mut threads_are_worth = true;
    for round in 0..events {
        let Some(front) = front_of(domains, plan) else {
            return round;
        };
        floor = front.max(floor);
        raise_floors(domains, floor);
        run_round(
            rt,
            domains,
            team,
            plan,
            parts,
            outgoing,
            way,
            workers,
            steps,
            threads_are_worth,
        );
        let before = fired;
        fired = fired_so_far(domains);
        threads_are_worth = fired.saturating_sub(before) >= WORTH_OF_THREADS;
    }
    events
}

/// How many events the domains have fired.
pub(crate) fn fired_so_far<C: Component>(domains: &[Domain<C>]) -> usize {
    let mut count = 0usize;
    for domain in domains {
        count = count.saturating_add(domain.fired().len());
    }
    count
}

/// Runs all domains as far as they can go, and each then knows what the others fired: by the
/// workers beside each other where that is worth it and several domains have an event ready.
fn run_round<R: Threads + Sync, C: Component + Send, G: Gate>(
    rt: &R,
    domains: &mut Vec<Domain<C>>,
    team: &mut Option<Team<C, WatchedDomains<'_, G>>>,
    plan: &Plan<C>,
    parts: &Parts,
    outgoing: &Outgoing,
    way: &WatchedDomains<'_, G>,
    workers: u16,
    steps: usize,
    threads_are_worth: bool,
)
    requires can { CanWeavePlan C.serves C.floor C.stepped C.greatest plan.now }
    requires parts { parts.now ≡ plan.now.parts.value }
    requires outgoing { AreOutgoing plan.now.parts.value.crossings (length plan.now.graph.value) outgoing.now }
    requires met { AreMet C.stepped plan.now domains.old.items }
    requires some { 0 < steps }
    requires workers { 0 < workers }
    requires team { IfSome team.old (IsTeam C.stepped plan.now domains.old.items) }
    ensures ran { HasRunRound C.stepped plan.now domains.old.items domains.new.items }
    ensures team { IfSome team.new (IsTeam C.stepped plan.now domains.new.items) }
{
    let beside = threads_are_worth && are_several_ready(domains);
    if let Some(team) = team {
        if beside {
            run_beside(rt, domains, team, plan, parts, outgoing);
            return;
        }
    }
    run_here(
        domains.as_mut_slice(),
        plan,
        parts,
        outgoing,
        way,
        workers,
        steps,
    );
}

/// Whether more than one domain has an event ready.
pub(crate) fn are_several_ready<C: Component>(domains: &[Domain<C>]) -> bool
    ensures { result ≡ nat_lt 1 (count_by has_event domains.now) }
{
    let mut ready = 0usize;
    for index in 0..domains.len() {
        if domains[index].earliest().is_some() {
            ready += 1;
        }
    }
    ready > 1
}

/// The least start of a ready event. None where no event is ready.
pub(crate) fn front_of<C: Component>(domains: &[Domain<C>], plan: &Plan<C>) -> Option<Cycle>
    requires can { CanWeavePlan C.serves C.floor C.stepped C.greatest plan.now }
    requires kept { AllKeep C.stepped plan.now domains.now }
    ensures front { IsLeastStart plan.now domains.now result }
    ensures small { IfSome result (λ start. start ≤ 2 ^ 62) }
{
    laws::domains_keep_to_the_weave::<C>();
    let mut front: Option<Cycle> = None;
    for index in 0..domains.len() {
        if let Some(key) = domains[index].earliest() {
            front = Some(earlier(front, key.start));
        }
    }
    front
}

/// The lesser of two cycles, where there are two.
fn earlier(front: Option<Cycle>, start: Cycle) -> Cycle
    ensures { result ≡ option_map_or (min start) front start }
{
    match front {
        None => start,
        Some(other) => start.min(other),
    }
}

/// Tells all domains that no event starts before this cycle.
pub(crate) fn raise_floors<C: Component>(domains: &mut Vec<Domain<C>>, floor: Cycle)
    requires rises { (domain : _) (v : DomainValue C) → slice_get domains.old.items domain ≡ Some v → v.own.floor ≤ floor }
    requires small { floor ≤ 2 ^ 62 }
    ensures { domains.new.items ≡ with_floors floor domains.old.items }
{
    for index in 0..domains.len() {
        domains[index].set_floor(floor);
    }
}

/// Runs all domains in this thread, one after the other. Each then tells the others what it fired,
/// and what it can say of what it will fire.
pub(crate) fn run_here<C: Component, W: DomainWay>(
    domains: &mut [Domain<C>],
    plan: &Plan<C>,
    parts: &Parts,
    outgoing: &Outgoing,
    way: &W,
    workers: u16,
    steps: usize,
)
    requires can { CanWeavePlan C.serves C.floor C.stepped C.greatest plan.now }
    requires parts { parts.now ≡ plan.now.parts.value }
    requires outgoing { AreOutgoing plan.now.parts.value.crossings (length plan.now.graph.value) outgoing.now }
    requires met { AreMet C.stepped plan.now domains.old }
    requires some { 0 < steps }
    requires workers { 0 < workers }
    ensures { HasRunRound C.stepped plan.now domains.old domains.new }
{
    laws::domains_keep_to_the_weave::<C>();
    for number in 0..parts.domains() {
        let worker = number % workers;
        run_domain(domains, plan, parts, outgoing, way, number, worker, steps);
    }
}

/// Runs a domain, and tells the others what it fired and what it can say of what it will fire.
fn run_domain<C: Component, W: DomainWay>(
    domains: &mut [Domain<C>],
    plan: &Plan<C>,
    parts: &Parts,
    outgoing: &Outgoing,
    way: &W,
    number: u16,
    worker: u16,
    steps: usize,
)
    requires can { CanWeavePlan C.serves C.floor C.stepped C.greatest plan.now }
    requires parts { parts.now ≡ plan.now.parts.value }
    requires outgoing { AreOutgoing plan.now.parts.value.crossings (length plan.now.graph.value) outgoing.now }
    requires met { AreMet C.stepped plan.now domains.old }
    requires there { number < length domains.old }
    requires some { 0 < steps }
    ensures { HasRunHere C.stepped plan.now domains.old domains.new number }
{
    let index = usize::from(number);
    let place = domains[index].fired().len();
    run_alone(&mut domains[index], plan, number, worker, way, steps);
    tell_from(domains, plan, parts, outgoing, number, place);
    tell_bounds(domains, plan, parts, number);
}
