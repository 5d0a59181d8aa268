//! How domains are told the finishes of the parents of their crossings, and bounds of these.
ghost use Rattle.std.specs.Prelude.{◌≡◌, ◌≤◌, ◌<◌, length};
ghost use Rattle.domain_map.specs.declared.crossing.Crossing.{Crossing};
ghost use Rattle.std.specs.Prelude.{slice_get, Some};
ghost use Rattle.weave_run.specs.Outgoing.{AreOutgoing};
ghost use Rattle.weave_run.specs.Rounds.{AllKeep, CanWeavePlan, HasToldCrossing, HasToldAll, HasToldRest, HasToldRests, HaveLearned, IsBoundOf, IsFinish};

use crate::outgoing::Outgoing;
use crate::plan::Plan;
use crate::raise::MOST_RAISED;
use component::Component;
use domain_map::Parts;
use event_graph::Fired;
use weave_core::{Domain, laws};
use zs_num::{Cycle, Word};

/// Tells the domain that a crossing leads into the finish of its parent.
fn tell<C: Component>(
    domains: &mut [Domain<C>],
    plan: &Plan<C>,
    parts: &Parts,
    crossing: u32,
    finish: Cycle,
)
    requires can { CanWeavePlan C.serves C.floor C.stepped C.greatest plan.now }
    requires parts { parts.now ≡ plan.now.parts.value }
    requires kept { AllKeep C.stepped plan.now domains.old }
    requires there { crossing < length parts.now.crossings }
    requires finish { (x : Crossing) → slice_get plan.now.parts.value.crossings crossing ≡ Some x → IsFinish C.stepped plan.now x.parent finish }
    ensures told { HasToldCrossing C.stepped plan.now domains.old domains.new crossing }
{
    laws::domains_keep_to_the_weave::<C>();
    let target = parts.crossings()[crossing as usize].target;
    domains[usize::from(target)].look(crossing, Word::Exact(finish));
}

/// Tells the domain that a crossing leads into a bound of its parent's finish, unless it knows as
/// much.
fn tell_bound<C: Component>(
    domains: &mut [Domain<C>],
    plan: &Plan<C>,
    parts: &Parts,
    crossing: u32,
    bound: Cycle,
)
    requires can { CanWeavePlan C.serves C.floor C.stepped C.greatest plan.now }
    requires parts { parts.now ≡ plan.now.parts.value }
    requires kept { AllKeep C.stepped plan.now domains.old }
    requires there { crossing < length parts.now.crossings }
    requires bound { (x : Crossing) → slice_get plan.now.parts.value.crossings crossing ≡ Some x → IsBoundOf C.stepped plan.now x bound }
    ensures { HaveLearned C.stepped plan.now domains.old domains.new }
{
    laws::domains_keep_to_the_weave::<C>();
    let target = usize::from(parts.crossings()[crossing as usize].target);
    let Word::Bound(before) = domains[target].word(crossing) else {
        return;
    };
    if bound <= before {
        return;
    }
    domains[target].look(crossing, Word::Bound(bound));
}

/// Tells the other domains what a domain can say of the events that it has yet to fire: the bounds
/// that it gives of the crossings out of it.
pub(crate) fn tell_bounds<C: Component>(
    domains: &mut [Domain<C>],
    plan: &Plan<C>,
    parts: &Parts,
    source: u16,
)
    requires can { CanWeavePlan C.serves C.floor C.stepped C.greatest plan.now }
    requires parts { parts.now ≡ plan.now.parts.value }
    requires kept { AllKeep C.stepped plan.now domains.old }
    requires source { source < length domains.old }
    ensures { HaveLearned C.stepped plan.now domains.old domains.new }
{
    let count = domains[usize::from(source)].outgoing().len();
    if count > MOST_RAISED {
        return;
    }
    for index in 0..count {
        tell_bound_at(domains, plan, parts, source, index);
    }
}

/// Tells the domain that the crossing at a place among those out of a domain leads into the bound
/// that the latter gives, where the parent has yet to fire.
fn tell_bound_at<C: Component>(
    domains: &mut [Domain<C>],
    plan: &Plan<C>,
    parts: &Parts,
    source: u16,
    index: usize,
)
    requires can { CanWeavePlan C.serves C.floor C.stepped C.greatest plan.now }
    requires parts { parts.now ≡ plan.now.parts.value }
    requires kept { AllKeep C.stepped plan.now domains.old }
    requires source { source < length domains.old }
    ensures { HaveLearned C.stepped plan.now domains.old domains.new }
{
    laws::domains_keep_to_the_weave::<C>();
    let domain = &domains[usize::from(source)];
    let outgoing = domain.outgoing();
    if index >= outgoing.len() {
        return;
    }
    let crossing = outgoing[index];
    let Some(bound) = domain.bound(crossing) else {
        return;
    };
    tell_bound(domains, plan, parts, crossing, bound);
}

/// Tells the finish of an event by all crossings out of it.
fn tell_all<C: Component>(
    domains: &mut [Domain<C>],
    plan: &Plan<C>,
    parts: &Parts,
    outgoing: &Outgoing,
    fired: Fired,
)
    requires can { CanWeavePlan C.serves C.floor C.stepped C.greatest plan.now }
    requires parts { parts.now ≡ plan.now.parts.value }
    requires outgoing { AreOutgoing plan.now.parts.value.crossings (length plan.now.graph.value) outgoing.now }
    requires kept { AllKeep C.stepped plan.now domains.old }
    requires there { fired.number < length plan.now.graph.value }
    requires finish { IsFinish C.stepped plan.now fired.number fired.finish }
    ensures { HasToldAll C.stepped plan.now domains.old domains.new fired.number }
{
    let mut link = outgoing.last[fired.number as usize];
    while link != 0 {
        tell(domains, plan, parts, link - 1, fired.finish);
        link = outgoing.before[(link - 1) as usize];
    }
}

/// Tells the other domains the finishes of the events that a domain fired from a place on.
pub(crate) fn tell_from<C: Component>(
    domains: &mut [Domain<C>],
    plan: &Plan<C>,
    parts: &Parts,
    outgoing: &Outgoing,
    source: u16,
    place: usize,
)
    requires can { CanWeavePlan C.serves C.floor C.stepped C.greatest plan.now }
    requires parts { parts.now ≡ plan.now.parts.value }
    requires outgoing { AreOutgoing plan.now.parts.value.crossings (length plan.now.graph.value) outgoing.now }
    requires kept { AllKeep C.stepped plan.now domains.old }
    requires source { source < length domains.old }
    ensures { HasToldRest C.stepped plan.now domains.old domains.new source place }
{
    laws::domains_keep_to_the_weave::<C>();
    let count = domains[usize::from(source)].fired().len();
    for next in place..count {
        let fired = domains[usize::from(source)].fired()[next];
        tell_all(domains, plan, parts, outgoing, fired);
    }
}

/// Tells the finishes of the events that each domain fired from its place on.
pub(crate) fn tell_each<C: Component>(
    domains: &mut [Domain<C>],
    plan: &Plan<C>,
    parts: &Parts,
    outgoing: &Outgoing,
    counts: &[usize],
)
    requires can { CanWeavePlan C.serves C.floor C.stepped C.greatest plan.now }
    requires parts { parts.now ≡ plan.now.parts.value }
    requires outgoing { AreOutgoing plan.now.parts.value.crossings (length plan.now.graph.value) outgoing.now }
    requires kept { AllKeep C.stepped plan.now domains.old }
    requires counts { length counts.now ≡ length domains.old }
    ensures { HasToldRests C.stepped plan.now domains.old domains.new counts.now (length domains.old) }
{
    for source in 0..parts.domains() {
        tell_from(
            domains,
            plan,
            parts,
            outgoing,
            source,
            counts[usize::from(source)],
        );
    }
}
