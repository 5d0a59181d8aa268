//! What a weave hands back.
ghost use Rattle.std.specs.Prelude.{◌≡◌, ◌≤◌, ◌<◌, [], length, map};
ghost use Rattle.std.specs.Vec.{vec_capacity};
ghost use Rattle.event_graph.specs.OneListWeave.{fired_of, woven};
ghost use Rattle.weave_core.specs.Keeping.{HaveAllFired, owns_of};
ghost use Rattle.weave_run.specs.Dealing.{items_of};
ghost use Rattle.weave_run.specs.Ending.{HasFilled};
ghost use Rattle.weave_run.specs.Rounds.{AllKeep, CanWeavePlan, KeepsToWeave};

use crate::plan::Plan;
use component::Component;
use event_graph::Fired;
use weave_core::{Domain, laws};

/// Puts the events of all domains at the places of their numbers.
pub(crate) fn fill_all<C: Component>(times: &mut [Fired], domains: &[Domain<C>], plan: &Plan<C>)
    requires can { CanWeavePlan C.serves C.floor C.stepped C.greatest plan.now }
    requires kept { AllKeep C.stepped plan.now domains.now }
    requires all { HaveAllFired C.stepped plan.now.graph.value plan.now.parts.value plan.now.comps.value (owns_of domains.now) }
    requires times { length times.old ≡ length plan.now.graph.value }
    ensures { times.new ≡ map fired_of (woven C.stepped plan.now.graph.value plan.now.comps.value) }
{
    laws::domains_keep_to_the_weave::<C>();
    for index in 0..domains.len() {
        fill(times, &domains[index], plan);
    }
}

/// Puts the events of a domain at the places of their numbers.
fn fill<C: Component>(times: &mut [Fired], domain: &Domain<C>, plan: &Plan<C>)
    requires can { CanWeavePlan C.serves C.floor C.stepped C.greatest plan.now }
    requires kept { KeepsToWeave C.stepped plan.now domain.now }
    requires times { length times.old ≡ length plan.now.graph.value }
    ensures { HasFilled C.stepped plan.now times.old times.new domain.now }
{
    laws::domains_keep_to_the_weave::<C>();
    let fired = domain.fired();
    for place in 0..fired.len() {
        let event = fired[place];
        times[event.number as usize] = event;
    }
}

/// The components of all domains, in order of the domains.
pub(crate) fn finish_all<C: Component>(
    mut domains: Vec<Domain<C>>,
    mut lists: Vec<Vec<C>>,
) -> Vec<Vec<C>>
    requires empty { lists.items ≡ [] }
    requires room { length domains.items ≤ vec_capacity lists }
    ensures lists { items_of result.items ≡ map (λ v. v.comps) domains.items }
    ensures room { vec_capacity result ≡ vec_capacity lists }
{
    while !domains.is_empty() {
        let domain = domains.remove(0);
        lists.push_reserved(domain.finish().into_list());
    }
    lists
}
