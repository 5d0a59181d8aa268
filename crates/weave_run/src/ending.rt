//! What comes of all rounds.
ghost use Rattle.std.specs.Prelude.{◌≡◌, ◌≤◌, IfSome, length};
ghost use Rattle.weave_core.specs.Keeping.{HaveAllFired, owns_of};
ghost use Rattle.weave_run.specs.Rounds.{AllKeep, CanWeavePlan};
ghost use Rattle.weave_run.specs.Setup.{IsLeft};
ghost use Rattle.weave_run.specs.Weaving.{IsWoven};

use crate::by_workers::Woven;
use crate::dealt::gather;
use crate::ended::{fill_all, finish_all};
use crate::plan::Plan;
use crate::setup::Prepared;
use crate::way::DomainWay;
use component::Component;
use domain_map::Parts;
use event_graph::FiredList;
use weave_core::laws;

/// Takes the times and the components, when all events have fired.
pub(crate) fn end<C: Component, W: DomainWay>(
    prepared: Prepared<C, W>,
    plan: &Plan<C>,
    parts: &Parts,
    rounds: u32,
) -> Woven<C>
    requires can { CanWeavePlan C.serves C.floor C.stepped C.greatest plan.now }
    requires parts { parts.now ≡ plan.now.parts.value }
    requires left { IsLeft C.stepped plan.now prepared }
    requires rounds { rounds ≤ length plan.now.graph.value }
    ensures { IsWoven C.stepped plan.now.graph.value plan.now.comps.value result.fired result.comps result.rounds }
{
    laws::domains_keep_to_the_weave::<C>();
    event_graph::laws::components_serve_their_own_events::<C>();
    let Prepared {
        domains,
        mut times,
        list,
        lists,
        team,
        ..
    } = prepared;
    if let Some(team) = team {
        team.close();
    }
    fill_all(times.as_mut_slice(), &domains, plan);
    let mut lists = finish_all(domains, lists);
    let comps = gather(list, parts.places(), lists.as_mut_slice());
    Woven {
        fired: FiredList::of(times),
        comps,
        rounds,
    }
}
