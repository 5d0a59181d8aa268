//! A domain that fires as far as it can.
ghost use Rattle.std.specs.Prelude.{◌<◌};
ghost use Rattle.zs_num.specs.declared.time.Key.{Key};
ghost use Rattle.weave_core.specs.DomainCalls.{MayFire};
ghost use Rattle.weave_run.specs.Rounds.{CanWeavePlan, HasFiredNext, HasRun, KeepsToWeave};

use crate::plan::Plan;
use crate::way::DomainWay;
use component::Component;
use event_graph::Fired;
use weave_core::{Domain, Next, laws};

/// Fires the domain's next event once the gate lets it.
pub(crate) fn fire<C: Component, W: DomainWay>(
    domain: &mut Domain<C>,
    plan: &Plan<C>,
    number: u16,
    worker: u16,
    way: &W,
) -> Fired
    requires can { CanWeavePlan C.serves C.floor C.stepped C.greatest plan.now }
    requires kept { KeepsToWeave C.stepped plan.now domain.old }
    requires may { (key : Key) × MayFire plan.now.graph.value plan.now.parts.value domain.old.domain domain.old.own key }
    ensures { HasFiredNext C.stepped plan.now domain.old domain.new result }
{
    laws::domains_keep_to_the_weave::<C>();
    way.pass(worker, number);
    domain.fire()
}

/// Fires while the next event may fire, at most so many times.
pub(crate) fn run_alone<C: Component, W: DomainWay>(
    domain: &mut Domain<C>,
    plan: &Plan<C>,
    number: u16,
    worker: u16,
    way: &W,
    steps: usize,
)
    requires can { CanWeavePlan C.serves C.floor C.stepped C.greatest plan.now }
    requires kept { KeepsToWeave C.stepped plan.now domain.old }
    requires some { 0 < steps }
    ensures { HasRun C.stepped plan.now domain.old domain.new }
{
    laws::domains_keep_to_the_weave::<C>();
    for _step in 0..steps {
        let Next::Fire { .. } = domain.next() else {
            return;
        };
        let _fired = fire(domain, plan, number, worker, way);
    }
}
