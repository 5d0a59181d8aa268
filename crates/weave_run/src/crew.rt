//! The domains of a worker.
ghost use Rattle.std.specs.Prelude.{◌<◌, length};
ghost use Rattle.weave_run.specs.Crews.{CanWork, HasWorked};
ghost use Rattle.weave_run.specs.Outgoing.{AreOutgoing};
ghost use Rattle.weave_run.specs.Rounds.{CanWeavePlan};

use crate::outgoing::Outgoing;
use crate::plan::Plan;
use crate::post::{Post, run_beside_others};
use crate::way::DomainWay;
use component::Component;
use crossing::Crossings;
use dealing::Worker;

/// A worker with its domains, in ascending order of their numbers.
pub(crate) type Crew<C> = Worker<Post<C>, ()>;

/// Runs the domains of a worker, one after the other: the first of its queue comes behind all others
/// as it has run.
pub(crate) fn work<C: Component, W: DomainWay>(
    crew: &mut Crew<C>,
    plan: &Plan<C>,
    outgoing: &Outgoing,
    crossings: &Crossings,
    worker: u16,
    way: &W,
    steps: usize,
)
    requires can { CanWeavePlan C.serves C.floor C.stepped C.greatest plan.now }
    requires outgoing { AreOutgoing plan.now.parts.value.crossings (length plan.now.graph.value) outgoing.now }
    requires crew { CanWork C.stepped plan.now crossings.now crew.old }
    requires some { 0 < steps }
    ensures { HasWorked C.stepped plan.now crossings.now crew.old crew.new }
{
    for _ in 0..crew.queue.len() {
        let Some(mut post) = crew.queue.pop_front() else {
            unreachable!()
        };
        run_beside_others(&mut post, plan, outgoing, crossings, worker, way, steps);
        crew.queue.push_back_reserved(post);
    }
}
