//! A worker's share of a round.
ghost use Rattle.std.specs.Prelude.{◌≡◌, ◌<◌, length, IfOk};
ghost use Rattle.std.specs.Arc.{arc_value};
ghost use Rattle.weave_run.specs.Outgoing.{AreOutgoing};
ghost use Rattle.weave_run.specs.Shares.{AreShares, CanRunShare, HasRunShare};

use crate::crew::{Crew, work};
use crate::outgoing::Outgoing;
use crate::plan::Plan;
use crate::way::DomainWay;
use component::{Component, Comps};
use crossing::Crossings;
use dealing::Worker;
use domain_map::Parts;
use event_graph::Graph;
use std::alloc::Global;
use std::collections::VecDeque;
use std::sync::Arc;
use zs_num::NoMemory;

/// The domains that a worker runs in a round of the weave, and what it needs to run them beside the
/// others. It has memory of its own and shares the words of the crossings, so that it can go to any
/// thread.
#[derive(Drop)]
pub struct DomainShare<C: Component, W: DomainWay> {
    pub(crate) way: W,
    pub(crate) plan: Plan<C>,
    pub(crate) outgoing: Arc<Outgoing>,
    pub(crate) crossings: Arc<Crossings>,
    pub(crate) worker: u16,
    /// How many fires and looks of a domain there are at most.
    pub(crate) steps: usize,
    pub(crate) crew: Crew<C>,
}

impl<C: Component, W: DomainWay> DomainShare<C, W> {
    /// Runs the domains as far as they can go, one after the other. It passes the gate before each
    /// event.
    pub fn work(self) -> Self
        requires { CanRunShare C.serves C.floor C.stepped C.greatest self }
        ensures { HasRunShare C.stepped self result }
    {
        let mut share = self;
        share.run();
        share
    }

    /// The same in place.
    pub(crate) fn run(&mut self)
        requires { CanRunShare C.serves C.floor C.stepped C.greatest self.old }
        ensures { HasRunShare C.stepped self.old self.new }
    {
        work(
            &mut self.crew,
            &self.plan,
            &self.outgoing,
            &self.crossings,
            self.worker,
            &self.way,
            self.steps,
        );
    }
}

/// A share for each of so many workers, without domains.
pub(crate) fn shares<C: Component, W: DomainWay>(
    alloc: Global,
    graph: &Graph,
    parts: &Parts,
    plan: &Plan<C>,
    comps: &Comps<C>,
    outgoing: &Arc<Outgoing>,
    crossings: &Arc<Crossings>,
    workers: u16,
    way: &W,
    steps: usize,
) -> Result<Vec<DomainShare<C, W>>, NoMemory>
    requires graph { graph.now ≡ plan.now.graph.value }
    requires parts { parts.now ≡ plan.now.parts.value }
    requires comps { comps.now ≡ plan.now.comps.value }
    requires outgoing { AreOutgoing plan.now.parts.value.crossings (length plan.now.graph.value) (arc_value outgoing.now) }
    requires some { 0 < steps }
    ensures { IfOk result (λ shares. AreShares plan.now (arc_value crossings.now) workers shares.items) }
{
    let mut shares = Vec::with_capacity(alloc, usize::from(workers))?;
    for worker in 0..workers {
        shares.push_reserved(DomainShare {
            way: way.another(),
            plan: Plan::of(graph, parts, comps),
            outgoing: Arc::try_clone(outgoing)?,
            crossings: Arc::try_clone(crossings)?,
            worker,
            steps,
            crew: Worker {
                queue: VecDeque::new(alloc),
                tools: (),
            },
        });
    }
    Ok(shares)
}
