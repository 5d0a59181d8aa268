//! The workers that run domains beside each other, and the words by which these tell each other
//! what they fire.
ghost use Rattle.std.specs.Prelude.{◌≡◌, ◌≤◌, ◌<◌, ◌^◌, All, IfOk, IfSome, length};
ghost use Rattle.std.specs.Arc.{arc_value};
ghost use Rattle.weave_core.specs.Interleavings.{IsPartitioned};
ghost use Rattle.weave_run.specs.Outgoing.{AreOutgoing};
ghost use Rattle.weave_run.specs.Teams.{IsNewTeam};

use crate::crew::Crew;
use crate::outgoing::Outgoing;
use crate::plan::{Plan, steps_for};
use crate::share::{DomainShare, shares};
use crate::way::DomainWay;
use component::{Component, Comps};
use crossing::{Crossings, DomainSeat};
use domain_map::Parts;
use event_graph::Graph;
use std::alloc::Global;
use std::sync::Arc;
use zs_num::NoMemory;

/// Workers without domains, and what they need.
#[derive(Drop)]
pub(crate) struct Team<C: Component, W: DomainWay> {
    pub(crate) crews: Vec<Crew<C>>,
    /// Their shares, which have their domains while these run.
    pub(crate) shares: Vec<DomainShare<C, W>>,
    pub(crate) crossings: Arc<Crossings>,
    /// The seats of the domains, by their numbers.
    pub(crate) seats: Vec<DomainSeat>,
    /// How many events each domain had fired before the workers ran.
    pub(crate) counts: Vec<usize>,
}

impl<C: Component, W: DomainWay> Team<C, W> {
    /// So many workers, or one for each domain where these are fewer. None where one worker would
    /// be alone.
    pub(crate) fn of(
        alloc: Global,
        graph: &Graph,
        parts: &Parts,
        plan: &Plan<C>,
        comps: &Comps<C>,
        outgoing: &Arc<Outgoing>,
        workers: u16,
        way: &W,
    ) -> Result<Option<Self>, NoMemory>
        requires graph { graph.now ≡ plan.now.graph.value }
        requires parts { parts.now ≡ plan.now.parts.value }
        requires comps { comps.now ≡ plan.now.comps.value }
        requires partitioned { IsPartitioned C.serves C.floor graph.now parts.now comps.now }
        requires outgoing { AreOutgoing plan.now.parts.value.crossings (length plan.now.graph.value) (arc_value outgoing.now) }
        requires workers { workers ≤ 64 }
        requires few { length graph.now < 2 ^ 30 }
        ensures { IfOk result (λ team. IfSome team (IsNewTeam C.stepped plan.now)) }
    {
        let domains = parts.domains();
        let workers = workers.min(domains);
        if workers < 2 {
            return Ok(None);
        }
        let crews = dealing::workers(alloc, usize::from(workers), usize::from(domains))?;
        let counts = vec![in alloc; 0usize; usize::from(domains)]?;
        let (crossings, seats) = Crossings::make(alloc, graph, parts, comps)?;
        let crossings = Arc::new(alloc, crossings)?;
        let steps = steps_for(graph.events().len() as u32);
        let shares = shares(
            alloc, graph, parts, plan, comps, outgoing, &crossings, workers, way, steps,
        )?;
        Ok(Some(Team {
            crews,
            shares,
            crossings,
            seats,
            counts,
        }))
    }

    /// Lets the words go, when all domains are back.
    pub(crate) fn close(self)
        requires { All (λ s. s.crossings ≡ arc_value self.crossings) self.seats.items }
    {
        let Team {
            shares,
            crossings,
            seats,
            ..
        } = self;
        drop(shares);
        if let Ok(crossings) = Arc::try_unwrap(crossings) {
            crossings.close(seats);
        }
    }
}
