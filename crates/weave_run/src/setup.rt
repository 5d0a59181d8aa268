//! What a weave needs, taken before the first event fires.
ghost use Rattle.std.specs.Prelude.{◌≡◌, ◌≤◌, ◌<◌, ◌+◌, ◌++◌, ◌∷◌, [], All, IfErr, IfOk, length, map};
ghost use Rattle.std.specs.Vec.{vec_capacity};
ghost use Rattle.weave_core.specs.Interleavings.{IsPartitioned};
ghost use Rattle.weave_core.specs.LaidOut.{FitsDomain};
ghost use Rattle.weave_run.specs.Dealing.{AreDealt, items_of};
ghost use Rattle.weave_run.specs.Setup.{AreBegun, HasRoom, IsPrepared};

use crate::dealt::{deal, gather, rooms};
use crate::ended::finish_all;
use crate::outgoing::Outgoing;
use crate::plan::Plan;
use crate::team::Team;
use crate::way::DomainWay;
use component::{Component, Comps};
use domain_map::Parts;
use event_graph::{Fired, Graph};
use std::alloc::Global;
use std::sync::Arc;
use weave_core::Domain;
use zs_num::NoMemory;

/// All that the rounds work on.
#[derive(Drop)]
pub(crate) struct Prepared<C: Component, W: DomainWay> {
    /// By their numbers.
    pub(crate) domains: Vec<Domain<C>>,
    pub(crate) outgoing: Arc<Outgoing>,
    /// The events with their times, by number.
    pub(crate) times: Vec<Fired>,
    /// Room for all components.
    pub(crate) list: Vec<C>,
    /// Room for the components of each domain.
    pub(crate) lists: Vec<Vec<C>>,
    /// The workers that run domains beside each other; none where one worker runs all.
    pub(crate) team: Option<Team<C, W>>,
}

/// What is taken while the components are still in one list.
#[derive(Drop)]
pub(crate) struct Room<C: Component, W: DomainWay> {
    pub(crate) rooms: Vec<Vec<C>>,
    pub(crate) domains: Vec<Domain<C>>,
    pub(crate) outgoing: Arc<Outgoing>,
    pub(crate) times: Vec<Fired>,
    pub(crate) lists: Vec<Vec<C>>,
    pub(crate) team: Option<Team<C, W>>,
}

/// Takes all memory and lays all domains out. The components come back where it runs out.
pub(crate) fn prepare<C: Component, W: DomainWay>(
    alloc: Global,
    graph: &Graph,
    parts: &Parts,
    plan: &Plan<C>,
    comps: Comps<C>,
    workers: u16,
    way: &W,
) -> Result<Prepared<C, W>, (NoMemory, Comps<C>)>
    requires graph { graph.now ≡ plan.now.graph.value }
    requires parts { parts.now ≡ plan.now.parts.value }
    requires comps { comps ≡ plan.now.comps.value }
    requires partitioned { IsPartitioned C.serves C.floor graph.now parts.now comps }
    requires fits { FitsDomain graph.now parts.now }
    requires workers { workers ≤ 64 }
    requires there { All (λ x. x.parent < length graph.now) parts.now.crossings }
    ensures prepared { IfOk result (λ prepared. IsPrepared C.stepped plan.now prepared) }
    ensures back { IfErr result (λ e. e.1 ≡ comps) }
{
    let room = match reserve_all(alloc, graph, parts, plan, &comps, workers, way) {
        Ok(room) => room,
        Err(error) => return Err((error, comps)),
    };
    let Room {
        mut rooms,
        domains,
        outgoing,
        times,
        lists,
        team,
    } = room;
    let list = deal(comps, parts.places(), rooms.as_mut_slice());
    match prepare_all(alloc, graph, parts, plan, rooms, domains, lists) {
        Ok((domains, lists)) => Ok(Prepared {
            domains,
            outgoing,
            times,
            list,
            lists,
            team,
        }),
        Err(mut lists) => Err((NoMemory, gather(list, parts.places(), lists.as_mut_slice()))),
    }
}

/// Takes it.
fn reserve_all<C: Component, W: DomainWay>(
    alloc: Global,
    graph: &Graph,
    parts: &Parts,
    plan: &Plan<C>,
    comps: &Comps<C>,
    workers: u16,
    way: &W,
) -> Result<Room<C, W>, NoMemory>
    requires graph { graph.now ≡ plan.now.graph.value }
    requires parts { parts.now ≡ plan.now.parts.value }
    requires comps { comps.now ≡ plan.now.comps.value }
    requires partitioned { IsPartitioned C.serves C.floor graph.now parts.now comps.now }
    requires fits { FitsDomain graph.now parts.now }
    requires workers { workers ≤ 64 }
    requires there { All (λ x. x.parent < length graph.now) parts.now.crossings }
    ensures { IfOk result (λ room. HasRoom C.stepped plan.now room) }
{
    let domains = parts.domains();
    let events = graph.events().len();
    let nothing = Fired {
        number: 0,
        start: 0,
        finish: 0,
    };
    let outgoing = Arc::new(alloc, Outgoing::of(alloc, events, parts.crossings())?)?;
    let team = Team::of(alloc, graph, parts, plan, comps, &outgoing, workers, way)?;
    Ok(Room {
        rooms: rooms(alloc, parts.places().len(), domains)?,
        domains: Vec::with_capacity(alloc, usize::from(domains))?,
        outgoing,
        times: vec![in alloc; nothing; events]?,
        lists: Vec::with_capacity(alloc, usize::from(domains))?,
        team,
    })
}

/// Lays all domains out, each with its components. Where memory runs out, the lists of all domains'
/// components come back.
fn prepare_all<C: Component>(
    alloc: Global,
    graph: &Graph,
    parts: &Parts,
    plan: &Plan<C>,
    mut rooms: Vec<Vec<C>>,
    mut domains: Vec<Domain<C>>,
    lists: Vec<Vec<C>>,
) -> Result<(Vec<Domain<C>>, Vec<Vec<C>>), Vec<Vec<C>>>
    requires graph { graph.now ≡ plan.now.graph.value }
    requires parts { parts.now ≡ plan.now.parts.value }
    requires partitioned { IsPartitioned C.serves C.floor graph.now parts.now plan.now.comps.value }
    requires fits { FitsDomain graph.now parts.now }
    requires count { length rooms.items ≡ length parts.now.events }
    requires dealt { AreDealt parts.now.places plan.now.comps.value (items_of rooms.items) }
    requires domains { (domains.items ≡ []) × (length parts.now.events ≤ vec_capacity domains) }
    requires lists { (lists.items ≡ []) × (length parts.now.events ≤ vec_capacity lists) }
    ensures begun { IfOk result (λ r. AreBegun graph.now parts.now plan.now.comps.value (length parts.now.events) r.0.items) }
    ensures lists { IfOk result (λ r. r.1 ≡ lists) }
    ensures count { IfErr result (λ r. length r.items ≡ length parts.now.events) }
    ensures back { IfErr result (λ r. AreDealt parts.now.places plan.now.comps.value (items_of r.items)) }
{
    for number in 0..parts.domains() {
        let own = rooms.remove(0);
        match Domain::prepare(alloc, graph, parts, number, Comps::of(own)) {
            Ok(domain) => domains.push_reserved(domain),
            Err((_, own)) => return Err(put_back(domains, own, rooms, lists)),
        }
    }
    Ok((domains, lists))
}

/// The components of some domains, of one that was not laid out, and of the others behind it.
fn put_back<C: Component>(
    domains: Vec<Domain<C>>,
    own: Comps<C>,
    mut rooms: Vec<Vec<C>>,
    lists: Vec<Vec<C>>,
) -> Vec<Vec<C>>
    requires empty { lists.items ≡ [] }
    requires room { length domains.items + 1 + length rooms.items ≤ vec_capacity lists }
    ensures { items_of result.items ≡ map (λ v. v.comps) domains.items ++ (own ∷ items_of rooms.items) }
{
    let mut lists = finish_all(domains, lists);
    lists.push_reserved(own.into_list());
    while !rooms.is_empty() {
        let room = rooms.remove(0);
        lists.push_reserved(room);
    }
    lists
}
