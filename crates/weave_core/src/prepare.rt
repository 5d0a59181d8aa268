//! What a domain keeps of a graph.
ghost use Rattle.std.specs.Prelude.{◌≡◌, ◌≤◌, ◌<◌, ◌^◌, ◌+◌, All, IfNone, IfOk, IfSome, OnOk, length, map, replicate, slice_get, slice_index_or, Some};
ghost use Rattle.weave_core.specs.Beginning.{AddsLink, AddsWaits, AreCounts, AreCrossed, AreSmall, AreOwnPlaces, AreStubsUpto, HasPlace, HasWaits, IsCount, IsCrossed, IsMadeOf, IsRisingList, NoPlace};
ghost use Rattle.domain_map.specs.Domains.{IsPartition};
ghost use Rattle.weave_core.specs.DomainMachine.{latency_of};
ghost use Rattle.weave_core.specs.LaidOut.{FitsDomain, IsLaidOut};
ghost use Rattle.weave_core.specs.Layout.{AreLinked, no_event};

use crate::children::Link;
use crate::exits::Exits;
use crate::incoming::{Incoming, Stub};
use crate::waiting::Waiting;
use domain_map::{Crossing, Parts};
use event_graph::{Event, Fired, Graph, Parent};
use std::alloc::Global;
use zs_num::{Cycle, NoMemory, Word};

/// The events of these numbers.
pub(crate) fn events_of(
    alloc: Global,
    events: &[Event],
    numbers: &[u32],
) -> Result<Vec<Event>, NoMemory>
    requires { All (λ n. n < length events.now) numbers.now }
    ensures { IfOk result (λ here. here.items ≡ map (λ n. slice_index_or events.now n no_event) numbers.now) }
{
    let mut here = Vec::with_capacity(alloc, numbers.len())?;
    for number in numbers {
        here.push(events[*number as usize])?;
    }
    Ok(here)
}

/// The place of the event of a number, if it is here.
pub(crate) fn place_of(here: &[Event], number: u32) -> Option<u32>
    requires rising { IsRisingList here.now }
    requires few { length here.now < 2 ^ 31 }
    ensures some { IfSome result (HasPlace here.now number) }
    ensures none { IfNone result (NoPlace here.now number) }
{
    let mut low = 0;
    let mut high = here.len() as u32;
    while low < high {
        let middle = low + (high - low) / 2;
        let found = here[middle as usize].number;
        if found == number {
            return Some(middle);
        }
        if found < number {
            low = middle + 1;
        } else {
            high = middle;
        }
    }
    None
}

/// Links a child to its parent, if that is here. Answers how many parents it then waits for.
pub(crate) fn add_link(
    heads: &mut Vec<u32>,
    links: &mut Vec<Link>,
    here: &[Event],
    child: u32,
    parent: Option<Parent>,
) -> Result<u32, NoMemory>
    requires rising { IsRisingList here.now }
    requires few { length here.now < 2 ^ 30 }
    requires child { child < length here.now }
    requires heads { length heads.old.items ≡ length here.now }
    requires links { length links.old.items < 2 ^ 31 }
    requires small { IfSome parent (λ p. p.delay ≤ 2 ^ 62) }
    ensures heads { length heads.new.items ≡ length heads.old.items }
    ensures links { OnOk result (length links.new.items ≤ length links.old.items + 1) }
    ensures added { OnOk result (AddsLink here.now child parent heads.old.items heads.new.items links.old.items links.new.items) }
    ensures count { IfOk result (IsCount here.now parent) }
{
    let Some(parent) = parent else {
        return Ok(0);
    };
    let Some(place) = place_of(here, parent.number) else {
        return Ok(0);
    };
    links.push(Link {
        child,
        next: heads[place as usize],
        delay: parent.delay,
    })?;
    heads[place as usize] = links.len() as u32;
    Ok(1)
}

/// The children of each event, and how many parents here each event waits for.
#[derive(Drop)]
pub(crate) struct Linked {
    pub(crate) heads: Vec<u32>,
    pub(crate) links: Vec<Link>,
    pub(crate) waits: Vec<u32>,
}

/// Links each event to its children.
pub(crate) fn link_all(alloc: Global, here: &[Event]) -> Result<Linked, NoMemory>
    requires rising { IsRisingList here.now }
    requires few { length here.now < 2 ^ 30 }
    requires small { AreSmall here.now }
    ensures linked { IfOk result (λ it. AreLinked here.now it.heads.items it.links.items) }
    ensures waits { IfOk result (λ it. AreCounts here.now it.waits.items (length here.now)) }
{
    let mut heads = zeros(alloc, here.len())?;
    let mut links = Vec::new(alloc);
    let mut waits = Vec::with_capacity(alloc, here.len())?;
    for child in 0..here.len() as u32 {
        let event = here[child as usize];
        let first = add_link(&mut heads, &mut links, here, child, event.first)?;
        let second = add_link(&mut heads, &mut links, here, child, event.second)?;
        waits.push(first + second)?;
    }
    Ok(Linked {
        heads,
        links,
        waits,
    })
}

/// So many times 0.
fn zeros(alloc: Global, count: usize) -> Result<Vec<u32>, NoMemory>
    ensures { IfOk result (λ list. list.items ≡ replicate count 0) }
{
    Ok(vec![in alloc; 0; count]?)
}

/// The crossings into the domain, each of which its child waits for.
pub(crate) fn stubs_of(
    alloc: Global,
    events: &[Event],
    here: &[Event],
    crossings: &[Crossing],
    domain: u16,
    waits: &mut [u32],
) -> Result<Vec<Stub>, NoMemory>
    requires rising { IsRisingList here.now }
    requires few { length here.now < 2 ^ 30 }
    requires few_crossings { length crossings.now < 2 ^ 31 }
    requires small { AreSmall events.now }
    requires crossed { AreCrossed events.now here.now crossings.now domain }
    requires waits { HasWaits here.now waits.old }
    ensures stubs { IfOk result (λ stubs. AreStubsUpto events.now here.now crossings.now domain stubs.items (length crossings.now)) }
    ensures waits { IfOk result (λ stubs. AddsWaits waits.old waits.new stubs.items) }
{
    let mut stubs = Vec::new(alloc);
    for number in 0..crossings.len() as u32 {
        let crossing = crossings[number as usize];
        if crossing.target == domain {
            let stub = stub_of(events, here, number, crossing);
            stubs.push(stub)?;
            waits[stub.child as usize] += 1;
        }
    }
    Ok(stubs)
}

/// The stub of a crossing into the domain.
fn stub_of(events: &[Event], here: &[Event], number: u32, crossing: Crossing) -> Stub
    requires rising { IsRisingList here.now }
    requires few { length here.now < 2 ^ 30 }
    requires small { AreSmall events.now }
    requires crossed { IsCrossed events.now here.now crossing }
    ensures { IsMadeOf events.now here.now number crossing result }
{
    let Some(child) = place_of(here, crossing.child) else {
        unreachable!()
    };
    Stub {
        number,
        child,
        delay: crossing.delay,
        latency: latency(&events[crossing.parent as usize]),
        word: Word::Bound(0),
    }
}

/// For each component its place among those of the domain.
pub(crate) fn own_places_of(
    alloc: Global,
    places: &[u16],
    domain: u16,
) -> Result<Vec<u16>, NoMemory>
    requires { length places.now < 2 ^ 16 }
    ensures { IfOk result (λ own_places. AreOwnPlaces places.now domain own_places.items (length places.now)) }
{
    let mut own_places = Vec::with_capacity(alloc, places.len())?;
    let mut count = 0;
    for place in places {
        own_places.push(count)?;
        if *place == domain {
            count += 1;
        }
    }
    Ok(own_places)
}

/// The least time that an event takes.
pub(crate) fn latency(event: &Event) -> u64
    ensures { result ≡ latency_of event.now }
{
    event.min_finish.saturating_sub(event.min_start)
}

/// The starts of events at zero load.
fn starts_of(alloc: Global, here: &[Event]) -> Result<Vec<Cycle>, NoMemory>
    ensures { IfOk result (λ starts. starts.items ≡ map (λ e. e.min_start) here.now) }
{
    let mut starts = Vec::with_capacity(alloc, here.len())?;
    for event in here {
        starts.push(event.min_start)?;
    }
    Ok(starts)
}

/// What a domain keeps of a graph, before its first event fires. All memory of the domain is taken.
#[derive(Drop)]
pub(crate) struct Layout {
    pub(crate) here: Vec<Event>,
    pub(crate) heads: Vec<u32>,
    pub(crate) links: Vec<Link>,
    pub(crate) waiting: Waiting,
    pub(crate) incoming: Incoming,
    pub(crate) exits: Exits,
    pub(crate) fired: Vec<Fired>,
    pub(crate) own_places: Vec<u16>,
}

/// Lays a domain of a graph out.
pub(crate) fn lay_out(
    alloc: Global,
    graph: &Graph,
    parts: &Parts,
    domain: u16,
) -> Result<Layout, NoMemory>
    requires domain { domain < length parts.now.events }
    requires partitions { IsPartition graph.now parts.now }
    requires fits { FitsDomain graph.now parts.now }
    ensures { IfOk result (IsLaidOut graph.now parts.now domain) }
{
    let events = graph.events();
    let here = events_of(alloc, events, parts.events(domain))?;
    let Linked {
        heads,
        links,
        mut waits,
    } = link_all(alloc, &here)?;
    let stubs = stubs_of(alloc, events, &here, parts.crossings(), domain, &mut waits)?;
    let starts = starts_of(alloc, &here)?;
    let own_places = own_places_of(alloc, parts.places(), domain)?;
    let fired = Vec::with_capacity(alloc, here.len())?;
    let waiting = Waiting::begin(alloc, starts, waits)?;
    let incoming = Incoming::begin(alloc, stubs)?;
    let exits = Exits::of(alloc, &here, parts.crossings(), domain)?;
    Ok(Layout {
        here,
        heads,
        links,
        waiting,
        incoming,
        exits,
        fired,
        own_places,
    })
}
