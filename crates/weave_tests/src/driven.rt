//! A domain with what it was told, so that what it may be told next is seen when the program runs.
ghost use Rattle.std.specs.Prelude.{◌≡◌, ◌≤◌, ◌+◌, ◌^◌, [], true, max, IfSome, IsTrue, OnOk, length, replicate};
ghost use Rattle.domain_map.specs.Domains.{IsPartition};
ghost use Rattle.weave_core.specs.DomainCalls.{comps_in};
ghost use Rattle.weave_core.specs.DomainMachine.{cycle_of, is_exact, latency_at};
ghost use Rattle.weave_tests.specs.KeptOfDomain.{IsNew, KeptOfDomain, Rises, told_after as known_after};

use crate::fitting::{LIMIT, are_fast, is_graph};
use crate::server::Server;
use component::Comps;
use domain_map::Parts;
use event_graph::{Event, Fired, Graph};
use std::alloc::Global;
use weave_core::{Domain, Next};
use zs_num::{Cycle, Key, NoMemory, Word};

/// The greatest start of an event that is fired, so that no sum of its server passes 2^62.
const LATEST: Cycle = 1 << 61;

/// A domain of a graph on servers.
pub(crate) struct Driven<'a> {
    graph: &'a Graph,
    parts: &'a Parts,
    number: u16,
    domain: Domain<Server>,
    /// For each crossing the word that the domain was told of it.
    known: Vec<Word>,
    /// For each event its finish, if the domain was told it.
    told: Vec<Option<Cycle>>,
    floor: Cycle,
    /// A cycle by which each of its servers is free.
    busy: Cycle,
    ghost keeps: { KeptOfDomain graph.now parts.now number domain known.items told.items floor busy },
}

/// Taken apart in this one place, so that whoever lets go of a domain owes this call alone.
impl Drop for Driven<'_> {
    fn drop(self) {
        let Driven {
            graph: _,
            parts: _,
            number: _,
            domain: _domain,
            known: _known,
            told: _told,
            floor: _,
            busy: _,
        } = self;
    }
}

/// Adds those of the servers that are in a domain.
fn add_servers(
    places: &[u16],
    domain: u16,
    servers: &[Server],
    some: &mut Vec<Server>,
) -> Result<(), NoMemory>
    requires size { length places.now ≡ length servers.now }
    requires none { some.old.items ≡ [] }
    ensures { OnOk result (some.new.items ≡ comps_in places.now domain servers.now) }
{
    for index in 0..servers.len() {
        if places[index] == domain {
            some.push(servers[index])?;
        }
    }
    Ok(())
}

/// Those of the servers that are in a domain.
fn servers_in(alloc: Global, places: &[u16], domain: u16, servers: &[Server]) -> Option<Vec<Server>>
    requires { length places.now ≡ length servers.now }
    ensures { IfSome result (λ some. some.items ≡ comps_in places.now domain servers.now) }
{
    let mut some = Vec::new(alloc);
    add_servers(places, domain, servers, &mut some).ok()?;
    Some(some)
}

/// Whether a word may follow another, where the parent does not finish before a bound.
fn rises(bound: Cycle, was: Word, word: Word) -> bool
    ensures rises { IsTrue result → Rises bound was word }
    ensures small { IsTrue result → cycle_of word ≤ 2 ^ 62 }
{
    let (rises, cycle) = match (was, word) {
        (Word::Bound(before), Word::Bound(after)) => (before <= after, after),
        (Word::Exact(_), Word::Bound(after)) => (false, after),
        (Word::Bound(_), Word::Exact(finish)) => (bound <= finish, finish),
        (Word::Exact(before), Word::Exact(finish)) => (finish == before, finish),
    };
    rises && cycle <= LATEST
}

/// Whether a word tells no other finish than the one that is known.
fn agrees(told: Option<Cycle>, word: Word) -> bool
    ensures { IsTrue result → is_exact word ≡ true → IfSome told (λ finish. cycle_of word ≡ finish) }
{
    match (told, word) {
        (Some(known), Word::Exact(finish)) => known == finish,
        _ => true,
    }
}

/// The finish that is known of a parent after a word.
fn told_after(told: Option<Cycle>, word: Word) -> Option<Cycle>
    ensures { result ≡ known_after told word }
{
    match word {
        Word::Bound(_) => told,
        Word::Exact(finish) => Some(finish),
    }
}

/// The least time that an event takes, or 0 where there is none of that number.
fn latency(events: &[Event], number: u32) -> u64
    ensures { result ≡ latency_at events.now number }
{
    match events.get(number as usize) {
        Some(event) => event.min_finish.saturating_sub(event.min_start),
        None => 0,
    }
}

/// The bound of a crossing of which a word is known.
fn bound_of(was: Word, floor: Cycle, latency: u64) -> Option<Cycle>
    ensures { IfSome result (λ bound. bound ≡ max (cycle_of was) (floor + latency)) }
{
    let after_floor = floor.checked_add(latency)?;
    let cycle = match was {
        Word::Bound(cycle) | Word::Exact(cycle) => cycle,
    };
    Some(cycle.max(after_floor))
}

/// The words of so many crossings of which nothing is known.
fn nothing_known(alloc: Global, count: usize) -> Option<Vec<Word>>
    ensures { IfSome result (λ words. words.items ≡ replicate count (Word.Bound 0)) }
{
    vec![in alloc; Word::Bound(0); count].ok()
}

/// The domain of this number as it is prepared, or `None` where memory runs out or its conditions
/// are not seen to hold.
fn prepared(
    alloc: Global,
    graph: &Graph,
    parts: &Parts,
    number: u16,
    servers: &[Server],
) -> Option<Domain<Server>>
    requires partitions { IsPartition graph.now parts.now }
    ensures { IfSome result (λ it. IsNew graph.now parts.now number it) }
{
    let events = graph.events();
    let places = parts.places();
    if number >= parts.domains()
        || events.len() >= 1 << 30
        || parts.crossings().len() >= 1 << 31
        || places.len() >= 1 << 16
        || places.len() != servers.len()
        || !is_graph(events, servers)
    {
        return None;
    }
    let some = servers_in(alloc, places, number, servers)?;
    if !are_fast(&some) {
        return None;
    }
    if let Ok(domain) = Domain::prepare(alloc, graph, parts, number, Comps::of(some)) {
        return Some(domain);
    }
    None
}

impl<'a> Driven<'a> {
    /// The domain of this number before its first event fires, or `None` where memory runs out or
    /// its conditions are not seen to hold.
    pub(crate) fn prepare(
        alloc: Global,
        graph: &'a Graph,
        parts: &'a Parts,
        number: u16,
        servers: &[Server],
    ) -> Option<Self>
        requires partitions { IsPartition graph.now parts.now }
    {
        let known = nothing_known(alloc, parts.crossings().len())?;
        let told = vec![in alloc; None; graph.events().len()].ok()?;
        let domain = prepared(alloc, graph, parts, number, servers)?;
        Some(Driven {
            graph,
            parts,
            number,
            domain,
            known,
            told,
            floor: 0,
            busy: LIMIT,
        })
    }

    pub(crate) fn next(&self) -> Next {
        self.domain.next()
    }

    pub(crate) fn earliest(&self) -> Option<Key> {
        self.domain.earliest()
    }

    /// Fires the event of `next`, if that is one.
    pub(crate) fn fire(&mut self) -> Option<Fired> {
        let Next::Fire { key } = self.domain.next() else {
            return None;
        };
        if key.start > LATEST || self.busy > LATEST {
            return None;
        }
        self.busy = self.busy.max(key.start) + LIMIT;
        Some(self.domain.fire())
    }

    /// Tells it another floor, unless that falls. Answers whether it did.
    pub(crate) fn set_floor(&mut self, floor: Cycle) -> bool {
        if floor < self.floor || floor > LATEST {
            return false;
        }
        self.floor = floor;
        self.domain.set_floor(floor);
        true
    }

    /// Tells it a word, where that may be told. Answers whether it did.
    pub(crate) fn tell(&mut self, number: u32, word: Word) -> bool {
        let crossings = self.parts.crossings();
        let index = number as usize;
        if index >= crossings.len() || index >= self.known.len() {
            return false;
        }
        let crossing = crossings[index];
        let parent = crossing.parent as usize;
        if crossing.target != self.number || parent >= self.told.len() {
            return false;
        }
        let was = self.known[index];
        let told = self.told[parent];
        let latency = latency(self.graph.events(), crossing.parent);
        let Some(bound) = bound_of(was, self.floor, latency) else {
            return false;
        };
        if !rises(bound, was, word) || !agrees(told, word) {
            return false;
        }
        self.told[parent] = told_after(told, word);
        self.known[index] = word;
        self.domain.look(number, word);
        true
    }

    /// The bound that the domain gives of a crossing, where that leads out of it.
    pub(crate) fn bound(&self, number: u32) -> Option<Option<Cycle>> {
        let crossings = self.parts.crossings();
        let index = number as usize;
        if index >= crossings.len() {
            return None;
        }
        let crossing = crossings[index];
        if crossing.source != self.number {
            return None;
        }
        Some(self.domain.bound(number))
    }

    /// The servers of the domain.
    pub(crate) fn finish(self) -> Comps<Server> {
        let Driven {
            graph: _,
            parts: _,
            number: _,
            domain,
            known: _known,
            told: _told,
            floor: _,
            busy: _,
        } = self;
        domain.finish()
    }
}
