//! A domain of the weave.
ghost use Rattle.std.specs.Prelude.{◌≡◌, ◌≤◌, ◌<◌, ◌^◌, IfErr, IfOk, List, Some, length, map, slice_get};
ghost use Rattle.domain_map.specs.declared.crossing.Crossing.{Crossing};
ghost use Rattle.weave_core.specs.DomainCalls.{AreOutOf, CanFire, IsAnswer, IsBoundAnswer, IsFire, IsFitted, IsInto, IsOutOf, MayTell, at_first, earliest_of, with_known};
ghost use Rattle.domain_map.specs.Domains.{IsPartition};
ghost use Rattle.weave_core.specs.DomainMachine.{with_floor, word_at};
ghost use Rattle.weave_core.specs.LaidOut.{FitsDomain};
ghost use Rattle.weave_core.specs.Layout.{timed_from};

use crate::Next;
use crate::answer::{answer, limit, numbered};
use crate::children::{Link, tell_children};
use crate::exits::Exits;
use crate::incoming::{Incoming, place_of};
use crate::prepare::{latency, lay_out};
use crate::waiting::Waiting;
use component::{Component, Comps};
use domain_map::Parts;
use event_graph::{Event, Fired, Graph};
use std::alloc::Global;
use std::marker::Model;
use std::snapshot::Snapshot;
use zs_num::{Cycle, Key, NoMemory, Word};

/// One domain's events and components. It fires its events in order of (start, number), as far as
/// what it was told of the other domains allows.
#[derive(Drop)]
pub struct Domain<C: Component> {
    pub(crate) graph: Snapshot<Graph>,
    pub(crate) parts: Snapshot<Parts>,
    pub(crate) domain: u16,
    /// Its events, in order of their numbers. Their places are what the lists below go by.
    pub(crate) here: Vec<Event>,
    /// For each event the last link to a child, as `Link::next` has it.
    pub(crate) heads: Vec<u32>,
    pub(crate) links: Vec<Link>,
    pub(crate) waiting: Waiting,
    pub(crate) incoming: Incoming,
    pub(crate) exits: Exits,
    pub(crate) fired: Vec<Fired>,
    /// For each component of the machine its place among those of its domain.
    pub(crate) own_places: Vec<u16>,
    pub(crate) comps: Comps<C>,
}

impl<C: Component> Model for Domain<C> {
    ghost use Rattle.weave_core.specs.DomainCalls.{DomainValue};
    ghost use Rattle.weave_core.specs.Inside.{domain_value, IsDomain};

    ghost Value = { DomainValue C };

    ghost view = { domain_value };

    ghost invariant = { IsDomain C.serves };
}

impl<C: Component> Domain<C> {
    /// The domain of this number of a graph that was split, with its components in order of their
    /// numbers, before its first event fires. All memory that it needs is taken here; where it runs
    /// out, the components come back.
    pub fn prepare(
        alloc: Global,
        graph: &Graph,
        parts: &Parts,
        domain: u16,
        comps: Comps<C>,
    ) -> Result<Self, (NoMemory, Comps<C>)>
        requires domain { domain < length parts.now.events }
        requires partitions { IsPartition graph.now parts.now }
        requires fits { FitsDomain graph.now parts.now }
        requires components { (all : List C) × IsFitted C.serves C.floor graph.now parts.now domain comps all }
        ensures prepared { IfOk result (λ it. it ≡ record { domain = domain; events = graph.now; partition = parts.now; own = at_first parts.now; comps = comps }) }
        ensures back { IfErr result (λ e. e.1 ≡ comps) }
    {
        match lay_out(alloc, graph, parts, domain) {
            Ok(layout) => Ok(Domain {
                graph: Snapshot::of(graph),
                parts: Snapshot::of(parts),
                domain,
                here: layout.here,
                heads: layout.heads,
                links: layout.links,
                waiting: layout.waiting,
                incoming: layout.incoming,
                exits: layout.exits,
                fired: layout.fired,
                own_places: layout.own_places,
                comps,
            }),
            Err(error) => Err((error, comps)),
        }
    }

    /// The least (start, number) of an event that is ready. None exactly where none is.
    pub fn earliest(&self) -> Option<Key>
        ensures { result ≡ earliest_of self.now.events self.now.partition self.now.domain self.now.own }
    {
        let key = self.waiting.first()?;
        Some(numbered(&self.here, key))
    }

    /// What it can do next.
    pub fn next(&self) -> Next
        ensures { IsAnswer self.now.events self.now.partition self.now.domain self.now.own result }
    {
        answer(
            &self.here,
            self.incoming.stubs(),
            self.waiting.first(),
            self.incoming.first(),
        )
    }

    /// The numbers of the crossings out of it, in order.
    pub fn outgoing(&self) -> &[u32]
        ensures { AreOutOf self.now.partition self.now.domain result.now }
    {
        &self.exits.numbers
    }

    /// The cycle that the parent of a crossing out of it finishes at or after, as far as the domain
    /// can tell: the greatest bound that the crossing's word may be raised to. None exactly where
    /// the parent has fired. Takes no memory.
    pub fn bound(&self, crossing: u32) -> Option<Cycle>
        requires out { IsOutOf self.now.partition self.now.domain crossing }
        ensures { (x : Crossing) → slice_get self.now.partition.crossings crossing ≡ Some x → IsBoundAnswer self.now.events self.now.partition self.now.domain self.now.own x result }
    {
        let parent = self.exits.parent_of(crossing);
        if self.waiting.has_fired(parent) {
            return None;
        }
        let limit = limit(self.waiting.first(), self.incoming.first())?;
        Some(limit.saturating_add(latency(&self.here[parent as usize])))
    }

    /// What it was last told of the parent of a crossing into it.
    pub fn word(&self, crossing: u32) -> Word
        requires into { IsInto self.now.partition self.now.domain crossing }
        ensures { result ≡ word_at self.now.own.known crossing }
    {
        let stubs = self.incoming.stubs();
        stubs[place_of(stubs, crossing) as usize].word
    }

    /// Tells it what is known of a crossing's parent.
    pub fn look(&mut self, crossing: u32, word: Word)
        requires { MayTell self.old.events self.old.partition self.old.domain self.old.own crossing word }
        ensures { self.new ≡ record self.old { own = with_known self.old.own crossing word } }
    {
        let place = place_of(self.incoming.stubs(), crossing);
        let stub = self.incoming.stubs()[place as usize];
        self.incoming.tell(place, word);
        if stub.is_open() {
            if let Word::Exact(finish) = word {
                self.waiting.parent_fired(stub.child, finish + stub.delay);
            }
        }
    }

    /// Tells it that every event that other domains have not told it of starts at this cycle or
    /// later.
    pub fn set_floor(&mut self, floor: Cycle)
        requires rises { self.old.own.floor ≤ floor }
        requires small { floor ≤ 2 ^ 62 }
        ensures { self.new ≡ record self.old { own = with_floor floor self.old.own } }
    {
        self.incoming.raise_floor(floor);
    }

    /// Fires the event of `next`, and answers it with its start and its finish. Takes no memory.
    pub fn fire(&mut self) -> Fired
        requires { CanFire C.greatest self.old }
        ensures { IsFire C.stepped self.old self.new result }
    {
        let Some(key) = self.waiting.take_first() else {
            unreachable!()
        };
        let event = self.here[key.number as usize];
        let own_place = self.own_places[usize::from(event.component)];
        let finish = self.comps.as_mut_slice()[usize::from(own_place)].step(event.kind, key.start);
        let fired = Fired {
            number: event.number,
            start: key.start,
            finish,
        };
        self.fired.push_reserved(fired);
        tell_children(
            &mut self.waiting,
            &self.links,
            self.heads[key.number as usize],
            finish,
        );
        fired
    }

    /// The events that it fired, in its order.
    pub fn fired(&self) -> &[Fired]
        ensures { self.now.own.fired ≡ map (timed_from self.now.events) result.now }
    {
        &self.fired
    }

    /// The components.
    pub fn finish(self) -> Comps<C>
        ensures { result ≡ self.comps }
    {
        self.comps
    }
}
