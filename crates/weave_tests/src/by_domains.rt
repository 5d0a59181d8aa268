//! The weave by domains in one thread, which goes to the domain whose ready event is first.
ghost use Rattle.domain_map.specs.Domains.{IsPartition};

use crate::driven::Driven;
use crate::server::Server;
use crate::ways::add_frees;
use domain_map::{Crossing, Parts};
use event_graph::{Fired, Graph};
use std::alloc::Global;
use zs_num::{Cycle, Key, Word};

/// The crossings out of each event: for each event the last of them, and for each crossing the one
/// before of the same parent. Both are numbers of crossings and 1; 0 is none.
#[derive(Drop)]
struct Outgoing {
    last: Vec<u32>,
    before: Vec<u32>,
}

impl Outgoing {
    fn of(alloc: Global, events: usize, crossings: &[Crossing]) -> Option<Self> {
        let mut outgoing = Outgoing {
            last: vec![in alloc; 0; events].ok()?,
            before: Vec::new(alloc),
        };
        outgoing.add(crossings)?;
        Some(outgoing)
    }

    fn add(&mut self, crossings: &[Crossing]) -> Option<()> {
        let mut number = 0u32;
        for crossing in crossings {
            let parent = crossing.parent as usize;
            number = number.wrapping_add(1);
            let mut earlier = 0;
            if parent < self.last.len() {
                earlier = self.last[parent];
                self.last[parent] = number;
            }
            self.before.push(earlier).ok()?;
        }
        Some(())
    }
}

/// What the domains leave.
#[derive(Drop)]
pub(crate) struct LeftByDomains {
    /// The events in order of their numbers.
    pub(crate) fired: Vec<Fired>,
    /// For each server of a domain, one domain after the other, the cycle from which on it is free.
    pub(crate) frees: Vec<Cycle>,
    /// How often it went to a domain.
    pub(crate) visits: u32,
}

impl LeftByDomains {
    /// So many events, of which none has fired.
    pub(crate) fn new(alloc: Global, count: usize) -> Option<Self> {
        let unfired = Fired {
            number: 0,
            start: 0,
            finish: 0,
        };
        Some(LeftByDomains {
            fired: vec![in alloc; unfired; count].ok()?,
            frees: Vec::new(alloc),
            visits: 0,
        })
    }
}

/// What stands for a domain that has no ready event.
const NONE_READY: Key = Key {
    start: u64::MAX,
    number: u32::MAX,
};

/// The domains, and for each its first ready event.
#[derive(Drop)]
struct ReadyDomains<'a> {
    domains: Vec<Driven<'a>>,
    first: Vec<Key>,
}

impl<'a> ReadyDomains<'a> {
    fn new(alloc: Global) -> Self {
        ReadyDomains {
            domains: Vec::new(alloc),
            first: Vec::new(alloc),
        }
    }

    /// Takes in the domains of a graph, before their first events fire, or answers `None` where
    /// memory runs out or their conditions are not seen to hold.
    fn prepare(
        &mut self,
        alloc: Global,
        graph: &'a Graph,
        parts: &'a Parts,
        servers: &[Server],
    ) -> Option<()>
        requires { IsPartition graph.now parts.now }
    {
        for number in 0..parts.domains() {
            self.add(Driven::prepare(alloc, graph, parts, number, servers)?)?;
        }
        Some(())
    }

    /// Takes in a domain.
    fn add(&mut self, domain: Driven<'a>) -> Option<()> {
        self.first
            .push(domain.earliest().unwrap_or(NONE_READY))
            .ok()?;
        self.domains.push(domain).ok()
    }

    /// Looks again at which event of a domain is ready first.
    fn refresh(&mut self, number: usize) {
        if number < self.domains.len() && number < self.first.len() {
            self.first[number] = self.domains[number].earliest().unwrap_or(NONE_READY);
        }
    }

    /// The domain whose ready event is first, and that event's start.
    fn least(&self) -> Option<(usize, Cycle)> {
        let mut least = NONE_READY;
        let mut found = None;
        for number in 0..self.first.len() {
            let key = self.first[number];
            if key.start < least.start || (key.start == least.start && key.number < least.number) {
                least = key;
                found = Some((number, key.start));
            }
        }
        found
    }

    /// Fires the first event of a domain, if it may, and tells the domains of its children.
    fn fire(
        &mut self,
        number: usize,
        crossings: &[Crossing],
        outgoing: &Outgoing,
    ) -> Option<Fired> {
        if number >= self.domains.len() {
            return None;
        }
        let fired = self.domains[number].fire()?;
        self.publish(crossings, outgoing, fired);
        Some(fired)
    }

    /// Tells the domains of the children of an event its finish.
    fn publish(&mut self, crossings: &[Crossing], outgoing: &Outgoing, fired: Fired) {
        let event = fired.number as usize;
        if event >= outgoing.last.len() {
            return;
        }
        let mut next = outgoing.last[event];
        for _ in 0..crossings.len() {
            if next == 0 {
                return;
            }
            let number = next - 1;
            let index = number as usize;
            if index >= crossings.len() || index >= outgoing.before.len() {
                return;
            }
            let target = usize::from(crossings[index].target);
            if target < self.domains.len() {
                self.domains[target].tell(number, Word::Exact(fired.finish));
                self.refresh(target);
            }
            next = outgoing.before[index];
        }
    }

    /// The domain with the first ready event fires as long as it may. No event starts before that
    /// one, so its start is the domain's floor.
    fn go(&mut self, crossings: &[Crossing], outgoing: &Outgoing, times: &mut [Fired]) -> bool {
        let Some((number, floor)) = self.least() else {
            return false;
        };
        if number < self.domains.len() {
            self.domains[number].set_floor(floor);
        }
        for _ in 0..times.len() {
            let Some(fired) = self.fire(number, crossings, outgoing) else {
                break;
            };
            let event = fired.number as usize;
            if event < times.len() {
                times[event] = fired;
            }
        }
        self.refresh(number);
        true
    }

    /// Goes to domains until none has a ready event, and answers how often it went.
    fn weave(&mut self, crossings: &[Crossing], outgoing: &Outgoing, times: &mut [Fired]) -> u32 {
        let mut visits = 0u32;
        for _ in 0..times.len() {
            if !self.go(crossings, outgoing, times) {
                break;
            }
            visits = visits.wrapping_add(1);
        }
        visits
    }

    /// Adds for each server of a domain, one domain after the other, the cycle from which on it is
    /// free. `None` where memory ran out for one; the others are there all the same.
    fn finish(self, frees: &mut Vec<Cycle>) -> Option<()> {
        let mut all = Some(());
        for domain in self.domains {
            if add_frees(domain.finish().as_slice(), frees).is_none() {
                all = None;
            }
        }
        all
    }
}

/// Weaves a graph that was partitioned, and puts down what that leaves in `left`, which is for as
/// many events. `None` where memory runs out or its conditions are not seen to hold.
pub(crate) fn weave_by_domains(
    alloc: Global,
    graph: &Graph,
    parts: &Parts,
    servers: &[Server],
    left: &mut LeftByDomains,
) -> Option<()>
    requires { IsPartition graph.now parts.now }
{
    let outgoing = Outgoing::of(alloc, graph.events().len(), parts.crossings())?;
    let mut all = ReadyDomains::new(alloc);
    all.prepare(alloc, graph, parts, servers)?;
    left.visits = all.weave(parts.crossings(), &outgoing, &mut left.fired);
    all.finish(&mut left.frees)
}
