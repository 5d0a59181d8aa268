//! Graphs to weave, and machines that partition them.
ghost use Rattle.std.specs.Prelude.{◌≡◌, ◌+◌, ◌<◌, ◌≤◌, All, IfSome, IsTrue, length};
ghost use Rattle.domain_map.specs.Domains.{IsPartition};
ghost use Rattle.machine_desc.specs.Machine.{IsMachine};

use crate::fitting::is_graph;
use crate::server::Server;
use component::Kind;
use domain_map::{Parts, split};
use event_graph::{Event, Graph, Parent};
use machine_desc::{Controllers, Domains, L1, L2, Machine, Memory, Places, component_count};
use std::alloc::Global;
use zs_num::Cycle;

/// The domains of the components of a machine: of its banks, and of its controllers.
#[derive(Clone, Copy)]
pub(crate) struct Layout<'a> {
    pub(crate) domains: u16,
    pub(crate) banks: &'a [u16],
    pub(crate) controllers: &'a [u16],
}

impl Layout<'_> {
    /// How many components there are.
    pub(crate) fn components(&self) -> usize {
        self.banks.len().saturating_add(self.controllers.len())
    }
}

/// A bank in domain 0 and a controller in domain 1.
pub(crate) const ONE_BANK: Layout = Layout {
    domains: 2,
    banks: &[0],
    controllers: &[1],
};

/// Bank 0 and the controller in domain 0, and bank 1 in domain 1.
pub(crate) const TWO_BANKS: Layout = Layout {
    domains: 2,
    banks: &[0, 1],
    controllers: &[0],
};

/// Whether there are some domains, up to so many, and all of them are there.
fn are_places(places: &[u16], most: usize, domains: u16) -> bool
    ensures some { IsTrue result → 0 < length places.now }
    ensures few { IsTrue result → length places.now ≤ most }
    ensures below { IsTrue result → All (λ domain. domain < domains) places.now }
{
    !places.is_empty() && places.len() <= most && places.iter().all(|domain| *domain < domains)
}

/// A machine whose components are in these domains, or `None` where there is none or memory runs
/// out.
fn machine(alloc: Global, layout: Layout) -> Option<Machine>
    ensures { IfSome result IsMachine }
{
    if layout.domains == 0
        || layout.domains > 64
        || !are_places(layout.banks, 64, layout.domains)
        || !are_places(layout.controllers, 16, layout.domains)
    {
        return None;
    }
    let banks = layout.banks.len() as u16;
    let controllers = layout.controllers.len() as u16;
    Some(Machine {
        version: 1,
        cores: 1,
        interval: 10_000,
        intervals: 1,
        memory: Memory {
            base: 65_536,
            size: 1_048_576,
            stack: 4_096,
        },
        l1: L1 {
            sets: u32::from(banks),
            ways: 1,
            latency: 1,
        },
        l1i: None,
        l2: L2 {
            banks,
            sets: u32::from(banks),
            ways: 2,
            latency: 10,
            remote: 5,
            fill: 2,
            occupancy: 4,
        },
        controllers: Controllers {
            count: controllers,
            read: 100,
            write: 40,
            occupancy: 20,
        },
        domains: Domains {
            count: layout.domains,
            banks: Places::of(Vec::from_slice(alloc, layout.banks).ok()?),
            controllers: Places::of(Vec::from_slice(alloc, layout.controllers).ok()?),
        },
        mesh: None,
        dram: None,
        pipe: None,
    })
}

/// An event of core 0, of which the bound phase lasted from `min_start` to `min_finish`.
pub(crate) fn event(
    number: u32,
    component: u16,
    kind: Kind,
    bound: (Cycle, Cycle),
    parent: Option<u32>,
) -> Event {
    Event {
        number,
        core: 0,
        component,
        kind,
        min_start: bound.0,
        min_finish: bound.1,
        critical: true,
        first: parent.map(|number| Parent { number, delay: 0 }),
        second: None,
    }
}

/// The events of a graph by the domains of a machine, or `None` where there are 2^31 or more, the
/// machine has no such component, or memory runs out.
fn divided(alloc: Global, graph: &Graph, machine: &Machine) -> Option<Parts>
    requires { IsMachine machine.now }
    ensures { IfSome result (λ parts. IsPartition graph.now parts) }
{
    let events = graph.events();
    let components = component_count(machine);
    if events.len() >= 1 << 31 || !events.iter().all(|event| event.component < components) {
        return None;
    }
    split(alloc, graph, machine).ok()
}

/// The events of a graph by these domains, or `None` where no machine has such domains or memory
/// runs out.
pub(crate) fn in_domains(alloc: Global, graph: &Graph, layout: Layout) -> Option<Parts>
    ensures { IfSome result (λ parts. IsPartition graph.now parts) }
{
    let machine = machine(alloc, layout)?;
    divided(alloc, graph, &machine)
}

/// A graph of these events, or `None` where they make none on these servers.
pub(crate) fn graph_of(events: Vec<Event>, servers: &[Server]) -> Option<Graph> {
    if is_graph(&events, servers) {
        Some(Graph::of(events))
    } else {
        None
    }
}

/// So many idle servers, each busy for so many cycles with an event. `None` where memory runs out.
pub(crate) fn idle(alloc: Global, count: usize, occupancy: u64) -> Option<Vec<Server>> {
    vec![in alloc; Server { occupancy, free: 0 }; count].ok()
}

/// A linear congruential generator, with the multiplier and the increment of Knuth's MMIX.
#[derive(Clone, Copy)]
struct Random {
    state: u64,
}

impl Random {
    /// A number below a bound, or 0 where that is 0.
    fn below(&mut self, bound: u64) -> u64
        ensures { 0 < bound → result < bound }
    {
        self.advance();
        if bound == 0 {
            return 0;
        }
        (self.state >> 33) % bound
    }

    /// Goes on to the next state.
    fn advance(&mut self) {
        self.state = self
            .state
            .wrapping_mul(6_364_136_223_846_793_005)
            .wrapping_add(1_442_695_040_888_963_407);
    }
}

/// A kind, and for how long a server serves an event of it, in cycles.
fn random_kind(random: &mut Random) -> (Kind, u64)
    ensures { result.1 ≤ 100 }
{
    match random.below(5) {
        0 => (Kind::Lookup, 10),
        1 => (Kind::Remote, 15),
        2 => (Kind::Fill, 2),
        3 => (Kind::Read, 100),
        _ => (Kind::Write, 100),
    }
}

/// An event of any kind on one of so many components, with up to two parents among the events that
/// were recorded shortly before it.
fn random_event(random: &mut Random, number: u32, components: u16) -> Event
    requires { 0 < components }
{
    let (kind, latency) = random_kind(random);
    let component = random.below(u64::from(components)) as u16;
    let start = random.below(50) + u64::from(number) / 2;
    let mut event = event(number, component, kind, (start, start + latency), None);
    event.first = random_parent(random, number);
    event.second = random_parent(random, number);
    event
}

/// So many such events.
pub(crate) fn random_events(
    alloc: Global,
    count: u32,
    components: u16,
    seed: u64,
) -> Option<Vec<Event>>
    requires { 0 < components }
{
    let mut events = Vec::with_capacity(alloc, count as usize).ok()?;
    add_random(count, components, seed, &mut events)?;
    Some(events)
}

fn add_random(count: u32, components: u16, seed: u64, events: &mut Vec<Event>) -> Option<()>
    requires { 0 < components }
{
    let mut random = Random { state: seed };
    for number in 0..count {
        events
            .push(random_event(&mut random, number, components))
            .ok()?;
    }
    Some(())
}

/// No parent, or one of the 40 events before this one.
fn random_parent(random: &mut Random, number: u32) -> Option<Parent> {
    let back = random.below(80) as u32;
    let delay = random.below(4) * 7;
    let parent = number.checked_sub(back.checked_add(1)?)?;
    (back < 40).then_some(Parent {
        number: parent,
        delay,
    })
}

/// 64 banks and 16 controllers in 16 domains, so that a line's bank and its controller are in one.
pub(crate) const SIXTEEN_DOMAINS: Layout = Layout {
    domains: 16,
    banks: &[
        0, 1, 2, 3, 4, 5, 6, 7, 8, 9, 10, 11, 12, 13, 14, 15, 0, 1, 2, 3, 4, 5, 6, 7, 8, 9, 10, 11,
        12, 13, 14, 15, 0, 1, 2, 3, 4, 5, 6, 7, 8, 9, 10, 11, 12, 13, 14, 15, 0, 1, 2, 3, 4, 5, 6,
        7, 8, 9, 10, 11, 12, 13, 14, 15,
    ],
    controllers: &[0, 1, 2, 3, 4, 5, 6, 7, 8, 9, 10, 11, 12, 13, 14, 15],
};

/// An event of an access to a line, where all miss: 64 cores whose accesses follow each other at
/// once, 64 banks, and 16 controllers, which are the components from 64 on. A bank looks up the
/// line, a controller reads it, and the bank takes it in.
fn miss(number: u32, line: u64) -> Event {
    let access = number / 3;
    let start = u64::from(access / 64) * 112;
    let bank = (line % 64) as u16;
    let before = number.checked_sub(1);
    let mut event = match number % 3 {
        0 => {
            let before = number.checked_sub(3 * 64 - 2);
            event(number, bank, Kind::Lookup, (start, start + 10), before)
        }
        1 => {
            let controller = 64 + (line % 16) as u16;
            event(
                number,
                controller,
                Kind::Read,
                (start + 10, start + 110),
                before,
            )
        }
        _ => event(number, bank, Kind::Fill, (start + 110, start + 112), before),
    };
    event.core = (access % 64) as u16;
    event
}

/// The events of accesses that all miss, each to a random line.
pub(crate) fn misses(alloc: Global, count: u32, seed: u64) -> Option<Vec<Event>> {
    let mut events = Vec::with_capacity(alloc, count as usize).ok()?;
    add_misses(count, seed, &mut events)?;
    Some(events)
}

fn add_misses(count: u32, seed: u64, events: &mut Vec<Event>) -> Option<()> {
    let mut random = Random { state: seed };
    let mut line = 0;
    for number in 0..count {
        if number % 3 == 0 {
            line = random.below(1 << 20);
        }
        events.push(miss(number, line)).ok()?;
    }
    Some(())
}
