//! Who passes the gate before which event.
ghost use Rattle.domain_map.specs.Domains.{IsPartition};

use crate::fitting::{LIMIT, is_graph};
use crate::graphs::{Layout, event, graph_of, idle, in_domains};
use crate::page::Page;
use crate::watched::{Watched, WatchingGate};
use component::{Comps, Kind};
use domain_map::Parts;
use event_graph::{Event, Graph, laws};
use std::alloc::Global;
use std::thread::Threads;
use weave_run::weave;
use weave_seq::weave_gated;

/// Five banks and two controllers in five domains. No number of a domain is that of its component.
const FIVE_DOMAINS: Layout = Layout {
    domains: 5,
    banks: &[3, 0, 4, 1, 0],
    controllers: &[2, 4],
};

/// The component and the parent of an event. Three events are of domain 0, two of domain 1, four of
/// domain 2, one of domain 3 and five of domain 4. The events 0 to 4 can fire at once, in all
/// domains. Event 5 is of domain 1 and waits for one of domain 4; of three workers, one has both.
static EVENTS: [(u16, Option<u32>); 15] = [
    (1, None),
    (3, None),
    (5, None),
    (0, None),
    (2, None),
    (3, Some(4)),
    (5, Some(5)),
    (4, Some(6)),
    (6, Some(7)),
    (2, None),
    (6, None),
    (5, Some(10)),
    (5, None),
    (1, Some(2)),
    (2, Some(13)),
];

/// Those events, of which each can start at cycle 0.
fn listed(alloc: Global) -> Option<Vec<Event>> {
    let mut events = Vec::with_capacity(alloc, EVENTS.len()).ok()?;
    let mut number = 0u32;
    for &(component, parent) in &EVENTS {
        events
            .push(event(number, component, Kind::Lookup, (0, 10), parent))
            .ok()?;
        number = number.wrapping_add(1);
    }
    Some(events)
}

/// Who weaves.
#[derive(Clone, Copy)]
enum Way {
    /// So many workers, by domains.
    Workers(u16),
    /// One worker, on one list.
    OneList,
}

impl Way {
    fn workers(self) -> u16 {
        match self {
            Way::Workers(count) => count,
            Way::OneList => 1,
        }
    }
}

/// Weaves by so many workers. `None` where memory runs out or the conditions of a weave are not
/// seen to hold.
fn weave_by<R: Threads + Sync>(
    rt: &R,
    alloc: Global,
    graph: &Graph,
    parts: &Parts,
    comps: Comps<Watched>,
    workers: u16,
    gate: &WatchingGate,
) -> Option<()>
    requires { IsPartition graph.now parts.now }
{
    let events = graph.events();
    if workers == 0
        || workers > 64
        || events.len() > LIMIT as usize
        || parts.places().len() != comps.as_slice().len()
        || !is_graph(events, comps.as_slice())
    {
        return None;
    }
    laws::steps_stay_small::<Watched>();
    let _woven = weave(rt, alloc, graph, parts, comps, workers, gate).ok()?;
    Some(())
}

/// Weaves on one list. `None` where memory runs out or the conditions of a weave are not seen to
/// hold.
fn weave_on_one_list(
    alloc: Global,
    graph: &Graph,
    places: &[u16],
    mut comps: Comps<Watched>,
    gate: &WatchingGate,
) -> Option<()> {
    let events = graph.events();
    if events.len() > LIMIT as usize || !is_graph(events, comps.as_slice()) {
        return None;
    }
    laws::steps_stay_small::<Watched>();
    let _fired = weave_gated(alloc, graph, &mut comps, places, gate).ok()?;
    Some(())
}

/// Weaves the events past a gate.
fn weave_past<R: Threads + Sync>(
    rt: &R,
    alloc: Global,
    way: Way,
    gate: &WatchingGate,
) -> Option<()> {
    let servers = idle(alloc, FIVE_DOMAINS.components(), 0)?;
    let graph = graph_of(listed(alloc)?, &servers)?;
    let parts = in_domains(alloc, &graph, FIVE_DOMAINS)?;
    let comps = Comps::of(gate.components(alloc, parts.places())?);
    match way {
        Way::Workers(count) => weave_by(rt, alloc, &graph, &parts, comps, count, gate),
        Way::OneList => weave_on_one_list(alloc, &graph, parts.places(), comps, gate),
    }
}

/// Writes for each worker how often it passed for each domain, and how often each domain was passed
/// for in time.
fn write_passes(alloc: Global, workers: u16, gate: &WatchingGate, page: &mut Page) -> Option<()> {
    for worker in 0..workers {
        page.count("    worker ", u64::from(worker));
        page.text(" passes for domains ");
        page.list(&gate.by(alloc, worker)?);
        page.line("");
    }
    page.text("    before the events ");
    page.list(&gate.in_time(alloc)?);
    page.line("");
    Some(())
}

fn write_way<R: Threads + Sync>(rt: &R, alloc: Global, way: Way, page: &mut Page) -> Option<()> {
    let gate = WatchingGate::new(alloc, way.workers(), FIVE_DOMAINS.domains)?;
    weave_past(rt, alloc, way, &gate)?;
    write_passes(alloc, way.workers(), &gate, page)
}

/// Writes who passes the gate for which domains: worker w of W for those whose number is w modulo
/// W, once for each event, before the event's component takes its step.
pub(crate) fn run<R: Threads + Sync>(rt: &R, alloc: Global, page: &mut Page) {
    page.line("the worker of a domain passes the gate before each event of it");
    for (name, way) in [
        ("  three workers", Way::Workers(3)),
        ("  one worker", Way::Workers(1)),
        ("  one list", Way::OneList),
    ] {
        page.line(name);
        if write_way(rt, alloc, way, page).is_none() {
            page.line("    not woven");
        }
    }
}
