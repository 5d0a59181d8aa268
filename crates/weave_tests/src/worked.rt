//! Worked weaves. Each is woven in every way, and its line has when each event starts and finishes
//! and until when the servers are busy.
ghost use Rattle.domain_map.specs.Domains.{IsPartition};

use crate::by_workers::woven_by_workers;
use crate::graphs::{Layout, ONE_BANK, TWO_BANKS, event, graph_of, in_domains};
use crate::page::Page;
use crate::server::Server;
use crate::ways::{Outcome, every_way, outcome_of};
use component::{Component, Kind};
use domain_map::Parts;
use event_graph::{Event, Graph};
use std::alloc::Global;
use std::thread::Threads;
use zs_host::{MeetingGate, OpenGate, Passes};
use zs_num::Cycle;

const WORKERS: [u16; 4] = [1, 2, 7, 64];

/// The component, the kind, the start in the bound phase and the parent of an event.
pub(crate) type Row = (u16, Kind, Cycle, Option<u32>);

/// Two misses at once: a bank looks up the line, a controller reads it, and the bank takes it in.
pub(crate) static TWO_MISSES: [Row; 6] = [
    (0, Kind::Lookup, 2, None),
    (1, Kind::Read, 12, Some(0)),
    (0, Kind::Fill, 112, Some(1)),
    (0, Kind::Lookup, 2, None),
    (1, Kind::Read, 12, Some(3)),
    (0, Kind::Fill, 112, Some(4)),
];

/// Two look-ups, and on the other bank of each a look-up that waits for it.
pub(crate) static RING: [Row; 4] = [
    (0, Kind::Lookup, 0, None),
    (1, Kind::Lookup, 0, None),
    (1, Kind::Lookup, 0, Some(0)),
    (0, Kind::Lookup, 0, Some(1)),
];

/// Two look-ups of one bank that can start at cycle 10.
pub(crate) static TIE: [Row; 3] = [
    (0, Kind::Lookup, 0, None),
    (1, Kind::Lookup, 0, Some(0)),
    (1, Kind::Lookup, 10, None),
];

/// Two domains, of which each fires sooner for what the other says of an event that is yet to fire.
static RAISED: [Row; 5] = [
    (1, Kind::Lookup, 20, None),
    (1, Kind::Lookup, 35, None),
    (0, Kind::Lookup, 30, None),
    (0, Kind::Lookup, 0, Some(1)),
    (1, Kind::Lookup, 0, Some(2)),
];

/// A bank that is busy for 4 cycles with an event, and a controller that is for 20.
pub(crate) static BANK_AND_CONTROLLER: [Server; 2] = [
    Server {
        occupancy: 4,
        free: 0,
    },
    Server {
        occupancy: 20,
        free: 0,
    },
];

/// Two banks and a controller that an event keeps busy for 4 cycles.
pub(crate) static BANKS: [Server; 3] = [Server {
    occupancy: 4,
    free: 0,
}; 3];

/// The events of these rows.
pub(crate) fn listed(alloc: Global, rows: &[Row]) -> Option<Vec<Event>> {
    let mut events = Vec::with_capacity(alloc, rows.len()).ok()?;
    add_rows(rows, &mut events)?;
    Some(events)
}

fn add_rows(rows: &[Row], events: &mut Vec<Event>) -> Option<()> {
    let mut number = 0u32;
    for &(component, kind, start, parent) in rows {
        let finish = start.saturating_add(BANK_AND_CONTROLLER[0].floor(kind));
        events
            .push(event(number, component, kind, (start, finish), parent))
            .ok()?;
        number = number.wrapping_add(1);
    }
    Some(())
}

/// Writes what a weave leaves.
fn write(name: &str, found: Option<&Outcome>, page: &mut Page) {
    page.text(name);
    match found {
        Some(found) => write_outcome(found, page),
        None => page.line(": not woven"),
    }
}

fn write_outcome(found: &Outcome, page: &mut Page) {
    page.line("");
    for fired in &found.fired {
        page.count("  event ", u64::from(fired.number));
        page.count(" from ", fired.start);
        page.count(" to ", fired.finish);
        page.line("");
    }
    page.text("  busy until ");
    page.list(&found.frees);
    page.line("");
}

/// What every way of weaving leaves of the events of these rows.
fn woven<T: Threads + Sync>(
    threads: &T,
    alloc: Global,
    rows: &[Row],
    servers: &[Server],
    layout: Layout,
) -> Option<Outcome> {
    let graph = graph_of(listed(alloc, rows)?, servers)?;
    every_way(threads, alloc, &graph, servers, layout, &WORKERS)
}

/// Writes what every way of weaving leaves of the events of these rows.
fn write_woven<T: Threads + Sync>(
    threads: &T,
    alloc: Global,
    name: &str,
    rows: &[Row],
    servers: &[Server],
    layout: Layout,
    page: &mut Page,
) {
    let found = woven(threads, alloc, rows, servers, layout);
    write(name, found.as_ref(), page);
}

/// Writes the worked weaves.
pub(crate) fn run<T: Threads + Sync>(threads: &T, alloc: Global, page: &mut Page) {
    write_woven(
        threads,
        alloc,
        "two misses wait for each other at a bank and a controller",
        &TWO_MISSES,
        &BANK_AND_CONTROLLER,
        ONE_BANK,
        page,
    );
    write_woven(
        threads,
        alloc,
        "a ring of two banks",
        &RING,
        &BANKS,
        TWO_BANKS,
        page,
    );
    write_woven(
        threads,
        alloc,
        "at a tie the lesser number is served first",
        &TIE,
        &BANKS,
        TWO_BANKS,
        page,
    );
}

/// In how many rounds one worker weaves a graph by two banks, and what that leaves.
fn by_one<T: Threads + Sync>(
    threads: &T,
    alloc: Global,
    graph: &Graph,
    parts: &Parts,
) -> Option<(u32, Outcome)>
    requires { IsPartition graph.now parts.now }
{
    let woven = woven_by_workers(threads, alloc, graph, parts, &BANKS, 1, &OpenGate)?;
    let left = outcome_of(alloc, woven.fired.as_slice(), woven.comps.as_slice())?;
    Some((woven.rounds, left))
}

/// What one worker leaves of these rows.
fn woven_by_one<T: Threads + Sync>(
    threads: &T,
    alloc: Global,
    rows: &[Row],
) -> Option<(u32, Outcome)> {
    let graph = graph_of(listed(alloc, rows)?, &BANKS)?;
    let parts = in_domains(alloc, &graph, TWO_BANKS)?;
    by_one(threads, alloc, &graph, &parts)
}

/// One worker raises bounds: in two rounds it fires what takes three without.
pub(crate) fn run_by_one<T: Threads + Sync>(threads: &T, alloc: Global, page: &mut Page) {
    let name = "what a domain says of later events saves a round";
    match woven_by_one(threads, alloc, &RAISED) {
        Some((rounds, left)) => {
            write(name, Some(&left), page);
            page.count("  rounds ", u64::from(rounds));
            page.line("");
        }
        None => write(name, None, page),
    }
}

/// What two workers leave of a graph at a gate.
fn by_two<T: Threads + Sync>(
    threads: &T,
    alloc: Global,
    graph: &Graph,
    parts: &Parts,
    gate: &MeetingGate,
) -> Option<Outcome>
    requires { IsPartition graph.now parts.now }
{
    let woven = woven_by_workers(threads, alloc, graph, parts, &BANKS, 2, gate)?;
    outcome_of(alloc, woven.fired.as_slice(), woven.comps.as_slice())
}

/// What two workers leave of the ring at a gate.
fn woven_at<T: Threads + Sync>(threads: &T, alloc: Global, gate: &MeetingGate) -> Option<Outcome> {
    let graph = graph_of(listed(alloc, &RING)?, &BANKS)?;
    let parts = in_domains(alloc, &graph, TWO_BANKS)?;
    by_two(threads, alloc, &graph, &parts, gate)
}

/// Domains 0 and 1 both come to their first fire before either makes it, so two workers run them
/// beside each other.
pub(crate) fn run_at_a_gate<T: Threads + Sync>(threads: &T, alloc: Global, page: &mut Page) {
    let gate = MeetingGate::new();
    let found = woven_at(threads, alloc, &gate);
    let name = "two workers fire in two domains beside each other";
    write(name, found.as_ref(), page);
    write_passes(gate.domains(), page);
}

fn write_passes(passes: Passes, page: &mut Page) {
    page.count("  Passes { first: ", passes.first);
    page.count(", second: ", passes.second);
    page.count(", met: ", passes.met);
    page.line(" }");
}
