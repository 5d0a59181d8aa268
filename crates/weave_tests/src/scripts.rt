//! Domains that are driven by hand: each step of a script, and what the domain answers.
ghost use Rattle.domain_map.specs.Domains.{IsPartition};

use crate::driven::Driven;
use crate::graphs::{TWO_BANKS, graph_of, in_domains};
use crate::page::Page;
use crate::server::Server;
use crate::worked::{BANKS, RING, Row, TIE, listed};
use component::Kind;
use domain_map::Parts;
use event_graph::{Fired, Graph};
use std::alloc::Global;
use weave_core::Next;
use zs_num::{Cycle, Key, Word};

/// What a domain is asked or told.
#[derive(Clone, Copy)]
enum Step {
    Next,
    Earliest,
    Fire,
    Floor(Cycle),
    Tell(u32, Word),
    Bound(u32),
}

/// A step, and the number of the domain that makes it.
type Line = (usize, Step);

static OF_NONE: [Line; 2] = [(1, Step::Next), (1, Step::Earliest)];

static OF_RING: [Line; 13] = [
    (0, Step::Next),
    (0, Step::Fire),
    (0, Step::Next),
    (1, Step::Fire),
    (1, Step::Next),
    (1, Step::Tell(0, Word::Exact(10))),
    (1, Step::Fire),
    (1, Step::Next),
    (0, Step::Tell(1, Word::Exact(10))),
    (0, Step::Earliest),
    (0, Step::Fire),
    (0, Step::Next),
    (1, Step::Earliest),
];

static OF_TIE: [Line; 6] = [
    (1, Step::Earliest),
    (1, Step::Next),
    (1, Step::Tell(0, Word::Exact(10))),
    (1, Step::Fire),
    (1, Step::Fire),
    (1, Step::Next),
];

/// Event 1 waits for one in the other domain, and event 2 could start at cycle 35.
static LATER: [Row; 3] = [
    (0, Kind::Lookup, 30, None),
    (1, Kind::Lookup, 0, Some(0)),
    (1, Kind::Lookup, 35, None),
];

static OF_BOUND: [Line; 12] = [
    (0, Step::Bound(0)),
    (1, Step::Bound(0)),
    (1, Step::Next),
    (1, Step::Tell(0, Word::Bound(40))),
    (1, Step::Next),
    (1, Step::Fire),
    (1, Step::Next),
    (0, Step::Fire),
    (0, Step::Bound(0)),
    (1, Step::Tell(0, Word::Exact(40))),
    (1, Step::Fire),
    (1, Step::Next),
];

static OF_FLOOR: [Line; 4] = [
    (1, Step::Floor(25)),
    (1, Step::Next),
    (1, Step::Floor(26)),
    (1, Step::Next),
];

/// Makes a step, and writes what the domain answers.
fn play(number: usize, domain: &mut Driven, step: Step, page: &mut Page) {
    page.count("  ", number as u64);
    match step {
        Step::Next => write_next(domain.next(), page),
        Step::Earliest => write_earliest(domain.earliest(), page),
        Step::Fire => write_fired(domain.fire(), page),
        Step::Floor(cycle) => write_floor(cycle, domain.set_floor(cycle), page),
        Step::Tell(crossing, word) => {
            write_told(crossing, word, domain.tell(crossing, word), page);
        }
        Step::Bound(crossing) => write_bound(crossing, domain.bound(crossing), page),
    }
    page.line("");
}

fn write_key(key: Key, page: &mut Page) {
    page.count("Key { start: ", key.start);
    page.count(", number: ", u64::from(key.number));
    page.text(" }");
}

fn write_next(next: Next, page: &mut Page) {
    page.text(" next: ");
    match next {
        Next::Fire { key } => {
            page.text("Fire { key: ");
            write_key(key, page);
            page.text(" }");
        }
        Next::Blocked { crossing, bound } => {
            page.count("Blocked { crossing: ", u64::from(crossing));
            page.count(", bound: ", bound);
            page.text(" }");
        }
        Next::Done => page.text("Done"),
    }
}

fn write_earliest(earliest: Option<Key>, page: &mut Page) {
    page.text(" earliest: ");
    match earliest {
        Some(key) => {
            page.text("Some(");
            write_key(key, page);
            page.text(")");
        }
        None => page.text("None"),
    }
}

fn write_fired(fired: Option<Fired>, page: &mut Page) {
    page.text(" fires: ");
    match fired {
        Some(fired) => {
            page.count("Some(Fired { number: ", u64::from(fired.number));
            page.count(", start: ", fired.start);
            page.count(", finish: ", fired.finish);
            page.text(" })");
        }
        None => page.text("None"),
    }
}

fn write_floor(cycle: Cycle, is_set: bool, page: &mut Page) {
    page.count(" floor ", cycle);
    page.text(": ");
    page.truth(is_set);
}

fn write_told(crossing: u32, word: Word, is_told: bool, page: &mut Page) {
    page.count(" told of ", u64::from(crossing));
    match word {
        Word::Bound(cycle) => page.count(" Bound(", cycle),
        Word::Exact(cycle) => page.count(" Exact(", cycle),
    }
    page.text("): ");
    page.truth(is_told);
}

fn write_bound(crossing: u32, bound: Option<Option<Cycle>>, page: &mut Page) {
    page.count(" bound of ", u64::from(crossing));
    match bound {
        Some(Some(cycle)) => {
            page.count(": Some(", cycle);
            page.text(")");
        }
        Some(None) => page.text(": None"),
        None => page.text(": not its crossing"),
    }
}

/// Adds both domains, before their first events fire.
fn add_domains<'a>(
    alloc: Global,
    graph: &'a Graph,
    parts: &'a Parts,
    domains: &mut Vec<Driven<'a>>,
) -> Option<()>
    requires { IsPartition graph.now parts.now }
{
    for number in 0..2 {
        let domain = Driven::prepare(alloc, graph, parts, number, &BANKS)?;
        domains.push(domain).ok()?;
    }
    Some(())
}

/// Writes until when these servers are busy.
fn write_busy(servers: &[Server], page: &mut Page) {
    let mut before = "  busy until [";
    for server in servers {
        page.count(before, server.free);
        before = ", ";
    }
    page.line("]");
}

/// Writes until when the servers of each domain are busy.
fn end(domains: Vec<Driven>, page: &mut Page) {
    for domain in domains {
        write_busy(domain.finish().as_slice(), page);
    }
}

/// Makes the steps of a script.
fn play_all(domains: &mut [Driven], script: &[Line], page: &mut Page) {
    for &(number, step) in script {
        if number < domains.len() {
            play(number, &mut domains[number], step, page);
        }
    }
}

/// Drives both domains of a graph through a script. `None` where they cannot be prepared.
fn drive_in(
    alloc: Global,
    graph: &Graph,
    parts: &Parts,
    script: &[Line],
    page: &mut Page,
) -> Option<()>
    requires { IsPartition graph.now parts.now }
{
    let mut domains = Vec::new(alloc);
    add_domains(alloc, graph, parts, &mut domains)?;
    play_all(&mut domains, script, page);
    end(domains, page);
    Some(())
}

/// Drives both domains of the graph of these rows through a script. `None` where they make none, or
/// the domains cannot be prepared.
fn drive_rows(alloc: Global, rows: &[Row], script: &[Line], page: &mut Page) -> Option<()> {
    let graph = graph_of(listed(alloc, rows)?, &BANKS)?;
    let parts = in_domains(alloc, &graph, TWO_BANKS)?;
    drive_in(alloc, &graph, &parts, script, page)
}

fn drive(alloc: Global, name: &str, rows: &[Row], script: &[Line], page: &mut Page) {
    page.line(name);
    if drive_rows(alloc, rows, script, page).is_none() {
        page.line("  not driven");
    }
}

/// Drives domains through all scripts.
pub(crate) fn run(alloc: Global, page: &mut Page) {
    drive(
        alloc,
        "a domain without events is done",
        &[],
        &OF_NONE,
        page,
    );
    drive(
        alloc,
        "the domains of a ring wait for each other",
        &RING,
        &OF_RING,
        page,
    );
    drive(alloc, "at a tie a domain waits", &TIE, &OF_TIE, page);
    drive(
        alloc,
        "a bound lets earlier events fire",
        &LATER,
        &OF_BOUND,
        page,
    );
    drive(
        alloc,
        "a floor lets earlier events fire",
        &LATER,
        &OF_FLOOR,
        page,
    );
}
