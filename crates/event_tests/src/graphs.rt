//! Graphs of loads: worked cycles, and that the calls succeed.
use crate::loads::{Load, MISS, entry, graph_of, plain};
use event_graph::{Event, Expand, Fired, FiredList, Graph, Kind, Parent, Plain};
use std::process::Abort;
use zs_num::{Cycle, Outcome};

/// An outcome, and the time at zero load and the number of events.
type ZeroLoad = (Outcome, u64, u16);

static AT_ZERO_LOAD: [ZeroLoad; 7] = [
    (Outcome::Hit, 1, 0),
    (Outcome::Upgrade { others: false }, 11, 1),
    (Outcome::Upgrade { others: true }, 16, 1),
    (Outcome::L2 { others: false }, 11, 1),
    (Outcome::L2 { others: true }, 16, 1),
    (MISS, 113, 3),
    (Outcome::Miss { dirty_victim: true }, 113, 4),
];

/// Checks the time at zero load and the number of events of a load.
fn takes(rt: &impl Abort, plain: &Plain, load: &Load, time: u64, count: u16) {
    let entry = entry(load);
    assert!(rt; plain.time(&entry) == time);
    assert!(rt; plain.count(&entry) == count);
}

/// Checks each row.
fn take_these(rt: &impl Abort, plain: &Plain, rows: &[ZeroLoad]) {
    for &(outcome, time, count) in rows {
        takes(rt, plain, &(0, 6, outcome), time, count);
    }
}

#[test]
fn accesses_take_their_zero_load_times(rt: HostRuntime) {
    take_these(&rt, &plain(&rt), &AT_ZERO_LOAD);
}

/// The core, the component, the kind, the first and last cycle in the bound phase and the parent of
/// an event, and whether its core waits for it.
pub(crate) type Row = (u16, u16, Kind, Cycle, Cycle, Option<u32>, bool);

static SIX_EVENTS: [Row; 6] = [
    (0, 0, Kind::Lookup, 2, 12, None, false),
    (0, 1, Kind::Read, 12, 112, Some(0), false),
    (0, 0, Kind::Fill, 112, 114, Some(1), true),
    (1, 0, Kind::Lookup, 2, 12, None, false),
    (1, 1, Kind::Read, 12, 112, Some(3), false),
    (1, 0, Kind::Fill, 112, 114, Some(4), true),
];

/// The event of a row.
fn event_of(number: u32, row: &Row) -> Event {
    let &(core, component, kind, min_start, min_finish, parent, critical) = row;
    let first = match parent {
        Some(number) => Some(Parent { number, delay: 0 }),
        None => None,
    };
    Event {
        number,
        core,
        component,
        kind,
        min_start,
        min_finish,
        critical,
        first,
        second: None,
    }
}

/// Checks an event.
fn is_event(rt: &impl Abort, found: &Event, wanted: &Event) {
    assert!(rt; *found == *wanted);
}

/// Checks that the events are those of the rows, numbered in their order.
pub(crate) fn are_events(rt: &impl Abort, events: &[Event], rows: &[Row]) {
    assert!(rt; events.len() == rows.len());
    let mut number = 0u32;
    for (event, row) in events.iter().zip(rows) {
        is_event(rt, event, &event_of(number, row));
        number = number.wrapping_add(1);
    }
}

static TWO_AT_ONCE: [Load; 2] = [(0, 1, MISS), (1, 1, MISS)];

#[test]
fn two_cores_that_miss_at_once_make_six_events(rt: HostRuntime) {
    are_events(&rt, graph_of(&rt, &TWO_AT_ONCE).events(), &SIX_EVENTS);
}

/// Of two misses of a core, the finish of the first, and the start, the first parent and the finish
/// of the second.
fn first_and_second(events: &[Event]) -> Option<(Cycle, Cycle, Option<Parent>, Cycle)> {
    if events.len() != 6 {
        return None;
    }
    let (first, second) = (events[2], events[3]);
    Some((
        first.min_finish,
        second.min_start,
        second.first,
        events[5].min_finish,
    ))
}

/// Checks these times and this parent of the two misses.
fn goes_on(rt: &impl Abort, events: &[Event], wanted: (Cycle, Cycle, Option<Parent>, Cycle)) {
    assert!(rt; first_and_second(events) == Some(wanted));
}

static IN_TURN: [Load; 2] = [(0, 2, MISS), (0, 116, MISS)];

#[test]
fn a_core_goes_on_from_its_last_critical_event(rt: HostRuntime) {
    let parent = Parent {
        number: 2,
        delay: 2,
    };
    let wanted = (115, 117, Some(parent), 229);
    goes_on(&rt, graph_of(&rt, &IN_TURN).events(), wanted);
}

/// So many misses of core 0 at cycle 1.
fn misses(rt: &(impl Abort + AllocGlobal), count: usize) -> Vec<Load> {
    vec![in rt.alloc(); (0, 1, MISS); count].expect(rt, "memory")
}

/// Checks how many events there are, and the number and the first parent of the last.
fn ends_with(rt: &impl Abort, events: &[Event], count: usize, number: u32, parent: Parent) {
    assert!(rt; events.len() == count);
    let Some(last) = events.last() else {
        panic!(rt; "no events");
    };
    assert!(rt; last.number == number);
    assert!(rt; last.first == Some(parent));
}

#[test]
fn a_graph_may_have_more_events_than_two_bytes_count(rt: HostRuntime) {
    let graph = graph_of(&rt, &misses(&rt, 22_000));
    let parent = Parent {
        number: 65_998,
        delay: 0,
    };
    ends_with(&rt, graph.events(), 66_000, 65_999, parent);
}

/// Whether this is the one fired event of a list.
fn is_alone(list: &[Fired], fired: &Fired) -> bool {
    list.len() == 1 && list[0] == *fired
}

/// A list of one fired event.
fn list_of(rt: &(impl Abort + AllocGlobal), fired: &Fired) -> FiredList {
    FiredList::of(vec![in rt.alloc(); *fired].expect(rt, "memory"))
}

/// Checks that a list of one fired event has it.
fn keeps(rt: &(impl Abort + AllocGlobal), fired: &Fired) {
    let list = list_of(rt, fired);
    assert!(rt; is_alone(list.as_slice(), fired));
    assert!(rt; is_alone(&list.into_list(), fired));
}

#[test]
fn fired_events_are_kept(rt: HostRuntime) {
    assert!(rt; Graph::of(Vec::new(rt.alloc())).events().is_empty());
    keeps(&rt, &FIRED);
}

static FIRED: Fired = Fired {
    number: 0,
    start: 2,
    finish: 12,
};
