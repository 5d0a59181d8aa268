//! How the events of an interval are made from its accesses.
ghost use Rattle.std.specs.Prelude.{◌≡◌, ◌+◌, ◌<◌, ◌≤◌, ◌^◌, ◌++◌, ◌∷◌, [], IfOk, All, length, vec_capacity, vec_len, sum_by};
ghost use Rattle.std.specs.Option.{ForSome};
ghost use Rattle.event_graph.specs.EventGraph.{all_events, access_events};
ghost use Rattle.event_graph.specs.NextEvent.{HasLast, parent_among, next_event};

use crate::{Event, Expand, Graph, Parent, Piece};
use std::alloc::Global;
use zs_num::{Cycle, Entries, Entry, NoMemory};

/// What is kept of a core's last critical event: its number, and its finish at zero load.
#[derive(Clone, Copy)]
struct Critical {
    number: u32,
    finish: Cycle,
}

/// The event at a place of the access whose event 0 has the number `base`, as a parent of an event
/// that starts then.
fn parent_at(events: &[Event], base: u32, place: Option<u16>, start: Cycle) -> Option<Parent>
    requires { ForSome place (λ i. base + i < length events.now) }
    ensures { result ≡ parent_among events.now base start place }
{
    match place {
        None => None,
        Some(i) => {
            let parent = events[base as usize + usize::from(i)];
            Some(Parent {
                number: parent.number,
                delay: start.saturating_sub(parent.min_finish),
            })
        }
    }
}

/// Where an event stands: the number of its access's event 0, its place, and whether it is the
/// last.
#[derive(Clone, Copy)]
struct Position {
    base: u32,
    place: u16,
    last: bool,
}

/// The next event of an access. `events` has those before it, and `earlier` is what is kept of the
/// core's last critical event before the access.
fn event_of(
    events: &[Event],
    earlier: Option<Critical>,
    entry: &Entry,
    position: Position,
    piece: Piece,
) -> Event
    requires number { position.base + position.place < 2 ^ 32 }
    requires cycles { entry.now.start + piece.offset + piece.time < 2 ^ 64 }
    requires first { ForSome piece.first (λ i. position.base + i < length events.now) }
    requires second { ForSome piece.second (λ i. position.base + i < length events.now) }
    ensures { result ≡ next_event events.now earlier entry.now position.base position.place position.last piece }
{
    let start = entry.start + piece.offset;
    let first = if position.place == 0 {
        match earlier {
            None => None,
            Some(critical) => Some(Parent {
                number: critical.number,
                delay: start.saturating_sub(critical.finish),
            }),
        }
    } else {
        parent_at(events, position.base, piece.first, start)
    };
    Event {
        number: position.base + u32::from(position.place),
        core: entry.core,
        component: piece.component,
        kind: piece.kind,
        min_start: start,
        min_finish: start + piece.time,
        critical: position.last,
        first,
        second: parent_at(events, position.base, piece.second, start),
    }
}

/// Puts an event behind the others, for which there is room, and keeps what is kept of critical
/// events.
fn push_event(events: &mut Vec<Event>, last: &mut Vec<Option<Critical>>, event: Event)
    requires room { vec_len events.old < vec_capacity events.old }
    requires core { event.core < vec_len last.old }
    requires last { HasLast last.old.items events.old.items }
    ensures pushed { events.new.items ≡ events.old.items ++ event ∷ [] }
    ensures capacity { vec_capacity events.new ≡ vec_capacity events.old }
    ensures last { HasLast last.new.items events.new.items }
    ensures cores { vec_len last.new ≡ vec_len last.old }
{
    events.push_reserved(event);
    if event.critical {
        last[usize::from(event.core)] = Some(Critical {
            number: event.number,
            finish: event.min_finish,
        });
    }
}

/// Puts the events of an access behind those of the accesses before it. There is room for them. Most
/// accesses are hits, which make none.
#[inline(always)]
fn add_access<X: Expand>(
    events: &mut Vec<Event>,
    last: &mut Vec<Option<Critical>>,
    expansion: &X,
    entry: &Entry,
)
    requires room { vec_len events.old + length (X.pieces expansion.now entry.now) ≤ vec_capacity events.old }
    requires core { entry.now.core < vec_len last.old }
    requires last { HasLast last.old.items events.old.items }
    requires start { entry.now.start < 2 ^ 62 }
    requires few { vec_len events.old + length (X.pieces expansion.now entry.now) < 2 ^ 32 }
    ensures added { events.new.items ≡ events.old.items ++ access_events events.old.items entry.now (X.pieces expansion.now entry.now) }
    ensures capacity { vec_capacity events.new ≡ vec_capacity events.old }
    ensures last { HasLast last.new.items events.new.items }
    ensures cores { vec_len last.new ≡ vec_len last.old }
{
    let count = expansion.count(entry);
    if count == 0 {
        return;
    }
    let base = events.len() as u32;
    let earlier = last[usize::from(entry.core)];
    for place in 0..count {
        let piece = expansion.piece(entry, place);
        let position = Position {
            base,
            place,
            last: place + 1 == count,
        };
        let event = event_of(events, earlier, entry, position, piece);
        push_event(events, last, event);
    }
}

/// How many events the accesses are made of.
fn count_events<X: Expand>(expansion: &X, entries: &[Entry]) -> usize
    requires { sum_by (λ e. length (X.pieces expansion.now e)) entries.now < 2 ^ 32 }
    ensures { result ≡ sum_by (λ e. length (X.pieces expansion.now e)) entries.now }
{
    entries
        .iter()
        .map(|e| usize::from(expansion.count(e)))
        .sum()
}

/// The events of all accesses of an interval, numbered in the order of the entries and then in the
/// order of the places. Entries in recorded order give the events of the interval.
pub fn build<X: Expand>(
    alloc: Global,
    expansion: &X,
    entries: &Entries,
    cores: u16,
) -> Result<Graph, NoMemory>
    requires cores { All (λ e. e.core < cores) entries.now }
    requires starts { All (λ e. e.start < 2 ^ 62) entries.now }
    requires few { sum_by (λ e. length (X.pieces expansion.now e)) entries.now < 2 ^ 32 }
    ensures { IfOk result (λ g. g ≡ all_events (X.pieces expansion.now) entries.now) }
{
    let mut last = Vec::with_capacity(alloc, usize::from(cores))?;
    for _core in 0..cores {
        last.push_reserved(None);
    }
    let mut events = Vec::with_capacity(alloc, count_events(expansion, entries.as_slice()))?;
    for entry in entries.as_slice() {
        add_access(&mut events, &mut last, expansion, entry);
    }
    Ok(Graph::of(events))
}
