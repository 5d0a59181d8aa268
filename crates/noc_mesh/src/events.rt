//! The events of an access by their places. Each function is of the events up to a stop, and asks
//! the one before it for those that it does not add.
ghost use Rattle.std.specs.Prelude.{◌≡◌, ◌+◌, ◌<◌, Some, length, max, slice_get, suc, true};
ghost use Rattle.event_graph.specs.PathInRange.{IsAccessPath};
ghost use Rattle.zs_num.specs.declared.entry.Outcome.TheVariants.{Miss};
ghost use Rattle.noc_mesh.specs.NetTiming as timing;
ghost use Rattle.noc_mesh.specs.Passages.{piece_of};
ghost use Rattle.noc_mesh.specs.Standings.{standing_of};

use crate::hops::hop;
use crate::stage::{fills, looks_up, reads, writes};
use crate::{Standing, Stop, course};
use event_graph::{AccessPath, Piece};
use zs_num::Entry;

/// A hop to the bank.
fn on_the_way(path: &AccessPath, entry: &Entry, place: u16) -> Piece
    requires path { IsAccessPath path.now }
    requires place { place < length (timing.reached path.now entry.now).pieces }
    ensures { slice_get (timing.reached path.now entry.now).pieces place ≡ Some result }
{
    let begun = Standing::begun(path.head(entry));
    hop(path, entry, begun, Stop::Core, Stop::Bank, place)
}

/// An event up to the look-up; `others`: another core has to change its copy.
fn at_the_bank(path: &AccessPath, entry: &Entry, others: bool, place: u16) -> Piece
    requires path { IsAccessPath path.now }
    requires place { place < length (timing.looked_up path.now entry.now others).pieces }
    ensures { slice_get (timing.looked_up path.now entry.now others).pieces place ≡ Some result }
{
    let reached = course::reached(path, entry);
    if place < reached.events {
        on_the_way(path, entry, place)
    } else {
        reached.event(looks_up(path, entry, others))
    }
}

/// An event of an access that the shared cache answers.
pub(crate) fn answered(path: &AccessPath, entry: &Entry, others: bool, place: u16) -> Piece
    requires path { IsAccessPath path.now }
    requires place { place < length (timing.answered path.now entry.now others).pieces }
    ensures { slice_get (timing.answered path.now entry.now others).pieces place ≡ Some result }
{
    let looked_up = course::looked_up(path, entry, others);
    if place < looked_up.events {
        at_the_bank(path, entry, others, place)
    } else {
        let behind = place - looked_up.events;
        hop(path, entry, looked_up, Stop::Bank, Stop::Core, behind)
    }
}

/// An event of a miss up to the controller.
fn on_to_memory(path: &AccessPath, entry: &Entry, place: u16) -> Piece
    requires path { IsAccessPath path.now }
    requires place { place < length (timing.missed path.now entry.now).pieces }
    ensures { slice_get (timing.missed path.now entry.now).pieces place ≡ Some result }
{
    let looked_up = course::looked_up(path, entry, false);
    if place < looked_up.events {
        at_the_bank(path, entry, false, place)
    } else {
        let behind = place - looked_up.events;
        hop(path, entry, looked_up, Stop::Bank, Stop::Controller, behind)
    }
}

/// One up to the read, and to the write beside it where a line is written back (`dirty`).
fn in_memory(path: &AccessPath, entry: &Entry, dirty: bool, place: u16) -> Piece
    requires path { IsAccessPath path.now }
    requires place { place < length (timing.read_in path.now entry.now dirty).pieces }
    ensures { slice_get (timing.read_in path.now entry.now dirty).pieces place ≡ Some result }
{
    let missed = course::missed(path, entry);
    if place < missed.events {
        on_to_memory(path, entry, place)
    } else if place == missed.events {
        missed.event(reads(path, entry))
    } else {
        missed.event(writes(path, entry))
    }
}

/// One up to the bank again.
fn on_the_way_back(path: &AccessPath, entry: &Entry, dirty: bool, place: u16) -> Piece
    requires path { IsAccessPath path.now }
    requires place { place < length (timing.brought path.now entry.now dirty).pieces }
    ensures { slice_get (timing.brought path.now entry.now dirty).pieces place ≡ Some result }
{
    let read_in = course::read_in(path, entry, dirty);
    if place < read_in.events {
        in_memory(path, entry, dirty, place)
    } else {
        let behind = place - read_in.events;
        hop(path, entry, read_in, Stop::Controller, Stop::Bank, behind)
    }
}

/// One up to the fill.
fn back_at_the_bank(path: &AccessPath, entry: &Entry, dirty: bool, place: u16) -> Piece
    requires path { IsAccessPath path.now }
    requires place { place < length (timing.filled path.now entry.now dirty).pieces }
    ensures { slice_get (timing.filled path.now entry.now dirty).pieces place ≡ Some result }
{
    let brought = course::brought(path, entry, dirty);
    if place < brought.events {
        on_the_way_back(path, entry, dirty, place)
    } else if dirty {
        filling(path, entry, brought)
    } else {
        brought.event(fills(path, entry))
    }
}

/// An event of a miss.
pub(crate) fn missed(path: &AccessPath, entry: &Entry, dirty: bool, place: u16) -> Piece
    requires path { IsAccessPath path.now }
    requires place { place < length (timing.passage path.now entry.now (Miss dirty)).pieces }
    ensures { slice_get (timing.passage path.now entry.now (Miss dirty)).pieces place ≡ Some result }
{
    let filled = course::filled(path, entry, dirty);
    if place < filled.events {
        back_at_the_bank(path, entry, dirty, place)
    } else {
        let behind = place - filled.events;
        hop(path, entry, filled, Stop::Bank, Stop::Core, behind)
    }
}

/// The fill that waits for a write beside the read.
fn filling(path: &AccessPath, entry: &Entry, brought: Standing) -> Piece
    requires path { IsAccessPath path.now }
    requires brought { brought ≡ standing_of (timing.brought path.now entry.now true) }
    ensures { result ≡ piece_of (timing.fills path.now entry.now) (max brought.end ((timing.missed path.now entry.now).end + path.now.controllers.write)) brought.last (Some (suc (length (timing.missed path.now entry.now).pieces))) }
{
    let missed = course::missed(path, entry);
    let written = missed.end + u64::from(path.controllers.write);
    let waiting = brought.not_before(written).event(fills(path, entry));
    Piece {
        second: Some(missed.events + 1),
        ..waiting
    }
}
