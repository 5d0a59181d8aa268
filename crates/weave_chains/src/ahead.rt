//! How a chain learns of the event that fires next, which is then ready.
ghost use Rattle.std.specs.Prelude.{◌≡◌, ◌≢◌, ◌+◌, ◌-◌, ◌<◌, ◌≤◌, ◌^◌, Some, slice_get, length, IfNone, IfSome};
ghost use Rattle.std.specs.List.{Contains};
ghost use Rattle.zs_num.specs.declared.entry.Entry.{Entry};
ghost use Rattle.zs_num.specs.declared.time.Key.{Key};
ghost use Rattle.core_queue.specs.NextKeys.{with_next};
ghost use Rattle.event_graph.specs.declared.piece.Piece.{Piece};
ghost use Rattle.weave_chains.specs.Chains.{start_by};
ghost use Rattle.weave_chains.specs.Listed.{list_of};
ghost use Rattle.weave_chains.specs.NextEvents.{IsAhead, KnowsAccess, StartsAt};
ghost use Rattle.weave_chains.specs.States.{state_of};

use crate::accesses::Accesses;
use crate::chain::{Chain, Next};
use core_queue::CoreQueue;
use event_graph::Expand;
use zs_num::{Cycle, Entry, Key};

/// Looks up the next event of a core's chain, and answers when it starts. None where the chain is
/// over.
#[inline(always)]
pub(crate) fn look_ahead<X: Expand, A: Accesses>(
    expand: &X,
    accesses: &A,
    core: u16,
    chain: &mut Chain,
) -> Option<Cycle>
    requires end { chain.old.end ≡ length (list_of (A.lists accesses.now) core) }
    requires place { (e : Entry) → slice_get (list_of (A.lists accesses.now) core) chain.old.access ≡ Some e → chain.old.place < length (X.pieces expand.now e) }
    requires known { KnowsAccess (X.pieces expand.now) (list_of (A.lists accesses.now) core) chain.old }
    requires soon { (e : Entry) (p : Piece) → slice_get (list_of (A.lists accesses.now) core) chain.old.access ≡ Some e → slice_get (X.pieces expand.now e) chain.old.place ≡ Some p → (e.start + p.offset + p.time ≤ 2 ^ 62) × (start_by (state_of 0 chain.old) (e.start + p.offset) p ≤ 2 ^ 62) }
    ensures ahead { IsAhead (X.pieces expand.now) (list_of (A.lists accesses.now) core) chain.new }
    ensures chain { chain.new ≡ record chain.old { next = chain.new.next } }
    ensures over { IfNone result (chain.old.end ≤ chain.old.access) }
    ensures start { IfSome result (StartsAt (X.pieces expand.now) (list_of (A.lists accesses.now) core) chain.old) }
{
    if !chain.goes_on() {
        chain.next = None;
        return None;
    }
    let entry = accesses.access(core, chain.access);
    let piece = expand.piece(&entry, chain.place);
    let begin = entry.start + piece.offset;
    let count = count_of(expand, accesses, core, chain, &entry);
    chain.next = Some(Next {
        core: entry.core,
        count,
        component: piece.component,
        kind: piece.kind,
        time: piece.time,
        finish: begin + piece.time,
    });
    Some(chain.start(begin, &piece))
}

/// How many events the access has at which a core's chain stands. They are counted at its first
/// event alone: on the way over a mesh this takes long.
#[inline(always)]
fn count_of<X: Expand, A: Accesses>(
    expand: &X,
    accesses: &A,
    core: u16,
    chain: &Chain,
    entry: &Entry,
) -> u16
    requires there { slice_get (list_of (A.lists accesses.now) core) chain.now.access ≡ Some entry.now }
    requires known { KnowsAccess (X.pieces expand.now) (list_of (A.lists accesses.now) core) chain.now }
    ensures { result ≡ length (X.pieces expand.now entry.now) }
{
    if chain.place == 0 {
        return expand.count(entry);
    }
    match &chain.next {
        Some(next) => next.count,
        None => expand.count(entry),
    }
}

/// A core's next event is ready, which starts at this cycle. None where the chain is over.
pub(crate) fn push_next(ready: &mut CoreQueue, core: u32, start: Option<Cycle>)
    requires core { core < ready.old.room }
    requires soon { IfSome start (λ at. at < 2 ^ 64 - 1) }
    requires new { (k : Key) → Contains ready.old.keys k → k.number ≢ core }
    ensures { ready.new ≡ record ready.old { keys = with_next core start ready.old.keys } }
{
    if let Some(start) = start {
        ready.push(Key {
            start,
            number: core,
        });
    }
}
