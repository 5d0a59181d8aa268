//! The weave of one core alone. Its events fire one after the other, so there is no queue, and no
//! two cores that could meet; and what an access is made of is asked once.
ghost use Rattle.std.specs.Prelude.{◌≡◌, ◌+◌, ◌-◌, ◌<◌, ◌≤◌, ◌^◌, ℕ, List, Some, length, slice_get};
ghost use Rattle.event_graph.specs.EventGraph.{all_events};
ghost use Rattle.weave_chains.specs.Alone.{IsAlone, standing, step_on};
ghost use Rattle.weave_chains.specs.Listed.{list_of, one_after_other};
ghost use Rattle.weave_chains.specs.Rounds.{AreChained};

use crate::accesses::Accesses;
use crate::chain::{Chain, Ended, MOST, Next, start_of};
use crate::firing::serve;
use crate::laws::rounds_rest_on_these;
use crate::passing::Passing;
use crate::tally::Tally;
use component::Component;
use event_graph::Expand;
use zs_host::Gate;
use zs_num::Entry;

/// The next event of the one core fires, at a place of an access with so many, and is counted.
/// Answers how it ended. These events of the access have fired before it, and that was the last one
/// before the access. The type `T` means nothing: each caller takes another, so that the compiler
/// sets the function into both.
#[inline(always)]
fn fire_one<X: Expand, C: Component, A: Accesses, G: Gate, T>(
    expand: &X,
    accesses: &A,
    access: u32,
    entry: &Entry,
    count: u16,
    place: u16,
    ended: &[Ended; MOST],
    last: Option<Ended>,
    comps: &mut [C],
    tallies: &mut [Tally],
    before: &Passing<G>,
) -> Ended
    requires chained { AreChained (X.pieces expand.now) (A.lists accesses.now) }
    requires few { length (all_events (X.pieces expand.now) (one_after_other (A.lists accesses.now))) < 2 ^ 32 - 1 }
    requires one { length (A.lists accesses.now) ≡ 1 }
    requires there { slice_get (list_of (A.lists accesses.now) 0) access ≡ Some entry.now }
    requires count { count ≡ length (X.pieces expand.now entry.now) }
    requires place { place < count }
    requires come { (first : List C) × (n : ℕ) × IsAlone C.serves C.floor C.stepped C.greatest (X.pieces expand.now) (A.lists accesses.now) first n (standing (A.lists accesses.now) access place ended.now last) comps.old tallies.old }
    ensures fired { (first : List C) (n : ℕ) → IsAlone C.serves C.floor C.stepped C.greatest (X.pieces expand.now) (A.lists accesses.now) first n (standing (A.lists accesses.now) access place ended.now last) comps.old tallies.old → IsAlone C.serves C.floor C.stepped C.greatest (X.pieces expand.now) (A.lists accesses.now) first (n + 1) (step_on count result (standing (A.lists accesses.now) access place ended.now last)) comps.new tallies.new }
    ensures tallies { length tallies.new ≡ length tallies.old }
{
    rounds_rest_on_these::<X, C>();
    let piece = expand.piece(entry, place);
    let begin = entry.start + piece.offset;
    let start = start_of(place, ended, last, begin, &piece);
    let next = Next {
        core: entry.core,
        count,
        component: piece.component,
        kind: piece.kind,
        time: piece.time,
        finish: begin + piece.time,
    };
    let outcome = serve(comps, &next, start, before);
    tallies[usize::from(outcome.served.component)].take(outcome.served);
    outcome.ended
}

/// All events of an access of the one core fire, each but the last of which is kept in `ended`.
/// Answers how many they are, and how the last one ended. The first three stand one by one: no
/// access has more of them without a mesh but a miss that writes back, and what the compiler knows
/// of each place it need not ask.
#[inline(always)]
fn fire_access<X: Expand, C: Component, A: Accesses, G: Gate>(
    expand: &X,
    accesses: &A,
    access: u32,
    ended: &mut [Ended; MOST],
    last: Option<Ended>,
    comps: &mut [C],
    tallies: &mut [Tally],
    before: &Passing<G>,
) -> (u16, Ended)
    requires chained { AreChained (X.pieces expand.now) (A.lists accesses.now) }
    requires few { length (all_events (X.pieces expand.now) (one_after_other (A.lists accesses.now))) < 2 ^ 32 - 1 }
    requires one { length (A.lists accesses.now) ≡ 1 }
    requires there { access < length (list_of (A.lists accesses.now) 0) }
    requires come { (first : List C) × (n : ℕ) × IsAlone C.serves C.floor C.stepped C.greatest (X.pieces expand.now) (A.lists accesses.now) first n (standing (A.lists accesses.now) access 0 ended.old last) comps.old tallies.old }
    ensures fired { (first : List C) (n : ℕ) → IsAlone C.serves C.floor C.stepped C.greatest (X.pieces expand.now) (A.lists accesses.now) first n (standing (A.lists accesses.now) access 0 ended.old last) comps.old tallies.old → IsAlone C.serves C.floor C.stepped C.greatest (X.pieces expand.now) (A.lists accesses.now) first (n + result.0) (standing (A.lists accesses.now) (access + 1) 0 ended.new (Some result.1)) comps.new tallies.new }
    ensures tallies { length tallies.new ≡ length tallies.old }
{
    let entry = accesses.access(0, access);
    let count = expand.count(&entry);
    let first = fire_one::<X, C, A, G, u8>(
        expand, accesses, access, &entry, count, 0, ended, last, comps, tallies, before,
    );
    if count == 1 {
        return (1, first);
    }
    ended[0] = first;
    let second = fire_one::<X, C, A, G, u16>(
        expand, accesses, access, &entry, count, 1, ended, last, comps, tallies, before,
    );
    if count == 2 {
        return (2, second);
    }
    ended[1] = second;
    let third = fire_one::<X, C, A, G, u32>(
        expand, accesses, access, &entry, count, 2, ended, last, comps, tallies, before,
    );
    if count == 3 {
        return (3, third);
    }
    ended[2] = third;
    let done = fire_rest(
        expand, accesses, access, &entry, count, ended, last, comps, tallies, before,
    );
    (count, done)
}

/// The events of an access of the one core fire that come behind the first three. Answers how the
/// last one ended; the others are kept in `ended`.
#[inline(always)]
fn fire_rest<X: Expand, C: Component, A: Accesses, G: Gate>(
    expand: &X,
    accesses: &A,
    access: u32,
    entry: &Entry,
    count: u16,
    ended: &mut [Ended; MOST],
    last: Option<Ended>,
    comps: &mut [C],
    tallies: &mut [Tally],
    before: &Passing<G>,
) -> Ended
    requires chained { AreChained (X.pieces expand.now) (A.lists accesses.now) }
    requires few { length (all_events (X.pieces expand.now) (one_after_other (A.lists accesses.now))) < 2 ^ 32 - 1 }
    requires one { length (A.lists accesses.now) ≡ 1 }
    requires there { slice_get (list_of (A.lists accesses.now) 0) access ≡ Some entry.now }
    requires count { count ≡ length (X.pieces expand.now entry.now) }
    requires more { 3 < count }
    requires come { (first : List C) × (n : ℕ) × IsAlone C.serves C.floor C.stepped C.greatest (X.pieces expand.now) (A.lists accesses.now) first n (standing (A.lists accesses.now) access 3 ended.old last) comps.old tallies.old }
    ensures fired { (first : List C) (n : ℕ) → IsAlone C.serves C.floor C.stepped C.greatest (X.pieces expand.now) (A.lists accesses.now) first n (standing (A.lists accesses.now) access 3 ended.old last) comps.old tallies.old → IsAlone C.serves C.floor C.stepped C.greatest (X.pieces expand.now) (A.lists accesses.now) first (n + (count - 3)) (standing (A.lists accesses.now) (access + 1) 0 ended.new (Some result)) comps.new tallies.new }
    ensures tallies { length tallies.new ≡ length tallies.old }
{
    let before_last = count - 1;
    for place in 3..before_last {
        let done = fire_one::<X, C, A, G, u64>(
            expand, accesses, access, entry, count, place, ended, last, comps, tallies, before,
        );
        ended[usize::from(place)] = done;
    }
    fire_one::<X, C, A, G, i8>(
        expand,
        accesses,
        access,
        entry,
        count,
        before_last,
        ended,
        last,
        comps,
        tallies,
        before,
    )
}

/// All events of the one core fire. Answers how many they are. How far the chain has come is kept
/// beside it until all have fired, so that no access waits for what the one before wrote.
pub(crate) fn fire_alone<X: Expand, C: Component, A: Accesses, G: Gate>(
    expand: &X,
    accesses: &A,
    chain: &mut Chain,
    comps: &mut [C],
    tallies: &mut [Tally],
    before: &Passing<G>,
) -> u32
    requires chained { AreChained (X.pieces expand.now) (A.lists accesses.now) }
    requires few { length (all_events (X.pieces expand.now) (one_after_other (A.lists accesses.now))) < 2 ^ 32 - 1 }
    requires one { length (A.lists accesses.now) ≡ 1 }
    requires end { chain.old.end ≡ length (list_of (A.lists accesses.now) 0) }
    requires come { (first : List C) × IsAlone C.serves C.floor C.stepped C.greatest (X.pieces expand.now) (A.lists accesses.now) first 0 (standing (A.lists accesses.now) chain.old.access 0 chain.old.ended chain.old.last) comps.old tallies.old }
    ensures fired { (first : List C) → IsAlone C.serves C.floor C.stepped C.greatest (X.pieces expand.now) (A.lists accesses.now) first 0 (standing (A.lists accesses.now) chain.old.access 0 chain.old.ended chain.old.last) comps.old tallies.old → IsAlone C.serves C.floor C.stepped C.greatest (X.pieces expand.now) (A.lists accesses.now) first result (standing (A.lists accesses.now) chain.new.access 0 chain.new.ended chain.new.last) comps.new tallies.new }
    ensures over { chain.new.end ≤ chain.new.access }
    ensures end { chain.new.end ≡ chain.old.end }
    ensures place { chain.new.place ≡ chain.old.place }
    ensures tallies { length tallies.new ≡ length tallies.old }
{
    let end = chain.end;
    let mut access = chain.access;
    let mut last = chain.last;
    let mut events = 0;
    while access < end {
        let (count, done) = fire_access(
            expand,
            accesses,
            access,
            &mut chain.ended,
            last,
            comps,
            tallies,
            before,
        );
        access += 1;
        last = Some(done);
        events += u32::from(count);
    }
    chain.access = access;
    chain.last = last;
    events
}
