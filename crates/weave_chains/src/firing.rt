//! The rounds of the weave.
ghost use Rattle.std.specs.Prelude.{◌≡◌, ◌+◌, ◌-◌, ◌<◌, ◌≤◌, ◌^◌, [], ℕ, List, None, Some, length, slice_get, slice_set, IfNone, IfSome, IsTrue};
ghost use Rattle.event_graph.specs.EventGraph.{all_events};
ghost use Rattle.event_graph.specs.OneListWeave.{weave};
ghost use Rattle.weave_chains.specs.Listed.{one_after_other};
ghost use Rattle.weave_chains.specs.NextEvents.{AreAhead};
ghost use Rattle.weave_chains.specs.Rounds.{AreChained, HasCome, IsWeaving};
ghost use Rattle.weave_chains.specs.States.{states};
ghost use Rattle.weave_chains.specs.Tallies.{AreSmall, AreTallied, HasFiredNext, HaveFired};
ghost use Rattle.weave_chains.specs.Ties.{HaveTie};

use crate::accesses::Accesses;
use crate::ahead::look_ahead;
use crate::chain::{Chain, Ended, Next};
use crate::laws::rounds_rest_on_these;
use crate::passing::Passing;
use crate::tally::{Served, Tally};
use component::Component;
use core_queue::CoreQueue;
use event_graph::Expand;
use zs_host::Gate;
use zs_num::Cycle;

/// An event as its component has served it, and when it has ended.
#[derive(Clone, Copy)]
pub(crate) struct Firing {
    pub(crate) served: Served,
    pub(crate) ended: Ended,
}

/// The next event of a chain starts at this cycle, and is served.
#[inline(always)]
pub(crate) fn serve<C: Component, G: Gate>(
    comps: &mut [C],
    next: &Next,
    start: Cycle,
    before: &Passing<G>,
) -> Firing
    requires component { next.now.component < length comps.old }
    requires serves { (comp : C) → slice_get comps.old next.now.component ≡ Some comp → IsTrue (C.serves comp next.now.kind) }
    requires small { (comp : C) → slice_get comps.old next.now.component ≡ Some comp → C.greatest comp next.now.kind start ≤ 2 ^ 62 }
    ensures served { (comp : C) → slice_get comps.old next.now.component ≡ Some comp → result.served ≡ record { core = next.now.core; component = next.now.component; start = start; waited = (C.stepped comp next.now.kind start).1 - start - next.now.time } }
    ensures ended { (comp : C) → slice_get comps.old next.now.component ≡ Some comp → result.ended ≡ record { finish = (C.stepped comp next.now.kind start).1; at_zero_load = next.now.finish } }
    ensures comps { (comp : C) → slice_get comps.old next.now.component ≡ Some comp → comps.new ≡ slice_set comps.old next.now.component (C.stepped comp next.now.kind start).0 }
{
    before.event_of(next.component);
    let finish = comps[usize::from(next.component)].step(next.kind, start);
    let took = finish.saturating_sub(start);
    Firing {
        served: Served {
            core: next.core,
            component: next.component,
            start,
            waited: took.saturating_sub(next.time),
        },
        ended: Ended {
            finish,
            at_zero_load: next.finish,
        },
    }
}

/// The next event fires, which is answered. None where all have fired.
#[inline(always)]
fn fire_next<X: Expand, C: Component, A: Accesses, G: Gate>(
    expand: &X,
    accesses: &A,
    chains: &mut [Chain],
    ready: &mut CoreQueue,
    comps: &mut [C],
    before: &Passing<G>,
) -> Option<Served>
    requires chained { AreChained (X.pieces expand.now) (A.lists accesses.now) }
    requires count { length chains.old ≡ length (A.lists accesses.now) }
    requires ahead { AreAhead (X.pieces expand.now) (A.lists accesses.now) chains.old }
    requires come { (first : List C) × (n : ℕ) × IsWeaving C.serves C.floor C.stepped C.greatest (X.pieces expand.now) (A.lists accesses.now) first n chains.old ready.old.keys comps.old }
    ensures fired { IfSome result (λ served. (first : List C) (n : ℕ) → IsWeaving C.serves C.floor C.stepped C.greatest (X.pieces expand.now) (A.lists accesses.now) first n chains.old ready.old.keys comps.old → HasFiredNext C.stepped (X.pieces expand.now) (one_after_other (A.lists accesses.now)) first n (states (A.lists accesses.now) chains.new) ready.new.keys comps.new served) }
    ensures over { IfNone result ((first : List C) (n : ℕ) → IsWeaving C.serves C.floor C.stepped C.greatest (X.pieces expand.now) (A.lists accesses.now) first n chains.old ready.old.keys comps.old → (n ≡ length (all_events (X.pieces expand.now) (one_after_other (A.lists accesses.now)))) × HasCome C.stepped (X.pieces expand.now) (one_after_other (A.lists accesses.now)) first n (states (A.lists accesses.now) chains.new) ready.new.keys comps.new) }
    ensures ahead { AreAhead (X.pieces expand.now) (A.lists accesses.now) chains.new }
    ensures component { IfSome result (λ served. served.component < length comps.old) }
    ensures count { length chains.new ≡ length chains.old }
    ensures comps { length comps.new ≡ length comps.old }
{
    rounds_rest_on_these::<X, C>();
    let Some(key) = ready.first() else {
        return None;
    };
    let chain = &mut chains[key.number as usize];
    let Some(next) = &chain.next else {
        unreachable!()
    };
    let count = next.count;
    let outcome = serve(comps, next, key.start, before);
    chain.move_on(count, outcome.ended);
    let start = look_ahead(expand, accesses, outcome.served.core, chain);
    ready.settle(key.number, start);
    Some(outcome.served)
}

/// All events fire, or those up to the first that ties with one of another core. Answers how many
/// they are, and none where there is such a tie.
pub(crate) fn fire_all<X: Expand, C: Component, A: Accesses, G: Gate>(
    expand: &X,
    accesses: &A,
    chains: &mut [Chain],
    ready: &mut CoreQueue,
    comps: &mut [C],
    tallies: &mut [Tally],
    before: &Passing<G>,
) -> Option<u32>
    requires chained { AreChained (X.pieces expand.now) (A.lists accesses.now) }
    requires few { length (all_events (X.pieces expand.now) (one_after_other (A.lists accesses.now))) < 2 ^ 32 - 1 }
    requires count { length chains.old ≡ length (A.lists accesses.now) }
    requires ahead { AreAhead (X.pieces expand.now) (A.lists accesses.now) chains.old }
    requires tallies { length tallies.old ≡ length comps.old }
    requires nothing { AreTallied [] tallies.old }
    requires empty { AreSmall 0 tallies.old }
    requires begins { (first : List C) × IsWeaving C.serves C.floor C.stepped C.greatest (X.pieces expand.now) (A.lists accesses.now) first 0 chains.old ready.old.keys comps.old }
    ensures all { IfSome result (λ events. (events ≡ length (all_events (X.pieces expand.now) (one_after_other (A.lists accesses.now)))) × ((first : List C) → IsWeaving C.serves C.floor C.stepped C.greatest (X.pieces expand.now) (A.lists accesses.now) first 0 chains.old ready.old.keys comps.old → HaveFired C.stepped (X.pieces expand.now) (one_after_other (A.lists accesses.now)) first events (states (A.lists accesses.now) chains.new) ready.new.keys comps.new tallies.new)) }
    ensures tie { IfNone result ((first : List C) → IsWeaving C.serves C.floor C.stepped C.greatest (X.pieces expand.now) (A.lists accesses.now) first 0 chains.old ready.old.keys comps.old → HaveTie (weave C.stepped (all_events (X.pieces expand.now) (one_after_other (A.lists accesses.now))) first).fired) }
    ensures count { length chains.new ≡ length chains.old }
    ensures tallies { length tallies.new ≡ length tallies.old }
{
    rounds_rest_on_these::<X, C>();
    let mut events = 0;
    while let Some(served) = fire_next(expand, accesses, chains, ready, comps, before) {
        if tallies[usize::from(served.component)].take(served) {
            return None;
        }
        events += 1;
    }
    Some(events)
}
