//! The weave of an interval whose accesses are listed core by core.
ghost use Rattle.std.specs.Prelude.{◌≡◌, ◌-◌, ◌<◌, ◌^◌, List, [], IfNone, IfOk, IfSome, OnErr, length, map};
ghost use Rattle.zs_num.specs.declared.entry.Entry.{Entry};
ghost use Rattle.zs_num.specs.declared.time.Key.{Key};
ghost use Rattle.event_graph.specs.EventGraph.{all_events};
ghost use Rattle.event_graph.specs.Fits.{GraphFits};
ghost use Rattle.event_graph.specs.OneListWeave.{weave, woven};
ghost use Rattle.event_graph.specs.SmallSteps.{AreSmallSteps};
ghost use Rattle.weave_chains.specs.Beginning.{AreFresh};
ghost use Rattle.weave_chains.specs.Chains.{delay_by};
ghost use Rattle.weave_chains.specs.Listed.{one_after_other};
ghost use Rattle.weave_chains.specs.NextEvents.{AreAhead, AreOfLists};
ghost use Rattle.weave_chains.specs.Rounds.{AreChained, IsWeaving};
ghost use Rattle.weave_chains.specs.States.{state_of, states};
ghost use Rattle.weave_chains.specs.Tallies.{AreSmall, AreTallied, HaveFired};
ghost use Rattle.weave_chains.specs.Ties.{HaveNoTie, HaveTie};
ghost use Rattle.weave_chains.specs.Woven.{AreOrdered, IsWoven};

use crate::accesses::Accesses;
use crate::alone::fire_alone;
use crate::beginning::{begin_chains, first_keys};
use crate::buffers::ChainBuffers;
use crate::chain::Chain;
use crate::firing::fire_all;
use crate::kept::{Kept, copy_of};
use crate::laws::rounds_rest_on_these;
use crate::passing::Passing;
use crate::tally::{NO_TALLY, Tally};
use component::{Component, Comps};
use core_queue::CoreQueue;
use event_graph::{Expand, laws};
use feedback::Delays;
use stats::CompCount;
use std::alloc::Global;
use zs_host::Gate;
use zs_num::NoMemory;

/// What the weave of an interval gives.
#[derive(Drop)]
pub struct Woven {
    /// How many cycles each core waited.
    pub delays: Delays,
    /// What each component's events count, in order of the components' numbers: how many they are,
    /// and how long they waited. From when on it is free is not told.
    pub counts: Vec<CompCount>,
    /// How many events there were.
    pub events: u32,
}

/// The one-list weave of the accesses of an interval, in whatever order these were recorded, from
/// the accesses that make events, which are listed core by core. The components are moved on. None
/// where two events of different cores start in the same cycle on one component, so that the
/// recorded order decides which is served first: the components are then unchanged, as they are
/// where memory runs out. The gate is passed before each event that fires, as one of the event's
/// domain: `places` has the domain of each component.
pub fn weave_chains<X: Expand, C: Component + Kept, A: Accesses, G: Gate>(
    alloc: Global,
    expand: &X,
    accesses: &A,
    comps: &mut Comps<C>,
    places: &[u16],
    gate: &G,
    buffers: &mut ChainBuffers,
) -> Result<Option<Woven>, NoMemory>
    requires chained { AreChained (X.pieces expand.now) (A.lists accesses.now) }
    requires few { length (all_events (X.pieces expand.now) (one_after_other (A.lists accesses.now))) < 2 ^ 32 - 1 }
    requires fits { GraphFits C.serves C.floor (all_events (X.pieces expand.now) (one_after_other (A.lists accesses.now))) comps.old }
    requires small { AreSmallSteps C.stepped C.greatest (all_events (X.pieces expand.now) (one_after_other (A.lists accesses.now))) comps.old }
    ensures woven { IfOk result (λ o. IfSome o (λ w. (recorded : List Entry) → AreOrdered (X.pieces expand.now) (one_after_other (A.lists accesses.now)) recorded → IsWoven C.stepped (X.pieces expand.now) recorded comps.old (length (A.lists accesses.now)) w comps.new)) }
    ensures no_tie { IfOk result (λ o. IfSome o (λ w. HaveNoTie (woven C.stepped (all_events (X.pieces expand.now) (one_after_other (A.lists accesses.now))) comps.old))) }
    ensures tie { IfOk result (λ o. IfNone o (HaveTie (woven C.stepped (all_events (X.pieces expand.now) (one_after_other (A.lists accesses.now))) comps.old))) }
    ensures unchanged_at_tie { IfOk result (λ o. IfNone o (comps.new ≡ comps.old)) }
    ensures unchanged { OnErr result (comps.new ≡ comps.old) }
{
    laws::events_are_placed::<X>();
    laws::events_are_of_their_cores::<X>();
    laws::events_are_made_of_pieces::<X>();
    laws::events_are_counted::<X>();
    laws::numbers_decide_ties_alone::<C>();
    laws::weave_is_the_one_solution::<C>();
    feedback::laws::delays_are_of_the_cores();
    let before = Passing { places, gate };
    let mut after = copy_of(alloc, comps)?;
    let found = weave_on(alloc, expand, accesses, &mut after, &before, buffers)?;
    match found {
        Some(woven) => {
            *comps = after;
            Ok(Some(woven))
        }
        None => Ok(None),
    }
}

/// The one-list weave of the events as the accesses are listed. Where there is a tie, the
/// components are left in the middle of it.
fn weave_on<X: Expand, C: Component, A: Accesses, G: Gate>(
    alloc: Global,
    expand: &X,
    accesses: &A,
    comps: &mut Comps<C>,
    before: &Passing<G>,
    buffers: &mut ChainBuffers,
) -> Result<Option<Woven>, NoMemory>
    requires chained { AreChained (X.pieces expand.now) (A.lists accesses.now) }
    requires few { length (all_events (X.pieces expand.now) (one_after_other (A.lists accesses.now))) < 2 ^ 32 - 1 }
    requires fits { GraphFits C.serves C.floor (all_events (X.pieces expand.now) (one_after_other (A.lists accesses.now))) comps.old }
    requires small { AreSmallSteps C.stepped C.greatest (all_events (X.pieces expand.now) (one_after_other (A.lists accesses.now))) comps.old }
    ensures woven { IfOk result (λ o. IfSome o (λ w. IsWoven C.stepped (X.pieces expand.now) (one_after_other (A.lists accesses.now)) comps.old (length (A.lists accesses.now)) w comps.new)) }
    ensures no_tie { IfOk result (λ o. IfSome o (λ w. HaveNoTie (woven C.stepped (all_events (X.pieces expand.now) (one_after_other (A.lists accesses.now))) comps.old))) }
    ensures tie { IfOk result (λ o. IfNone o (HaveTie (woven C.stepped (all_events (X.pieces expand.now) (one_after_other (A.lists accesses.now))) comps.old))) }
{
    buffers.make_room(alloc, accesses.cores())?;
    begin_chains(accesses, &mut buffers.chains);
    let tallies = vec![in alloc; NO_TALLY; comps.as_slice().len()]?;
    buffers.tallies = tallies;
    weave_over(
        alloc,
        expand,
        accesses,
        &mut buffers.chains,
        &mut buffers.tallies,
        comps.as_mut_slice(),
        before,
    )
}

/// That weave over fresh chains, one for each core, where nothing is counted.
fn weave_over<X: Expand, C: Component, A: Accesses, G: Gate>(
    alloc: Global,
    expand: &X,
    accesses: &A,
    chains: &mut [Chain],
    tallies: &mut [Tally],
    comps: &mut [C],
    before: &Passing<G>,
) -> Result<Option<Woven>, NoMemory>
    requires chained { AreChained (X.pieces expand.now) (A.lists accesses.now) }
    requires few { length (all_events (X.pieces expand.now) (one_after_other (A.lists accesses.now))) < 2 ^ 32 - 1 }
    requires fits { GraphFits C.serves C.floor (all_events (X.pieces expand.now) (one_after_other (A.lists accesses.now))) comps.old }
    requires small { AreSmallSteps C.stepped C.greatest (all_events (X.pieces expand.now) (one_after_other (A.lists accesses.now))) comps.old }
    requires fresh { AreFresh (one_after_other (A.lists accesses.now)) (states (A.lists accesses.now) chains.old) }
    requires of { AreOfLists (A.lists accesses.now) chains.old }
    requires cores { length chains.old ≡ length (A.lists accesses.now) }
    requires tallies { length tallies.old ≡ length comps.old }
    requires nothing { AreTallied [] tallies.old }
    requires empty { AreSmall 0 tallies.old }
    ensures woven { IfOk result (λ o. IfSome o (λ w. IsWoven C.stepped (X.pieces expand.now) (one_after_other (A.lists accesses.now)) comps.old (length (A.lists accesses.now)) w comps.new)) }
    ensures no_tie { IfOk result (λ o. IfSome o (λ w. HaveNoTie (woven C.stepped (all_events (X.pieces expand.now) (one_after_other (A.lists accesses.now))) comps.old))) }
    ensures tie { IfOk result (λ o. IfNone o (HaveTie (woven C.stepped (all_events (X.pieces expand.now) (one_after_other (A.lists accesses.now))) comps.old))) }
{
    laws::events_are_placed::<X>();
    laws::each_event_fires_once::<C>();
    laws::events_fire_in_order::<C>();
    laws::events_fire_by_the_rules::<C>();
    laws::times_so_far_become_the_weaves::<C>();
    laws::weave_is_the_one_solution::<C>();
    laws::cores_wait_for_the_same_event();
    let mut ready = CoreQueue::with_room(alloc, accesses.cores())?;
    first_keys::<X, A, C>(expand, accesses, chains, &mut ready);
    let Some(events) = fire_chains(expand, accesses, chains, &mut ready, comps, tallies, before)
    else {
        return Ok(None);
    };
    let delays = delays_of(alloc, chains)?;
    let counts = counts_of(alloc, tallies)?;
    Ok(Some(Woven {
        delays,
        counts,
        events,
    }))
}

/// All events fire, or those up to the first that ties with one of another core. Answers how many
/// they are, and none where there is such a tie. One core alone needs no queue, and has no ties.
fn fire_chains<X: Expand, C: Component, A: Accesses, G: Gate>(
    expand: &X,
    accesses: &A,
    chains: &mut [Chain],
    ready: &mut CoreQueue,
    comps: &mut [C],
    tallies: &mut [Tally],
    before: &Passing<G>,
) -> Option<u32>
    requires chained { AreChained (X.pieces expand.now) (A.lists accesses.now) }
    requires few { length (all_events (X.pieces expand.now) (one_after_other (A.lists accesses.now))) < 2 ^ 32 - 1 }
    requires count { length chains.old ≡ length (A.lists accesses.now) }
    requires ahead { AreAhead (X.pieces expand.now) (A.lists accesses.now) chains.old }
    requires fresh { AreFresh (one_after_other (A.lists accesses.now)) (states (A.lists accesses.now) chains.old) }
    requires tallies { length tallies.old ≡ length comps.old }
    requires nothing { AreTallied [] tallies.old }
    requires empty { AreSmall 0 tallies.old }
    requires begins { (first : List C) × IsWeaving C.serves C.floor C.stepped C.greatest (X.pieces expand.now) (A.lists accesses.now) first 0 chains.old ready.old.keys comps.old }
    ensures all { IfSome result (λ events. (events ≡ length (all_events (X.pieces expand.now) (one_after_other (A.lists accesses.now)))) × ((first : List C) → IsWeaving C.serves C.floor C.stepped C.greatest (X.pieces expand.now) (A.lists accesses.now) first 0 chains.old ready.old.keys comps.old → (keys : List Key) × HaveFired C.stepped (X.pieces expand.now) (one_after_other (A.lists accesses.now)) first events (states (A.lists accesses.now) chains.new) keys comps.new tallies.new)) }
    ensures tie { IfNone result ((first : List C) → IsWeaving C.serves C.floor C.stepped C.greatest (X.pieces expand.now) (A.lists accesses.now) first 0 chains.old ready.old.keys comps.old → HaveTie (weave C.stepped (all_events (X.pieces expand.now) (one_after_other (A.lists accesses.now))) first).fired) }
    ensures count { length chains.new ≡ length chains.old }
    ensures tallies { length tallies.new ≡ length tallies.old }
{
    rounds_rest_on_these::<X, C>();
    if chains.len() != 1 {
        return fire_all(expand, accesses, chains, ready, comps, tallies, before);
    }
    let chain = &mut chains[0];
    let events = fire_alone(expand, accesses, chain, comps, tallies, before);
    Some(events)
}

/// The delays of the cores, whose chains are over.
fn delays_of(alloc: Global, chains: &[Chain]) -> Result<Delays, NoMemory>
    ensures { IfOk result (λ delays. delays ≡ map (λ c. delay_by (state_of 0 c)) chains.now) }
{
    let list = chains.iter().map(|chain| chain.delay()).collect(alloc)?;
    Ok(Delays::of(list))
}

/// What is counted of the components.
fn counts_of(alloc: Global, tallies: &[Tally]) -> Result<Vec<CompCount>, NoMemory>
    ensures { IfOk result (λ list. list.items ≡ map (λ t. t.count) tallies.now) }
{
    let list = tallies.iter().map(|tally| tally.count).collect(alloc)?;
    Ok(list)
}
