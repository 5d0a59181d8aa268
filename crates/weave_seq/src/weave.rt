//! The one-list weave by a queue of the ready events.
ghost use Rattle.std.specs.Prelude.{◌≡◌, [], length, map, IfOk, OnErr, OnOk};
ghost use Rattle.event_graph.specs.Fits.{GraphFits};
ghost use Rattle.event_graph.specs.Numbered.{IsNumbered};
ghost use Rattle.event_graph.specs.OneListWeave.{comps_after, finish_in, fired_of, woven};
ghost use Rattle.event_graph.specs.SmallSteps.{AreSmallSteps};
ghost use Rattle.weave_seq.specs.Chains.{AreChains, parents_in};
ghost use Rattle.weave_seq.specs.Known.{known_to_all};

use crate::before::{Before, Nothing, Passing};
use crate::begin::{Beginning, begin};
use crate::children::{Children, ParentSlot};
use crate::state::State;
use crate::tell::tell_children;
use component::{Component, Comps};
use event_graph::{Event, Fired, FiredList, Graph, laws};
use std::alloc::Global;
use zs_host::Gate;
use zs_num::NoMemory;

/// The one-list weave: while an event is unfired, the one whose parents are fired and that has the
/// least (start, number) fires, which steps its component. Answers the events with their starts and
/// finishes, in order of number. Where memory runs out, the components are unchanged.
pub fn weave_seq<C: Component>(
    alloc: Global,
    graph: &Graph,
    comps: &mut Comps<C>,
) -> Result<FiredList, NoMemory>
    requires fits { GraphFits C.serves C.floor graph.now comps.old }
    requires small { AreSmallSteps C.stepped C.greatest graph.now comps.old }
    ensures fired { IfOk result (λ fired. fired ≡ map fired_of (woven C.stepped graph.now comps.old)) }
    ensures comps { OnOk result (comps.new ≡ comps_after C.stepped graph.now comps.old) }
    ensures unchanged { OnErr result (comps.new ≡ comps.old) }
{
    weave_one_list(alloc, graph, comps, &Nothing)
}

/// The one-list weave by a worker that passes the gate before each event that it fires, as one of
/// the event's domain. `places` has the domain of each component.
pub fn weave_gated<C: Component, G: Gate>(
    alloc: Global,
    graph: &Graph,
    comps: &mut Comps<C>,
    places: &[u16],
    gate: &G,
) -> Result<FiredList, NoMemory>
    requires fits { GraphFits C.serves C.floor graph.now comps.old }
    requires small { AreSmallSteps C.stepped C.greatest graph.now comps.old }
    ensures fired { IfOk result (λ fired. fired ≡ map fired_of (woven C.stepped graph.now comps.old)) }
    ensures comps { OnOk result (comps.new ≡ comps_after C.stepped graph.now comps.old) }
    ensures unchanged { OnErr result (comps.new ≡ comps.old) }
{
    weave_one_list(alloc, graph, comps, &Passing { places, gate })
}

/// The one-list weave, in which something without a meaning is done before each event.
fn weave_one_list<C: Component, B: Before>(
    alloc: Global,
    graph: &Graph,
    comps: &mut Comps<C>,
    before: &B,
) -> Result<FiredList, NoMemory>
    requires fits { GraphFits C.serves C.floor graph.now comps.old }
    requires small { AreSmallSteps C.stepped C.greatest graph.now comps.old }
    ensures fired { IfOk result (λ fired. fired ≡ map fired_of (woven C.stepped graph.now comps.old)) }
    ensures comps { OnOk result (comps.new ≡ comps_after C.stepped graph.now comps.old) }
    ensures unchanged { OnErr result (comps.new ≡ comps.old) }
{
    let events = graph.events();
    let Beginning {
        first,
        second,
        mut state,
    } = begin(alloc, events)?;
    fire_in_order(
        &mut state,
        events,
        &first,
        &second,
        comps.as_mut_slice(),
        before,
    );
    Ok(FiredList::of(state.into_times()))
}

/// Fires the first of the ready events until each event has fired. No memory is taken.
fn fire_in_order<C: Component, B: Before>(
    state: &mut State,
    events: &[Event],
    first: &Children,
    second: &Children,
    comps: &mut [C],
    before: &B,
)
    requires numbered { IsNumbered events.now }
    requires fits { GraphFits C.serves C.floor events.now comps.old }
    requires small { AreSmallSteps C.stepped C.greatest events.now comps.old }
    requires first { AreChains (parents_in first.now.slot events.now) first.now.last.items first.now.before.items (length events.now) }
    requires second { AreChains (parents_in second.now.slot events.now) second.now.last.items second.now.before.items (length events.now) }
    requires first_slot { first.now.slot ≡ ParentSlot.First }
    requires second_slot { second.now.slot ≡ ParentSlot.Second }
    requires unfired { state.old ≡ known_to_all (finish_in []) events.now }
    ensures times { state.new.times ≡ map fired_of (woven C.stepped events.now comps.old) }
    ensures comps { comps.new ≡ comps_after C.stepped events.now comps.old }
{
    laws::each_firing_is_of_the_next_event::<C>();
    laws::events_fire_by_the_rules::<C>();
    laws::starts_so_far_stay_small::<C>();
    laws::times_so_far_become_the_weaves::<C>();
    for _ in 0..events.len() {
        let Some(key) = state.take_first() else {
            unreachable!()
        };
        let event = events[key.number as usize];
        before.event_of(event.component);
        let finish = comps[event.component as usize].step(event.kind, key.start);
        let fired = Fired {
            number: key.number,
            start: key.start,
            finish,
        };
        state.keep(fired);
        tell_children(state, events, first, fired);
        tell_children(state, events, second, fired);
    }
}
