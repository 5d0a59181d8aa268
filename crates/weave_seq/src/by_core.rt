//! The one-list weave by a queue of the first unfired event of each core.
ghost use Rattle.std.specs.Prelude.{◌≡◌, ◌+◌, ◌<◌, ◌≤◌, ◌^◌, [], All, List, length, map, IfOk, IfSome, OnErr, OnOk};
ghost use Rattle.zs_num.specs.declared.entry.Entry.{Entry};
ghost use Rattle.event_graph.specs.EventGraph.{all_events};
ghost use Rattle.event_graph.specs.Fits.{GraphFits};
ghost use Rattle.event_graph.specs.InARow.{AreInARow};
ghost use Rattle.event_graph.specs.Numbered.{IsNumbered};
ghost use Rattle.event_graph.specs.OneListWeave.{after_parent, comps_after, fired_of, start_of, woven};
ghost use Rattle.event_graph.specs.SmallSteps.{AreSmallSteps};
ghost use Rattle.weave_seq.specs.ByCore.{AreFirstKeys, AreFollowedFrom, FireInOrderByCore, HaveParentsOfTheirCore};
ghost use Rattle.weave_seq.specs.Known.{finish_at};

use crate::core_order::{CoreOrder, order_by_core};
use crate::ready::ReadyHeap;
use component::{Component, Comps};
use event_graph::{Event, Expand, Fired, FiredList, Graph, Parent, laws};
use std::alloc::Global;
use zs_num::{Cycle, Key, NoMemory};

/// The same weave, of the events of accesses: those of a core fire in order of their numbers, so
/// only the first of them that has not fired has to be looked at. Where memory runs out, the
/// components are unchanged.
pub fn weave_by_core<X: Expand, C: Component>(
    alloc: Global,
    _expand: &X,
    graph: &Graph,
    cores: u16,
    comps: &mut Comps<C>,
) -> Result<FiredList, NoMemory>
    requires made { (entries : List Entry) × (graph.now ≡ all_events (X.pieces _expand.now) entries) }
    requires rows { (e : Entry) → AreInARow (X.pieces _expand.now e) }
    requires cores { All (λ e. e.core < cores) graph.now }
    requires fits { GraphFits C.serves C.floor graph.now comps.old }
    requires small { AreSmallSteps C.stepped C.greatest graph.now comps.old }
    ensures fired { IfOk result (λ fired. fired ≡ map fired_of (woven C.stepped graph.now comps.old)) }
    ensures comps { OnOk result (comps.new ≡ comps_after C.stepped graph.now comps.old) }
    ensures unchanged { OnErr result (comps.new ≡ comps.old) }
{
    laws::events_of_a_core_fire_in_order::<X, C>();
    laws::events_are_placed::<X>();
    let events = graph.events();
    let CoreOrder {
        following,
        mut ready,
        mut times,
    } = order_by_core(alloc, events, cores)?;
    fire_by_core(
        events,
        &following,
        &mut ready,
        &mut times,
        comps.as_mut_slice(),
    );
    Ok(FiredList::of(times))
}

/// Fires the least of the cores' first unfired events, until each event has fired. No memory is
/// taken.
fn fire_by_core<C: Component>(
    events: &[Event],
    following: &[u32],
    ready: &mut ReadyHeap,
    times: &mut [Fired],
    comps: &mut [C],
)
    requires numbered { IsNumbered events.now }
    requires fits { GraphFits C.serves C.floor events.now comps.old }
    requires small { AreSmallSteps C.stepped C.greatest events.now comps.old }
    requires order { FireInOrderByCore C.stepped events.now comps.old }
    requires parents { HaveParentsOfTheirCore events.now }
    requires following { AreFollowedFrom events.now 0 following.now }
    requires following_size { length following.now ≡ length events.now }
    requires ready { AreFirstKeys events.now [] ready.old.list }
    requires room { length ready.old.list ≤ ready.old.room }
    requires times_size { length times.old ≡ length events.now }
    ensures times { times.new ≡ map fired_of (woven C.stepped events.now comps.old) }
    ensures comps { comps.new ≡ comps_after C.stepped events.now comps.old }
{
    laws::each_firing_is_of_the_next_event::<C>();
    laws::events_fire_by_the_rules::<C>();
    laws::starts_so_far_stay_small::<C>();
    laws::each_event_fires_once::<C>();
    for _ in 0..events.len() {
        let Some(key) = ready.pop() else {
            unreachable!()
        };
        let event = &events[key.number as usize];
        let finish = comps[event.component as usize].step(event.kind, key.start);
        times[key.number as usize] = Fired {
            number: key.number,
            start: key.start,
            finish,
        };
        let next = following[key.number as usize];
        if next > 0 {
            let start = start_by(&events[next as usize], times);
            ready.push(Key {
                start,
                number: next,
            });
        }
    }
}

/// When an event starts, whose parents fired at these times.
fn start_by(event: &Event, times: &[Fired]) -> Cycle
    requires first { IfSome event.now.first (λ p. (p.number < length times.now) × (finish_at times.now p.number + p.delay ≤ 2 ^ 62)) }
    requires second { IfSome event.now.second (λ p. (p.number < length times.now) × (finish_at times.now p.number + p.delay ≤ 2 ^ 62)) }
    ensures { result ≡ start_of (finish_at times.now) event.now }
{
    event
        .min_start
        .max(after(event.first, times).max(after(event.second, times)))
}

/// The earliest start behind a parent, which fired at one of these times.
fn after(parent: Option<Parent>, times: &[Fired]) -> Cycle
    requires { IfSome parent (λ p. (p.number < length times.now) × (finish_at times.now p.number + p.delay ≤ 2 ^ 62)) }
    ensures { result ≡ after_parent (finish_at times.now) parent }
{
    match parent {
        Some(p) => times[p.number as usize].finish + p.delay,
        None => 0,
    }
}
