//! What the weave begins with.
ghost use Rattle.std.specs.Prelude.{◌≡◌, ◌+◌, ℕ, [], length, IfOk};
ghost use Rattle.event_graph.specs.Numbered.{IsNumbered};
ghost use Rattle.event_graph.specs.OneListWeave.{after_parent, finish_in, start_of};
ghost use Rattle.weave_seq.specs.Chains.{AreChains, parents_in};
ghost use Rattle.weave_seq.specs.Known.{known_to_all, unfired_parent};

use crate::children::{Children, ParentSlot};
use crate::ready::ReadyHeap;
use crate::state::State;
use event_graph::{Event, Fired, Parent};
use std::alloc::Global;
use zs_num::{Cycle, Key, NoMemory};

/// The events before the first of them fires.
#[derive(Drop)]
pub(crate) struct Beginning {
    pub(crate) first: Children,
    pub(crate) second: Children,
    pub(crate) state: State,
}

/// The delay of a parent.
fn delay(parent: Option<Parent>) -> u64
    ensures { result ≡ after_parent (finish_in []) parent }
{
    match parent {
        Some(p) => p.delay,
        None => 0,
    }
}

/// A start before which the event can't start, whenever its parents finish.
pub(crate) fn earliest_start(event: &Event) -> Cycle
    ensures { result ≡ start_of (finish_in []) event.now }
{
    event
        .min_start
        .max(delay(event.first).max(delay(event.second)))
}

/// How many parents the event has.
fn parents(event: &Event) -> u8
    ensures { result ≡ unfired_parent (finish_in []) event.now.first + unfired_parent (finish_in []) event.now.second }
{
    u8::from(event.first.is_some()) + u8::from(event.second.is_some())
}

/// Links each event to its children and counts its parents. All memory of the weave is taken here.
pub(crate) fn begin(alloc: Global, events: &[Event]) -> Result<Beginning, NoMemory>
    requires { IsNumbered events.now }
    ensures first_slot { IfOk result (λ it. it.first.slot ≡ ParentSlot.First) }
    ensures second_slot { IfOk result (λ it. it.second.slot ≡ ParentSlot.Second) }
    ensures first { IfOk result (λ it. AreChains (parents_in it.first.slot events.now) it.first.last.items it.first.before.items (length events.now)) }
    ensures second { IfOk result (λ it. AreChains (parents_in it.second.slot events.now) it.second.last.items it.second.before.items (length events.now)) }
    ensures state { IfOk result (λ it. it.state ≡ known_to_all (finish_in []) events.now) }
{
    let count = events.len();
    let mut first = Children::none(alloc, ParentSlot::First, count)?;
    let mut second = Children::none(alloc, ParentSlot::Second, count)?;
    let mut times = Vec::with_capacity(alloc, count)?;
    let mut waits = Vec::with_capacity(alloc, count)?;
    let mut ready = ReadyHeap::with_room(alloc, count)?;
    for event in events {
        first.add(event);
        second.add(event);
        let start = earliest_start(event);
        let parents = parents(event);
        times.push_reserved(Fired {
            number: event.number,
            start,
            finish: 0,
        });
        waits.push_reserved(parents);
        if parents == 0 {
            ready.push(Key {
                start,
                number: event.number,
            });
        }
    }
    Ok(Beginning {
        first,
        second,
        state: State::of(times, waits, ready),
    })
}
