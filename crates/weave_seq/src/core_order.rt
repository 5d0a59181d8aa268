//! The events of each core, one after the other.
ghost use Rattle.std.specs.Prelude.{◌≡◌, ◌<◌, ◌≤◌, All, IfOk, [], None, length, replicate, vec_len};
ghost use Rattle.event_graph.specs.Numbered.{IsNumbered};
ghost use Rattle.weave_seq.specs.ByCore.{AreFirstFrom, AreFirstKeys, AreFollowedFrom};

use crate::begin::earliest_start;
use crate::ready::ReadyHeap;
use event_graph::{Event, Fired};
use std::alloc::Global;
use zs_num::{Key, NoMemory};

/// The events of each core before the first of them fires.
#[derive(Drop)]
pub(crate) struct CoreOrder {
    /// For each event the number of the next one of its core. 0 is none, since event 0 comes behind
    /// no other.
    pub(crate) following: Vec<u32>,
    /// The key of each core's first event.
    pub(crate) ready: ReadyHeap,
    /// Room for when each event fires.
    pub(crate) times: Vec<Fired>,
}

/// Links each event to the next one of its core. All memory of the weave is taken here.
pub(crate) fn order_by_core(
    alloc: Global,
    events: &[Event],
    cores: u16,
) -> Result<CoreOrder, NoMemory>
    requires numbered { IsNumbered events.now }
    requires cores { All (λ e. e.core < cores) events.now }
    ensures following { IfOk result (λ it. AreFollowedFrom events.now 0 it.following.items) }
    ensures size { IfOk result (λ it. vec_len it.following ≡ length events.now) }
    ensures ready { IfOk result (λ it. AreFirstKeys events.now [] it.ready.list) }
    ensures room { IfOk result (λ it. length it.ready.list ≤ it.ready.room) }
    ensures times { IfOk result (λ it. vec_len it.times ≡ length events.now) }
{
    let none = Fired {
        number: 0,
        start: 0,
        finish: 0,
    };
    let mut first = vec![in alloc; None; usize::from(cores)]?;
    let mut following = vec![in alloc; 0; events.len()]?;
    link(events, &mut first, &mut following);
    Ok(CoreOrder {
        following,
        ready: first_keys(alloc, events, &first)?,
        times: vec![in alloc; none; events.len()]?,
    })
}

/// Tells the number of each event's next one of its core, and of each core's first event.
fn link(events: &[Event], first: &mut [Option<u32>], following: &mut [u32])
    requires numbered { IsNumbered events.now }
    requires cores { All (λ e. e.core < length first.old) events.now }
    requires none { first.old ≡ replicate (length first.old) None }
    requires size { length following.old ≡ length events.now }
    ensures first { AreFirstFrom events.now 0 first.new }
    ensures cores { length first.new ≡ length first.old }
    ensures following { AreFollowedFrom events.now 0 following.new }
    ensures size { length following.new ≡ length events.now }
{
    let mut from = events.len();
    while from > 0 {
        from -= 1;
        let event = &events[from];
        let core = usize::from(event.core);
        following[from] = match first[core] {
            Some(number) => number,
            None => 0,
        };
        first[core] = Some(event.number);
    }
}

/// The keys of the first events of cores.
fn first_keys(alloc: Global, events: &[Event], first: &[Option<u32>]) -> Result<ReadyHeap, NoMemory>
    requires numbered { IsNumbered events.now }
    requires cores { All (λ e. e.core < length first.now) events.now }
    requires first { AreFirstFrom events.now 0 first.now }
    ensures keys { IfOk result (λ ready. AreFirstKeys events.now [] ready.list) }
    ensures room { IfOk result (λ ready. length ready.list ≤ ready.room) }
{
    let mut ready = ReadyHeap::with_room(alloc, first.len())?;
    for &number in first {
        if let Some(number) = number {
            let start = earliest_start(&events[number as usize]);
            ready.push(Key { start, number });
        }
    }
    Ok(ready)
}
