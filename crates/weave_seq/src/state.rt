//! What is known of the events while they fire.
ghost use Rattle.std.specs.Prelude.{◌≡◌, ◌-◌, ◌<◌, IfNone, IfSome, length, max, slice_index, slice_index_or, slice_set};
ghost use Rattle.event_graph.specs.declared.fired.Fired.{Fired};
ghost use Rattle.weave_seq.specs.SoFar.{IsFirst, NoneIsReady, SoFar};

use crate::ready::ReadyHeap;
use event_graph::Fired;
use std::marker::Model;
use zs_num::{Cycle, Key};

/// What an event waits for once it has fired.
pub(crate) const FIRED: u8 = u8::MAX;

/// What is known of the events, by their numbers.
#[derive(Drop)]
pub(crate) struct State {
    /// The start so far, and the finish once the event has fired.
    times: Vec<Fired>,
    /// For how many parents the event waits, or `FIRED`.
    waits: Vec<u8>,
    /// The keys of the events that wait for no parent.
    ready: ReadyHeap,
}

impl Model for State {
    ghost use Rattle.weave_seq.specs.SoFar.{HasReady, SoFar};

    ghost Value = { SoFar };

    ghost view = { λ s. record { times = s.times.items; waits = s.waits.items } };

    ghost invariant = { λ s. HasReady s.times.items s.waits.items s.ready };
}

impl State {
    ghost use Rattle.weave_seq.specs.SoFar.{HasReady};

    pub(crate) fn of(times: Vec<Fired>, waits: Vec<u8>, ready: ReadyHeap) -> Self
        requires { HasReady times.items waits.items ready }
        ensures { result ≡ record { times = times.items; waits = waits.items } }
    {
        State {
            times,
            waits,
            ready,
        }
    }

    /// Takes the first of the ready events, which has fired from now on.
    pub(crate) fn take_first(&mut self) -> Option<Key>
        ensures first { IfSome result (λ k. IsFirst self.old k) }
        ensures taken { IfSome result (λ k. self.new ≡ record { times = self.old.times; waits = slice_set self.old.waits k.number FIRED }) }
        ensures none { IfNone result (NoneIsReady self.old) }
    {
        match self.ready.pop() {
            Some(key) => {
                self.waits[key.number as usize] = FIRED;
                Some(key)
            }
            None => None,
        }
    }

    /// Keeps when an event fired.
    pub(crate) fn keep(&mut self, fired: Fired)
        requires within { fired.number < length self.old.times }
        requires taken { slice_index self.old.waits fired.number ≡ FIRED }
        ensures { self.new ≡ record { times = slice_set self.old.times fired.number fired; waits = self.old.waits } }
    {
        // Field by field: the bytes between the fields are not moved along.
        self.times[fired.number as usize] = Fired {
            number: fired.number,
            start: fired.start,
            finish: fired.finish,
        };
    }

    /// A parent of the event has fired: the event starts at this cycle or later, and waits for one
    /// parent less.
    pub(crate) fn parent_fired(&mut self, number: u32, at: Cycle)
        requires within { number < length self.old.times }
        requires waits { 0 < slice_index self.old.waits number }
        ensures times { (d : Fired) → self.new.times ≡ slice_set self.old.times number (record (slice_index_or self.old.times number d) { start = max (slice_index_or self.old.times number d).start at }) }
        ensures waits { self.new.waits ≡ slice_set self.old.waits number (slice_index self.old.waits number - 1) }
    {
        let index = number as usize;
        let start = self.times[index].start.max(at);
        self.times[index].start = start;
        self.waits[index] -= 1;
        if self.waits[index] == 0 {
            self.ready.push(Key { start, number });
        }
    }

    /// The times of the events, in order of number.
    pub(crate) fn into_times(self) -> Vec<Fired>
        ensures { result.items ≡ self.times }
    {
        self.times
    }
}
