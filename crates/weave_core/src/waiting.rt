//! The events of a domain that have not fired, by their places among the domain's events.
ghost use Rattle.std.specs.Prelude.{◌≡◌, ◌<◌, ◌^◌, ◌-◌, ◌==◌, IfNone, IfOk, IfSome, length, slice_index};
ghost use Rattle.weave_core.specs.Waits.{IsFirstReady, NoneReady, is_fired_wait, told};

use domain_queue::Ready;
use std::alloc::Global;
use std::marker::Model;
use zs_num::{Cycle, Key, NoMemory};

/// What a place waits for once its event has fired.
pub(crate) const FIRED: u32 = u32::MAX;

/// For each place the start so far, and for how many parents it waits.
#[derive(Drop)]
pub(crate) struct Waiting {
    starts: Vec<Cycle>,
    waits: Vec<u32>,
    ready: Ready,
}

impl Model for Waiting {
    ghost use Rattle.weave_core.specs.Waits.{Waits, HasReadyPlaces};

    ghost Value = { Waits };

    ghost view = { λ w. record { starts = w.starts.items; waits = w.waits.items } };

    ghost invariant = { λ w. HasReadyPlaces w.starts.items w.waits.items w.ready };
}

impl Waiting {
    ghost use Rattle.weave_core.specs.Waits.{Waits};

    /// These starts and waits, where none has fired.
    pub(crate) fn begin(
        alloc: Global,
        starts: Vec<Cycle>,
        waits: Vec<u32>,
    ) -> Result<Self, NoMemory>
        requires sizes { length starts.items ≡ length waits.items }
        requires few { length waits.items < 2 ^ 31 }
        ensures { IfOk result (λ it. it ≡ record { starts = starts.items; waits = waits.items }) }
    {
        let mut ready = Ready::with_room(alloc, waits.len() as u32)?;
        for place in 0..waits.len() as u32 {
            if waits[place as usize] == 0 {
                ready.push(Key {
                    start: starts[place as usize],
                    number: place,
                });
            }
        }
        Ok(Waiting {
            starts,
            waits,
            ready,
        })
    }

    /// The start and the place of the first that is ready.
    pub(crate) fn first(&self) -> Option<Key>
        ensures first { IfSome result (IsFirstReady self.now) }
        ensures none { IfNone result (NoneReady self.now) }
    {
        self.ready.first()
    }

    /// Takes the first that is ready, which has fired from now on.
    pub(crate) fn take_first(&mut self) -> Option<Key>
        ensures first { IfSome result (IsFirstReady self.old) }
        ensures taken { IfSome result (λ k. self.new ≡ is_fired_wait self.old k.number) }
        ensures none { IfNone result (NoneReady self.old) }
    {
        let key = self.ready.pop()?;
        self.waits[key.number as usize] = FIRED;
        Some(key)
    }

    /// Whether the event at the place has fired.
    pub(crate) fn has_fired(&self, place: u32) -> bool
        requires within { place < length self.now.waits }
        ensures { result ≡ (slice_index self.now.waits place == FIRED) }
    {
        self.waits[place as usize] == FIRED
    }

    /// A parent of the event has fired: the event starts at this cycle or later, and waits for one
    /// parent less.
    pub(crate) fn parent_fired(&mut self, place: u32, at: Cycle)
        requires sizes { length self.old.starts ≡ length self.old.waits }
        requires within { place < length self.old.waits }
        requires waits { 0 < slice_index self.old.waits place }
        requires unfired { slice_index self.old.waits place < FIRED }
        ensures { self.new ≡ told self.old place at }
    {
        let index = place as usize;
        let start = self.starts[index].max(at);
        self.starts[index] = start;
        self.waits[index] -= 1;
        if self.waits[index] == 0 {
            self.ready.push(Key {
                start,
                number: place,
            });
        }
    }
}
