//! The crossings into a domain, the one whose child could start first at hand.
ghost use Rattle.std.specs.Prelude.{◌≡◌, ◌<◌, ◌≤◌, ◌+◌, ◌^◌, ◌⊎◌, All, IfNone, IfOk, IfSome, Some, false, length, not, slice_get, slice_set, true};
ghost use Rattle.zs_num.specs.KeyOrder.{is_key_before};
ghost use Rattle.weave_core.specs.DomainMachine.{cycle_of, is_exact};
ghost use Rattle.weave_core.specs.Stubs.{AreSmallStubs, IsFirstStub, IsFloorCurrent, IsKeyed, IsQueued, IsSearched, IsSmallStub, NoneOpen, arrival_at, is_ahead as ahead_of_floor, reach_of, told_word};
ghost use Rattle.weave_core.specs.Waits.{key_of};

use domain_queue::Ready;
use std::alloc::Global;
use std::marker::Model;
use zs_num::{Cycle, Key, NoMemory, Word};

/// A crossing into the domain, as far as its child needs it.
#[derive(Clone, Copy)]
pub(crate) struct Stub {
    /// The number of the crossing.
    pub(crate) number: u32,
    /// The place of the child among the domain's events.
    pub(crate) child: u32,
    /// The least time from the parent's finish to the child's start, in cycles.
    pub(crate) delay: u64,
    /// The least time from the parent's start to its finish, in cycles.
    pub(crate) latency: u64,
    /// What is known of the parent's finish.
    pub(crate) word: Word,
}

/// The stubs in order of their numbers, and two queues of those whose parent's finish is not known:
/// by their reach, which no floor changes, and by the cycle that their children could start at.
/// Where a stub comes first in a queue that does not tell its arrival, it is put into the other one
/// or put in again.
#[derive(Drop)]
pub(crate) struct Incoming {
    stubs: Vec<Stub>,
    floor: Cycle,
    by_floor: Ready,
    by_word: Ready,
}

impl Model for Incoming {
    ghost use Rattle.weave_core.specs.Stubs.{Stubs, IsQueued};

    ghost Value = { Stubs };

    ghost view = { λ s. record { stubs = s.stubs.items; floor = s.floor } };

    ghost invariant = { λ s. IsQueued s.stubs.items s.floor s.by_floor s.by_word };
}

impl Stub {
    /// Whether the parent's finish is not known.
    pub(crate) fn is_open(&self) -> bool
        ensures open { result ≡ not (is_exact self.now.word) }
    {
        matches!(self.word, Word::Bound(_))
    }

    /// A cycle that the child does not start before: no earlier than the word says, and than the
    /// floor and the least time that the parent takes.
    fn arrival(&self, floor: Cycle) -> Cycle
        requires small { IsSmallStub self.now }
        requires floor { floor ≤ 2 ^ 62 }
        ensures arrival { result ≡ arrival_at floor self.now }
    {
        let cycle = match self.word {
            Word::Bound(cycle) | Word::Exact(cycle) => cycle,
        };
        cycle.max(floor + self.latency) + self.delay
    }

    /// The least time from the floor to the child's start.
    fn reach(&self) -> u64
        requires { IsSmallStub self.now }
        ensures { result ≡ reach_of self.now }
    {
        self.latency + self.delay
    }

    /// Whether the arrival is said by the word, and not by the floor.
    fn is_ahead(&self, floor: Cycle) -> bool
        requires small { IsSmallStub self.now }
        requires floor { floor ≤ 2 ^ 62 }
        ensures { result ≡ ahead_of_floor floor self.now }
    {
        let cycle = match self.word {
            Word::Bound(cycle) | Word::Exact(cycle) => cycle,
        };
        floor + self.latency < cycle
    }
}

impl Incoming {
    ghost use Rattle.weave_core.specs.Stubs.{Stubs};

    /// These stubs, at floor 0.
    pub(crate) fn begin(alloc: Global, stubs: Vec<Stub>) -> Result<Self, NoMemory>
        requires small { AreSmallStubs stubs.items }
        requires untold { (place : _) (s : Stub) → slice_get stubs.items place ≡ Some s → s.word ≡ Word.Bound 0 }
        requires few { length stubs.items < 2 ^ 31 }
        ensures { IfOk result (λ it. it ≡ record { stubs = stubs.items; floor = 0 }) }
    {
        let count = stubs.len() as u32;
        let mut by_floor = Ready::with_room(alloc, count)?;
        let by_word = Ready::with_room(alloc, count)?;
        for place in 0..count {
            by_floor.push(Key {
                start: stubs[place as usize].reach(),
                number: place,
            });
        }
        Ok(Incoming {
            stubs,
            floor: 0,
            by_floor,
            by_word,
        })
    }

    /// The arrival and the place of the open stub that comes first. None where no stub is open.
    pub(crate) fn first(&self) -> Option<Key>
        ensures first { IfSome result (IsFirstStub self.now) }
        ensures none { IfNone result (NoneOpen self.now) }
    {
        first_of(&self.stubs, self.floor, &self.by_floor, &self.by_word)
    }

    /// The stubs.
    pub(crate) fn stubs(&self) -> &[Stub]
        ensures stubs { result.now ≡ self.now.stubs }
        ensures small { AreSmallStubs self.now.stubs }
    {
        &self.stubs
    }

    /// Another word of a stub, which does not let its child start earlier.
    pub(crate) fn tell(&mut self, place: u32, word: Word)
        requires within { place < length self.old.stubs }
        requires small { cycle_of word ≤ 2 ^ 62 }
        requires later { (s : Stub) → slice_get self.old.stubs place ≡ Some s → is_exact word ≡ false → cycle_of s.word ≤ cycle_of word }
        requires open { (s : Stub) → slice_get self.old.stubs place ≡ Some s → is_exact word ≡ false → is_exact s.word ≡ false }
        ensures { (s : Stub) → slice_get self.old.stubs place ≡ Some s → self.new ≡ record self.old { stubs = slice_set self.old.stubs place (told_word word s) } }
    {
        self.stubs[place as usize].word = word;
        settle(
            &self.stubs,
            self.floor,
            &mut self.by_floor,
            &mut self.by_word,
        );
    }

    /// Another floor, which is no lower.
    pub(crate) fn raise_floor(&mut self, floor: Cycle)
        requires floor { self.old.floor ≤ floor }
        requires small { floor ≤ 2 ^ 62 }
        ensures { self.new ≡ record self.old { floor = floor } }
    {
        self.floor = floor;
        settle(
            &self.stubs,
            self.floor,
            &mut self.by_floor,
            &mut self.by_word,
        );
    }
}

/// The arrival and the place of the open stub that comes first in either queue.
fn first_of(stubs: &[Stub], floor: Cycle, by_floor: &Ready, by_word: &Ready) -> Option<Key>
    requires queued { IsQueued stubs.now floor by_floor.now by_word.now }
    ensures first { IfSome result (IsFirstStub (record { stubs = stubs.now; floor = floor })) }
    ensures none { IfNone result (NoneOpen (record { stubs = stubs.now; floor = floor })) }
{
    match (by_floor.first(), by_word.first()) {
        (None, key) => key,
        (Some(key), None) => Some(after_floor(floor, key)),
        (Some(key), Some(other)) => Some(earlier(after_floor(floor, key), other)),
    }
}

/// The key of an arrival, by a reach.
fn after_floor(floor: Cycle, key: Key) -> Key
    requires { floor + key.start < 2 ^ 64 }
    ensures { result ≡ key_of (floor + key.start) key.number }
{
    Key {
        start: floor + key.start,
        number: key.number,
    }
}

/// The one of two keys that comes first.
fn earlier(key: Key, other: Key) -> Key
    ensures first { (result ≡ key) ⊎ (result ≡ other) }
    ensures least { (is_key_before key result ≡ false) × (is_key_before other result ≡ false) }
{
    if other.start < key.start || (other.start == key.start && other.number < key.number) {
        other
    } else {
        key
    }
}

/// Brings both queues to where their first keys tell arrivals of open stubs.
fn settle(stubs: &[Stub], floor: Cycle, by_floor: &mut Ready, by_word: &mut Ready)
    requires small { AreSmallStubs stubs.now }
    requires floor { floor ≤ 2 ^ 62 }
    requires keyed { IsKeyed stubs.now floor by_floor.old by_word.old }
    ensures { IsQueued stubs.now floor by_floor.new by_word.new }
{
    settle_by_floor(stubs, floor, by_floor, by_word);
    settle_by_word(stubs, floor, by_floor, by_word);
}

/// Brings the first queue to where its first stub is open, and its arrival is said by the floor.
fn settle_by_floor(stubs: &[Stub], floor: Cycle, by_floor: &mut Ready, by_word: &mut Ready)
    requires small { AreSmallStubs stubs.now }
    requires floor { floor ≤ 2 ^ 62 }
    requires keyed { IsKeyed stubs.now floor by_floor.old by_word.old }
    ensures keyed { IsKeyed stubs.now floor by_floor.new by_word.new }
    ensures current { IsFloorCurrent stubs.now floor by_floor.new }
{
    while let Some(key) = by_floor.first() {
        let stub = &stubs[key.number as usize];
        if !stub.is_open() {
            by_floor.pop();
        } else if stub.is_ahead(floor) {
            by_floor.pop();
            by_word.push(Key {
                start: stub.arrival(floor),
                number: key.number,
            });
        } else {
            return;
        }
    }
}

/// Brings the second queue to where its first key is that of an open stub at its arrival.
fn settle_by_word(stubs: &[Stub], floor: Cycle, by_floor: &mut Ready, by_word: &mut Ready)
    requires small { AreSmallStubs stubs.now }
    requires floor { floor ≤ 2 ^ 62 }
    requires keyed { IsKeyed stubs.now floor by_floor.old by_word.old }
    requires current { IsFloorCurrent stubs.now floor by_floor.old }
    ensures { IsQueued stubs.now floor by_floor.new by_word.new }
{
    while let Some(key) = by_word.first() {
        let stub = &stubs[key.number as usize];
        if !stub.is_open() {
            by_word.pop();
        } else if !stub.is_ahead(floor) {
            by_word.pop();
            by_floor.push(Key {
                start: stub.reach(),
                number: key.number,
            });
        } else {
            let arrival = stub.arrival(floor);
            if key.start == arrival {
                return;
            }
            by_word.pop();
            by_word.push(Key {
                start: arrival,
                number: key.number,
            });
        }
    }
}

/// The place of the stub of a crossing, which is there.
pub(crate) fn place_of(stubs: &[Stub], crossing: u32) -> u32
    requires searched { IsSearched stubs.now crossing }
    requires few { length stubs.now < 2 ^ 31 }
    ensures number { (s : Stub) → slice_get stubs.now result ≡ Some s → s.number ≡ crossing }
    ensures there { result < length stubs.now }
{
    let mut low = 0;
    let mut high = stubs.len() as u32;
    while high - low > 1 {
        let middle = low + (high - low) / 2;
        if stubs[middle as usize].number <= crossing {
            low = middle;
        } else {
            high = middle;
        }
    }
    low
}
