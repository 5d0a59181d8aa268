//! One set: of each way its age, its tag and its mark, at one place of three lists.
ghost use Rattle.std.specs.Prelude.{◌≡◌, ◌<◌, ◌≤◌, ◌^◌, ◌↔◌, [], length, option_map, IfOk, IsSome, IsNone};
ghost use Rattle.cache_set.specs.Ways.{kept_of, without, used, filled, changed, victim_of};
ghost use Rattle.cache_set.specs.WaySets.{IsWaySet, way_of};
ghost use Rattle.cache_set.specs.Rows.{way_at};

use crate::ages::{next_age, next_place, place_of};
use std::alloc::Global;
use std::marker::Model;
use zs_num::NoMemory;

/// A line in a set.
#[derive(Clone, Copy)]
pub struct Way {
    /// The number of the line: its address by the bytes of a line.
    pub line: u64,
    /// What the cache keeps of it.
    pub mark: u8,
}

/// The lines of one set with their marks, which contracts see as a list, the most recently used
/// first.
#[derive(Drop)]
pub struct Set {
    ways: usize,
    tick: u64,
    ages: Vec<u64>,
    tags: Vec<u64>,
    marks: Vec<u8>,
}

impl Model for Set {
    ghost use Rattle.cache_set.specs.WaySets.{WaySet};
    ghost use Rattle.cache_set.specs.Rows.{AreRows, rows_view};

    ghost Value = { WaySet };

    ghost view = { λ s. rows_view s.ways s.ages.items s.tags.items s.marks.items };

    ghost invariant = { λ s. AreRows s.ways s.tick s.ages.items s.tags.items s.marks.items };
}

impl Set {
    /// An empty set of this many ways, 1 to 32. No other call takes memory.
    pub fn new(alloc: Global, ways: u16) -> Result<Self, NoMemory>
        requires { (1 ≤ ways) × (ways ≤ 32) }
        ensures { IfOk result (λ set. set ≡ record { ways = ways; list = [] }) }
    {
        Set::with_tick(alloc, ways, 0)
    }

    /// An empty set of this many ways, 1 to 32, whose ages begin after this number, below 2^62.
    /// Nothing that the set answers depends on it.
    pub fn with_tick(alloc: Global, ways: u16, tick: u64) -> Result<Self, NoMemory>
        requires ways { (1 ≤ ways) × (ways ≤ 32) }
        requires tick { tick < 2 ^ 62 }
        ensures { IfOk result (λ set. set ≡ record { ways = ways; list = [] }) }
    {
        let ways = usize::from(ways);
        Ok(Set {
            ways,
            tick,
            ages: vec![in alloc; 0; ways]?,
            tags: vec![in alloc; 0; ways]?,
            marks: vec![in alloc; 0; ways]?,
        })
    }

    /// The mark of a line, where the line is there.
    pub fn look(&self, line: u64) -> Option<u8>
        ensures mark { result ≡ kept_of line self.now.list }
        ensures is_set { IsWaySet self.now }
    {
        let place = place_of(&self.ages, &self.tags, line)?;
        Some(self.marks[place])
    }

    /// Makes a line that is there the most recently used.
    pub fn touch(&mut self, line: u64)
        requires { IsSome (kept_of line self.old.list) }
        ensures { self.new ≡ record self.old { list = used line self.old.list } }
    {
        let age = next_age(&mut self.ages, &mut self.tick);
        if let Some(place) = place_of(&self.ages, &self.tags, line) {
            self.ages[place] = age;
        }
    }

    /// Puts a line that is not there at the front. Of a full set the last line is evicted, and is
    /// the answer.
    pub fn put(&mut self, line: u64, mark: u8) -> Option<Way>
        requires { IsNone (kept_of line self.old.list) }
        ensures victim { result ≡ option_map way_of (victim_of self.old.ways self.old.list) }
        ensures after { self.new ≡ record self.old { list = filled self.old.ways line mark self.old.list } }
    {
        let age = next_age(&mut self.ages, &mut self.tick);
        let at = next_place(&self.ages);
        let victim = way_at(&self.ages, &self.tags, &self.marks, at);
        self.ages[at] = age;
        self.tags[at] = line;
        self.marks[at] = mark;
        victim
    }

    /// Removes a line, where it is there. The answer is its mark.
    pub fn take_out(&mut self, line: u64) -> Option<u8>
        ensures mark { result ≡ kept_of line self.old.list }
        ensures after { self.new ≡ record self.old { list = without line self.old.list } }
    {
        let place = place_of(&self.ages, &self.tags, line)?;
        self.ages[place] = 0;
        Some(self.marks[place])
    }

    /// Gives another mark to a line that is there, and leaves it in its place.
    pub fn change(&mut self, line: u64, mark: u8)
        requires { IsSome (kept_of line self.old.list) }
        ensures { self.new ≡ record self.old { list = changed line mark self.old.list } }
    {
        if let Some(place) = place_of(&self.ages, &self.tags, line) {
            self.marks[place] = mark;
        }
    }

    /// The victim, which is evicted when the next line comes: the last line, where the set is full.
    pub fn last_if_full(&self) -> Option<Way>
        ensures way { result ≡ option_map way_of (victim_of self.now.ways self.now.list) }
        ensures full { IsSome result ↔ (length self.now.list ≡ self.now.ways) }
    {
        let last = next_place(&self.ages);
        way_at(&self.ages, &self.tags, &self.marks, last)
    }
}

/// The way at a place. None where it is free.
#[inline(always)]
#[tactic(auto, unfolding(crate::specs::Rows::way_at))]
fn way_at(ages: &[u64], tags: &[u64], marks: &[u8], place: usize) -> Option<Way>
    requires ages { place < length ages.now }
    requires tags { place < length tags.now }
    requires marks { place < length marks.now }
    ensures { result ≡ way_at ages.now tags.now marks.now place }
{
    if ages[place] == 0 {
        None
    } else {
        Some(Way {
            line: tags[place],
            mark: marks[place],
        })
    }
}
