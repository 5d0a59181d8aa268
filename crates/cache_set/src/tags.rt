//! The ways of a cache by their places: which line each has, and when it was used.
ghost use Rattle.std.specs.Prelude.{◌≡◌, ◌⊎◌, ℕ, ◌+◌, ◌*◌, ◌/◌, ◌%◌, ◌<◌, ◌≤◌, ◌^◌, [], length, slice_index, take, drop, IfSome, IfNone, IfOk, replicate, vec_len};
ghost use Rattle.cache_set.specs.Ages.{IsPlaceOf, HasNoPlace};
ghost use Rattle.cache_set.specs.Places.{AreTags, HasRoom, IsEntered, IsNext, IsPutIn, IsVictim, StandsAt, StandsNowhere, set_number_in};

use crate::ages::{oldest_place, place_of};
use crate::ticks::next_age;
use division::{quotient, remainder};
use std::alloc::Global;
use zs_num::NoMemory;

/// The ways of a cache, one set after the other. What else is kept of a way stands at its place in
/// arrays of the caller's.
#[derive(Drop)]
pub struct Tags {
    /// How many sets there are, up to 65536.
    pub sets: u64,
    /// How many ways a set has, up to 32.
    pub ways: usize,
    /// The latest age that was given, below 2^62.
    pub tick: u64,
    /// The age of each way: 0 of a free one, and of two others the greater of the one that was used
    /// later.
    pub ages: Vec<u64>,
    /// The line of each way that isn't free.
    pub tags: Vec<u64>,
}

impl Tags {
    /// So many sets of so many free ways.
    pub fn new(alloc: Global, sets: u32, ways: u16) -> Result<Self, NoMemory>
        requires ways { ways ≤ 32 }
        requires sets { sets ≤ 65536 }
        ensures sets { IfOk result (λ t. t.sets ≡ sets) }
        ensures ways { IfOk result (λ t. t.ways ≡ ways) }
        ensures tick { IfOk result (λ t. t.tick ≡ 0) }
        ensures ages { IfOk result (λ t. t.ages.items ≡ replicate (sets * ways) 0) }
        ensures tags { IfOk result (λ t. t.tags.items ≡ replicate (sets * ways) 0) }
    {
        let ways = usize::from(ways);
        let count = sets as usize * ways;
        Ok(Tags {
            sets: u64::from(sets),
            ways,
            tick: 0,
            ages: vec![in alloc; 0; count]?,
            tags: vec![in alloc; 0; count]?,
        })
    }

    /// The way that has a line, if one of its set has it. The lines are those of one of so many
    /// shards.
    #[inline(always)]
    pub fn find(&self, shards: u64, line: u64) -> Option<usize>
        requires shards { 0 < shards }
        requires sets { 0 < self.now.sets }
        requires ages { vec_len self.now.ages ≡ self.now.sets * self.now.ways }
        requires tags { vec_len self.now.tags ≡ self.now.sets * self.now.ways }
        ensures here { IfSome result (StandsAt self.now.ways self.now.ages.items self.now.tags.items (set_number_in shards self.now.sets line) line) }
        ensures none { IfNone result (StandsNowhere self.now.ways self.now.ages.items self.now.tags.items (set_number_in shards self.now.sets line) line) }
    {
        self.find_in(set_number(shards, self.sets, line), line)
    }

    /// The way of a set that has a line, if one has it.
    #[inline(always)]
    pub fn find_in(&self, set: u64, line: u64) -> Option<usize>
        requires set { set < self.now.sets }
        requires ages { vec_len self.now.ages ≡ self.now.sets * self.now.ways }
        requires tags { vec_len self.now.tags ≡ self.now.sets * self.now.ways }
        ensures here { IfSome result (StandsAt self.now.ways self.now.ages.items self.now.tags.items set line) }
        ensures none { IfNone result (StandsNowhere self.now.ways self.now.ages.items self.now.tags.items set line) }
    {
        let start = start_of(set, self.sets, self.ways, self.ages.len());
        find_from(&self.ages, &self.tags, start, self.ways, set, line)
    }

    /// The way of a line's set that the next line takes: a free one where there is one, and else the
    /// one that was used longest ago.
    #[inline(always)]
    pub fn next(&self, shards: u64, line: u64) -> usize
        requires shards { 0 < shards }
        requires sets { 0 < self.now.sets }
        requires some { 1 ≤ self.now.ways }
        requires ages { vec_len self.now.ages ≡ self.now.sets * self.now.ways }
        ensures { IsNext self.now.ways self.now.ages.items (set_number_in shards self.now.sets line) result }
    {
        let set = set_number(shards, self.sets, line);
        let start = start_of(set, self.sets, self.ways, self.ages.len());
        next_from(&self.ages, start, self.ways, set)
    }

    /// The way of a line's set whose line leaves for it. None where a way is free.
    #[inline(always)]
    pub fn victim(&self, shards: u64, line: u64) -> Option<usize>
        requires shards { 0 < shards }
        requires sets { 0 < self.now.sets }
        requires some { 1 ≤ self.now.ways }
        requires ages { vec_len self.now.ages ≡ self.now.sets * self.now.ways }
        ensures full { IfSome result (IsVictim self.now.ways self.now.ages.items (set_number_in shards self.now.sets line)) }
        ensures room { IfNone result (HasRoom self.now.ways self.now.ages.items (set_number_in shards self.now.sets line)) }
    {
        let place = self.next(shards, line);
        if self.ages[place] == 0 {
            None
        } else {
            Some(place)
        }
    }

    /// A line that is not there comes in, at the way that the next one takes. The answer is that
    /// way, and the line that had it, if one had.
    pub fn put_in(&mut self, shards: u64, line: u64) -> (usize, u64)
        requires shards { 0 < shards }
        requires sets { 0 < self.old.sets }
        requires are { AreTags self.old.sets self.old.ways self.old.tick self.old.ages.items self.old.tags.items }
        ensures put { IsPutIn self.old.sets self.old.ways self.old.ages.items self.old.tags.items (set_number_in shards self.old.sets line) line result.0 self.new.tick self.new.ages.items self.new.tags.items }
        ensures had { slice_index self.old.tags.items result.0 ≡ result.1 }
        ensures within { result.0 < self.old.sets * self.old.ways }
        ensures sets { self.new.sets ≡ self.old.sets }
        ensures ways { self.new.ways ≡ self.old.ways }
    {
        let age = next_age(&mut self.ages, &mut self.tick, self.sets, self.ways);
        let place = self.next(shards, line);
        let had = self.tags[place];
        self.ages[place] = age;
        self.tags[place] = line;
        (place, had)
    }

    /// The same, and what the way had before.
    #[inline(always)]
    pub fn enter(&mut self, shards: u64, line: u64) -> Entered
        requires shards { 0 < shards }
        requires sets { 0 < self.old.sets }
        requires are { AreTags self.old.sets self.old.ways self.old.tick self.old.ages.items self.old.tags.items }
        ensures entered { IsEntered self.old.sets self.old.ways self.old.ages.items self.old.tags.items (set_number_in shards self.old.sets line) line result.place self.new.tick self.new.ages.items self.new.tags.items result.evicts }
        ensures had { slice_index self.old.tags.items result.place ≡ result.had }
        ensures within { result.place < self.old.sets * self.old.ways }
        ensures way { result.way < self.old.ways }
        ensures place { result.place ≡ set_number_in shards self.old.sets line * self.old.ways + result.way }
        ensures sets { self.new.sets ≡ self.old.sets }
        ensures ways { self.new.ways ≡ self.old.ways }
    {
        let age = next_age(&mut self.ages, &mut self.tick, self.sets, self.ways);
        let set = set_number(shards, self.sets, line);
        let start = start_of(set, self.sets, self.ways, self.ages.len());
        let place = next_from(&self.ages, start, self.ways, set);
        let had = self.tags[place];
        let evicts = self.ages[place] != 0;
        self.ages[place] = age;
        self.tags[place] = line;
        Entered {
            place,
            way: place - start,
            had,
            evicts,
        }
    }
}

/// The way that a line came into.
#[derive(Clone, Copy)]
pub struct Entered {
    /// Its place among all ways.
    pub place: usize,
    /// Its number in its set.
    pub way: usize,
    /// The line that it had before, if it wasn't always free.
    pub had: u64,
    /// It was not free: the line that it had leaves.
    pub evicts: bool,
}

/// The number of a line among those of its shard. With one shard it is the line's own.
#[inline(always)]
pub fn number_in_shard(shards: u64, line: u64) -> u64
    requires { 0 < shards }
    ensures { result ≡ line / shards }
{
    if shards == 1 {
        line
    } else {
        quotient(line, shards)
    }
}

/// Where a line's set stands among the sets.
#[inline(always)]
fn set_number(shards: u64, sets: u64, line: u64) -> u64
    requires shards { 0 < shards }
    requires sets { 0 < sets }
    ensures value { result ≡ set_number_in shards sets line }
    ensures within { result < sets }
{
    remainder(number_in_shard(shards, line), sets)
}

/// Where a set's ways begin.
#[inline(always)]
#[tactic(auto, using(crate::proofs::Pieces::within_pieces))]
pub(crate) fn start_of(set: u64, sets: u64, ways: usize, all: usize) -> usize
    requires set { set < sets }
    requires all { all ≡ sets * ways }
    ensures at { result ≡ set * ways }
    ensures within { result + ways ≤ all }
{
    set as usize * ways
}

#[inline(always)]
fn find_from(
    ages: &[u64],
    tags: &[u64],
    start: usize,
    ways: usize,
    set: u64,
    line: u64,
) -> Option<usize>
    requires start { start ≡ set * ways }
    requires ages { start + ways ≤ length ages.now }
    requires tags { start + ways ≤ length tags.now }
    ensures here { IfSome result (StandsAt ways ages.now tags.now set line) }
    ensures none { IfNone result (StandsNowhere ways ages.now tags.now set line) }
{
    let end = start + ways;
    match place_of(&ages[start..end], &tags[start..end], line) {
        Some(way) => Some(start + way),
        None => None,
    }
}

#[inline(always)]
fn next_from(ages: &[u64], start: usize, ways: usize, set: u64) -> usize
    requires start { start ≡ set * ways }
    requires ages { start + ways ≤ length ages.now }
    requires some { 1 ≤ ways }
    ensures { IsNext ways ages.now set result }
{
    start + oldest_place(&ages[start..start + ways])
}
