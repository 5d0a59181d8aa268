//! The ages of the ways of all sets of a cache: each use of a way gives it the next.
ghost use Rattle.std.specs.Prelude.{◌≡◌, ℕ, ◌+◌, ◌*◌, ◌<◌, ◌≤◌, ◌^◌, ◌++◌, length, slice_index, take, drop, vec_len};
ghost use Rattle.cache_set.specs.Ages.{renumbered};
ghost use Rattle.cache_set.specs.Pieces.{IsSameOrder, piece};

use crate::ages::renumber;
use crate::tags::start_of;

/// The ages stay below this number.
const END: u64 = 1 << 62;

/// As many ways as a set has at most.
const MOST: u64 = 32;

/// The age of a way of a cache that is used now: later than those of all ways, whose order stays.
/// The tick is the latest age that was given. Where no number is left, the ages are written anew.
#[inline(always)]
pub fn next_age(ages: &mut Vec<u64>, tick: &mut u64, sets: u64, ways: usize) -> u64
    requires early { tick.old < 2 ^ 62 }
    requires few { ways ≤ 32 }
    requires all { vec_len ages.old ≡ sets * ways }
    requires past { (place : ℕ) → place < sets * ways → slice_index ages.old.items place ≤ tick.old }
    ensures order { IsSameOrder sets ways ages.old.items ages.new.items }
    ensures all { length ages.new.items ≡ sets * ways }
    ensures later { (place : ℕ) → place < sets * ways → slice_index ages.new.items place < result }
    ensures tick { tick.new ≡ result }
    ensures early { result < 2 ^ 62 }
{
    *tick = with_room(ages, *tick, sets, ways) + 1;
    *tick
}

/// The latest age, below the last. Where it was the last, the ages are written anew.
#[inline(always)]
fn with_room(ages: &mut Vec<u64>, tick: u64, sets: u64, ways: usize) -> u64
    requires early { tick < 2 ^ 62 }
    requires few { ways ≤ 32 }
    requires all { vec_len ages.old ≡ sets * ways }
    requires past { (place : ℕ) → place < sets * ways → slice_index ages.old.items place ≤ tick }
    ensures order { IsSameOrder sets ways ages.old.items ages.new.items }
    ensures all { length ages.new.items ≡ sets * ways }
    ensures past { (place : ℕ) → place < sets * ways → slice_index ages.new.items place ≤ result }
    ensures early { result + 1 < 2 ^ 62 }
{
    if tick + 1 < END {
        return tick;
    }
    renumber_all(ages, sets, ways);
    MOST
}

/// Writes the ages of each set anew as 1, 2 and so on, in their order.
#[inline(never)]
fn renumber_all(ages: &mut [u64], sets: u64, ways: usize)
    requires all { length ages.old ≡ sets * ways }
    requires few { ways ≤ 32 }
    ensures anew { (n : ℕ) → n < sets → piece ways n ages.new ≡ renumbered (piece ways n ages.old) }
    ensures long { length ages.new ≡ length ages.old }
{
    for set in 0..sets {
        let start = start_of(set, sets, ways, ages.len());
        renumber_from(ages, start, ways);
    }
}

/// The same of the set whose ways begin here.
fn renumber_from(ages: &mut [u64], start: usize, ways: usize)
    requires within { start + ways ≤ length ages.old }
    requires few { ways ≤ 32 }
    ensures value { ages.new ≡ take start ages.old ++ (renumbered (take ways (drop start ages.old)) ++ drop (start + ways) ages.old) }
    ensures long { length ages.new ≡ length ages.old }
{
    renumber(&mut ages[start..start + ways]);
}
