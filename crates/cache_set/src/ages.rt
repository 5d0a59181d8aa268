//! The ages of the ways of a set: 0 of a free way, and of two others the one with the greater age
//! was used later.
ghost use Rattle.std.specs.Prelude.{◌≡◌, ◌⊎◌, ℕ, ◌+◌, ◌<◌, ◌≤◌, ◌^◌, ◌&&◌, length, slice_index, vec_len, nat_lt, nat_le, count_by, take, IfSome, IfNone};
ghost use Rattle.cache_set.specs.Ages.{is_up_to, rank_in, renumbered, IsPlaceOf, HasNoPlace};

use lanes::{find_eq, least};

/// The ages stay below this number.
const END: u64 = 1 << 62;

/// The place of a line, where a way that isn't free has it.
#[inline(always)]
pub fn place_of(ages: &[u64], tags: &[u64], line: u64) -> Option<usize>
    requires { length ages.now ≡ length tags.now }
    ensures here { IfSome result (IsPlaceOf line ages.now tags.now) }
    ensures none { IfNone result (HasNoPlace line ages.now tags.now) }
{
    match find_eq(tags, line) {
        Some(place) => {
            if ages[place] != 0 {
                Some(place)
            } else {
                place_among(ages, tags, line)
            }
        }
        None => None,
    }
}

/// The same, past free ways that had the line before.
#[inline(never)]
fn place_among(ages: &[u64], tags: &[u64], line: u64) -> Option<usize>
    requires { length ages.now ≡ length tags.now }
    ensures here { IfSome result (IsPlaceOf line ages.now tags.now) }
    ensures none { IfNone result (HasNoPlace line ages.now tags.now) }
{
    for place in 0..tags.len() {
        if ages[place] != 0 && tags[place] == line {
            return Some(place);
        }
    }
    None
}

/// The place that the next line takes: a free one where there is one, and else that of the way that
/// was used longest ago.
#[inline(always)]
pub fn next_place(ages: &[u64]) -> usize
    requires { 0 < length ages.now }
    ensures within { result < length ages.now }
    ensures oldest { (place : ℕ) → place < length ages.now → slice_index ages.now result ≤ slice_index ages.now place }
{
    match least(ages) {
        Some(age) => find_eq(ages, age).unwrap_or(0),
        None => 0,
    }
}

/// The same in one pass, which takes half as long where the ages lie in a large array.
#[inline(always)]
pub(crate) fn oldest_place(ages: &[u64]) -> usize
    requires { 0 < length ages.now }
    ensures within { result < length ages.now }
    ensures oldest { (place : ℕ) → place < length ages.now → slice_index ages.now result ≤ slice_index ages.now place }
{
    let mut oldest = 0;
    for place in 1..ages.len() {
        if ages[place] < ages[oldest] {
            oldest = place;
        }
    }
    oldest
}

/// The age of a way that is used now. Where no number is left, the ages are written anew first.
#[inline(always)]
pub fn next_age(ages: &mut Vec<u64>, tick: &mut u64) -> u64
    requires early { tick.old < 2 ^ 62 }
    requires few { vec_len ages.old ≤ 32 }
    requires past { (place : ℕ) → place < vec_len ages.old → slice_index ages.old.items place ≤ tick.old }
    ensures order { (ages.new.items ≡ ages.old.items) ⊎ (ages.new.items ≡ renumbered ages.old.items) }
    ensures later { (place : ℕ) → place < vec_len ages.old → slice_index ages.new.items place < result }
    ensures tick { tick.new ≡ result }
    ensures early { result < 2 ^ 62 }
{
    *tick = with_room(ages, *tick) + 1;
    *tick
}

/// The latest age, below the last. Where it was the last, the ages are written anew.
#[inline(always)]
fn with_room(ages: &mut Vec<u64>, tick: u64) -> u64
    requires early { tick < 2 ^ 62 }
    requires few { vec_len ages.old ≤ 32 }
    requires past { (place : ℕ) → place < vec_len ages.old → slice_index ages.old.items place ≤ tick }
    ensures order { (ages.new.items ≡ ages.old.items) ⊎ (ages.new.items ≡ renumbered ages.old.items) }
    ensures past { (place : ℕ) → place < vec_len ages.old → slice_index ages.new.items place ≤ result }
    ensures early { result + 1 < 2 ^ 62 }
{
    if tick + 1 < END {
        return tick;
    }
    renumber(ages)
}

/// Writes the ages anew as 1, 2 and so on, in their order. The answer is at least the greatest.
#[inline(never)]
pub fn renumber(ages: &mut [u64]) -> u64
    requires { length ages.old ≤ 32 }
    ensures ages { ages.new ≡ renumbered ages.old }
    ensures together { length ages.new ≡ length ages.old }
    ensures most { (place : ℕ) → place < length ages.old → slice_index ages.new place ≤ result }
    ensures few { result ≤ 32 }
{
    let mut copy = [0; 32];
    let old = &mut copy[..ages.len()];
    old.copy_from_slice(ages);
    write_ranks(ages, old);
    ages.len() as u64
}

/// Writes the rank of each old age.
fn write_ranks(ages: &mut [u64], old: &[u64])
    requires few { length old.now ≤ 32 }
    requires together { length ages.old ≡ length old.now }
    ensures { ages.new ≡ renumbered old.now }
{
    for place in 0..old.len() {
        ages[place] = rank_in(old, old[place]);
    }
}

/// How many ways that aren't free have no greater age than this.
fn rank_in(ages: &[u64], age: u64) -> u64
    requires { length ages.now ≤ 32 }
    ensures value { result ≡ rank_in ages.now age }
    ensures few { result ≤ length ages.now }
{
    let mut rank = 0;
    for other in ages {
        if is_up_to(age, *other) {
            rank += 1;
        }
    }
    rank
}

#[inline(always)]
#[tactic(auto, unfolding(crate::specs::Ages::is_up_to))]
fn is_up_to(age: u64, other: u64) -> bool
    ensures { result ≡ is_up_to age other }
{
    0 < other && other <= age
}
