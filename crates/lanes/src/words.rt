//! A word's first place in a list, and the least word of one.
ghost use Rattle.std.specs.Prelude.{◌≡◌, ◌+◌, ◌<◌, ◌≤◌, ℕ, nat_eq, not, length, slice_index, false, true, IfSome, ◌==◌};
ghost use Rattle.std.specs.List.{position, prefix_len};
ghost use Rattle.std.specs.Simd.Lanes.{chunk};
ghost use Rattle.lanes.specs.Words.{least_from, least_of};

use std::simd::prelude::*;

/// How many words are compared at a time.
const LANES: usize = 8;

/// How many of 8 words come before the first that is x.
#[inline(always)]
fn before_in(list: &[u64], at: usize, x: u64) -> usize
    requires { at + 8 ≤ length list.now }
    ensures { result ≡ prefix_len (λ y. not (y == x)) (chunk at 8 list.now) }
{
    let hits = u64x8::from_slice(&list[at..])
        .simd_eq(u64x8::splat(x))
        .to_bitmask();
    if hits == 0 {
        LANES
    } else {
        hits.trailing_zeros() as usize
    }
}

/// The first place of `x` in the blocks of 8 words, or the place where these end.
fn find_in_lanes(list: &[u64], x: u64) -> (bool, usize)
    ensures place { result.1 ≤ length list.now }
    ensures before { (k : ℕ) → k < result.1 → nat_eq (slice_index list.now k) x ≡ false }
    ensures here { result.0 ≡ true → (result.1 < length list.now) × (nat_eq (slice_index list.now result.1) x ≡ true) }
{
    let mut at = 0;
    while at + LANES <= list.len() {
        let lane = before_in(list, at, x);
        if lane < LANES {
            return (true, at + lane);
        }
        at += LANES;
    }
    (false, at)
}

/// The first place of `x`. None exactly where it isn't there.
pub fn find_eq(list: &[u64], x: u64) -> Option<usize>
    ensures value { result ≡ position (λ y. nat_eq y x) list.now }
    ensures within { IfSome result (λ place. place < length list.now) }
{
    let (found, at) = find_in_lanes(list, x);
    if found {
        return Some(at);
    }
    let mut place = at;
    while place < list.len() {
        if list[place] == x {
            return Some(place);
        }
        place += 1;
    }
    None
}

/// The least of some words. None exactly where there is none.
pub fn least(list: &[u64]) -> Option<u64>
    ensures { result ≡ least_of list.now }
{
    let first = list.first()?;
    Some(least_of_these(*first, list))
}

/// The least of a word and some others. The compiler takes four at a time, so `least` hands on the
/// first word too: most lists are some fours.
fn least_of_these(first: u64, words: &[u64]) -> u64
    ensures { result ≡ least_from first words.now }
{
    let mut least = first;
    for word in words {
        least = least.min(*word);
    }
    least
}
