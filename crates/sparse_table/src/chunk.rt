//! The values of 64 numbers in a row.
ghost use Rattle.std.specs.Prelude.{◌≡◌, ◌+◌, ◌<◌, ◌≤◌, ◌^◌, ◌↔◌, count_by, is_some, IfOk, IsTrue, None, Some, replicate, slice_index_or, slice_set, length, map};
ghost use Rattle.std.specs.Option.{unwrap_or};
ghost use Rattle.sparse_table.specs.Chunks.{AreChunks, IsAt, IsPlace, entries_at, kept_at, put_at};
ghost use Rattle.sparse_table.specs.Sparse.{entries_from, first_number};

use crate::Change;
use std::alloc::{AllocError, Global};

/// How many numbers a chunk has.
pub(crate) const CHUNK: u64 = 64;

/// A chunk: the values of the numbers from 64 times its own number on, of those that were set.
#[derive(Drop)]
pub(crate) struct Chunk<T: Copy> {
    pub(crate) number: u64,
    pub(crate) values: Vec<Option<T>>,
}

/// A chunk with one value.
pub(crate) fn chunk_with<T: Copy>(
    alloc: Global,
    number: u64,
    place: usize,
    value: T,
) -> Result<Chunk<T>, AllocError>
    requires { place < 64 }
    ensures { IfOk result (λ c. (c.number ≡ number) × (c.values.items ≡ slice_set (replicate 64 None) place (Some value))) }
{
    let mut values = vec![in alloc; None; 64]?;
    values[place] = Some(value);
    Ok(Chunk { number, values })
}

/// The place where the chunk of this number is, or would go.
pub(crate) fn place_of<T: Copy>(chunks: &Vec<Chunk<T>>, number: u64) -> usize
    requires { AreChunks 0 (map (λ c. (c.number, c.values.items)) chunks.now.items) }
    ensures { IsPlace (map (λ c. (c.number, c.values.items)) chunks.now.items) number result }
{
    let mut from = 0;
    let mut to = chunks.len();
    while from < to {
        let middle = from + (to - from) / 2;
        if chunks[middle].number < number {
            from = middle + 1;
        } else {
            to = middle;
        }
    }
    from
}

/// Whether the chunk at a place has this number.
#[inline(always)]
pub(crate) fn is_at<T: Copy>(chunks: &Vec<Chunk<T>>, at: usize, number: u64) -> bool
    ensures { IsTrue result ↔ IsAt (map (λ c. (c.number, c.values.items)) chunks.now.items) number at }
{
    at < chunks.len() && chunks[at].number == number
}

/// What the chunk at a place has, or `none`.
#[inline(always)]
pub(crate) fn value_at<T: Copy>(chunks: &Vec<Chunk<T>>, at: usize, place: usize, none: T) -> T
    requires chunks { AreChunks 0 (map (λ c. (c.number, c.values.items)) chunks.now.items) }
    requires at { at < length chunks.now.items }
    requires place { place < 64 }
    ensures { result ≡ kept_at none at place (map (λ c. (c.number, c.values.items)) chunks.now.items) }
{
    match chunks[at].values[place] {
        Some(value) => value,
        None => none,
    }
}

/// Keeps a value in the chunk at a place.
#[inline(always)]
pub(crate) fn put<T: Copy>(chunks: &mut Vec<Chunk<T>>, at: usize, place: usize, value: T)
    requires chunks { AreChunks 0 (map (λ c. (c.number, c.values.items)) chunks.old.items) }
    requires at { at < length chunks.old.items }
    requires place { place < 64 }
    ensures { map (λ c. (c.number, c.values.items)) chunks.new.items ≡ put_at at place value (map (λ c. (c.number, c.values.items)) chunks.old.items) }
{
    let chunk = &mut chunks[at];
    chunk.values[place] = Some(value);
}

/// Changes what the chunk at a place has, or gives it what `none` becomes.
#[inline(always)]
pub(crate) fn change<T: Copy, C: Change<T>>(
    chunks: &mut Vec<Chunk<T>>,
    at: usize,
    place: usize,
    none: T,
    by: &C,
)
    requires chunks { AreChunks 0 (map (λ c. (c.number, c.values.items)) chunks.old.items) }
    requires at { at < length chunks.old.items }
    requires place { place < 64 }
    ensures { map (λ c. (c.number, c.values.items)) chunks.new.items ≡ put_at at place (C.changed by.now (kept_at none at place (map (λ c. (c.number, c.values.items)) chunks.old.items))) (map (λ c. (c.number, c.values.items)) chunks.old.items) }
{
    let chunk = &mut chunks[at];
    change_in(&mut chunk.values, place, none, by);
}

/// The same of the values of a chunk.
#[inline(always)]
fn change_in<T: Copy, C: Change<T>>(values: &mut Vec<Option<T>>, place: usize, none: T, by: &C)
    requires { place < length values.old.items }
    ensures { values.new.items ≡ slice_set values.old.items place (Some (C.changed by.now (unwrap_or (slice_index_or values.old.items place None) none))) }
{
    change_one(&mut values[place], none, by);
}

/// The same of one value.
#[inline(always)]
fn change_one<T: Copy, C: Change<T>>(slot: &mut Option<T>, none: T, by: &C)
    ensures { slot.new ≡ Some (C.changed by.now (unwrap_or slot.old none)) }
{
    match slot {
        Some(value) => by.change(value),
        None => {
            let mut value = none;
            by.change(&mut value);
            *slot = Some(value);
        }
    }
}

/// The number of the first value that was set, from a number on, where `base` is the number of the
/// first value.
pub(crate) fn first_in<T: Copy>(base: u64, values: &[Option<T>], from: u64) -> Option<u64>
    requires { base + length values.now ≤ 2 ^ 64 }
    ensures { result ≡ first_number (entries_from from (entries_at base values.now)) }
{
    let first = from.saturating_sub(base) as usize;
    for place in first..values.len() {
        if values[place].is_some() {
            return Some(base + place as u64);
        }
    }
    None
}

/// How many values were set.
pub(crate) fn count_in<T: Copy>(values: &[Option<T>]) -> usize
    ensures { result ≡ count_by is_some values.now }
{
    values.iter().filter(|value| value.is_some()).count()
}
