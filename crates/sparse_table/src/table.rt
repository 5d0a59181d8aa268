//! The table of values by number.
ghost use Rattle.std.specs.Prelude.{◌≡◌, ◌<◌, ◌^◌, [], OnErr, OnOk, length};
ghost use Rattle.sparse_table.specs.Sparse.{RiseFrom, entries_from, next_from, value_of, with_value};

use crate::Change;
use crate::chunk::{CHUNK, Chunk, change, chunk_with, is_at, place_of, put, value_at};
use crate::chunks::{count_in_chunks, first_in_chunks};
use std::alloc::Global;
use std::marker::Model;
use zs_num::NoMemory;

/// How many places of chunks are remembered.
const RECENT: usize = 256;

/// Where the place of a number's chunk is remembered.
#[inline(always)]
fn recent_place(number: u64) -> usize
    ensures { result < 256 }
{
    (number / CHUNK) as usize % RECENT
}

/// Values by number, of which few were set, mostly near one another: chunks of 64 numbers, those with
/// a number that was set, in ascending order. A chunk is looked for where it was last, and then by
/// halves.
#[derive(Drop)]
pub struct SparseTable<T: Copy> {
    alloc: Global,
    none: T,
    recent: [usize; RECENT],
    chunks: Vec<Chunk<T>>,
}

impl<T: Copy> Model for SparseTable<T> {
    ghost use Rattle.std.specs.Prelude.{map};
    ghost use Rattle.sparse_table.specs.Sparse.{Sparse};
    ghost use Rattle.sparse_table.specs.Chunks.{AreChunks, entries_of};

    ghost Value = { Sparse T };

    ghost view = { λ t. record { none = t.none; entries = entries_of (map (λ c. (c.number, c.values.items)) t.chunks.items) } };

    ghost invariant = { λ t. AreChunks 0 (map (λ c. (c.number, c.values.items)) t.chunks.items) };
}

impl<T: Copy> SparseTable<T> {
    /// No number was set, and each has the value `none`.
    pub fn new(alloc: Global, none: T) -> Self
        ensures { result ≡ record { none = none; entries = [] } }
    {
        SparseTable {
            alloc,
            none,
            recent: [0; RECENT],
            chunks: Vec::new(alloc),
        }
    }

    /// The value of a number: the one that it was given last, or that of all that were not set.
    #[inline(always)]
    pub fn get(&self, number: u64) -> T
        ensures { result ≡ value_of self.now number }
    {
        let at = self.recent[recent_place(number)];
        if is_at(&self.chunks, at, number / CHUNK) {
            value_at(&self.chunks, at, (number % CHUNK) as usize, self.none)
        } else {
            self.get_by_search(number)
        }
    }

    fn get_by_search(&self, number: u64) -> T
        ensures { result ≡ value_of self.now number }
    {
        let at = place_of(&self.chunks, number / CHUNK);
        if is_at(&self.chunks, at, number / CHUNK) {
            value_at(&self.chunks, at, (number % CHUNK) as usize, self.none)
        } else {
            self.none
        }
    }

    /// Gives a number a value. Where memory runs out, the table is as it was.
    #[inline(always)]
    pub fn set(&mut self, number: u64, value: T) -> Result<(), NoMemory>
        ensures ok { OnOk result (self.new ≡ with_value self.old number value) }
        ensures err { OnErr result (self.new ≡ self.old) }
    {
        let at = self.recent[recent_place(number)];
        if is_at(&self.chunks, at, number / CHUNK) {
            put(&mut self.chunks, at, (number % CHUNK) as usize, value);
            Ok(())
        } else {
            self.set_by_search(number, value)
        }
    }

    fn set_by_search(&mut self, number: u64, value: T) -> Result<(), NoMemory>
        ensures ok { OnOk result (self.new ≡ with_value self.old number value) }
        ensures err { OnErr result (self.new ≡ self.old) }
    {
        let at = place_of(&self.chunks, number / CHUNK);
        let place = (number % CHUNK) as usize;
        if is_at(&self.chunks, at, number / CHUNK) {
            put(&mut self.chunks, at, place, value);
            self.recent[recent_place(number)] = at;
            return Ok(());
        }
        let chunk = chunk_with(self.alloc, number / CHUNK, place, value)?;
        self.chunks.insert(at, chunk)?;
        self.recent[recent_place(number)] = at;
        Ok(())
    }

    /// Changes the value of a number where it is, and gives one that was not set what `none` becomes.
    /// Where memory runs out, the table is as it was.
    #[inline(always)]
    pub fn change<C: Change<T>>(&mut self, number: u64, by: &C) -> Result<(), NoMemory>
        ensures ok { OnOk result (self.new ≡ with_value self.old number (C.changed by.now (value_of self.old number))) }
        ensures err { OnErr result (self.new ≡ self.old) }
    {
        let at = self.recent[recent_place(number)];
        if is_at(&self.chunks, at, number / CHUNK) {
            change(
                &mut self.chunks,
                at,
                (number % CHUNK) as usize,
                self.none,
                by,
            );
            Ok(())
        } else {
            self.change_by_search(number, by)
        }
    }

    #[inline(never)]
    fn change_by_search<C: Change<T>>(&mut self, number: u64, by: &C) -> Result<(), NoMemory>
        ensures ok { OnOk result (self.new ≡ with_value self.old number (C.changed by.now (value_of self.old number))) }
        ensures err { OnErr result (self.new ≡ self.old) }
    {
        let mut value = self.get_by_search(number);
        by.change(&mut value);
        self.set_by_search(number, value)
    }

    /// The least number, from this one on, that was set.
    pub fn next(&self, from: u64) -> Option<u64>
        ensures { result ≡ next_from self.now from }
    {
        first_in_chunks(&self.chunks, place_of(&self.chunks, from / CHUNK), from)
    }

    /// How many numbers were set.
    pub fn count(&self) -> u64
        ensures { result ≡ length self.now.entries }
    {
        count_in_chunks(&self.chunks)
    }

    /// The numbers that were set rise from entry to entry, and fit 64 bits.
    pub fn entries_rise(&self)
        ensures rise { RiseFrom 0 self.now.entries }
        ensures fit { entries_from (2 ^ 64) self.now.entries ≡ [] }
    {
        let _chunks = &self.chunks;
    }
}
