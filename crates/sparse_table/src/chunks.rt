//! What all chunks come to.
ghost use Rattle.std.specs.Prelude.{◌≡◌, ◌/◌, length, map};
ghost use Rattle.sparse_table.specs.Chunks.{AreChunks, IsPlace, entries_of};
ghost use Rattle.sparse_table.specs.Sparse.{entries_from, first_number};

use crate::chunk::{CHUNK, Chunk, count_in, first_in};

/// The number of the first value that was set, from a number on, where its chunk is at a place or
/// would go there.
pub(crate) fn first_in_chunks<T: Copy>(chunks: &Vec<Chunk<T>>, at: usize, from: u64) -> Option<u64>
    requires chunks { AreChunks 0 (map (λ c. (c.number, c.values.items)) chunks.now.items) }
    requires at { IsPlace (map (λ c. (c.number, c.values.items)) chunks.now.items) (from / 64) at }
    ensures { result ≡ first_number (entries_from from (entries_of (map (λ c. (c.number, c.values.items)) chunks.now.items))) }
{
    for place in at..chunks.len() {
        let chunk = &chunks[place];
        let first = first_in(chunk.number * CHUNK, &chunk.values, from);
        if first.is_some() {
            return first;
        }
    }
    None
}

/// How many values were set.
pub(crate) fn count_in_chunks<T: Copy>(chunks: &Vec<Chunk<T>>) -> u64
    requires { AreChunks 0 (map (λ c. (c.number, c.values.items)) chunks.now.items) }
    ensures { result ≡ length (entries_of (map (λ c. (c.number, c.values.items)) chunks.now.items)) }
{
    let mut count = 0;
    for chunk in chunks {
        count += count_in(&chunk.values) as u64;
    }
    count
}
