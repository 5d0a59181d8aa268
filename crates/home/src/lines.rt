//! The bytes of a home's lines.
ghost use Rattle.std.specs.Prelude.{◌≡◌, ℕ, ◌+◌, ◌*◌, ◌/◌, ◌%◌, ◌^◌, ◌<◌, ◌≤◌, ◌++◌, List, length, take, drop, replicate, slice_index_or, vec_capacity, IfOk};
ghost use Rattle.zs_num.specs.Request.{line_bytes};
ghost use Rattle.home.specs.Chunks.{ArePlaced};
ghost use Rattle.home.specs.Lines.{bytes_in};

use std::alloc::Global;
use std::marker::Model;
use zs_num::{LINE, NoMemory};

/// How many lines stand together: a page of the host has as many.
const LINES: usize = 64;

const CHUNK: usize = 4096;

/// The bytes of so many lines. The host gives memory for those that were written alone, by chunks:
/// all others are zeros, and share one chunk. Contracts see the list of all bytes.
#[derive(Drop)]
pub(crate) struct Lines {
    /// How many bytes there are.
    size: usize,
    chunks: Chunks,
}

impl Model for Lines {
    ghost use Rattle.std.specs.Prelude.{List, ℕ, vec_capacity};
    ghost use Rattle.home.specs.Lines.{AreLines, bytes_in};

    ghost Value = { List ℕ };

    ghost view = { λ l. bytes_in l.size l.chunks.places.items l.chunks.bytes.items };

    ghost invariant = { λ l. AreLines l.size l.chunks.places.items l.chunks.bytes.items (vec_capacity l.chunks.bytes) };
}

/// Chunks in the order in which they were written first.
#[derive(Drop)]
struct Chunks {
    /// By chunk of the lines, where it stands. At 0 are the zeros of all that were never written.
    places: Vec<usize>,
    /// There is room for all, and the host's memory is taken where it is written first.
    bytes: Vec<u8>,
}

impl Lines {
    /// So many lines of zeros.
    pub(crate) fn new(alloc: Global, count: u64) -> Result<Self, NoMemory>
        requires { line_bytes * count < 2 ^ 62 }
        ensures { IfOk result (λ lines. lines ≡ replicate (line_bytes * count) 0) }
    {
        let size = (LINE * count) as usize;
        Ok(Lines {
            size,
            chunks: Chunks::new(alloc, size / CHUNK + 1)?,
        })
    }

    /// The bytes of the line of this number.
    #[inline(always)]
    pub(crate) fn line(&self, number: usize) -> &[u8]
        requires { line_bytes * number + line_bytes ≤ length self.now }
        ensures { result.now ≡ take line_bytes (drop (line_bytes * number) self.now) }
    {
        let start = self.chunks.start(number);
        &self.chunks.bytes[start..start + LINE as usize]
    }

    /// Puts the bytes of the line of this number.
    pub(crate) fn write(&mut self, number: usize, from: &[u8])
        requires within { line_bytes * number + line_bytes ≤ length self.old }
        requires whole { length from.now ≡ line_bytes }
        ensures { self.new ≡ take (line_bytes * number) self.old ++ (from.now ++ drop (line_bytes * number + line_bytes) self.old) }
    {
        self.chunks.own(number / LINES);
        let start = self.chunks.start(number);
        put_line(&mut self.chunks.bytes, start, from);
    }
}

impl Chunks {
    /// So many chunks that were never written.
    fn new(alloc: Global, count: usize) -> Result<Self, NoMemory>
        requires { 4096 * count + 4096 < 2 ^ 63 }
        ensures are { IfOk result (λ c. ArePlaced 0 4096 c.places.items c.bytes.items (vec_capacity c.bytes)) }
        ensures count { IfOk result (λ c. length c.places.items ≡ count) }
        ensures zeros { IfOk result (λ c. (size : ℕ) → bytes_in size c.places.items c.bytes.items ≡ replicate size 0) }
    {
        let places = vec![in alloc; 0; count]?;
        let mut bytes = Vec::with_capacity(alloc, (count + 1) * CHUNK)?;
        bytes.resize(CHUNK, 0)?;
        Ok(Chunks { places, bytes })
    }

    /// Where the line of this number stands.
    #[inline(always)]
    fn start(&self, number: usize) -> usize
        requires are { ArePlaced 0 4096 self.now.places.items self.now.bytes.items (vec_capacity self.now.bytes) }
        requires within { number / 64 < length self.now.places.items }
        ensures { result ≡ slice_index_or self.now.places.items (number / 64) 0 + 64 * (number % 64) }
    {
        self.places[number / LINES] + LINE as usize * (number % LINES)
    }

    /// Gives a chunk a place of its own, if it has none.
    #[inline(always)]
    fn own(&mut self, chunk: usize)
        requires are { ArePlaced 0 4096 self.old.places.items self.old.bytes.items (vec_capacity self.old.bytes) }
        requires within { chunk < length self.old.places.items }
        ensures are { ArePlaced 0 4096 self.new.places.items self.new.bytes.items (vec_capacity self.new.bytes) }
        ensures count { length self.new.places.items ≡ length self.old.places.items }
        ensures own { 0 < slice_index_or self.new.places.items chunk 0 }
        ensures same { (size : ℕ) → bytes_in size self.new.places.items self.new.bytes.items ≡ bytes_in size self.old.places.items self.old.bytes.items }
    {
        if self.places[chunk] == 0 {
            self.add(chunk);
        }
    }

    /// Gives a chunk that has none a place of its own, with the same bytes.
    #[inline(never)]
    fn add(&mut self, chunk: usize)
        requires are { ArePlaced 0 4096 self.old.places.items self.old.bytes.items (vec_capacity self.old.bytes) }
        requires within { chunk < length self.old.places.items }
        requires absent { slice_index_or self.old.places.items chunk 0 ≡ 0 }
        ensures are { ArePlaced 0 4096 self.new.places.items self.new.bytes.items (vec_capacity self.new.bytes) }
        ensures count { length self.new.places.items ≡ length self.old.places.items }
        ensures own { 0 < slice_index_or self.new.places.items chunk 0 }
        ensures same { (size : ℕ) → bytes_in size self.new.places.items self.new.bytes.items ≡ bytes_in size self.old.places.items self.old.bytes.items }
    {
        let place = self.bytes.len();
        let first = self.bytes[0];
        // There is room, so it always succeeds.
        let _room = self.bytes.resize(place + CHUNK, first);
        self.places[chunk] = place;
    }
}

/// Puts the bytes of a line at a place.
fn put_line(bytes: &mut [u8], place: usize, from: &[u8])
    requires within { place + length from.now ≤ length bytes.old }
    ensures value { bytes.new ≡ take place bytes.old ++ (from.now ++ drop (place + length from.now) bytes.old) }
    ensures length { length bytes.new ≡ length bytes.old }
{
    copy_line(&mut bytes[place..place + from.len()], from);
}

fn copy_line(line: &mut [u8], from: &[u8])
    requires { length line.old ≡ length from.now }
    ensures { line.new ≡ from.now }
{
    line.copy_from_slice(from);
}
