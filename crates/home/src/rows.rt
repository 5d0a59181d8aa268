//! The rows beside the ways of the L2.
ghost use Rattle.std.specs.Prelude.{◌≡◌, ◌∷◌, [], true, false, ℕ, ◌+◌, ◌*◌, ◌/◌, ◌%◌, ◌^◌, ◌<◌, ◌≤◌, length, slice_index_or, slice_set, vec_capacity, IfOk};
ghost use Rattle.home.specs.Chunks.{ArePlaced, stands_at};
ghost use Rattle.home.specs.RowChunks.{IsChanged, rows_in, unheld};
ghost use Rattle.mesi_dir.specs.CoreSets.{with_core, without_core};

use crate::row::Row;
use std::alloc::Global;
use std::marker::Model;
use zs_num::NoMemory;

/// How many rows stand together: about as many bytes as a page of the host has.
const CHUNK: usize = 64;

/// The rows of so many ways. The host gives memory for those that were written alone, by chunks: all
/// others are those of ways that were never used, and share one chunk. Contracts see the list of
/// all rows.
#[derive(Drop)]
pub(crate) struct Rows {
    /// How many ways there are.
    count: usize,
    chunks: Chunks,
}

impl Model for Rows {
    ghost use Rattle.std.specs.Prelude.{List, vec_capacity};
    ghost use Rattle.home.specs.RowChunks.{AreRows, rows_in};
    ghost use Rattle.home.specs.declared.row.Row.{Row};

    ghost Value = { List Row };

    ghost view = { λ r. rows_in r.count r.chunks.places.items r.chunks.rows.items };

    ghost invariant = { λ r. AreRows r.count r.chunks.places.items r.chunks.rows.items (vec_capacity r.chunks.rows) };
}

/// Chunks in the order in which they were written first.
#[derive(Drop)]
struct Chunks {
    /// By chunk of the ways, where it stands. At 0 is the one of all that were never written.
    places: Vec<usize>,
    /// There is room for all, and the host's memory is taken where it is written first.
    rows: Vec<Row>,
}

impl Rows {
    /// The rows of so many ways, below 2^32, before any has a line: what they say then counts for
    /// nothing.
    pub(crate) fn new(alloc: Global, count: usize) -> Result<Self, NoMemory>
        requires { count < 2 ^ 32 }
        ensures { IfOk result (λ rows. length rows ≡ count) }
    {
        Ok(Rows {
            count,
            chunks: Chunks::new(alloc, count / CHUNK + 1)?,
        })
    }

    /// The row of a way.
    #[inline(always)]
    pub(crate) fn at(&self, way: usize) -> &Row
        requires { way < length self.now }
        ensures { result.now ≡ slice_index_or self.now way result.now }
    {
        &self.chunks.rows[self.chunks.start(way)]
    }

    /// Puts the row of a way.
    #[inline(always)]
    pub(crate) fn put(&mut self, way: usize, row: Row)
        requires { way < length self.old }
        ensures value { self.new ≡ slice_set self.old way row }
        ensures length { length self.new ≡ length self.old }
    {
        let place = self.chunks.own(way);
        self.chunks.rows[place] = row;
    }

    /// Memory has other bytes of the line of a way.
    #[inline(always)]
    pub(crate) fn mark_dirty(&mut self, way: usize)
        requires { way < length self.old }
        ensures changed { IsChanged (λ row. record row { dirty = true }) self.old way self.new }
        ensures length { length self.new ≡ length self.old }
    {
        let place = self.chunks.own(way);
        self.chunks.rows[place].mark_dirty();
    }

    /// A core's L1 has the line of a way too.
    #[inline(always)]
    pub(crate) fn add_sharer(&mut self, way: usize, core: u16, alone: bool)
        requires way { way < length self.old }
        requires core { core < 256 }
        ensures changed { IsChanged (λ row. record row { sharers = with_core core row.sharers; alone = alone }) self.old way self.new }
        ensures length { length self.new ≡ length self.old }
    {
        let place = self.chunks.own(way);
        self.chunks.rows[place].add_sharer(core, alone);
    }

    /// A core's L1 has the line of a way, in M or E, and no other has it any more.
    #[inline(always)]
    pub(crate) fn own(&mut self, way: usize, core: u16)
        requires way { way < length self.old }
        requires core { core < 256 }
        ensures changed { IsChanged (λ row. record row { sharers = core ∷ []; alone = true }) self.old way self.new }
        ensures length { length self.new ≡ length self.old }
    {
        let place = self.chunks.own(way);
        self.chunks.rows[place].own(core);
    }

    /// A core's L1 has the line of a way no more.
    #[inline(always)]
    pub(crate) fn remove_sharer(&mut self, way: usize, core: u16)
        requires way { way < length self.old }
        requires core { core < 256 }
        ensures changed { IsChanged (λ row. record row { sharers = without_core core row.sharers; alone = false }) self.old way self.new }
        ensures length { length self.new ≡ length self.old }
    {
        let place = self.chunks.own(way);
        self.chunks.rows[place].remove_sharer(core);
    }

    /// A core's L1 has the line of a way no more, and wrote to it: memory has other bytes of it.
    #[inline(always)]
    pub(crate) fn remove_writer(&mut self, way: usize, core: u16)
        requires way { way < length self.old }
        requires core { core < 256 }
        ensures changed { IsChanged (λ row. record row { dirty = true; sharers = without_core core row.sharers; alone = false }) self.old way self.new }
        ensures length { length self.new ≡ length self.old }
    {
        let place = self.chunks.own(way);
        self.chunks.rows[place].remove_writer(core);
    }

    /// A core's instruction cache has the line of a way too.
    #[inline(always)]
    pub(crate) fn add_fetcher(&mut self, way: usize, core: u16)
        requires way { way < length self.old }
        requires core { core < 256 }
        ensures changed { IsChanged (λ row. record row { fetchers = with_core core row.fetchers }) self.old way self.new }
        ensures length { length self.new ≡ length self.old }
    {
        let place = self.chunks.own(way);
        self.chunks.rows[place].add_fetcher(core);
    }

    /// A core's instruction cache has the line of a way no more.
    #[inline(always)]
    pub(crate) fn remove_fetcher(&mut self, way: usize, core: u16)
        requires way { way < length self.old }
        requires core { core < 256 }
        ensures changed { IsChanged (λ row. record row { fetchers = without_core core row.fetchers }) self.old way self.new }
        ensures length { length self.new ≡ length self.old }
    {
        let place = self.chunks.own(way);
        self.chunks.rows[place].remove_fetcher(core);
    }
}

impl Chunks {
    /// So many chunks that were never written.
    fn new(alloc: Global, count: usize) -> Result<Self, NoMemory>
        requires { 64 * count < 2 ^ 40 }
        ensures are { IfOk result (λ c. ArePlaced unheld 64 c.places.items c.rows.items (vec_capacity c.rows)) }
        ensures count { IfOk result (λ c. length c.places.items ≡ count) }
    {
        let places = vec![in alloc; 0; count]?;
        let mut rows = Vec::with_capacity(alloc, (count + 1) * CHUNK)?;
        rows.resize(CHUNK, Row::nobody())?;
        Ok(Chunks { places, rows })
    }

    /// Where the row of a way stands.
    #[inline(always)]
    fn start(&self, way: usize) -> usize
        requires are { ArePlaced unheld 64 self.now.places.items self.now.rows.items (vec_capacity self.now.rows) }
        requires within { way / 64 < length self.now.places.items }
        ensures value { result ≡ stands_at 64 self.now.places.items way }
        ensures within { result < length self.now.rows.items }
    {
        self.places[way / CHUNK] + way % CHUNK
    }

    /// Where the row of a way stands, from now on in a chunk of its own.
    #[inline(always)]
    fn own(&mut self, way: usize) -> usize
        requires are { ArePlaced unheld 64 self.old.places.items self.old.rows.items (vec_capacity self.old.rows) }
        requires within { way / 64 < length self.old.places.items }
        ensures value { result ≡ stands_at 64 self.new.places.items way }
        ensures within { result < length self.new.rows.items }
        ensures are { ArePlaced unheld 64 self.new.places.items self.new.rows.items (vec_capacity self.new.rows) }
        ensures count { length self.new.places.items ≡ length self.old.places.items }
        ensures own { 0 < slice_index_or self.new.places.items (way / 64) 0 }
        ensures same { (count : ℕ) → rows_in count self.new.places.items self.new.rows.items ≡ rows_in count self.old.places.items self.old.rows.items }
    {
        let chunk = way / CHUNK;
        if self.places[chunk] == 0 {
            self.add(chunk);
        }
        self.start(way)
    }

    /// Gives a chunk that has none a place of its own, with the same rows.
    #[inline(never)]
    fn add(&mut self, chunk: usize)
        requires are { ArePlaced unheld 64 self.old.places.items self.old.rows.items (vec_capacity self.old.rows) }
        requires within { chunk < length self.old.places.items }
        requires absent { slice_index_or self.old.places.items chunk 0 ≡ 0 }
        ensures are { ArePlaced unheld 64 self.new.places.items self.new.rows.items (vec_capacity self.new.rows) }
        ensures count { length self.new.places.items ≡ length self.old.places.items }
        ensures own { 0 < slice_index_or self.new.places.items chunk 0 }
        ensures same { (count : ℕ) → rows_in count self.new.places.items self.new.rows.items ≡ rows_in count self.old.places.items self.old.rows.items }
    {
        let place = self.rows.len();
        let first = self.rows[0];
        // There is room, so it always succeeds.
        let _room = self.rows.resize(place + CHUNK, first);
        self.places[chunk] = place;
    }
}
