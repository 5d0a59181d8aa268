//! A home.
ghost use Rattle.std.specs.Prelude.{◌≡◌, ◌+◌, ◌*◌, ◌<◌, ◌≤◌, ◌%◌, ◌++◌, nat_eq, take, drop, length, option_map, slice_index_or, slice_set, IfOk, IfSome, IfNone, IsSome, Some, None};
ghost use Rattle.std.specs.Set.{is_member};
ghost use Rattle.zs_num.specs.Request.{line_bytes};
ghost use Rattle.flat_memory.specs.FlatMemory.{after_write, is_reservation};
ghost use Rattle.home.specs.HomeState.{KeepsLine, brought_in, bytes_at, dropped_in, evicted_by, fetched_in, granted_in, is_marked_by_others, looked_up_in, marked_dirty_in, owned_in, row_at, row_of, unfetched_in, with_bytes_at, line_place};
ghost use Rattle.home.specs.NewHome.{new_home};
ghost use Rattle.home.specs.Rows.{evicted_in, line_in};

use crate::filling::{count_lines, first_bytes};
use crate::lines::Lines;
use crate::marks::Marks;
use crate::met::{Dealt, Last, Met, find, row_place, way_place};
use crate::row::Row;
use crate::rows::Rows;
use cache_set::{Tags, next_age, number_in_shard};
use elf_load::Image;
use mesi_dir::CoreSet;
use std::alloc::Global;
use std::marker::Model;
use zs_num::{LINE, NoMemory};

/// The lines of one bank at home: which of them the L2 has, and of each of these which cores'
/// caches have it; the bytes of all; and by core what it has marked of them. Contracts see the sets
/// of the L2 as lists, the most recently used line first. The bytes of a line that a core has in M
/// are old.
#[derive(Drop)]
pub struct Home {
    base: u64,
    size: u64,
    ways: Tags,
    rows: Rows,
    met: Met,
    bytes: Lines,
    marks: Marks,
}

impl Model for Home {
    ghost use Rattle.home.specs.HomeState.{HomeState};
    ghost use Rattle.home.specs.Layout.{AreHome, home_view};

    ghost Value = { HomeState };

    ghost view = { λ h. home_view h.met.dealt.number h.met.dealt.shards h.base h.size h.ways.sets h.ways.ways h.ways.ages.items h.ways.tags.items h.rows h.bytes h.marks };

    ghost invariant = { λ h. AreHome h.met.dealt.number h.met.dealt.shards h.met.dealt.below h.base h.ways.sets h.ways.ways h.ways.tick h.ways.ages.items h.ways.tags.items h.rows h.met.last h.met.known.items };
}

impl Home {
    /// The home of one of so many banks before the first access, for cores that are numbered from
    /// 0: 1 to 65536 sets of 1 to 32 ways are the bank's.
    pub fn new(
        alloc: Global,
        number: u16,
        shards: u16,
        sets: u32,
        ways: u16,
        cores: u16,
        image: &Image,
    ) -> Result<Self, NoMemory>
        requires number { number < shards }
        requires sets { (1 ≤ sets) × (sets ≤ 65536) }
        requires ways { (1 ≤ ways) × (ways ≤ 32) }
        requires base { image.now.base % line_bytes ≡ 0 }
        requires size { image.now.size % line_bytes ≡ 0 }
        requires some { 0 < image.now.size }
        ensures { IfOk result (λ home. home ≡ new_home number shards sets ways cores image.now) }
    {
        let tags = Tags::new(alloc, sets, ways)?;
        let rows = Rows::new(alloc, sets as usize * usize::from(ways))?;
        let bytes = first_bytes(alloc, u64::from(shards), number, image)?;
        let known = vec![in alloc; 0; count_lines(shards, image) as usize]?;
        Ok(Home {
            base: image.base(),
            size: image.size(),
            ways: tags,
            rows,
            met: Met {
                dealt: Dealt {
                    number,
                    shards: u64::from(shards),
                    below: image.base() / LINE / u64::from(shards),
                },
                last: None,
                known,
            },
            bytes,
            marks: Marks::new(alloc, cores)?,
        })
    }

    /// What is kept of a line, where the L2 has it.
    // Inlined, so that a caller copies no more of the row than it asks for.
    #[inline(always)]
    pub fn row(&self, line: u64) -> Option<Row>
        ensures { option_map line_in result ≡ row_at self.now line }
    {
        match find(&self.ways, &self.met, line) {
            Some(row) => Some(*self.rows.at(row)),
            None => None,
        }
    }

    /// Whether a core's L1 has a line, as the L2 has it. The calls that follow know without a search
    /// where the line is, or that it isn't there.
    #[inline(always)]
    pub fn shares(&mut self, line: u64, core: u16) -> bool
        requires { core < 256 }
        ensures value { result ≡ is_member nat_eq (row_of self.old line).sharers core }
        ensures same { self.new ≡ self.old }
    {
        let row = find(&self.ways, &self.met, line);
        self.met.last = Some(Last { line, row });
        if let Some(row) = row {
            return self.rows.at(row).sharers.has(core);
        }
        false
    }

    /// What is kept of a line, where the L2 has it: the line is used then.
    #[inline(always)]
    pub fn meet(&mut self, line: u64) -> Option<Row>
        ensures row { option_map line_in result ≡ row_at self.old line }
        ensures used { IfSome result (λ _. self.new ≡ looked_up_in line self.old) }
        ensures same { IfNone result (self.new ≡ self.old) }
    {
        match find(&self.ways, &self.met, line) {
            Some(row) => {
                let age = next_age(
                    &mut self.ways.ages,
                    &mut self.ways.tick,
                    self.ways.sets,
                    self.ways.ways,
                );
                let place = way_place(self.ways.sets, self.ways.ways, row);
                self.ways.ages[place] = age;
                self.met.last = Some(Last {
                    line,
                    row: Some(row),
                });
                Some(*self.rows.at(row))
            }
            None => None,
        }
    }

    /// The line that leaves the L2 where this one comes in, with its row: None where there is room
    /// for both.
    pub fn victim(&self, line: u64) -> Option<(u64, Row)>
        ensures { option_map evicted_in result ≡ evicted_by self.now line }
    {
        match self.ways.victim(self.met.dealt.shards, line) {
            Some(place) => {
                let row = row_place(self.ways.sets, self.ways.ways, place);
                Some((self.ways.tags[place], *self.rows.at(row)))
            }
            None => None,
        }
    }

    /// A line comes into the L2, clean. No core has it. The answer is the line that leaves for it,
    /// with its row, None where there was room: a caller makes the cores give it up.
    #[inline(always)]
    pub fn enter(&mut self, line: u64) -> Option<(u64, Row)>
        requires { row_at self.old line ≡ None }
        ensures evicted { option_map evicted_in result ≡ evicted_by self.old line }
        ensures after { self.new ≡ brought_in line self.old }
    {
        let entered = self.ways.enter(self.met.dealt.shards, line);
        let place = row_place(self.ways.sets, self.ways.ways, entered.place);
        let row = *self.rows.at(place);
        self.rows.put(place, Row::nobody());
        self.met.remember(line, entered);
        self.met.last = Some(Last {
            line,
            row: Some(place),
        });
        if entered.evicts {
            Some((entered.had, row))
        } else {
            None
        }
    }

    /// Memory has other bytes of a line than the L2, if this has it.
    pub fn mark_dirty(&mut self, line: u64)
        ensures { self.new ≡ marked_dirty_in line self.old }
    {
        if let Some(row) = find(&self.ways, &self.met, line) {
            self.rows.mark_dirty(row);
        }
    }

    /// A core's L1 has a line of the L2 too: it alone, or not.
    pub fn grant(&mut self, line: u64, core: u16, alone: bool)
        requires { core < 256 }
        ensures { self.new ≡ granted_in line core alone self.old }
    {
        if let Some(row) = find(&self.ways, &self.met, line) {
            self.rows.add_sharer(row, core, alone);
        }
    }

    /// A core's L1 has a line of the L2, in M or E, and no other has it any more.
    pub fn own(&mut self, line: u64, core: u16)
        requires { core < 256 }
        ensures { self.new ≡ owned_in line core self.old }
    {
        if let Some(row) = find(&self.ways, &self.met, line) {
            self.rows.own(row, core);
        }
    }

    /// A core's L1 has a line of the L2 no more.
    pub fn drop_core(&mut self, line: u64, core: u16)
        requires { core < 256 }
        ensures { self.new ≡ dropped_in line core self.old }
    {
        if let Some(row) = find(&self.ways, &self.met, line) {
            self.rows.remove_sharer(row, core);
        }
    }

    /// A core's L1 has a line of the L2 no more, and wrote to it: memory has other bytes of it.
    pub fn drop_writer(&mut self, line: u64, core: u16)
        requires { core < 256 }
        ensures { self.new ≡ dropped_in line core (marked_dirty_in line self.old) }
    {
        if let Some(row) = find(&self.ways, &self.met, line) {
            self.rows.remove_writer(row, core);
        }
    }

    /// A core's instruction cache has a line of the L2 too.
    pub fn fetch(&mut self, line: u64, core: u16)
        requires { core < 256 }
        ensures { self.new ≡ fetched_in line core self.old }
    {
        if let Some(row) = find(&self.ways, &self.met, line) {
            self.rows.add_fetcher(row, core);
        }
    }

    /// A core's instruction cache has a line of the L2 no more.
    pub fn drop_fetcher(&mut self, line: u64, core: u16)
        requires { core < 256 }
        ensures { self.new ≡ unfetched_in line core self.old }
    {
        if let Some(row) = find(&self.ways, &self.met, line) {
            self.rows.remove_fetcher(row, core);
        }
    }

    /// The bytes of a line.
    pub fn line_bytes(&self, line: u64) -> &[u8]
        requires { KeepsLine self.now line }
        ensures { result.now ≡ bytes_at self.now line }
    {
        let number = self.line_number(line);
        self.bytes.line(number)
    }

    /// The bytes of a line come home.
    pub fn write_back(&mut self, line: u64, from: &[u8])
        requires kept { KeepsLine self.old line }
        requires whole { length from.now ≡ line_bytes }
        ensures { self.new ≡ with_bytes_at line from.now self.old }
    {
        let number = self.line_number(line);
        self.bytes.write(number, from);
    }

    /// The number of a line among those that are kept.
    #[inline(always)]
    fn line_number(&self, line: u64) -> usize
        requires { KeepsLine self.now line }
        ensures place { line_bytes * result ≡ line_place self.now line }
        ensures kept { KeepsLine self.now line }
    {
        number_in_shard(self.met.dealt.shards, line).saturating_sub(self.met.dealt.below) as usize
    }

    /// Whether a core has marked these bytes by a load-reserved.
    pub fn has_mark(&self, core: u16, addr: u64, width: u8) -> bool
        requires { core < length self.now.marks }
        ensures { result ≡ is_reservation (slice_index_or self.now.marks core None) addr width }
    {
        self.marks.has(core, addr, width)
    }

    /// Marks these bytes for a core.
    pub fn mark(&mut self, core: u16, addr: u64, width: u8)
        requires { core < length self.old.marks }
        ensures { self.new ≡ record self.old { marks = slice_set self.old.marks core (Some (record { addr = addr; width = width })) } }
    {
        self.marks.mark(core, addr, width);
    }

    /// Ends the mark of a core.
    pub fn end_mark(&mut self, core: u16)
        requires { core < length self.old.marks }
        ensures { self.new ≡ record self.old { marks = slice_set self.old.marks core None } }
    {
        self.marks.end(core);
    }

    /// Ends the marks of the other cores in the line that a core wrote to.
    #[inline(always)]
    pub fn end_other_marks(&mut self, core: u16, addr: u64)
        ensures { self.new ≡ record self.old { marks = after_write core addr self.old.marks } }
    {
        self.marks.end_others(core, addr);
    }

    /// Whether another core has a mark on a line.
    #[inline(always)]
    pub fn is_marked_by_others(&self, core: u16, line: u64) -> bool
        ensures { result ≡ is_marked_by_others self.now.marks core line }
    {
        self.marks.others_on(core, line)
    }
}
