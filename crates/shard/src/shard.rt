//! One shard, and what is asked of it.
ghost use Rattle.std.specs.Prelude.{◌≡◌, ◌+◌, ◌-◌, ◌^◌, ◌<◌, ◌≤◌, length, nat_eq, slice_index, IfOk};
ghost use Rattle.machine_desc.specs.Machine.{IsMachine};
ghost use Rattle.shard.specs.Coherence.{dirty_at, fetch_holds, letter_at};
ghost use Rattle.shard.specs.HaveL1i.{have_l1i};
ghost use Rattle.zs_num.specs.Request.{line_at, bank_of_line};
ghost use Rattle.shard.specs.Served.{new_shard, place_of, resumed, shard_after, CanServe, KnowsCore, IsServedBy};

use crate::new_parts::{new_home, new_l1s};
use crate::parts::newest_byte;
use crate::shared::meet;
use cache_set::Letter;
use division::remainder;
use elf_load::Image;
use home::Home;
use l1_cache::L1;
use machine_desc::Machine;
use std::alloc::Global;
use std::marker::Model;
use zs_num::{Cycle, Entry, LINE, NoMemory, Request, Stamp};

/// One shard of a machine: the home of its lines, and the sets of each core's L1 in which its lines
/// can be. They are the lines whose number, modulo the number of shards, is the shard's. Contracts
/// see it as lists, the most recently used line first, and the newest bytes of each line.
#[derive(Drop)]
pub struct Shard {
    last: Stamp,
    number: u16,
    // How many shards there are.
    count: u64,
    home: Home,
    l1s: Vec<L1>,
}

impl Model for Shard {
    ghost use Rattle.shard.specs.Served.{ShardState};
    ghost use Rattle.shard.specs.BankSteps.{bank_with};
    ghost use Rattle.shard.specs.Seen.{shard_seen};
    ghost use Rattle.shard.specs.ShardLayout.{IsShardLayout};

    ghost Value = { ShardState };

    ghost view = { λ s. shard_seen (bank_with s.home s.l1s.items) s.last };

    ghost invariant = { λ s. IsShardLayout s.number s.count (bank_with s.home s.l1s.items) };
}

impl Shard {
    /// The shard of a machine with this number, before the first access: its caches are empty, and
    /// its bytes are those of the executable.
    pub fn new(
        alloc: Global,
        machine: &Machine,
        number: u16,
        image: &Image,
    ) -> Result<Self, NoMemory>
        requires machine { IsMachine machine.now }
        requires number { number < machine.now.l2.banks }
        requires base { image.now.base ≡ machine.now.memory.base }
        requires size { image.now.size ≡ machine.now.memory.size }
        ensures { IfOk result (λ shard. shard ≡ new_shard machine.now number image.now) }
    {
        let home = new_home(alloc, machine, number, image)?;
        let l1s = new_l1s(alloc, machine, machine.l2.banks, 1)?;
        Ok(Shard {
            last: 0,
            number,
            count: u64::from(machine.l2.banks),
            home,
            l1s,
        })
    }

    /// Serves an access at the core's clock `start`, for a core whose latest stamp is `last`. The
    /// entry's stamp is one more than this and than the shard's own, so both are asked to be small:
    /// the shard's by `own_stamp`, the core's by `stamp`. A fetch is of a multiple of 4, on a machine
    /// with instruction caches.
    #[inline(always)]
    pub fn serve(&mut self, core: u16, start: Cycle, last: Stamp, request: Request) -> Entry
        requires core { KnowsCore self.old core }
        requires can { CanServe self.old request }
        requires own_stamp { self.old.last < 2 ^ 62 - 1 }
        requires stamp { last < 2 ^ 62 - 1 }
        ensures served { IsServedBy self.old core start last request result }
        ensures after { self.new ≡ shard_after self.old result }
        ensures number { self.new.number ≡ self.old.number }
        ensures base { self.new.base ≡ self.old.base }
        ensures size { self.new.size ≡ self.old.size }
        ensures shards { self.new.caches.shards ≡ self.old.caches.shards }
        ensures l1i { have_l1i self.new.caches ≡ have_l1i self.old.caches }
        ensures cores { length self.new.marks ≡ length self.old.marks }
        ensures last { self.new.last ≡ result.stamp }
    {
        let met = meet(&mut self.home, &mut self.l1s, core, request);
        self.last = self.last.max(last) + 1;
        Entry {
            core,
            stamp: self.last,
            start,
            request,
            reply: met.0,
            outcome: met.1,
        }
    }

    /// The state of a line in a core's own cache. It is I for a core that the shard does not know.
    pub fn letter(&self, core: u16, line: u64) -> Letter
        ensures { result ≡ letter_at self.now.caches core line }
    {
        match self.l1s.get(usize::from(core)) {
            Some(l1) => {
                if self.is_own(line) {
                    l1.letter(line)
                } else {
                    Letter::I
                }
            }
            None => Letter::I,
        }
    }

    /// Whether a core's instruction cache has a line. No core that the shard does not know has one,
    /// and none of a machine without instruction caches.
    pub fn fetch_holds(&self, core: u16, line: u64) -> bool
        ensures { result ≡ fetch_holds self.now.caches core line }
    {
        match self.l1s.get(usize::from(core)) {
            Some(l1) => self.is_own(line) && l1.has_instructions(line),
            None => false,
        }
    }

    /// Whether a line is dirty in the shared cache: None where the shared cache does not hold it.
    pub fn l2_dirty(&self, line: u64) -> Option<bool>
        ensures { result ≡ dirty_at self.now.caches line }
    {
        match self.home.row(line) {
            Some(row) => Some(row.dirty),
            None => None,
        }
    }

    /// The byte at an address of memory whose line is one of the shard's.
    pub fn byte(&self, addr: u64) -> u8
        requires begins { self.now.base ≤ addr }
        requires ends { addr < self.now.base + self.now.size }
        requires own { bank_of_line self.now.caches.shards (line_at addr) ≡ self.now.number }
        ensures { result ≡ slice_index self.now.bytes (place_of self.now.caches.shards self.now.base addr) }
    {
        let line = addr / LINE;
        let place = (addr % LINE) as usize;
        newest_byte(&self.l1s, line, place, self.home.line_bytes(line)[place])
    }

    /// Sets the last stamp to 0, as at the beginning of an interval.
    pub fn restart(&mut self)
        ensures { self.new ≡ resumed self.old 0 }
    {
        self.resume(0);
    }

    /// Sets the last stamp to another.
    pub fn resume(&mut self, last: Stamp)
        ensures { self.new ≡ resumed self.old last }
    {
        self.last = last;
    }

    /// The number of the shard.
    pub fn number(&self) -> u16
        ensures { result ≡ self.now.number }
    {
        self.number
    }

    /// The stamp of the latest access, or what the last stamp was set to since.
    pub fn last(&self) -> Stamp
        ensures { result ≡ self.now.last }
    {
        self.last
    }

    /// Whether a line is one of the shard's.
    #[inline(always)]
    fn is_own(&self, line: u64) -> bool
        ensures { result ≡ nat_eq (bank_of_line self.now.caches.shards line) self.now.number }
    {
        remainder(line, self.count) == u64::from(self.number)
    }
}
