//! All homes and L1s of a machine, for one worker that goes to each of them.
ghost use Rattle.std.specs.Prelude.{ℕ, List, ◌≡◌, ◌+◌, ◌-◌, ◌^◌, ◌<◌, ◌≤◌, length, map, max, slice_index, slice_set, IfNone, IfOk, IfSome};
ghost use Rattle.machine_desc.specs.Machine.{IsMachine};
ghost use Rattle.zs_num.specs.declared.entry.Outcome.TheVariants.{Hit};
ghost use Rattle.zs_num.specs.Request.{bank_of, line_at, line_bytes};
ghost use Rattle.l1_cache.specs.L1State.{copy_at, newer_bytes};
ghost use Rattle.shard.specs.Coherence.{dirty_at, fetch_holds, letter_at};
ghost use Rattle.shard.specs.Leaving.{leaving_of};
ghost use Rattle.shard.specs.PartsLaws.{AreAllParts};
ghost use Rattle.shard.specs.Seen.{newest_in, shards_seen};
ghost use Rattle.shard.specs.Served.{place_of, resumed, shard_after, shard_for, shard_of_line, CanServe, IsServedBy, KnowsCore};
ghost use Rattle.shard.specs.StandsFor.{new_shards};

use crate::alone::meet_alone;
use crate::leaving::{Leaving, leaving_here};
use crate::new_parts::{new_homes, new_l1s};
use crate::shared::meet_from_home;
use cache_set::Letter;
use division::remainder;
use elf_load::Image;
use home::Home;
use l1_cache::L1;
use machine_desc::Machine;
use std::alloc::Global;
use std::marker::Model;
use zs_num::{Cycle, Entry, LINE, NoMemory, Outcome, Request, Stamp};

/// How many lines an L1 finds by one comparison.
const NEAR: u32 = 256;

/// The caches and the memory of a whole machine: a home for each bank, and an L1 for each core.
/// Contracts see the shards for which they stand, in order of their numbers.
#[derive(Drop)]
pub struct Parts {
    homes: Vec<Home>,
    l1s: Vec<L1>,
    /// The stamp of the latest access, by bank.
    lasts: Vec<Stamp>,
}

impl Model for Parts {
    ghost use Rattle.std.specs.Prelude.{List};
    ghost use Rattle.shard.specs.PartsLaws.{AreAllParts};
    ghost use Rattle.shard.specs.Seen.{shards_seen};
    ghost use Rattle.shard.specs.Seen.{newest_in};
    ghost use Rattle.shard.specs.Served.{ShardState};

    ghost Value = { List ShardState };

    ghost view = { λ p. shards_seen (record { homes = p.homes.items; l1s = p.l1s.items; lasts = p.lasts.items }) };

    ghost invariant = { λ p. AreAllParts (record { homes = p.homes.items; l1s = p.l1s.items; lasts = p.lasts.items }) };
}

impl Parts {
    /// Those of a machine before the first access: the caches are empty, and the bytes are those
    /// of the executable.
    pub fn new(alloc: Global, machine: &Machine, image: &Image) -> Result<Self, NoMemory>
        requires machine { IsMachine machine.now }
        requires base { image.now.base ≡ machine.now.memory.base }
        requires size { image.now.size ≡ machine.now.memory.size }
        ensures { IfOk result (λ parts. parts ≡ new_shards machine.now image.now) }
    {
        let homes = new_homes(alloc, machine, image)?;
        let l1s = new_l1s(alloc, machine, 1, NEAR)?;
        let lasts = vec![in alloc; 0; usize::from(machine.l2.banks)]?;
        Ok(Parts { homes, l1s, lasts })
    }

    /// The homes of these banks, in order, with the L1s of the cores, in order, and with the stamp
    /// of the latest access of each bank. It takes no memory.
    pub fn of(homes: Vec<Home>, l1s: Vec<L1>, lasts: Vec<Stamp>) -> Self
        requires { AreAllParts (record { homes = homes.items; l1s = l1s.items; lasts = lasts.items }) }
        ensures { result ≡ shards_seen (record { homes = homes.items; l1s = l1s.items; lasts = lasts.items }) }
    {
        Parts { homes, l1s, lasts }
    }

    /// The homes, the L1s and the last stamps, as `of` takes them.
    pub fn take_apart(self) -> (Vec<Home>, Vec<L1>, Vec<Stamp>)
        ensures parts { AreAllParts (record { homes = result.0.items; l1s = result.1.items; lasts = result.2.items }) }
        ensures seen { self ≡ shards_seen (record { homes = result.0.items; l1s = result.1.items; lasts = result.2.items }) }
    {
        (self.homes, self.l1s, self.lasts)
    }

    /// Serves an access at the core's clock `start`, for a core whose latest stamp is `last`: the
    /// shard of its bank does. The entry's stamp is one more than this and than the shard's own, so
    /// both are asked to be small: the shard's by `own_stamp`, the core's by `stamp`.
    #[inline(always)]
    pub fn serve(&mut self, core: u16, start: Cycle, last: Stamp, request: Request) -> Entry
        requires shards { 0 < length self.old }
        requires core { KnowsCore (shard_for self.old request) core }
        requires can { CanServe (shard_for self.old request) request }
        requires own_stamp { (shard_for self.old request).last < 2 ^ 62 - 1 }
        requires stamp { last < 2 ^ 62 - 1 }
        ensures served { IsServedBy (shard_for self.old request) core start last request result }
        ensures after { self.new ≡ slice_set self.old (bank_of (length self.old) request) (shard_after (shard_for self.old request) result) }
        ensures shards { length self.new ≡ length self.old }
    {
        let bank = remainder(request.line(), self.homes.len() as u64) as usize;
        let (reply, outcome) = meet_from_home(&mut self.homes[bank], &mut self.l1s, core, request);
        let stamp = next_stamp(&mut self.lasts[bank], last);
        Entry {
            core,
            stamp,
            start,
            request,
            reply,
            outcome,
        }
    }

    /// The same where the core's own L1 can serve the access alone and has its line at hand: a hit.
    /// None: nothing changes, and `serve` serves it as it serves any. What is compiled for `T`, any
    /// type, is compiled for the callers that name it.
    #[inline(always)]
    pub fn serve_alone<T>(
        &mut self,
        core: u16,
        start: Cycle,
        last: Stamp,
        request: Request,
    ) -> Option<Entry>
        requires shards { 0 < length self.old }
        requires core { KnowsCore (shard_for self.old request) core }
        requires can { CanServe (shard_for self.old request) request }
        requires own_stamp { (shard_for self.old request).last < 2 ^ 62 - 1 }
        requires stamp { last < 2 ^ 62 - 1 }
        ensures served { IfSome result (λ entry. IsServedBy (shard_for self.old request) core start last request entry) }
        ensures hit { IfSome result (λ entry. entry.outcome ≡ Hit) }
        ensures after { IfSome result (λ entry. self.new ≡ slice_set self.old (bank_of (length self.old) request) (shard_after (shard_for self.old request) entry)) }
        ensures none { IfNone result (self.new ≡ self.old) }
        ensures shards { length self.new ≡ length self.old }
    {
        let bank = remainder(request.line(), self.homes.len() as u64) as usize;
        let reply = meet_alone::<T>(&self.homes[bank], &mut self.l1s, core, request)?;
        let stamp = next_stamp(&mut self.lasts[bank], last);
        Some(Entry {
            core,
            stamp,
            start,
            request,
            reply,
            outcome: Outcome::Hit,
        })
    }

    /// Sets the last stamps of all shards to 0, as at the beginning of an interval.
    pub fn restart(&mut self)
        ensures { self.new ≡ map (λ shard. resumed shard 0) self.old }
    {
        self.lasts.fill(0);
    }

    /// The state of a line in a core's own cache: I for a core that the machine does not have.
    pub fn letter(&self, core: u16, line: u64) -> Letter
        ensures { result ≡ letter_at (shard_of_line self.now line).caches core line }
    {
        match self.l1s.get(usize::from(core)) {
            Some(l1) => l1.letter(line),
            None => Letter::I,
        }
    }

    /// Whether a core's instruction cache has a line. No core that the machine does not have has
    /// one, and none of a machine without instruction caches.
    pub fn fetch_holds(&self, core: u16, line: u64) -> bool
        ensures { result ≡ fetch_holds (shard_of_line self.now line).caches core line }
    {
        match self.l1s.get(usize::from(core)) {
            Some(l1) => l1.has_instructions(line),
            None => false,
        }
    }

    /// Whether a line is dirty in the shared cache: None where the shared cache does not hold it.
    pub fn l2_dirty(&self, line: u64) -> Option<bool>
        ensures { result ≡ dirty_at (shard_of_line self.now line).caches line }
    {
        let bank = remainder(line, self.homes.len() as u64) as usize;
        match self.homes[bank].row(line) {
            Some(row) => Some(row.dirty),
            None => None,
        }
    }

    /// The lines that leave caches for an access, to make room: what leaves when `serve` serves it next.
    pub fn leaving(&self, core: u16, request: Request) -> Leaving
        requires { KnowsCore (shard_for self.now request) core }
        ensures { result ≡ leaving_of (shard_for self.now request).caches core request }
    {
        let bank = remainder(request.line(), self.homes.len() as u64) as usize;
        leaving_here(&self.homes[bank], &self.l1s[usize::from(core)], &request)
    }

    /// The byte at an address of memory.
    pub fn byte(&self, addr: u64) -> u8
        requires begins { let shard = shard_of_line self.now (line_at addr) in shard.base ≤ addr }
        requires ends { let shard = shard_of_line self.now (line_at addr) in addr < shard.base + shard.size }
        ensures { let shard = shard_of_line self.now (line_at addr) in result ≡ slice_index shard.bytes (place_of shard.caches.shards shard.base addr) }
    {
        let line = addr / LINE;
        let place = (addr % LINE) as usize;
        let bank = remainder(line, self.homes.len() as u64) as usize;
        newest_byte(
            &self.l1s,
            line,
            place,
            self.homes[bank].line_bytes(line)[place],
        )
    }
}

/// The stamp of an access, for a core whose latest stamp is `last`. `of_bank` is that of the latest
/// access of its bank, and then its own.
#[inline(always)]
fn next_stamp(of_bank: &mut Stamp, last: Stamp) -> Stamp
    requires own_stamp { of_bank.old < 2 ^ 62 - 1 }
    requires stamp { last < 2 ^ 62 - 1 }
    ensures stamp { result ≡ max of_bank.old last + 1 }
    ensures kept { of_bank.new ≡ result }
{
    let stamp = (*of_bank).max(last) + 1;
    *of_bank = stamp;
    stamp
}

/// A byte of a line, where its home has this one: that of the L1 that has it in M, if one has.
pub(crate) fn newest_byte(l1s: &[L1], line: u64, place: usize, at_home: u8) -> u8
    requires { place < line_bytes }
    ensures { (bytes : List ℕ) → slice_index bytes place ≡ at_home → slice_index (newest_in line bytes l1s.now) place ≡ result }
{
    let mut byte = at_home;
    for core in 0..l1s.len() {
        byte = newer_byte(&l1s[core], line, place, byte);
    }
    byte
}

/// A byte of a line, where its home has this one: that of this L1, if it has the line in M.
fn newer_byte(l1: &L1, line: u64, place: usize, at_home: u8) -> u8
    requires { place < line_bytes }
    ensures { (bytes : List ℕ) → slice_index bytes place ≡ at_home → slice_index (newer_bytes (copy_at l1.now line) bytes) place ≡ result }
{
    match (l1.letter(line), l1.bytes(line)) {
        (Letter::M, Some(bytes)) => bytes[place],
        _ => at_home,
    }
}
