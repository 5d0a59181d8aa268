//! The L1 of one core.
ghost use Rattle.std.specs.Prelude.{◌≡◌, ℕ, ◌+◌, ◌<◌, ◌≤◌, ◌^◌, ◌&&◌, not, false, true, if◌then◌else◌, is_some, length, option_map, unwrap_or, IfOk, IfSome, IfNone, IsSome, IsTrue, None};
ghost use Rattle.zs_num.specs.Request.{addr_of, line_at, line_bytes, width_of};
ghost use Rattle.zs_num.specs.declared.request.Request.TheVariants.{Load, Store, Fetch};
ghost use Rattle.cache_set.specs.LetterFacts.{is_alone};
ghost use Rattle.l1_cache.specs.L1State.{AreBytesOf, HasEntered, answered_in, copy_at, filled_in, given_up_in, has_instructions, instruction_filled_in, instruction_given_up_in, instruction_victim_in, is_private, kept_with_in, letter_of, may_write, new_l1, number_of, place_in_line, private_after, private_reply, set_free_in, shared_in, victim_in, written_in};

use crate::data_ways::DataWays;
use crate::l1i::InstructionWays;
use crate::near::{Kept, Near, near_index, near_of};
use cache_set::{Letter, Tags, next_age};
use flat_memory::numbers;
use std::alloc::Global;
use std::marker::Model;
use zs_num::{LINE, NoMemory, Request};

/// The data cache of one core with the bytes of its lines, and its instruction cache if it has one:
/// all of both, or what they have of the lines of one shard. Contracts see the sets as lists, the
/// most recently used line first. A line is a number below 2^58: an address by 64.
#[derive(Drop)]
pub struct L1 {
    ways: DataWays,
    bytes: Vec<[u8; 64]>,
    instructions: InstructionWays,
}

impl Model for L1 {
    ghost use Rattle.l1_cache.specs.L1State.{L1State};
    ghost use Rattle.l1_cache.specs.Layout.{AreParts, l1_view};

    ghost Value = { L1State };

    ghost view = { λ l. l1_view l.ways l.bytes.items l.instructions };

    ghost invariant = { λ l. AreParts l.ways l.bytes.items l.instructions };
}

impl L1 {
    /// An L1 without a line: so many sets of so many ways, 1 to 32, for the lines of one of so many
    /// shards, or with 1 for all, and the sets and the ways of the instruction cache, None where
    /// there is none. `near` is how many lines of each are found by one comparison: a power of two,
    /// else some room is lost. No other call takes memory.
    pub fn new(
        alloc: Global,
        shards: u16,
        sets: u32,
        ways: u16,
        l1i: Option<(u32, u16)>,
        near: u32,
    ) -> Result<Self, NoMemory>
        requires shards { 0 < shards }
        requires sets { (1 ≤ sets) × (sets ≤ 65536) }
        requires ways { (1 ≤ ways) × (ways ≤ 32) }
        requires l1i_sets { IfSome l1i (λ l1i. (1 ≤ l1i.0) × (l1i.0 ≤ 65536)) }
        requires l1i_ways { IfSome l1i (λ l1i. (1 ≤ l1i.1) × (l1i.1 ≤ 32)) }
        requires near { 1 ≤ near }
        ensures { IfOk result (λ l1. l1 ≡ new_l1 shards sets ways l1i) }
    {
        let tags = Tags::new(alloc, sets, ways)?;
        let (l1i_sets, l1i_ways) = shape_of(l1i);
        let count = tags.ages.len();
        let entries = near as usize;
        let l1i_near = if l1i_sets == 0 { 1 } else { near };
        Ok(L1 {
            ways: DataWays {
                shards: u64::from(shards),
                tags,
                kept: vec![in alloc; Kept::NONE; count]?,
                near: vec![in alloc; Near::NONE; entries]?,
                mask: u64::from(near - 1),
            },
            bytes: vec![in alloc; [0; 64]; count]?,
            instructions: InstructionWays {
                tags: Tags::new(alloc, l1i_sets, l1i_ways)?,
                near: vec![in alloc; Near::NONE; l1i_near as usize]?,
                mask: u64::from(l1i_near - 1),
            },
        })
    }

    /// A small L1 without a line, to stand where that of a core isn't needed.
    pub fn stand_in(alloc: Global) -> Result<Self, NoMemory>
        ensures { IfOk result (λ l1. l1 ≡ new_l1 1 1 1 None) }
    {
        L1::new(alloc, 1, 1, 1, None, 1)
    }

    /// Serves an access that needs nothing but this L1: a load of a line that it has, a store to
    /// one that is free to write, a fetch from a line of the instruction cache. The answer is the
    /// reply, None where the access needs more: then nothing changes. What is compiled for `T`, any
    /// type, is compiled for the callers that name it.
    #[inline(always)]
    #[tactic(auto, unfolding(crate::specs::L1State::is_private))]
    pub fn serve_alone<T>(&mut self, request: Request) -> Option<u64>
        requires some { 1 ≤ width_of request }
        requires few { width_of request ≤ 8 }
        requires within { place_in_line (addr_of request) + width_of request ≤ line_bytes }
        ensures private { is_some result ≡ is_private self.old request }
        ensures reply { IfSome result (λ reply. reply ≡ private_reply self.old request) }
        ensures after { self.new ≡ (if is_private self.old request then private_after self.old request else self.old) }
    {
        match request {
            Request::Load { addr, width } => self.load::<T>(addr, width),
            Request::Store { addr, width, value } => self.store::<T>(addr, width, value),
            Request::Fetch { addr } => self.fetch::<T>(addr),
            Request::Lr { .. } | Request::Sc { .. } | Request::Amo { .. } => None,
        }
    }

    /// Serves an access as `serve_alone` does, but a load or a store only where the line is among
    /// those that are found by one comparison. None: nothing changes, and `serve_alone` may serve it
    /// all the same.
    #[inline(always)]
    #[tactic(auto, unfolding(crate::specs::L1State::is_private))]
    pub fn serve_near<T>(&mut self, request: Request) -> Option<u64>
        requires some { 1 ≤ width_of request }
        requires few { width_of request ≤ 8 }
        requires within { place_in_line (addr_of request) + width_of request ≤ line_bytes }
        ensures private { IfSome result (λ reply. is_private self.old request ≡ true) }
        ensures reply { IfSome result (λ reply. reply ≡ private_reply self.old request) }
        ensures after { IfSome result (λ reply. self.new ≡ private_after self.old request) }
        ensures none { IfNone result (self.new ≡ self.old) }
    {
        match request {
            Request::Load { addr, width } => self.load_near::<T>(addr, width),
            Request::Store { addr, width, value } => self.store_near::<T>(addr, width, value),
            Request::Fetch { addr } => self.fetch::<T>(addr),
            Request::Lr { .. } | Request::Sc { .. } | Request::Amo { .. } => None,
        }
    }

    #[inline(always)]
    fn load_near<T>(&mut self, addr: u64, width: u8) -> Option<u64>
        requires some { 1 ≤ width }
        requires few { width ≤ 8 }
        requires within { place_in_line addr + width ≤ line_bytes }
        ensures private { IfSome result (λ reply. is_private self.old (Load width addr) ≡ true) }
        ensures reply { IfSome result (λ reply. reply ≡ private_reply self.old (Load width addr)) }
        ensures after { IfSome result (λ reply. self.new ≡ private_after self.old (Load width addr)) }
        ensures none { IfNone result (self.new ≡ self.old) }
    {
        let place = self.ways.near(addr / LINE)?;
        let age = next_age(
            &mut self.ways.tags.ages,
            &mut self.ways.tags.tick,
            self.ways.tags.sets,
            self.ways.tags.ways,
        );
        self.ways.tags.ages[place] = age;
        Some(numbers::read(&self.bytes[place], (addr % LINE) as usize, width))
    }

    #[inline(always)]
    fn store_near<T>(&mut self, addr: u64, width: u8, value: u64) -> Option<u64>
        requires few { width ≤ 8 }
        requires within { place_in_line addr + width ≤ line_bytes }
        ensures private { IfSome result (λ reply. is_private self.old (Store width addr value) ≡ true) }
        ensures reply { IfSome result (λ reply. reply ≡ private_reply self.old (Store width addr value)) }
        ensures after { IfSome result (λ reply. self.new ≡ private_after self.old (Store width addr value)) }
        ensures none { IfNone result (self.new ≡ self.old) }
    {
        let place = self.ways.near_to_write(addr / LINE)?;
        let age = next_age(
            &mut self.ways.tags.ages,
            &mut self.ways.tags.tick,
            self.ways.tags.sets,
            self.ways.tags.ways,
        );
        self.ways.tags.ages[place] = age;
        numbers::write(&mut self.bytes[place], (addr % LINE) as usize, width, value);
        Some(0)
    }

    #[inline(always)]
    fn load<T>(&mut self, addr: u64, width: u8) -> Option<u64>
        requires some { 1 ≤ width }
        requires few { width ≤ 8 }
        requires within { place_in_line addr + width ≤ line_bytes }
        ensures private { is_some result ≡ is_private self.old (Load width addr) }
        ensures reply { IfSome result (λ reply. reply ≡ private_reply self.old (Load width addr)) }
        ensures after { self.new ≡ (if is_private self.old (Load width addr) then private_after self.old (Load width addr) else self.old) }
    {
        let place = self.ways.meet(addr / LINE)?;
        let age = next_age(
            &mut self.ways.tags.ages,
            &mut self.ways.tags.tick,
            self.ways.tags.sets,
            self.ways.tags.ways,
        );
        self.ways.tags.ages[place] = age;
        Some(numbers::read(&self.bytes[place], (addr % LINE) as usize, width))
    }

    #[inline(always)]
    fn store<T>(&mut self, addr: u64, width: u8, value: u64) -> Option<u64>
        requires few { width ≤ 8 }
        requires within { place_in_line addr + width ≤ line_bytes }
        ensures private { is_some result ≡ is_private self.old (Store width addr value) }
        ensures reply { IfSome result (λ reply. reply ≡ private_reply self.old (Store width addr value)) }
        ensures after { self.new ≡ (if is_private self.old (Store width addr value) then private_after self.old (Store width addr value) else self.old) }
    {
        let place = self.ways.meet_to_write(addr / LINE)?;
        let age = next_age(
            &mut self.ways.tags.ages,
            &mut self.ways.tags.tick,
            self.ways.tags.sets,
            self.ways.tags.ways,
        );
        self.ways.tags.ages[place] = age;
        numbers::write(&mut self.bytes[place], (addr % LINE) as usize, width, value);
        Some(0)
    }

    #[inline(always)]
    fn fetch<T>(&mut self, addr: u64) -> Option<u64>
        ensures private { is_some result ≡ is_private self.old (Fetch addr) }
        ensures reply { IfSome result (λ reply. reply ≡ private_reply self.old (Fetch addr)) }
        ensures after { self.new ≡ (if is_private self.old (Fetch addr) then private_after self.old (Fetch addr) else self.old) }
    {
        let place = self.instructions.meet(self.ways.shards, addr / LINE)?;
        let age = next_age(
            &mut self.instructions.tags.ages,
            &mut self.instructions.tags.tick,
            self.instructions.tags.sets,
            self.instructions.tags.ways,
        );
        self.instructions.tags.ages[place] = age;
        Some(0)
    }

    /// Whether a line is among those that are found by one comparison. Not all that are there are.
    #[inline(always)]
    pub fn has_near(&self, line: u64) -> bool
        ensures { IsTrue result → IsSome (copy_at self.now line) }
    {
        self.ways.has_near(line)
    }

    /// The core's letter for a line: I where the L1 doesn't have it.
    pub fn letter(&self, line: u64) -> Letter
        ensures { result ≡ letter_of (copy_at self.now line) }
    {
        match self.ways.find(line) {
            Some(place) => self.ways.kept[place].letter,
            None => Letter::I,
        }
    }

    /// The same, for a line that is used next: the next call finds it without a search.
    pub fn meet(&mut self, line: u64) -> Letter
        ensures letter { result ≡ letter_of (copy_at self.old line) }
        ensures same { self.new ≡ self.old }
    {
        if let Some(place) = self.ways.meet(line) {
            return self.ways.kept[place].letter;
        }
        Letter::I
    }

    /// The 64 bytes of a line, if it is there. In M they are newer than those at home.
    pub fn bytes(&self, line: u64) -> Option<&[u8]>
        ensures here { IfSome result (λ bytes. AreBytesOf (copy_at self.now line) bytes.now) }
        ensures none { IfNone result (copy_at self.now line ≡ None) }
    {
        match self.ways.find(line) {
            Some(place) => Some(&self.bytes[place]),
            None => None,
        }
    }

    /// A line leaves, if it is there. A caller brings home first what was written to it.
    pub fn give_up(&mut self, line: u64)
        ensures { self.new ≡ given_up_in line self.old }
    {
        if let Some(place) = self.ways.find(line) {
            let left = near_index(line, self.ways.mask);
            self.ways.near[left] = Near::NONE;
            self.ways.tags.ages[place] = 0;
        }
    }

    /// A line is shared from now on, if it is there. A caller brings home first what was written to
    /// it.
    pub fn share(&mut self, line: u64)
        ensures { self.new ≡ shared_in line self.old }
    {
        if let Some(place) = self.ways.find(line) {
            let shared = Kept {
                letter: Letter::S,
                free: false,
            };
            self.ways.set_kept(line, place, shared);
        }
    }

    /// The line that leaves for this one, which is not there, and its letter. None where there is
    /// room for both.
    pub fn victim(&self, line: u64) -> Option<(u64, Letter)>
        ensures { result ≡ option_map (λ victim. (victim.0, victim.1.letter)) (victim_in self.now line) }
    {
        match self.ways.victim(line) {
            Some(place) => Some((self.ways.tags.tags[place], self.ways.kept[place].letter)),
            None => None,
        }
    }

    /// A line that is not there comes in with this letter and these 64 bytes, and isn't free to
    /// write. The victim leaves for it.
    pub fn take_in(&mut self, line: u64, letter: Letter, bytes: &[u8])
        requires absent { copy_at self.old line ≡ None }
        requires bytes { length bytes.now ≡ line_bytes }
        ensures { self.new ≡ filled_in line (record { letter = letter; free = false; bytes = bytes.now }) self.old }
    {
        let (place, evicted) = self.ways.tags.put_in(self.ways.shards, line);
        self.ways.near[near_index(evicted, self.ways.mask)] = Near::NONE;
        let kept = Kept {
            letter,
            free: false,
        };
        self.ways.kept[place] = kept;
        self.ways.near[near_index(line, self.ways.mask)] = near_of(line, place, kept);
        self.bytes[place].copy_from_slice(bytes);
    }

    /// A line that is not there comes in with this letter, and isn't free to write. The answer is
    /// the victim that leaves for it, with its letter, None where there is room for both. The bytes
    /// of the victim stand for those of the line until `fill` gives it its own.
    #[inline(always)]
    pub fn enter(&mut self, line: u64, letter: Letter) -> Option<(u64, Letter)>
        requires { copy_at self.old line ≡ None }
        ensures victim { result ≡ option_map (λ victim. (victim.0, victim.1.letter)) (victim_in self.old line) }
        ensures after { HasEntered self.old line letter self.new }
        ensures closed { may_write (copy_at self.new line) ≡ false }
    {
        let entered = self.ways.tags.enter(self.ways.shards, line);
        let place = entered.place;
        let was = self.ways.kept[place].letter;
        let kept = Kept {
            letter,
            free: false,
        };
        let left = near_index(entered.had, self.ways.mask);
        self.ways.near[left] = Near::NONE;
        self.ways.kept[place] = kept;
        self.ways.near[near_index(line, self.ways.mask)] = near_of(line, place, kept);
        if entered.evicts {
            Some((entered.had, was))
        } else {
            None
        }
    }

    /// The bytes of a line that is there and not free to write, as one that came in by `enter`: only
    /// they change.
    #[inline(always)]
    pub fn fill(&mut self, line: u64, bytes: &[u8])
        requires there { IsSome (copy_at self.old line) }
        requires closed { may_write (copy_at self.old line) ≡ false }
        requires bytes { length bytes.now ≡ line_bytes }
        ensures { self.new ≡ answered_in line bytes.now false self.old }
    {
        if let Some(place) = self.ways.find(line) {
            self.bytes[place].copy_from_slice(bytes);
        }
    }

    /// A load that was served elsewhere reads a line that is there. It is free to write from now on
    /// where this core alone has it, and unless others have marked it.
    #[inline(always)]
    pub fn load_shared(&mut self, addr: u64, width: u8, marked: bool) -> u64
        requires there { IsSome (copy_at self.old (line_at addr)) }
        requires some { 1 ≤ width }
        requires few { width ≤ 8 }
        requires within { place_in_line addr + width ≤ line_bytes }
        ensures reply { result ≡ number_of (copy_at self.old (line_at addr)) (place_in_line addr) width }
        ensures after { self.new ≡ set_free_in (line_at addr) (is_alone (letter_of (copy_at self.old (line_at addr))) && not marked) self.old }
    {
        let line = addr / LINE;
        match self.ways.find(line) {
            Some(place) => {
                let free = is_free(self.ways.kept[place].letter, marked);
                self.ways.set_free(line, place, free);
                numbers::read(&self.bytes[place], (addr % LINE) as usize, width)
            }
            None => 0,
        }
    }

    /// A store that was served elsewhere writes to a line that is there. It is free to write from now
    /// on where this core alone has it, and unless others have marked it.
    #[inline(always)]
    pub fn store_shared(&mut self, addr: u64, width: u8, value: u64, marked: bool)
        requires there { IsSome (copy_at self.old (line_at addr)) }
        requires few { width ≤ 8 }
        requires within { place_in_line addr + width ≤ line_bytes }
        ensures { self.new ≡ written_in addr width value (is_alone (letter_of (copy_at self.old (line_at addr))) && not marked) self.old }
    {
        let line = addr / LINE;
        if let Some(place) = self.ways.find(line) {
            let free = is_free(self.ways.kept[place].letter, marked);
            self.ways.set_free(line, place, free);
            numbers::write(&mut self.bytes[place], (addr % LINE) as usize, width, value);
        }
    }

    /// A line that is there is used, with this letter from now on.
    pub fn keep_first(&mut self, line: u64, letter: Letter)
        requires { IsSome (copy_at self.old line) }
        ensures { self.new ≡ kept_with_in line letter self.old }
    {
        if let Some(place) = self.ways.find(line) {
            self.ways.set_letter(line, place, letter);
            let age = next_age(
                &mut self.ways.tags.ages,
                &mut self.ways.tags.tick,
                self.ways.tags.sets,
                self.ways.tags.ways,
            );
            self.ways.tags.ages[place] = age;
        }
    }

    /// An access that was served elsewhere leaves these 64 bytes of a line that is there. It is
    /// free to write from now on, or not.
    #[inline(always)]
    pub fn answer(&mut self, line: u64, bytes: &[u8], free: bool)
        requires there { IsSome (copy_at self.old line) }
        requires bytes { length bytes.now ≡ line_bytes }
        ensures { self.new ≡ answered_in line bytes.now free self.old }
    {
        if let Some(place) = self.ways.find(line) {
            self.ways.set_free(line, place, free);
            self.bytes[place].copy_from_slice(bytes);
        }
    }

    /// Whether the instruction cache has a line.
    pub fn has_instructions(&self, line: u64) -> bool
        ensures { result ≡ has_instructions self.now line }
    {
        self.instructions.find(self.ways.shards, line).is_some()
    }

    /// The line of the instruction cache that leaves for this one, which is not there.
    pub fn instruction_victim(&self, line: u64) -> Option<u64>
        ensures { result ≡ option_map (λ victim. victim.0) (instruction_victim_in self.now line) }
    {
        if self.instructions.tags.sets == 0 {
            return None;
        }
        match self.instructions.tags.victim(self.ways.shards, line) {
            Some(place) => Some(self.instructions.tags.tags[place]),
            None => None,
        }
    }

    /// A line that is not there comes into the instruction cache. The victim leaves for it.
    pub fn take_instruction(&mut self, line: u64)
        requires { has_instructions self.old line ≡ false }
        ensures { self.new ≡ instruction_filled_in line self.old }
    {
        if self.instructions.tags.sets == 0 {
            return;
        }
        let (place, evicted) = self.instructions.tags.put_in(self.ways.shards, line);
        let left = near_index(evicted, self.instructions.mask);
        self.instructions.near[left] = Near::NONE;
        let index = near_index(line, self.instructions.mask);
        self.instructions.near[index] = near_of(line, place, Kept::NONE);
    }

    /// A line leaves the instruction cache, if it is there.
    pub fn give_up_instruction(&mut self, line: u64)
        ensures { self.new ≡ instruction_given_up_in line self.old }
    {
        if let Some(place) = self.instructions.find(self.ways.shards, line) {
            let index = near_index(line, self.instructions.mask);
            self.instructions.near[index] = Near::NONE;
            self.instructions.tags.ages[place] = 0;
        }
    }
}

/// Whether a line is free to write for a core with this letter, where others have marked it or not.
#[inline(always)]
fn is_free(letter: Letter, marked: bool) -> bool
    ensures { result ≡ (is_alone letter && not marked) }
{
    match letter {
        Letter::M | Letter::E => !marked,
        Letter::S | Letter::I => false,
    }
}

/// How many sets and ways an instruction cache has: 0 of both where there is none.
fn shape_of(l1i: Option<(u32, u16)>) -> (u32, u16)
    requires sets { IfSome l1i (λ l1i. (1 ≤ l1i.0) × (l1i.0 ≤ 65536)) }
    requires ways { IfSome l1i (λ l1i. (1 ≤ l1i.1) × (l1i.1 ≤ 32)) }
    ensures value { result ≡ unwrap_or l1i (0, 0) }
    ensures sets { result.0 ≤ 65536 }
    ensures few { result.1 ≤ 32 }
    ensures some { 0 < result.0 → 1 ≤ result.1 }
{
    match l1i {
        Some(shape) => shape,
        None => (0, 0),
    }
}
