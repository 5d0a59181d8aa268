//! A program whose words are decoded once.
ghost use Rattle.std.specs.Prelude.{◌≡◌, ℕ, ◌+◌, ◌-◌, ◌*◌, ◌%◌, ◌^◌, ◌<◌, ◌≤◌, All, vec_capacity, vec_len, IfOk, IfSome, None};
ghost use Rattle.rv_core.specs.Fetch.{fetched_at};
ghost use Rattle.rv_core.specs.Decoded.{HasRegisters};
ghost use Rattle.rv_blocks.specs.Decoded.{IsDecodedWord};
ghost use Rattle.rv_blocks.specs.Falling.{FallsThrough};

use crate::answer::{met_at, ran_to, run_last};
use crate::blocks::{ByBlocks, OneByOne, by_blocks, cost_at, one_by_one};
use crate::hits::{Gone, by_hits};
use crate::making::slots_of;
use crate::perform::place_of;
use crate::slot::Slot;
use crate::told_hits::by_told_hits;
use crate::told_lines::by_told_lines;
use elf_load::{Image, Segment};
use rv_core::{Came, Fetched, Leg, MemoryRange, Port, Program, Ran, Single, Stint};
use rv_decode::Inst;
use std::alloc::Global;
use std::marker::Model;
use zs_num::NoMemory;

/// The words that are decoded at most, over all segments. Each takes 32 bytes, and 16 as a slot.
const MOST_WORDS: usize = 1 << 20;

/// The bytes of a word.
const WORD: u64 = 4;

/// What the program has at an address.
#[derive(Clone, Copy)]
pub struct DecodedWord {
    pub pc: u64,
    pub fetched: Fetched,
}

/// The words of one segment: `count` of them, from a place on, are of the addresses
/// from the first on.
#[derive(Clone, Copy)]
struct Span {
    first: u64,
    place: usize,
    count: usize,
}

impl Span {
    /// Whether an address is one of them.
    fn has(&self, pc: u64) -> bool {
        pc.wrapping_sub(self.first) / WORD < self.count as u64
    }

    /// What leads from a word's number in all addresses to its place.
    fn near(&self) -> usize {
        self.place.wrapping_sub((self.first / WORD) as usize)
    }
}

/// An executable in memory and its instructions, decoded once for a whole run. What it does not
/// hold decoded it decodes each time: words past the first 2^20, and those past the bytes of the
/// file. Those of its first executable segment it also has as slots, in blocks.
#[derive(Drop)]
pub struct DecodedProgram<'a> {
    image: &'a Image,
    words: Vec<DecodedWord>,
    spans: Vec<Span>,
    // The slots, and the address of the instruction for which the first stands.
    slots: Vec<Slot>,
    first: u64,
}

impl<'a> Model for DecodedProgram<'a> {
    ghost use Rattle.std.specs.Prelude.{All};
    ghost use Rattle.elf_load.specs.MemoryImage.{MemoryImage};
    ghost use Rattle.rv_blocks.specs.Decoded.{IsDecodedWord};
    ghost use Rattle.rv_blocks.specs.Slots.{AreSlots};

    ghost Value = { MemoryImage };

    ghost view = { λ p. p.image.now };

    ghost invariant = { λ p. All (IsDecodedWord p.image.now) p.words.items × AreSlots p.image.now p.first p.slots.items };
}

impl<'a> DecodedProgram<'a> {
    /// Decodes a program.
    pub fn of(alloc: Global, image: &'a Image) -> Result<Self, NoMemory>
        ensures { IfOk result (λ program. program ≡ image.now) }
    {
        let stretch = stretch_of(image);
        let slots = slots_of(alloc, image, stretch.first, stretch.count)?;
        let mut program = DecodedProgram {
            image,
            words: Vec::new(alloc),
            spans: Vec::new(alloc),
            slots,
            first: stretch.first,
        };
        for segment in image.segments() {
            program.add(segment)?;
        }
        Ok(program)
    }

    /// How many instructions there are from the one at an address on, as far as they are known, of
    /// which none but the last may jump: 1 where nothing is known.
    #[inline(always)]
    pub fn stretch(&self, pc: u64) -> u64
        ensures some { 1 ≤ result }
        ensures within { 1 < result → pc + 4 * result ≤ 2 ^ 48 }
        ensures falls { (i : ℕ) → i + 1 < result → FallsThrough self.now (pc + 4 * i) }
    {
        match place_of(pc, self.first, self.slots.len()) {
            Some(place) => cost_at(&self.slots, place),
            None => 1,
        }
    }

    /// Decodes the words of a segment, as far as there is room.
    fn add(&mut self, segment: &Segment) -> Result<(), NoMemory>
        ensures { self.new ≡ self.old }
    {
        if !segment.exec {
            return Ok(());
        }
        let stretch = words_of(segment);
        let place = self.words.len();
        let count = stretch.count.min(MOST_WORDS.saturating_sub(place));
        self.words.reserve(count)?;
        self.spans.push(Span {
            first: stretch.first,
            place,
            count,
        })?;
        decode(&mut self.words, self.image, stretch.first, count);
        Ok(())
    }

    /// What the word of an address is, if `near` leads to it.
    #[inline(always)]
    fn word_at(&self, near: usize, pc: u64) -> Option<&Fetched>
        ensures value { IfSome result (λ fetched. fetched.now ≡ fetched_at self.now pc) }
        ensures registers { IfSome result (λ fetched. HasRegisters fetched.now) }
    {
        let place = (pc / WORD).wrapping_add(near as u64);
        match self.words.get(place as usize) {
            Some(word) if word.pc == pc => Some(&word.fetched),
            _ => None,
        }
    }
}

/// So many words, from an address on.
#[derive(Clone, Copy)]
struct Words {
    first: u64,
    count: usize,
}

/// The words of a segment.
fn words_of(segment: &Segment) -> Words {
    // The first address of the segment that is a multiple of 4, as those of instructions are.
    let skipped = (WORD - segment.vaddr % WORD) % WORD;
    Words {
        first: segment.vaddr.wrapping_add(skipped),
        count: segment
            .bytes
            .as_slice()
            .len()
            .saturating_sub(skipped as usize)
            / WORD as usize,
    }
}

/// The words for which there are slots: those of the first executable segment, as far as there is
/// room.
fn stretch_of(image: &Image) -> Words
    ensures memory { result.first + 4 * (result.count + 1) ≤ 2 ^ 48 }
    ensures aligned { result.first % 4 ≡ 0 }
{
    for segment in image.segments() {
        if segment.exec {
            return within_room(words_of(segment));
        }
    }
    Words { first: 0, count: 0 }
}

/// The same words, as far as there is room for them; none where they do not lie as instructions do.
fn within_room(words: Words) -> Words
    ensures memory { result.first + 4 * (result.count + 1) ≤ 2 ^ 48 }
    ensures aligned { result.first % 4 ≡ 0 }
{
    let count = words.count.min(MOST_WORDS);
    if words.first % WORD == 0 && words.first < 1 << 47 {
        Words {
            first: words.first,
            count,
        }
    } else {
        Words { first: 0, count: 0 }
    }
}

/// Decodes so many words, from an address on, behind those that are decoded. There is room for
/// them.
fn decode(words: &mut Vec<DecodedWord>, image: &Image, first: u64, count: usize)
    requires room { vec_len words.old + count ≤ vec_capacity words.old }
    requires before { All (IsDecodedWord image.now) words.old.items }
    ensures { All (IsDecodedWord image.now) words.new.items }
{
    let mut pc = first;
    for _ in 0..count {
        let fetched = image.fetch(&mut 0, pc);
        words.push_reserved(DecodedWord { pc, fetched });
        pc = pc.wrapping_add(WORD);
    }
}

impl Program for DecodedProgram<'_> {
    ghost image = { λ p. p };

    #[inline(always)]
    fn decoded_at(&self, near: usize, pc: u64) -> Option<&Inst> {
        match self.word_at(near, pc) {
            Some(Fetched::Instruction(inst)) => Some(inst),
            _ => None,
        }
    }

    fn fetch(&self, near: &mut usize, pc: u64) -> Fetched {
        for span in &self.spans {
            if span.has(pc) {
                *near = span.near();
            }
        }
        match self.word_at(*near, pc) {
            Some(fetched) => *fetched,
            None => self.image.fetch(&mut 0, pc),
        }
    }

    #[inline(never)]
    fn run_blocks(
        &self,
        registers: &mut [u64; 32],
        pc: u64,
        most: u64,
        memory: &MemoryRange,
    ) -> Ran {
        let (image, slots, first) = (self.image, &self.slots, self.first);
        let Some(place) = place_of(pc, first, slots.len()) else {
            return Ran::nowhere(pc);
        };
        let rest = by_blocks::<ByBlocks>(image, slots, first, registers, place, most).rest;
        let ran = ran_to::<ByBlocks>(image, slots, first, registers, rest, most, memory, None);
        if ran.met.is_some() {
            return ran;
        }
        run_last(image, slots, first, registers, rest, most, memory)
    }

    fn run_in_line(
        &self,
        registers: &mut [u64; 32],
        pc: u64,
        most: u64,
        memory: &MemoryRange,
        line: u64,
    ) -> Ran {
        let (image, slots, first) = (self.image, &self.slots, self.first);
        let Some(place) = place_of(pc, first, slots.len()) else {
            return Ran::nowhere(pc);
        };
        let line = Some(line);
        let rest = one_by_one(image, slots, first, registers, place, most, line);
        ran_to::<OneByOne>(image, slots, first, registers, rest, most, memory, line)
    }

    #[inline(always)]
    fn run_hits<Q: Port>(
        &self,
        registers: &mut [u64; 32],
        pc: u64,
        line: Option<u64>,
        memory: &MemoryRange,
        stint: &Stint,
        port: &mut Q,
    ) -> Came {
        let (image, slots, first) = (self.image, &self.slots, self.first);
        match place_of(pc, first, slots.len()) {
            Some(place) => {
                let halt = by_hits::<Q>(
                    image, slots, first, registers, place, line, memory, stint, port,
                );
                let met = met_at::<Q>(image, slots, first, registers, &halt, memory);
                came_by(first, stint, halt.gone, met)
            }
            None => Came::nowhere(pc, line, stint.clock),
        }
    }

    #[inline(always)]
    fn run_told_hits<Q: Port>(
        &self,
        registers: &mut [u64; 32],
        pc: u64,
        line: Option<u64>,
        memory: &MemoryRange,
        stint: &Stint,
        port: &mut Q,
        way: &mut Vec<Leg>,
    ) -> Came {
        let (image, slots, first) = (self.image, &self.slots, self.first);
        match (line, place_of(pc, first, slots.len())) {
            (None, Some(place)) => {
                let gone = by_told_hits::<Q>(
                    image, slots, first, registers, place, memory, stint, port, way,
                );
                came_by(first, stint, gone, None)
            }
            (Some(latest), Some(place)) => {
                let gone = by_told_lines::<Q>(
                    image, slots, first, registers, place, latest, memory, stint, port, way,
                );
                came_by(first, stint, gone, None)
            }
            _ => Came::nowhere(pc, line, stint.clock),
        }
    }
}

/// How far the loop over hits came.
#[inline(always)]
fn came_by(first: u64, stint: &Stint, gone: Gone, met: Option<Single>) -> Came
    requires code { first + 4 * gone.place ≤ 2 ^ 48 }
    requires begins { stint.now.clock ≤ stint.now.end }
    requires left { gone.left.cycles + gone.left.waited ≤ stint.now.end - stint.now.clock }
    requires accesses { gone.left.accesses ≤ stint.now.accesses }
    ensures pc { result.pc ≡ first + 4 * gone.place }
    ensures line { result.line ≡ gone.line }
    ensures clock { result.clock ≡ stint.now.end - gone.left.cycles }
    ensures count { result.count ≡ stint.now.end - stint.now.clock - gone.left.cycles - gone.left.waited }
    ensures accesses { result.accesses ≡ stint.now.accesses - gone.left.accesses }
    ensures met { result.met ≡ met }
{
    Came {
        pc: first + 4 * gone.place as u64,
        line: gone.line,
        clock: stint.end - gone.left.cycles,
        count: stint.end - stint.clock - gone.left.cycles - gone.left.waited,
        accesses: stint.accesses - gone.left.accesses,
        met,
    }
}
