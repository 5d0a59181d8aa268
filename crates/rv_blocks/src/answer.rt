//! What is answered where a loop ended.
ghost use Rattle.std.specs.Prelude.{◌≡◌, ◌+◌, ◌-◌, ◌*◌, ◌^◌, ◌≤◌, ◌<◌, None, length, IfSome};
ghost use Rattle.rv_core.specs.Executions.{LeadsTo, LiesIn, Meets};
ghost use Rattle.rv_blocks.specs.Slots.{AreSlots};

use crate::access::met;
use crate::blocks::{OneByOne, Rest, lies_in, one_by_one};
use crate::hits::Halt;
use crate::slot::{Slot, slot_at};
use elf_load::Image;
use rv_core::{MemoryRange, Ran, Single};

/// How far a loop came that ended there, of so many instructions at most, and the access to which it
/// came, if its instruction may be executed: one of a line, if its number is given.
#[inline(always)]
pub fn ran_to<T>(
    image: &Image,
    slots: &[Slot],
    first: u64,
    x: &[u64; 32],
    rest: Rest,
    most: u64,
    memory: &MemoryRange,
    line: Option<u64>,
) -> Ran
    requires slots { AreSlots image.now first slots.now }
    requires place { rest.place < length slots.now }
    requires left { rest.left ≤ most }
    requires reach { memory.now.base + memory.now.size ≤ 2 ^ 48 }
    ensures pc { result.pc ≡ first + 4 * rest.place }
    ensures count { result.count ≡ most - rest.left }
    ensures early { IfSome result.met (λ single. result.count < most) }
    ensures met { IfSome result.met (λ single. Meets image.now memory.now x.now result.pc single) }
    ensures lies { IfSome result.met (λ single. LiesIn line result.pc) }
{
    let pc = first + 4 * rest.place as u64;
    let count = most - rest.left;
    if rest.left > 0 && lies_in(line, pc) {
        let slot = slot_at(slots, rest.place);
        let met = met::<T>(image, slot, first, rest.place, slots.len(), x, memory);
        return Ran { pc, count, met };
    }
    Ran {
        pc,
        count,
        met: None,
    }
}

/// Executes the first instructions of the block that did not fit where the loop by blocks ended, and
/// answers how far both came together.
#[inline(never)]
pub fn run_last(
    image: &Image,
    slots: &[Slot],
    first: u64,
    x: &mut [u64; 32],
    rest: Rest,
    most: u64,
    memory: &MemoryRange,
) -> Ran
    requires slots { AreSlots image.now first slots.now }
    requires place { rest.place < length slots.now }
    requires left { rest.left ≤ most }
    requires reach { memory.now.base + memory.now.size ≤ 2 ^ 48 }
    ensures more { most - rest.left ≤ result.count }
    ensures few { result.count ≤ most }
    ensures ran { LeadsTo None (result.count - (most - rest.left)) image.now x.old (first + 4 * rest.place) x.new result.pc }
    ensures early { IfSome result.met (λ single. result.count < most) }
    ensures met { IfSome result.met (λ single. Meets image.now memory.now x.new result.pc single) }
{
    let last = one_by_one(image, slots, first, x, rest.place, rest.left, None);
    ran_to::<OneByOne>(image, slots, first, x, last, most, memory, None)
}

/// The access to which the loop over hits came, if its instruction may be executed there: the one that
/// it answered, where it answered one.
#[inline(always)]
pub fn met_at<T>(
    image: &Image,
    slots: &[Slot],
    first: u64,
    x: &[u64; 32],
    halt: &Halt,
    memory: &MemoryRange,
) -> Option<Single>
    requires slots { AreSlots image.now first slots.now }
    requires place { halt.now.gone.place < length slots.now }
    requires reach { memory.now.base + memory.now.size ≤ 2 ^ 48 }
    requires early { IfSome halt.now.met (λ single. 0 < halt.now.gone.left.cycles) }
    requires met { IfSome halt.now.met (λ single. Meets image.now memory.now x.now (first + 4 * halt.now.gone.place) single) }
    requires lies { IfSome halt.now.met (λ single. LiesIn halt.now.gone.line (first + 4 * halt.now.gone.place)) }
    ensures early { IfSome result (λ single. 0 < halt.now.gone.left.cycles) }
    ensures met { IfSome result (λ single. Meets image.now memory.now x.now (first + 4 * halt.now.gone.place) single) }
    ensures lies { IfSome result (λ single. LiesIn halt.now.gone.line (first + 4 * halt.now.gone.place)) }
{
    if halt.met.is_some() {
        return halt.met;
    }
    let gone = &halt.gone;
    if gone.left.cycles == 0 || !lies_in(gone.line, first + 4 * gone.place as u64) {
        return None;
    }
    let slot = slot_at(slots, gone.place);
    met::<T>(image, slot, first, gone.place, slots.len(), x, memory)
}
