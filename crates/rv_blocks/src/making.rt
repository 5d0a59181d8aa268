//! The slots of a program.
ghost use Rattle.std.specs.Prelude.{◌≡◌, ◌+◌, ◌-◌, ◌*◌, ◌%◌, ◌^◌, ◌≤◌, ◌<◌, [], length, vec_capacity, vec_len, IfOk};
ghost use Rattle.rv_blocks.specs.Slots.{AreMeantSoFar, AreSlots, IsMeant};

use crate::dense::{LEFT_TO_CORE, slot_of};
use crate::join::join;
use crate::slot::Slot;
use elf_load::Image;
use rv_core::{Fetched, Program};
use std::alloc::Global;
use zs_num::NoMemory;

/// The slots of so many instructions from an address on, and behind them one that is left to the
/// core.
pub(crate) fn slots_of(
    alloc: Global,
    image: &Image,
    first: u64,
    count: usize,
) -> Result<Vec<Slot>, NoMemory>
    requires memory { first + 4 * (count + 1) ≤ 2 ^ 48 }
    requires aligned { first % 4 ≡ 0 }
    ensures { IfOk result (λ slots. AreSlots image.now first slots.items) }
{
    let mut slots = Vec::new(alloc);
    slots.reserve(count + 1)?;
    fill(&mut slots, image, first, count + 1);
    join(image, &mut slots, first);
    Ok(slots)
}

/// Fills the slots, each as a block of its own. There is room for them.
fn fill(slots: &mut Vec<Slot>, image: &Image, first: u64, count: usize)
    requires room { count ≤ vec_capacity slots.old }
    requires empty { slots.old.items ≡ [] }
    requires some { 0 < count }
    requires memory { first + 4 * count ≤ 2 ^ 48 }
    requires aligned { first % 4 ≡ 0 }
    ensures meant { AreMeantSoFar image.now (record { first = first; count = count }) slots.new.items }
    ensures count { length slots.new.items ≡ count }
{
    while slots.len() + 1 < count {
        let slot = slot_at_place(image, first, slots.len(), count);
        add(slots, image, first, count, slot);
    }
    let last = left_to_core(image, first, slots.len(), count);
    add(slots, image, first, count, last);
}

/// Adds a slot. There is room for it.
fn add(slots: &mut Vec<Slot>, _image: &Image, _first: u64, _count: usize, slot: Slot)
    requires room { vec_len slots.old < vec_capacity slots.old }
    requires meant { AreMeantSoFar _image.now (record { first = _first; count = _count }) slots.old.items }
    requires slot { IsMeant _image.now (record { first = _first; count = _count }) (length slots.old.items) slot }
    ensures meant { AreMeantSoFar _image.now (record { first = _first; count = _count }) slots.new.items }
    ensures length { length slots.new.items ≡ length slots.old.items + 1 }
    ensures capacity { vec_capacity slots.new ≡ vec_capacity slots.old }
{
    slots.push_reserved(slot);
}

/// The slot of the instruction at a place, as a block of its own.
fn slot_at_place(image: &Image, first: u64, place: usize, count: usize) -> Slot
    requires place { place + 1 < count }
    requires memory { first + 4 * count ≤ 2 ^ 48 }
    requires aligned { first % 4 ≡ 0 }
    ensures { IsMeant image.now (record { first = first; count = count }) place result }
{
    match image.fetch(&mut 0, first + 4 * place as u64) {
        Fetched::Instruction(inst) => slot_of(&inst, first, place, count),
        Fetched::NoInstruction { .. } | Fetched::Outside => {
            left_to_core(image, first, place, count)
        }
    }
}

/// The slot of an instruction that is left to the core.
fn left_to_core(_image: &Image, _first: u64, _place: usize, _count: usize) -> Slot
    ensures { IsMeant _image.now (record { first = _first; count = _count }) _place result }
{
    LEFT_TO_CORE
}
