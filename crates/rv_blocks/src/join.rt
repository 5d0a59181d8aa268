//! Blocks of slots.
ghost use Rattle.std.specs.Prelude.{◌≡◌, ◌+◌, ◌-◌, ◌*◌, ◌^◌, ◌≤◌, ◌<◌, ℕ, length, if◌then◌else◌};
ghost use Rattle.elf_load.specs.MemoryImage.{MemoryImage};
ghost use Rattle.rv_blocks.specs.Slots.{is_plain, left_at, name_of, AreCountedFrom, AreMeant, AreSlots, IsMeant, Stretch};

use crate::dense::LEFT_TO_CORE;
use crate::slot::{Op, Slot, slot_at};
use elf_load::Image;
use rv_alu::is_arithmetic;
use rv_decode::Name;

/// How many instructions a block has at most. The one before them is left to the core.
const MOST_IN_BLOCK: u16 = 128;

/// Joins slots into blocks, from the last one on.
pub(crate) fn join(image: &Image, slots: &mut [Slot], first: u64)
    requires some { 0 < length slots.old }
    requires memory { first + 4 * length slots.old ≤ 2 ^ 48 }
    requires meant { AreMeant image.now first slots.old }
    ensures { AreSlots image.now first slots.new }
{
    let mut behind = slots.len();
    let mut left = 0;
    while behind > 0 {
        left = join_before(image, slots, first, behind, left);
        behind -= 1;
    }
}

/// Joins the slot before a place to the block that begins there, if one does. `left` is what the
/// slot there costs, and the answer what the one before it does.
fn join_before(_image: &Image, slots: &mut [Slot], _first: u64, behind: usize, left: u16) -> u16
    requires some { 0 < behind }
    requires within { behind ≤ length slots.old }
    requires left { left ≡ left_at slots.old behind }
    requires few { left ≤ 128 }
    requires meant { AreMeant _image.now _first slots.old }
    requires counted { AreCountedFrom behind slots.old }
    ensures left { result ≡ left_at slots.new (behind - 1) }
    ensures few { result ≤ 128 }
    ensures meant { AreMeant _image.now _first slots.new }
    ensures counted { AreCountedFrom (behind - 1) slots.new }
    ensures length { length slots.new ≡ length slots.old }
{
    let place = behind - 1;
    let slot = joined(slot_at(slots, place), left);
    slots[place] = slot;
    slot.left
}

/// The slot, where the next one has so many instructions to its block's end, itself counted.
fn joined(slot: &Slot, left: u16) -> Slot
    requires { left ≤ 128 }
    ensures counted { result.left ≡ (if is_plain (name_of result) then 1 + left else 1) }
    ensures few { result.left ≤ 128 }
    ensures meant { (image : MemoryImage) (stretch : Stretch) (place : ℕ) → IsMeant image stretch place slot.now → IsMeant image stretch place result }
{
    if !is_plain(name_of(slot)) {
        Slot { left: 1, ..*slot }
    } else if left < MOST_IN_BLOCK {
        Slot {
            left: left + 1,
            ..*slot
        }
    } else {
        LEFT_TO_CORE
    }
}

/// Whether the next slot follows, in the same block.
fn is_plain(name: Name) -> bool
    ensures { result ≡ is_plain name }
{
    match name {
        Name::Lui | Name::Fence => true,
        _ => is_arithmetic(name),
    }
}

/// The name by which the loop does what a slot does. A load or a store is no instruction that it
/// does, whichever the slot names.
fn name_of(slot: &Slot) -> Name
    ensures { result ≡ name_of slot.now }
{
    match slot.op {
        Op::Load => Name::Ld,
        Op::Store => Name::Sd,
        Op::Add => Name::Add,
        Op::Sub => Name::Sub,
        Op::And => Name::And,
        Op::Or => Name::Or,
        Op::Xor => Name::Xor,
        Op::Addi => Name::Addi,
        Op::Slli => Name::Slli,
        Op::Lui => Name::Lui,
        Op::Beq => Name::Beq,
        Op::Bne => Name::Bne,
        Op::Bltu => Name::Bltu,
        Op::Jal => Name::Jal,
        Op::Jalr => Name::Jalr,
        Op::Other => slot.name,
    }
}
