//! An instruction in dense form.
ghost use Rattle.std.specs.Prelude.{◌≡◌, ◌<◌, Some, length, slice_get};

use rv_decode::Name;

/// The most frequent instructions, and all loads and stores.
#[derive(Clone, Copy)]
pub enum Op {
    Load,
    Store,
    Add,
    Sub,
    And,
    Or,
    Xor,
    Addi,
    Slli,
    Lui,
    Beq,
    Bne,
    Bltu,
    Jal,
    Jalr,
    Other,
}

/// An instruction in 16 bytes.
#[repr(C)]
#[derive(Clone, Copy)]
pub struct Slot {
    /// What it does, if that is frequent.
    pub op: Op,
    /// What it does if not, or which load or store it is. Where the loop leaves the instruction to
    /// the core, this is the name of one that the loop never does.
    pub name: Name,
    pub rd: u8,
    pub rs1: u8,
    pub rs2: u8,
    /// How many instructions there are from it to its block's end, both counted.
    pub left: u16,
    /// The immediate, the number that rd gets, or the place of the slot to which a jump or a
    /// branch leads.
    pub value: u64,
}

/// The slot at a place.
#[inline(always)]
pub fn slot_at(slots: &[Slot], place: usize) -> &Slot
    requires { place < length slots.now }
    ensures { slice_get slots.now place ≡ Some result.now }
{
    &slots[place]
}
