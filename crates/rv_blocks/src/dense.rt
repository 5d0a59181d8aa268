//! The slots of instructions.
ghost use Rattle.std.specs.Prelude.{◌≡◌, ◌≢◌, ◌+◌, ◌*◌, ◌%◌, ◌^◌, ◌<◌, ◌≤◌, false, IsTrue};
ghost use Rattle.rv_alu.specs.Computing.{is_arithmetic, is_branch};
ghost use Rattle.rv_core.specs.Decoded.{HasRegisters};
ghost use Rattle.rv_core.specs.Effect.{immediate_number};
ghost use Rattle.rv_blocks.specs.Slots.{is_access, is_load, is_store, named, AccessesAs, ChangesNothing, DoesAs, GivesNumber, IsFit};

use crate::access::{is_load, is_store};
use crate::perform::place_of;
use crate::slot::{Op, Slot};
use rv_alu::{is_arithmetic, is_branch};
use rv_core::Fetched;
use rv_decode::{Inst, Name};

/// The slot of an instruction at a place, as a block of its own.
pub(crate) fn slot_of(inst: &Inst, first: u64, place: usize, count: usize) -> Slot
    requires registers { HasRegisters (Fetched.Instruction inst.now) }
    requires place { place + 1 < count }
    requires memory { first + 4 * count ≤ 2 ^ 48 }
    requires aligned { first % 4 ≡ 0 }
    ensures fit { IsFit count place result }
    ensures does { DoesAs inst.now (record { first = first; count = count }) place result }
    ensures accesses { AccessesAs inst.now (record { first = first; count = count }) place result }
{
    match inst.name {
        Name::Lui => constant(inst, immediate(inst), first, place, count),
        Name::Auipc => constant(inst, relative(inst, first, place), first, place, count),
        Name::Fence => nothing(inst, first, place, count),
        Name::Jal => jump(inst, first, place, count),
        Name::Jalr => jump_by_register(inst, first, place, count),
        name if is_load(name) => load(inst, first, place, count),
        name if is_store(name) => store(inst, first, place, count),
        name if is_arithmetic(name) => arithmetic(inst, first, place, count),
        name if is_branch(name) => branch(inst, first, place, count),
        _ => apart(inst, first, place, count),
    }
}

/// That of an instruction that computes.
fn arithmetic(inst: &Inst, first: u64, place: usize, count: usize) -> Slot
    requires name { IsTrue (is_arithmetic inst.now.name) }
    requires rd { inst.now.rd < 32 }
    requires rs1 { inst.now.rs1 < 32 }
    requires rs2 { inst.now.rs2 < 32 }
    requires place { place + 1 < count }
    requires memory { first + 4 * count ≤ 2 ^ 48 }
    ensures fit { IsFit count place result }
    ensures does { DoesAs inst.now (record { first = first; count = count }) place result }
    ensures accesses { AccessesAs inst.now (record { first = first; count = count }) place result }
{
    if inst.rd == 0 {
        return nothing(inst, first, place, count);
    }
    Slot {
        op: op_of(inst.name),
        name: inst.name,
        rd: inst.rd,
        rs1: inst.rs1,
        rs2: inst.rs2,
        left: 1,
        value: immediate(inst),
    }
}

/// That of an instruction that gives rd this number.
fn constant(inst: &Inst, value: u64, first: u64, place: usize, count: usize) -> Slot
    requires gives { GivesNumber inst.now value (record { first = first; count = count }) place }
    requires rd { inst.now.rd < 32 }
    requires place { place + 1 < count }
    requires memory { first + 4 * count ≤ 2 ^ 48 }
    ensures fit { IsFit count place result }
    ensures does { DoesAs inst.now (record { first = first; count = count }) place result }
    ensures accesses { AccessesAs inst.now (record { first = first; count = count }) place result }
{
    if inst.rd == 0 {
        return nothing(inst, first, place, count);
    }
    Slot {
        op: Op::Lui,
        name: Name::Lui,
        rd: inst.rd,
        rs1: 0,
        rs2: 0,
        left: 1,
        value,
    }
}

/// That of an instruction that changes no register.
#[tactic(auto, unfolding(crate::specs::Slots::does))]
fn nothing(_inst: &Inst, _first: u64, _place: usize, _count: usize) -> Slot
    requires nothing { ChangesNothing _inst.now (record { first = _first; count = _count }) _place }
    requires place { _place + 1 < _count }
    ensures fit { IsFit _count _place result }
    ensures does { DoesAs _inst.now (record { first = _first; count = _count }) _place result }
    ensures accesses { AccessesAs _inst.now (record { first = _first; count = _count }) _place result }
{
    Slot {
        op: Op::Other,
        name: Name::Fence,
        rd: 0,
        rs1: 0,
        rs2: 0,
        left: 1,
        value: 0,
    }
}

/// That of a JAL. Where no slot stands for the instruction at its target, it is left to the core.
fn jump(inst: &Inst, first: u64, place: usize, count: usize) -> Slot
    requires name { inst.now.name ≡ Name.Jal }
    requires rd { inst.now.rd < 32 }
    requires place { place + 1 < count }
    requires memory { first + 4 * count ≤ 2 ^ 48 }
    requires aligned { first % 4 ≡ 0 }
    ensures fit { IsFit count place result }
    ensures does { DoesAs inst.now (record { first = first; count = count }) place result }
    ensures accesses { AccessesAs inst.now (record { first = first; count = count }) place result }
{
    match place_of(relative(inst, first, place), first, count) {
        Some(next) => Slot {
            op: Op::Jal,
            name: Name::Jal,
            rd: inst.rd,
            rs1: 0,
            rs2: 0,
            left: 1,
            value: next as u64,
        },
        None => apart(inst, first, place, count),
    }
}

/// That of a JALR.
fn jump_by_register(inst: &Inst, _first: u64, _place: usize, _count: usize) -> Slot
    requires name { inst.now.name ≡ Name.Jalr }
    requires rd { inst.now.rd < 32 }
    requires rs1 { inst.now.rs1 < 32 }
    requires place { _place + 1 < _count }
    requires memory { _first + 4 * _count ≤ 2 ^ 48 }
    requires aligned { _first % 4 ≡ 0 }
    ensures fit { IsFit _count _place result }
    ensures does { DoesAs inst.now (record { first = _first; count = _count }) _place result }
    ensures accesses { AccessesAs inst.now (record { first = _first; count = _count }) _place result }
{
    Slot {
        op: Op::Jalr,
        name: Name::Jalr,
        rd: inst.rd,
        rs1: inst.rs1,
        rs2: 0,
        left: 1,
        value: immediate(inst),
    }
}

/// That of a branch. Where no slot stands for the instruction at its target, it is left to the core.
fn branch(inst: &Inst, first: u64, place: usize, count: usize) -> Slot
    requires name { IsTrue (is_branch inst.now.name) }
    requires rs1 { inst.now.rs1 < 32 }
    requires rs2 { inst.now.rs2 < 32 }
    requires place { place + 1 < count }
    requires memory { first + 4 * count ≤ 2 ^ 48 }
    requires aligned { first % 4 ≡ 0 }
    ensures fit { IsFit count place result }
    ensures does { DoesAs inst.now (record { first = first; count = count }) place result }
    ensures accesses { AccessesAs inst.now (record { first = first; count = count }) place result }
{
    match place_of(relative(inst, first, place), first, count) {
        Some(next) => Slot {
            op: op_of(inst.name),
            name: inst.name,
            rd: 0,
            rs1: inst.rs1,
            rs2: inst.rs2,
            left: 1,
            value: next as u64,
        },
        None => apart(inst, first, place, count),
    }
}

/// That of a load.
#[tactic(auto, unfolding(crate::specs::Slots::does))]
fn load(inst: &Inst, _first: u64, _place: usize, _count: usize) -> Slot
    requires name { IsTrue (is_load inst.now.name) }
    requires rd { inst.now.rd < 32 }
    requires rs1 { inst.now.rs1 < 32 }
    requires place { _place + 1 < _count }
    ensures fit { IsFit _count _place result }
    ensures does { DoesAs inst.now (record { first = _first; count = _count }) _place result }
    ensures accesses { AccessesAs inst.now (record { first = _first; count = _count }) _place result }
{
    Slot {
        op: Op::Load,
        name: inst.name,
        rd: inst.rd,
        rs1: inst.rs1,
        rs2: 0,
        left: 1,
        value: immediate(inst),
    }
}

/// That of a store.
#[tactic(auto, unfolding(crate::specs::Slots::does))]
fn store(inst: &Inst, _first: u64, _place: usize, _count: usize) -> Slot
    requires name { IsTrue (is_store inst.now.name) }
    requires rs1 { inst.now.rs1 < 32 }
    requires rs2 { inst.now.rs2 < 32 }
    requires place { _place + 1 < _count }
    ensures fit { IsFit _count _place result }
    ensures does { DoesAs inst.now (record { first = _first; count = _count }) _place result }
    ensures accesses { AccessesAs inst.now (record { first = _first; count = _count }) _place result }
{
    Slot {
        op: Op::Store,
        name: inst.name,
        rd: 0,
        rs1: inst.rs1,
        rs2: inst.rs2,
        left: 1,
        value: immediate(inst),
    }
}

/// That of an instruction that is left to the core.
#[tactic(auto, unfolding(crate::specs::Slots::does))]
fn apart(_inst: &Inst, _first: u64, _place: usize, _count: usize) -> Slot
    ensures fit { IsFit _count _place result }
    ensures does { DoesAs _inst.now (record { first = _first; count = _count }) _place result }
    ensures accesses { AccessesAs _inst.now (record { first = _first; count = _count }) _place result }
{
    LEFT_TO_CORE
}

/// The slot that does nothing: its instruction is left to the core.
pub(crate) const LEFT_TO_CORE: Slot = Slot {
    op: Op::Other,
    name: Name::Ebreak,
    rd: 0,
    rs1: 0,
    rs2: 0,
    left: 1,
    value: 0,
};

/// The name as that of a frequent instruction, if it is one.
fn op_of(name: Name) -> Op
    ensures name { named result name ≡ name }
    ensures access { is_access result ≡ false }
{
    match name {
        Name::Add => Op::Add,
        Name::Sub => Op::Sub,
        Name::And => Op::And,
        Name::Or => Op::Or,
        Name::Xor => Op::Xor,
        Name::Addi => Op::Addi,
        Name::Slli => Op::Slli,
        Name::Lui => Op::Lui,
        Name::Beq => Op::Beq,
        Name::Bne => Op::Bne,
        Name::Bltu => Op::Bltu,
        Name::Jal => Op::Jal,
        Name::Jalr => Op::Jalr,
        _ => Op::Other,
    }
}

/// The immediate as a number of 64 bits.
fn immediate(inst: &Inst) -> u64
    ensures { result ≡ immediate_number inst.now }
{
    inst.imm.cast_unsigned()
}

/// The address that the immediate is away from that of the instruction at a place.
fn relative(inst: &Inst, first: u64, place: usize) -> u64
    requires { first + 4 * place ≤ 2 ^ 48 }
    ensures { result ≡ (first + 4 * place + immediate_number inst.now) % 2 ^ 64 }
{
    (first + 4 * place as u64).wrapping_add(immediate(inst))
}
