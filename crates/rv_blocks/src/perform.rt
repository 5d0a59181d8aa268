//! What a slot does to registers.
ghost use Rattle.std.specs.Prelude.{◌≡◌, ◌≢◌, ◌+◌, ◌*◌, ◌%◌, ◌^◌, ◌<◌, ◌≤◌, false, IfSome, IsTrue};
ghost use Rattle.rv_alu.specs.Computing.{is_arithmetic, is_branch};
ghost use Rattle.rv_core.specs.Effect.{even, with_register};
ghost use Rattle.rv_blocks.specs.Slots.{branches, computes, computes_with_value, does, is_plain, links, links_to, name_of, number_in, place_within, sets, IsFit};
ghost use Rattle.rv_blocks.specs.Flows.{is_apart, placed_by, AccessesBy, Continues};

use crate::flow::Flow;
use crate::slot::{Op, Slot};
use rv_alu::{alu, taken};
use rv_decode::Name;

/// Does what a slot does. `first` is the address of the instruction of the first of `count` slots.
/// The most frequent instructions are told apart first, in 16 arms: of so few the compiler sets the
/// jump to the next one behind each arm, and the processor predicts it there. The type `T` means
/// nothing: each loop takes one of its own, and the compiler then sets all arms into it.
#[inline(always)]
#[tactic(auto, unfolding(crate::specs::Slots::does))]
pub fn perform<T>(slot: &Slot, x: &mut [u64; 32], first: u64, place: usize, count: usize) -> Flow
    requires fit { IsFit count place slot.now }
    requires place { place < count }
    requires memory { first + 4 * count ≤ 2 ^ 48 }
    ensures value { placed_by result place x.new ≡ does (name_of slot.now) (record { first = first; count = count }) slot.now (record { registers = x.old; place = place }) }
    ensures same { IsTrue (is_apart result) → x.new ≡ x.old }
    ensures continues { Continues result (name_of slot.now) count place }
    ensures access { AccessesBy result slot.now.op }
{
    match slot.op {
        Op::Load => Flow::Load,
        Op::Store => Flow::Store,
        Op::Add => compute(Name::Add, slot, x, place),
        Op::Sub => compute(Name::Sub, slot, x, place),
        Op::And => compute(Name::And, slot, x, place),
        Op::Or => compute(Name::Or, slot, x, place),
        Op::Xor => compute(Name::Xor, slot, x, place),
        Op::Addi => compute_with_value(Name::Addi, slot, x, place),
        Op::Slli => compute_with_value(Name::Slli, slot, x, place),
        Op::Lui => set(slot, x, slot.value, place),
        Op::Beq => branch(Name::Beq, slot, x, place, count),
        Op::Bne => branch(Name::Bne, slot, x, place, count),
        Op::Bltu => branch(Name::Bltu, slot, x, place, count),
        Op::Jal => jump(slot, x, first, place, count),
        Op::Jalr => jump_by_register(slot, x, first, place, count),
        Op::Other => perform_other::<T>(slot, x, first, place, count),
    }
}

/// Does what a slot does, by its name.
#[inline(always)]
#[tactic(auto, unfolding(crate::specs::Slots::does))]
fn perform_other<T>(slot: &Slot, x: &mut [u64; 32], first: u64, place: usize, count: usize) -> Flow
    requires other { slot.now.op ≡ Op.Other }
    requires fit { IsFit count place slot.now }
    requires place { place < count }
    requires memory { first + 4 * count ≤ 2 ^ 48 }
    ensures value { placed_by result place x.new ≡ does slot.now.name (record { first = first; count = count }) slot.now (record { registers = x.old; place = place }) }
    ensures same { IsTrue (is_apart result) → x.new ≡ x.old }
    ensures continues { Continues result slot.now.name count place }
    ensures access { AccessesBy result slot.now.op }
{
    match slot.name {
        Name::Add => compute(Name::Add, slot, x, place),
        Name::Sub => compute(Name::Sub, slot, x, place),
        Name::Sll => compute(Name::Sll, slot, x, place),
        Name::Slt => compute(Name::Slt, slot, x, place),
        Name::Sltu => compute(Name::Sltu, slot, x, place),
        Name::Xor => compute(Name::Xor, slot, x, place),
        Name::Srl => compute(Name::Srl, slot, x, place),
        Name::Sra => compute(Name::Sra, slot, x, place),
        Name::Or => compute(Name::Or, slot, x, place),
        Name::And => compute(Name::And, slot, x, place),
        Name::Addw => compute(Name::Addw, slot, x, place),
        Name::Subw => compute(Name::Subw, slot, x, place),
        Name::Sllw => compute(Name::Sllw, slot, x, place),
        Name::Srlw => compute(Name::Srlw, slot, x, place),
        Name::Sraw => compute(Name::Sraw, slot, x, place),
        Name::Mul => compute(Name::Mul, slot, x, place),
        Name::Mulh => compute(Name::Mulh, slot, x, place),
        Name::Mulhsu => compute(Name::Mulhsu, slot, x, place),
        Name::Mulhu => compute(Name::Mulhu, slot, x, place),
        Name::Div => compute(Name::Div, slot, x, place),
        Name::Divu => compute(Name::Divu, slot, x, place),
        Name::Rem => compute(Name::Rem, slot, x, place),
        Name::Remu => compute(Name::Remu, slot, x, place),
        Name::Mulw => compute(Name::Mulw, slot, x, place),
        Name::Divw => compute(Name::Divw, slot, x, place),
        Name::Divuw => compute(Name::Divuw, slot, x, place),
        Name::Remw => compute(Name::Remw, slot, x, place),
        Name::Remuw => compute(Name::Remuw, slot, x, place),
        Name::Addi => compute_with_value(Name::Addi, slot, x, place),
        Name::Slti => compute_with_value(Name::Slti, slot, x, place),
        Name::Sltiu => compute_with_value(Name::Sltiu, slot, x, place),
        Name::Xori => compute_with_value(Name::Xori, slot, x, place),
        Name::Ori => compute_with_value(Name::Ori, slot, x, place),
        Name::Andi => compute_with_value(Name::Andi, slot, x, place),
        Name::Slli => compute_with_value(Name::Slli, slot, x, place),
        Name::Srli => compute_with_value(Name::Srli, slot, x, place),
        Name::Srai => compute_with_value(Name::Srai, slot, x, place),
        Name::Addiw => compute_with_value(Name::Addiw, slot, x, place),
        Name::Slliw => compute_with_value(Name::Slliw, slot, x, place),
        Name::Srliw => compute_with_value(Name::Srliw, slot, x, place),
        Name::Sraiw => compute_with_value(Name::Sraiw, slot, x, place),
        Name::Lui => set(slot, x, slot.value, place),
        Name::Fence => Flow::On,
        Name::Jal => jump(slot, x, first, place, count),
        Name::Jalr => jump_by_register(slot, x, first, place, count),
        Name::Beq => branch(Name::Beq, slot, x, place, count),
        Name::Bne => branch(Name::Bne, slot, x, place, count),
        Name::Blt => branch(Name::Blt, slot, x, place, count),
        Name::Bge => branch(Name::Bge, slot, x, place, count),
        Name::Bltu => branch(Name::Bltu, slot, x, place, count),
        Name::Bgeu => branch(Name::Bgeu, slot, x, place, count),
        _ => Flow::Apart,
    }
}

/// The operation of this name, of rs1 and rs2.
#[inline(always)]
fn compute(name: Name, slot: &Slot, x: &mut [u64; 32], place: usize) -> Flow
    requires name { IsTrue (is_arithmetic name) }
    requires rd { slot.now.rd < 32 }
    requires rs1 { slot.now.rs1 < 32 }
    requires rs2 { slot.now.rs2 < 32 }
    requires writes { slot.now.rd ≢ 0 }
    ensures value { placed_by result place x.new ≡ computes name slot.now (record { registers = x.old; place = place }) }
    ensures on { result ≡ Flow.On }
{
    let first = x[slot.rs1 as usize];
    let second = x[slot.rs2 as usize];
    set(slot, x, alu(name, first, second), place)
}

/// The operation of this name, of rs1 and the immediate.
#[inline(always)]
fn compute_with_value(name: Name, slot: &Slot, x: &mut [u64; 32], place: usize) -> Flow
    requires name { IsTrue (is_arithmetic name) }
    requires rd { slot.now.rd < 32 }
    requires rs1 { slot.now.rs1 < 32 }
    requires writes { slot.now.rd ≢ 0 }
    ensures value { placed_by result place x.new ≡ computes_with_value name slot.now (record { registers = x.old; place = place }) }
    ensures on { result ≡ Flow.On }
{
    let first = x[slot.rs1 as usize];
    set(slot, x, alu(name, first, slot.value), place)
}

/// rd, which is not x0, gets a number.
#[inline(always)]
fn set(slot: &Slot, x: &mut [u64; 32], value: u64, _place: usize) -> Flow
    requires rd { slot.now.rd < 32 }
    requires writes { slot.now.rd ≢ 0 }
    ensures value { placed_by result _place x.new ≡ sets slot.now value (record { registers = x.old; place = _place }) }
    ensures on { result ≡ Flow.On }
{
    x[slot.rd as usize] = value;
    Flow::On
}

/// The branch of this name.
#[inline(always)]
fn branch(name: Name, slot: &Slot, x: &[u64; 32], place: usize, _count: usize) -> Flow
    requires name { IsTrue (is_branch name) }
    requires ends { is_plain name ≡ false }
    requires rs1 { slot.now.rs1 < 32 }
    requires rs2 { slot.now.rs2 < 32 }
    requires leads { slot.now.value < _count }
    requires falls { place + 1 < _count }
    ensures value { placed_by result place x.now ≡ branches name slot.now (record { registers = x.now; place = place }) }
    ensures goes { is_apart result ≡ false }
    ensures continues { Continues result name _count place }
    ensures access { AccessesBy result slot.now.op }
{
    if taken(name, x[slot.rs1 as usize], x[slot.rs2 as usize]) {
        Flow::To(slot.value as usize)
    } else {
        Flow::To(place + 1)
    }
}

/// JAL.
#[inline(always)]
fn jump(slot: &Slot, x: &mut [u64; 32], first: u64, place: usize, _count: usize) -> Flow
    requires rd { slot.now.rd < 32 }
    requires place { place < _count }
    requires memory { first + 4 * _count ≤ 2 ^ 48 }
    requires leads { slot.now.value < _count }
    ensures value { placed_by result place x.new ≡ links (record { first = first; count = _count }) slot.now slot.now.value (record { registers = x.old; place = place }) }
    ensures to { result ≡ Flow.To slot.now.value }
{
    link(slot, x, first, place);
    Flow::To(slot.value as usize)
}

/// JALR, where a slot stands for the instruction at its target.
#[inline(always)]
fn jump_by_register(slot: &Slot, x: &mut [u64; 32], first: u64, place: usize, count: usize) -> Flow
    requires rd { slot.now.rd < 32 }
    requires rs1 { slot.now.rs1 < 32 }
    requires place { place < count }
    requires memory { first + 4 * count ≤ 2 ^ 48 }
    ensures value { placed_by result place x.new ≡ links_to (record { first = first; count = count }) slot.now (even ((number_in (record { registers = x.old; place = place }) slot.now.rs1 + slot.now.value) % 2 ^ 64)) (record { registers = x.old; place = place }) }
    ensures same { IsTrue (is_apart result) → x.new ≡ x.old }
    ensures continues { Continues result Name.Jalr count place }
    ensures access { AccessesBy result slot.now.op }
{
    let target = x[slot.rs1 as usize].wrapping_add(slot.value);
    match place_of(target - target % 2, first, count) {
        Some(next) => {
            link(slot, x, first, place);
            Flow::To(next)
        }
        None => Flow::Apart,
    }
}

/// The place of the slot that stands for the instruction at an address, if there is one.
#[inline(always)]
pub(crate) fn place_of(target: u64, first: u64, count: usize) -> Option<usize>
    requires { first + 4 * count ≤ 2 ^ 48 }
    ensures value { result ≡ place_within (record { first = first; count = count }) target }
    ensures within { IfSome result (λ place. place < count) }
{
    let away = target.wrapping_sub(first);
    if away % 4 == 0 && away / 4 < count as u64 {
        Some((away / 4) as usize)
    } else {
        None
    }
}

/// rd gets the address of the next instruction.
#[inline(always)]
fn link(slot: &Slot, x: &mut [u64; 32], first: u64, place: usize)
    requires rd { slot.now.rd < 32 }
    requires memory { first + 4 * (place + 1) ≤ 2 ^ 48 }
    ensures { x.new ≡ with_register x.old slot.now.rd (first + 4 * (place + 1)) }
{
    if slot.rd != 0 {
        x[slot.rd as usize] = first + 4 * (place as u64 + 1);
    }
}
