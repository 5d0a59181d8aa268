//! The decoder: it branches over the fields of a word.
ghost use Rattle.std.specs.Prelude.{◌≡◌, ◌==◌, ◌<◌, ◌↔◌, if◌then◌else◌, option_map, Contains, IsTrue, IfSome};
ghost use Rattle.rv_decode.specs.InstructionWord.{rs2_of};
ghost use Rattle.rv_decode.specs.Fields.{opcode_of};
ghost use Rattle.rv_decode.specs.InstructionTable as spec;
ghost use Rattle.rv_decode.specs.InstructionTable.{Row, table, matches, by_row, decoded};
ghost use Rattle.rv_decode.specs.Opcodes as opcode;
ghost use Rattle.rv_decode.specs.Matching.{IsByRow, NoRowMatches};
ghost use Rattle.rv_decode.specs.Ranges.{FitsItsFormat};

use crate::fields::{bits, funct3, funct7, opcode, rs2};
use crate::formats::instruction;
use crate::names::*;
use crate::{Format, Inst, Name, opcodes};

/// The instruction that a word is, or None where no row of the instruction table matches it
/// (RISC-V Unprivileged ISA manual, "RV32/64G Instruction Set Listings").
pub fn decode(word: u32) -> Option<Inst>
    ensures exact { result ≡ decoded word }

    // It is the instruction by each row that matches, and an instruction only by such a row.
    ensures matching { (row : Row) → Contains table row → IsTrue (matches row word)
        → result ≡ Some (by_row row word) }
    ensures matched { IfSome result (IsByRow word) }
    ensures none { (result ≡ None) ↔ NoRowMatches word }

    // Each field is in its range.
    ensures registers { IfSome result (λ i. (i.rd < 32) × (i.rs1 < 32) × (i.rs2 < 32)) }
    ensures ranges { IfSome result FitsItsFormat }
{
    by_opcode(word)
}

#[tactic(auto, using(crate::proofs::DecodedLemmas::by_opcode))]
fn by_opcode(word: u32) -> Option<Inst>
    ensures { result ≡ decoded word }
{
    match opcode(word) {
        opcodes::LUI => Some(instruction(Format::U, Name::Lui, word)),
        opcodes::AUIPC => Some(instruction(Format::U, Name::Auipc, word)),
        opcodes::JAL => Some(instruction(Format::J, Name::Jal, word)),
        opcodes::JALR => formatted(Format::I, register_jump_name(funct3(word)), word),
        opcodes::BRANCH => formatted(Format::B, branch_name(funct3(word)), word),
        opcodes::LOAD => formatted(Format::I, load_name(funct3(word)), word),
        opcodes::STORE => formatted(Format::S, store_name(funct3(word)), word),
        opcodes::OP_IMM => immediate(word),
        opcodes::OP_IMM_32 => word_immediate(word),
        opcodes::MISC_MEM => formatted(Format::I, fence_name(funct3(word)), word),
        opcodes::SYSTEM => call(word),
        opcodes::OP => operation(word),
        opcodes::OP_32 => word_operation(word),
        opcodes::AMO => atomic(word),
        _ => None,
    }
}

fn formatted(format: Format, name: Option<Name>, word: u32) -> Option<Inst>
    ensures { result ≡ option_map (λ n. spec.instruction format n word) name }
{
    match name {
        Some(name) => Some(instruction(format, name, word)),
        None => None,
    }
}

/// An operation of a register and an immediate.
#[tactic(auto, using(crate::proofs::DecodedLemmas::by_immediate))]
fn immediate(word: u32) -> Option<Inst>
    requires { opcode_of word ≡ opcode.op_imm }
    ensures { result ≡ decoded word }
{
    match funct3(word) {
        1 => formatted(Format::Shift, left_shift_name(bits(word, 31, 26)), word),
        5 => formatted(Format::Shift, right_shift_name(bits(word, 31, 26)), word),
        funct3 => formatted(Format::I, immediate_name(funct3), word),
    }
}

/// The same on the low 32 bits.
#[tactic(auto, using(crate::proofs::DecodedLemmas::by_word_immediate))]
fn word_immediate(word: u32) -> Option<Inst>
    requires { opcode_of word ≡ opcode.op_imm_32 }
    ensures { result ≡ decoded word }
{
    match funct3(word) {
        1 => formatted(Format::WordShift, left_word_shift_name(funct7(word)), word),
        5 => formatted(Format::WordShift, right_word_shift_name(funct7(word)), word),
        funct3 => formatted(Format::I, word_immediate_name(funct3), word),
    }
}

/// ECALL and EBREAK, whose words have no field.
#[tactic(auto, using(crate::proofs::DecodedLemmas::by_call))]
fn call(word: u32) -> Option<Inst>
    requires { opcode_of word ≡ opcode.system }
    ensures { result ≡ decoded word }
{
    if bits(word, 19, 7) == 0 {
        formatted(Format::Whole, call_name(bits(word, 31, 20)), word)
    } else {
        None
    }
}

/// An operation of two registers.
#[tactic(auto, using(crate::proofs::DecodedLemmas::by_operation))]
fn operation(word: u32) -> Option<Inst>
    requires { opcode_of word ≡ opcode.op }
    ensures { result ≡ decoded word }
{
    match funct7(word) {
        0x00 => formatted(Format::R, operation_name(funct3(word)), word),
        0x20 => formatted(Format::R, alternate_operation_name(funct3(word)), word),
        0x01 => formatted(Format::R, extension_m_name(funct3(word)), word),
        _ => None,
    }
}

/// The same on the low 32 bits.
#[tactic(auto, using(crate::proofs::DecodedLemmas::by_word_operation))]
fn word_operation(word: u32) -> Option<Inst>
    requires { opcode_of word ≡ opcode.op_32 }
    ensures { result ≡ decoded word }
{
    match funct7(word) {
        0x00 => formatted(Format::R, word_operation_name(funct3(word)), word),
        0x20 => formatted(Format::R, alternate_word_operation_name(funct3(word)), word),
        0x01 => formatted(Format::R, extension_m_word_name(funct3(word)), word),
        _ => None,
    }
}

/// An atomic. The bits 31 to 27 are its funct5, which is 2 for a load-reserved.
#[tactic(auto, using(crate::proofs::DecodedLemmas::by_atomic))]
fn atomic(word: u32) -> Option<Inst>
    requires { opcode_of word ≡ opcode.amo }
    ensures { result ≡ decoded word }
{
    let funct5 = bits(word, 31, 27);
    match (funct3(word), funct5) {
        (2, 2) => load_reserved(Name::LrW, word),
        (3, 2) => load_reserved(Name::LrD, word),
        (2, _) => formatted(Format::Atomic, word_atomic_name(funct5), word),
        (3, _) => formatted(Format::Atomic, doubleword_atomic_name(funct5), word),
        _ => None,
    }
}

/// A load-reserved has no rs2: it must be 0.
fn load_reserved(name: Name, word: u32) -> Option<Inst>
    ensures { result ≡ (if rs2_of word == 0
        then Some (spec.instruction Format.LoadReserved name word) else None) }
{
    if rs2(word) == 0 {
        Some(instruction(Format::LoadReserved, name, word))
    } else {
        None
    }
}
