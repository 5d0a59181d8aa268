//! The instruction that a word is in each format. A field that the format does not have is 0.
ghost use Rattle.std.specs.Prelude.{◌≡◌};
ghost use Rattle.rv_decode.specs.InstructionTable.{instruction};
ghost use Rattle.rv_decode.specs.declared.format.Format.TheVariants.{U, J, I, B, S, R, Shift, WordShift, Atomic, LoadReserved, Whole};

use crate::fields::{
    b_immediate, bits, i_immediate, j_immediate, rd, rs1, rs2, s_immediate, u_immediate,
};
use crate::{Format, Inst, Name};

/// The instruction that a word is in a format.
pub fn instruction(format: Format, name: Name, word: u32) -> Inst
    ensures { result ≡ instruction format name word }
{
    match format {
        Format::U => upper(name, word),
        Format::J => jump(name, word),
        Format::I => immediate(name, word),
        Format::B => branch(name, word),
        Format::S => store(name, word),
        Format::R => register(name, word),
        Format::Shift => shift(name, word),
        Format::WordShift => word_shift(name, word),
        Format::Atomic => atomic(name, word),
        Format::LoadReserved => load_reserved(name, word),
        Format::Whole => whole(name),
    }
}

fn upper(name: Name, word: u32) -> Inst
    ensures { result ≡ instruction U name word }
{
    Inst {
        name,
        rd: rd(word),
        rs1: 0,
        rs2: 0,
        imm: u_immediate(word),
    }
}

fn jump(name: Name, word: u32) -> Inst
    ensures { result ≡ instruction J name word }
{
    Inst {
        name,
        rd: rd(word),
        rs1: 0,
        rs2: 0,
        imm: j_immediate(word),
    }
}

fn immediate(name: Name, word: u32) -> Inst
    ensures { result ≡ instruction I name word }
{
    Inst {
        name,
        rd: rd(word),
        rs1: rs1(word),
        rs2: 0,
        imm: i_immediate(word),
    }
}

fn branch(name: Name, word: u32) -> Inst
    ensures { result ≡ instruction B name word }
{
    Inst {
        name,
        rd: 0,
        rs1: rs1(word),
        rs2: rs2(word),
        imm: b_immediate(word),
    }
}

fn store(name: Name, word: u32) -> Inst
    ensures { result ≡ instruction S name word }
{
    Inst {
        name,
        rd: 0,
        rs1: rs1(word),
        rs2: rs2(word),
        imm: s_immediate(word),
    }
}

fn register(name: Name, word: u32) -> Inst
    ensures { result ≡ instruction R name word }
{
    Inst {
        name,
        rd: rd(word),
        rs1: rs1(word),
        rs2: rs2(word),
        imm: 0,
    }
}

/// A shift by an amount of six bits.
fn shift(name: Name, word: u32) -> Inst
    ensures { result ≡ instruction Shift name word }
{
    Inst {
        name,
        rd: rd(word),
        rs1: rs1(word),
        rs2: 0,
        imm: i64::from(bits(word, 25, 20)),
    }
}

/// A shift by an amount of five bits.
fn word_shift(name: Name, word: u32) -> Inst
    ensures { result ≡ instruction WordShift name word }
{
    Inst {
        name,
        rd: rd(word),
        rs1: rs1(word),
        rs2: 0,
        imm: i64::from(bits(word, 24, 20)),
    }
}

fn atomic(name: Name, word: u32) -> Inst
    ensures { result ≡ instruction Atomic name word }
{
    Inst {
        name,
        rd: rd(word),
        rs1: rs1(word),
        rs2: rs2(word),
        imm: i64::from(bits(word, 26, 25)),
    }
}

/// An atomic without rs2.
fn load_reserved(name: Name, word: u32) -> Inst
    ensures { result ≡ instruction LoadReserved name word }
{
    Inst {
        name,
        rd: rd(word),
        rs1: rs1(word),
        rs2: 0,
        imm: i64::from(bits(word, 26, 25)),
    }
}

/// An instruction with no field.
fn whole(name: Name) -> Inst
    ensures { result ≡ instruction Whole name 0 }
{
    Inst {
        name,
        rd: 0,
        rs1: 0,
        rs2: 0,
        imm: 0,
    }
}
