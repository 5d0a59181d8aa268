//! Instructions, with their operands in the order of assembly language.
ghost use Rattle.std.specs.Prelude.{◌≡◌, ◌<◌};
ghost use Rattle.gen_prog.specs.Assembly.{branch_by, jump_by, registers, store_at, upper, with_immediate, without_operands};

use rv_decode::{Inst, Name};

/// An instruction of a register and the upper 20 bits of an immediate.
pub fn upper(name: Name, rd: u8, imm: u16) -> Inst
    ensures { result ≡ upper name rd imm }
{
    Inst {
        name,
        rd,
        rs1: 0,
        rs2: 0,
        imm: i64::from(imm) << 12,
    }
}

/// An instruction of two registers and an immediate. A load has its offset there.
pub fn with_immediate(name: Name, rd: u8, rs1: u8, imm: i64) -> Inst
    ensures { result ≡ with_immediate name rd rs1 imm }
{
    Inst {
        name,
        rd,
        rs1,
        rs2: 0,
        imm,
    }
}

/// An instruction of three registers. An atomic has neither aq nor rl.
pub fn registers(name: Name, rd: u8, rs1: u8, rs2: u8) -> Inst
    ensures { result ≡ registers name rd rs1 rs2 }
{
    Inst {
        name,
        rd,
        rs1,
        rs2,
        imm: 0,
    }
}

/// A store of rs2 at an offset from rs1.
pub fn store_at(name: Name, rs2: u8, rs1: u8, offset: i64) -> Inst
    ensures { result ≡ store_at name rs2 rs1 offset }
{
    Inst {
        name,
        rd: 0,
        rs1,
        rs2,
        imm: offset,
    }
}

/// A branch by so many bytes.
pub fn branch_by(name: Name, rs1: u8, rs2: u8, offset: i64) -> Inst
    ensures { result ≡ branch_by name rs1 rs2 offset }
{
    Inst {
        name,
        rd: 0,
        rs1,
        rs2,
        imm: offset,
    }
}

/// A jump by so many bytes.
pub fn jump_by(name: Name, rd: u8, offset: i64) -> Inst
    ensures { result ≡ jump_by name rd offset }
{
    Inst {
        name,
        rd,
        rs1: 0,
        rs2: 0,
        imm: offset,
    }
}

/// An instruction without operands.
pub fn without_operands(name: Name) -> Inst
    ensures { result ≡ without_operands name }
{
    Inst {
        name,
        rd: 0,
        rs1: 0,
        rs2: 0,
        imm: 0,
    }
}
