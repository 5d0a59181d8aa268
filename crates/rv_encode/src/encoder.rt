//! The encoder: the bits of the instruction's row, and the fields.
ghost use Rattle.std.specs.Prelude.{◌≡◌, ℕ, ◌^◌, ◌<◌, Some};
ghost use Rattle.rv_decode.specs.InstructionTable.{decoded};
ghost use Rattle.rv_decode.specs.Ranges.{FitsItsFormat, AreRegisters};
ghost use Rattle.rv_decode.specs.NamedRows.{value_of, format_of};
ghost use Rattle.rv_encode.specs.Encoding.{registers_of};

use crate::immediates::immediate;
use crate::rows::ROWS;
use rv_decode::{Format, Inst, Name, laws};

/// The word of an instruction: the one that decodes to it.
pub fn encode(inst: Inst) -> u32
    requires { FitsItsFormat inst }
    ensures decodes { decoded result ≡ Some inst }
    ensures only { (word : ℕ) → word < 2 ^ 32 → decoded word ≡ Some inst → result ≡ word }
{
    // What the table says of its rows, and of words under masks, shows that the word is the one.
    laws::words_are_by_rows();
    laws::each_name_has_one_row();
    laws::masks_add_up();
    let (value, format) = row(inst.name);
    value + registers(inst) + immediate(format, inst.imm)
}

/// The value and the format of a name's row.
fn row(name: Name) -> (u32, Format)
    ensures value { result.0 ≡ value_of name }
    ensures format { result.1 ≡ format_of name }
{
    ROWS[name as usize]
}

/// The registers at their places.
fn registers(inst: Inst) -> u32
    requires rd { inst.rd < 32 }
    requires rs1 { inst.rs1 < 32 }
    requires rs2 { inst.rs2 < 32 }
    ensures { result ≡ registers_of inst }
{
    (u32::from(inst.rd) << 7) + (u32::from(inst.rs1) << 15) + (u32::from(inst.rs2) << 20)
}
