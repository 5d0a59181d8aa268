//! The fields of an instruction word and the immediates that it encodes (RISC-V Unprivileged ISA
//! manual, "Base Instruction Formats" and "Immediate Encoding Variants").
ghost use Rattle.std.specs.Prelude.{◌≡◌, ◌+◌, ◌-◌, ◌^◌, ◌<◌, ◌≤◌};
ghost use Rattle.rv_decode.specs.InstructionWord.{bits_of, rd_of, rs1_of, rs2_of, signed};
ghost use Rattle.rv_decode.specs.Fields.{opcode_of, funct3_of, funct7_of};
ghost use Rattle.rv_decode.specs.InstructionWord as spec;

/// The bits of a word from `high` down to `low`, as a number.
pub fn bits(word: u32, high: u32, low: u32) -> u32
    requires ordered { low ≤ high }
    requires within { high < 32 }
    requires narrow { high < low + 31 }
    ensures { result ≡ bits_of high low word }
{
    (word >> low) & ((1 << (high + 1 - low)) - 1)
}

pub fn opcode(word: u32) -> u32
    ensures { result ≡ opcode_of word }
{
    bits(word, 6, 0)
}

pub fn rd(word: u32) -> u8
    ensures { result ≡ rd_of word }
{
    bits(word, 11, 7) as u8
}

pub fn funct3(word: u32) -> u32
    ensures { result ≡ funct3_of word }
{
    bits(word, 14, 12)
}

pub fn rs1(word: u32) -> u8
    ensures { result ≡ rs1_of word }
{
    bits(word, 19, 15) as u8
}

pub fn rs2(word: u32) -> u8
    ensures { result ≡ rs2_of word }
{
    bits(word, 24, 20) as u8
}

pub fn funct7(word: u32) -> u32
    ensures { result ≡ funct7_of word }
{
    bits(word, 31, 25)
}

/// The number that `width` bits stand for in two's complement.
fn signed(width: u32, bits: u32) -> i64
    requires some { 0 < width }
    requires within { width ≤ 32 }
    requires fits { bits < 2 ^ width }
    ensures { result ≡ spec.signed width bits }
{
    let half = 1u32 << (width - 1);
    if bits < half {
        i64::from(bits)
    } else {
        i64::from(bits) - 2 * i64::from(half)
    }
}

pub fn i_immediate(word: u32) -> i64
    ensures { result ≡ spec.i_immediate word }
{
    signed(12, bits(word, 31, 20))
}

pub fn s_immediate(word: u32) -> i64
    ensures { result ≡ spec.s_immediate word }
{
    signed(12, (bits(word, 31, 25) << 5) + bits(word, 11, 7))
}

pub fn b_immediate(word: u32) -> i64
    ensures { result ≡ spec.b_immediate word }
{
    let high = (bits(word, 31, 31) << 12) + (bits(word, 7, 7) << 11);
    let low = (bits(word, 30, 25) << 5) + (bits(word, 11, 8) << 1);
    signed(13, high + low)
}

pub fn u_immediate(word: u32) -> i64
    ensures { result ≡ spec.u_immediate word }
{
    signed(32, bits(word, 31, 12) << 12)
}

pub fn j_immediate(word: u32) -> i64
    ensures { result ≡ spec.j_immediate word }
{
    let high = (bits(word, 31, 31) << 20) + (bits(word, 19, 12) << 12);
    let low = (bits(word, 20, 20) << 11) + (bits(word, 30, 21) << 1);
    signed(21, high + low)
}
