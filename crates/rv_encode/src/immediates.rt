//! The bits of a word that hold an immediate (RISC-V Unprivileged ISA manual, "Immediate Encoding
//! Variants").
ghost use Rattle.std.specs.Prelude.{◌≡◌, ◌+◌, ◌-◌, ◌^◌, ◌<◌, ◌≤◌, ◌<ℤ◌, ◌≤ℤ◌, pos, neg_ℤ};
ghost use Rattle.rv_encode.specs.Encoding as spec;
ghost use Rattle.rv_decode.specs.Ranges.{IsImmediate};

use rv_decode::{Format, bits};

/// The number that stands for a value in two's complement of `width` bits.
fn unsigned(width: u32, value: i64) -> u32
    requires some { 0 < width }
    requires within { width ≤ 32 }
    requires at_least { neg_ℤ (pos (2 ^ width)) ≤ℤ value }
    requires below { value <ℤ pos (2 ^ width) }
    ensures { result ≡ spec.unsigned width value }
{
    if value < 0 {
        (value + (1i64 << width)) as u32
    } else {
        value as u32
    }
}

fn store_offset(offset: u32) -> u32
    ensures { result ≡ spec.s_placed offset }
{
    (bits(offset, 11, 5) << 25) + (bits(offset, 4, 0) << 7)
}

fn branch_offset(offset: u32) -> u32
    ensures { result ≡ spec.b_placed offset }
{
    let high = (bits(offset, 12, 12) << 31) + (bits(offset, 10, 5) << 25);
    let low = (bits(offset, 4, 1) << 8) + (bits(offset, 11, 11) << 7);
    high + low
}

fn jump_offset(offset: u32) -> u32
    ensures { result ≡ spec.j_placed offset }
{
    let high = (bits(offset, 20, 20) << 31) + (bits(offset, 10, 1) << 21);
    let low = (bits(offset, 11, 11) << 20) + (bits(offset, 19, 12) << 12);
    high + low
}

/// The bits of the immediate of a format, at their places in the word.
pub fn immediate(format: Format, value: i64) -> u32
    requires { IsImmediate format value }
    ensures { result ≡ spec.immediate_of format value }
{
    match format {
        Format::U => unsigned(32, value),
        Format::J => jump_offset(unsigned(21, value)),
        Format::I => unsigned(12, value) << 20,
        Format::B => branch_offset(unsigned(13, value)),
        Format::S => store_offset(unsigned(12, value)),
        Format::R | Format::Whole => 0,
        Format::Shift => unsigned(6, value) << 20,
        Format::WordShift => unsigned(5, value) << 20,
        Format::Atomic | Format::LoadReserved => unsigned(2, value) << 25,
    }
}
