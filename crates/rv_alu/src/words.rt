//! Words of 32 bits: the low half of a register, and operations on it.
ghost use Rattle.std.specs.Prelude.{◌≡◌};
ghost use Rattle.std.specs.Int.{w32};
ghost use Rattle.rv_alu.specs.Atomic.{updated};
ghost use Rattle.rv_alu.specs.Operations.{shift_right_signed, quotient, remainder, signed_quotient, signed_remainder, low_word, sign_extended};

use zs_num::AmoOp;

/// The low 32 bits.
pub fn low(number: u64) -> u32
    ensures { result ≡ low_word number }
{
    (number % 0x1_0000_0000) as u32
}

/// A word, sign-extended to 64 bits.
pub fn sign_extend(word: u32) -> u64
    ensures { result ≡ sign_extended word }
{
    i64::from(word.cast_signed()).cast_unsigned()
}

/// A number shifted right by the low five bits of `places`, with copies of the sign.
pub fn shift_right_signed(number: u32, places: u32) -> u32
    ensures { result ≡ shift_right_signed w32 number places }
{
    (number.cast_signed() >> (places % 32)).cast_unsigned()
}

/// The signed quotient, rounded toward zero.
pub fn divide(dividend: u32, divisor: u32) -> u32
    ensures { result ≡ signed_quotient w32 dividend divisor }
{
    if divisor == 0 {
        return u32::MAX;
    }
    dividend
        .cast_signed()
        .wrapping_div(divisor.cast_signed())
        .cast_unsigned()
}

/// The unsigned quotient.
pub fn divide_unsigned(dividend: u32, divisor: u32) -> u32
    ensures { result ≡ quotient w32 dividend divisor }
{
    if divisor == 0 {
        u32::MAX
    } else {
        dividend / divisor
    }
}

/// The remainder of `divide`.
pub fn remainder(dividend: u32, divisor: u32) -> u32
    ensures { result ≡ signed_remainder w32 dividend divisor }
{
    if divisor == 0 {
        return dividend;
    }
    dividend
        .cast_signed()
        .wrapping_rem(divisor.cast_signed())
        .cast_unsigned()
}

/// The remainder of `divide_unsigned`.
pub fn remainder_unsigned(dividend: u32, divisor: u32) -> u32
    ensures { result ≡ remainder w32 dividend divisor }
{
    if divisor == 0 {
        dividend
    } else {
        dividend % divisor
    }
}

/// The new word of an atomic read-modify-write, where `old` was.
pub fn update(op: AmoOp, old: u32, value: u32) -> u32
    ensures { result ≡ updated w32 op old value }
{
    match op {
        AmoOp::Swap => value,
        AmoOp::Add => old.wrapping_add(value),
        AmoOp::Xor => old ^ value,
        AmoOp::And => old & value,
        AmoOp::Or => old | value,
        AmoOp::Min => old.cast_signed().min(value.cast_signed()).cast_unsigned(),
        AmoOp::Max => old.cast_signed().max(value.cast_signed()).cast_unsigned(),
        AmoOp::Minu => old.min(value),
        AmoOp::Maxu => old.max(value),
    }
}
