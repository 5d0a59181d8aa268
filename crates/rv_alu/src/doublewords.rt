//! Operations on 64 bits that take more than one step.
ghost use Rattle.std.specs.Prelude.{◌≡◌, pos, ◌*ℤ◌};
ghost use Rattle.std.specs.Int.{w64, cast_signed};
ghost use Rattle.rv_alu.specs.Atomic.{updated};
ghost use Rattle.rv_alu.specs.Operations.{shift_right_signed, upper_half, quotient, remainder, signed_quotient, signed_remainder};

use zs_num::AmoOp;

/// A number shifted right by the low six bits of `places`, with copies of the sign.
pub fn shift_right_signed(number: u64, places: u64) -> u64
    ensures { result ≡ shift_right_signed w64 number places }
{
    (number.cast_signed() >> (places % 64)).cast_unsigned()
}

/// The upper 64 bits of a product of 128 bits.
fn upper_half(product: i128) -> u64
    ensures { result ≡ upper_half product }
{
    ((product >> 64) as i64).cast_unsigned()
}

/// The upper half of the product of two signed numbers.
pub fn multiply_high(first: u64, second: u64) -> u64
    ensures { result ≡ upper_half (cast_signed w64 first *ℤ cast_signed w64 second) }
{
    upper_half(i128::from(first.cast_signed()) * i128::from(second.cast_signed()))
}

/// The upper half of the product of a signed and an unsigned number.
pub fn multiply_high_mixed(first: u64, second: u64) -> u64
    ensures { result ≡ upper_half (cast_signed w64 first *ℤ pos second) }
{
    upper_half(i128::from(first.cast_signed()) * i128::from(second))
}

/// The upper half of the product of two unsigned numbers.
pub fn multiply_high_unsigned(first: u64, second: u64) -> u64
    ensures { result ≡ upper_half (pos first *ℤ pos second) }
{
    ((u128::from(first) * u128::from(second)) >> 64) as u64
}

/// The signed quotient, rounded toward zero.
pub fn divide(dividend: u64, divisor: u64) -> u64
    ensures { result ≡ signed_quotient w64 dividend divisor }
{
    if divisor == 0 {
        return u64::MAX;
    }
    dividend
        .cast_signed()
        .wrapping_div(divisor.cast_signed())
        .cast_unsigned()
}

/// The unsigned quotient.
pub fn divide_unsigned(dividend: u64, divisor: u64) -> u64
    ensures { result ≡ quotient w64 dividend divisor }
{
    if divisor == 0 {
        u64::MAX
    } else {
        dividend / divisor
    }
}

/// The remainder of `divide`.
pub fn remainder(dividend: u64, divisor: u64) -> u64
    ensures { result ≡ signed_remainder w64 dividend divisor }
{
    if divisor == 0 {
        return dividend;
    }
    dividend
        .cast_signed()
        .wrapping_rem(divisor.cast_signed())
        .cast_unsigned()
}

/// The remainder of `divide_unsigned`.
pub fn remainder_unsigned(dividend: u64, divisor: u64) -> u64
    ensures { result ≡ remainder w64 dividend divisor }
{
    if divisor == 0 {
        dividend
    } else {
        dividend % divisor
    }
}

/// The new number of an atomic read-modify-write, where `old` was.
pub fn update(op: AmoOp, old: u64, value: u64) -> u64
    ensures { result ≡ updated w64 op old value }
{
    match op {
        AmoOp::Swap => value,
        AmoOp::Add => old.wrapping_add(value),
        AmoOp::Xor => old ^ value,
        AmoOp::And => old & value,
        AmoOp::Or => old | value,
        AmoOp::Min => old.cast_signed().min(value.cast_signed()).cast_unsigned(),
        AmoOp::Max => old.cast_signed().max(value.cast_signed()).cast_unsigned(),
        AmoOp::Minu => old.min(value),
        AmoOp::Maxu => old.max(value),
    }
}
