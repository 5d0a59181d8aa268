//! The results of the register-immediate and register-register instructions.
ghost use Rattle.std.specs.Prelude.{◌≡◌, IsTrue};
ghost use Rattle.rv_alu.specs.Arithmetic.{result_of};
ghost use Rattle.rv_alu.specs.Computing.{is_arithmetic};

use crate::{doublewords, words};
use rv_decode::Name;
use words::{low, sign_extend};

/// Whether `alu` computes the instruction: it has opcode OP-IMM, OP-IMM-32, OP or OP-32.
pub fn is_arithmetic(name: Name) -> bool
    ensures { result ≡ is_arithmetic name }
{
    match name {
        Name::Addi | Name::Slti | Name::Sltiu | Name::Xori | Name::Ori | Name::Andi => true,
        Name::Slli | Name::Srli | Name::Srai => true,
        Name::Addiw | Name::Slliw | Name::Srliw | Name::Sraiw => true,
        Name::Add | Name::Sub | Name::Slt | Name::Sltu | Name::Xor | Name::Or | Name::And => true,
        Name::Sll | Name::Srl | Name::Sra => true,
        Name::Addw | Name::Subw | Name::Sllw | Name::Srlw | Name::Sraw => true,
        Name::Mul | Name::Mulh | Name::Mulhsu | Name::Mulhu => true,
        Name::Div | Name::Divu | Name::Rem | Name::Remu => true,
        Name::Mulw | Name::Divw | Name::Divuw | Name::Remw | Name::Remuw => true,
        _ => false,
    }
}

/// The number that an arithmetic instruction writes to its destination. `first` is the first source
/// register; `second` is the second, or the immediate in two's complement (RISC-V Unprivileged ISA
/// manual, "Integer Computational Instructions" and the "M" extension).
#[tactic(auto, unfolding(crate::specs::Arithmetic::result_of))]
pub fn alu(name: Name, first: u64, second: u64) -> u64
    requires { IsTrue (is_arithmetic name) }
    ensures { result ≡ result_of name first second }
{
    match name {
        Name::Addi | Name::Add => first.wrapping_add(second),
        Name::Sub => first.wrapping_sub(second),
        Name::Slti | Name::Slt => u64::from(first.cast_signed() < second.cast_signed()),
        Name::Sltiu | Name::Sltu => u64::from(first < second),
        Name::Xori | Name::Xor => first ^ second,
        Name::Ori | Name::Or => first | second,
        Name::Andi | Name::And => first & second,
        Name::Slli | Name::Sll => first << (second % 64),
        Name::Srli | Name::Srl => first >> (second % 64),
        Name::Srai | Name::Sra => doublewords::shift_right_signed(first, second),
        Name::Addiw | Name::Addw => sign_extend(low(first).wrapping_add(low(second))),
        Name::Subw => sign_extend(low(first).wrapping_sub(low(second))),
        Name::Slliw | Name::Sllw => sign_extend(low(first) << (low(second) % 32)),
        Name::Srliw | Name::Srlw => sign_extend(low(first) >> (low(second) % 32)),
        Name::Sraiw | Name::Sraw => sign_extend(words::shift_right_signed(low(first), low(second))),
        Name::Mul => first.wrapping_mul(second),
        Name::Mulh => doublewords::multiply_high(first, second),
        Name::Mulhsu => doublewords::multiply_high_mixed(first, second),
        Name::Mulhu => doublewords::multiply_high_unsigned(first, second),
        Name::Div => doublewords::divide(first, second),
        Name::Divu => doublewords::divide_unsigned(first, second),
        Name::Rem => doublewords::remainder(first, second),
        Name::Remu => doublewords::remainder_unsigned(first, second),
        Name::Mulw => sign_extend(low(first).wrapping_mul(low(second))),
        Name::Divw => sign_extend(words::divide(low(first), low(second))),
        Name::Divuw => sign_extend(words::divide_unsigned(low(first), low(second))),
        Name::Remw => sign_extend(words::remainder(low(first), low(second))),
        Name::Remuw => sign_extend(words::remainder_unsigned(low(first), low(second))),
        _ => unreachable!(),
    }
}
