//! The new numbers of atomic read-modify-writes.
ghost use Rattle.std.specs.Prelude.{◌≡◌, ◌⊎◌, ◌^◌, ◌<◌};
ghost use Rattle.rv_alu.specs.Atomic.{new_number};

use crate::{doublewords, words};
use words::low;
use zs_num::AmoOp;

/// The number that an atomic read-modify-write leaves in memory, where `old` was and `value` is its
/// operand (RISC-V Unprivileged ISA manual, "Atomic Memory Operations"). Of both numbers the low
/// `width` bytes count.
#[tactic(auto, unfolding(crate::specs::Atomic::new_number))]
pub fn amo(op: AmoOp, width: u8, old: u64, value: u64) -> u64
    requires { (width ≡ 4) ⊎ (width ≡ 8) }
    ensures value { result ≡ new_number op width old value }
    ensures word { width ≡ 4 → result < 2 ^ 32 }
{
    if width == 4 {
        u64::from(words::update(op, low(old), low(value)))
    } else {
        doublewords::update(op, old, value)
    }
}
