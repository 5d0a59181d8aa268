//! The program of a number, as a list of instructions.
ghost use Rattle.std.specs.Prelude.{◌≡◌};
ghost use Rattle.gen_prog.specs.Generated.{iterations, mask, program};

use crate::assembly::{
    branch_by, jump_by, registers, store_at, upper, with_immediate, without_operands,
};
use rv_decode::{Inst, Name};

/// The offset of the last doubleword of the table, which has 16 to 256 of them.
pub fn mask(number: u64) -> u16
    ensures { result ≡ mask number }
{
    8 * ((1 << (4 + number % 5)) - 1)
}

/// How many iterations each core makes: 100 to 10,000.
pub fn iterations(number: u64) -> u64
    ensures { result ≡ iterations number }
{
    100 + number % 9901
}

/// The program, with the offset of the table's last doubleword. At its start a core has its number
/// in x10; x5 is the address of the data, x6 the number that was drawn last, x7 how many iterations
/// are left, and x8 an address.
pub fn program(mask: u16) -> [Inst; 28]
    ensures { result ≡ program mask }
{
    [
        upper(Name::Auipc, 5, 1),
        with_immediate(Name::Ld, 6, 5, 0),
        with_immediate(Name::Ld, 7, 5, 8),
        registers(Name::Add, 6, 6, 10),
        with_immediate(Name::Ori, 6, 6, 1),
        with_immediate(Name::Addi, 9, 0, 1),
        // An iteration: the next number.
        with_immediate(Name::Slli, 8, 6, 13),
        registers(Name::Xor, 6, 6, 8),
        with_immediate(Name::Srli, 8, 6, 7),
        registers(Name::Xor, 6, 6, 8),
        with_immediate(Name::Slli, 8, 6, 17),
        registers(Name::Xor, 6, 6, 8),
        // An address in the table.
        with_immediate(Name::Srli, 8, 6, 8),
        with_immediate(Name::Andi, 8, 8, i64::from(mask)),
        registers(Name::Add, 8, 8, 5),
        with_immediate(Name::Addi, 8, 8, 64),
        // An access by the last two bits: 1 adds, 0 stores, 2 and 3 load.
        with_immediate(Name::Andi, 11, 6, 3),
        branch_by(Name::Beq, 11, 0, 16),
        branch_by(Name::Bne, 11, 9, 20),
        registers(Name::AmoaddD, 12, 8, 9),
        jump_by(Name::Jal, 0, 16),
        store_at(Name::Sd, 6, 8, 0),
        jump_by(Name::Jal, 0, 8),
        with_immediate(Name::Ld, 12, 8, 0),
        // The next iteration.
        with_immediate(Name::Addi, 7, 7, -1),
        branch_by(Name::Bne, 7, 0, -76),
        // The exit.
        with_immediate(Name::Addi, 17, 0, 93),
        without_operands(Name::Ecall),
    ]
}
