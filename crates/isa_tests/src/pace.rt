//! Worked programs at the pace of a pipeline: the clock behind each instruction, by hand.
ghost use Rattle.std.specs.Prelude.{◌≡◌, ◌≤◌, ◌<◌, ◌^◌};
ghost use Rattle.pipe_core.specs.PaceLaws.{GoesOnFrom};

use crate::checks::is_number;
use machine_desc::Pipe;
use pipe_core::{Pace, laws};
use rv_decode::{Inst, Name};
use std::alloc::AllocGlobal;
use std::process::Abort;

/// An instruction with rd, rs1 and rs2, its address, whether it is taken, and the clock behind it.
type Row = (Name, u8, u8, u8, u64, bool, u64);

/// A product, which the sum behind it waits for.
static PRODUCT: [Row; 5] = [
    (Name::Addi, 5, 0, 0, 0x10000, false, 1),
    (Name::Mul, 6, 5, 5, 0x10004, false, 2),
    (Name::Add, 10, 6, 0, 0x10008, false, 5),
    (Name::Addi, 17, 0, 0, 0x1000C, false, 6),
    (Name::Ecall, 0, 0, 0, 0x10010, false, 7),
];

/// A loop of three turns: its branch is predicted wrongly in the first and in the last.
static LOOP: [Row; 9] = [
    (Name::Addi, 5, 0, 0, 0x10000, false, 1),
    (Name::Addi, 5, 5, 0, 0x10004, false, 2),
    (Name::Bne, 0, 5, 0, 0x10008, true, 7),
    (Name::Addi, 5, 5, 0, 0x10004, false, 8),
    (Name::Bne, 0, 5, 0, 0x10008, true, 9),
    (Name::Addi, 5, 5, 0, 0x10004, false, 10),
    (Name::Bne, 0, 5, 0, 0x10008, false, 15),
    (Name::Addi, 17, 0, 0, 0x1000C, false, 16),
    (Name::Ecall, 0, 0, 0, 0x10010, false, 17),
];

/// A quotient, for which a fence does not wait whatever its fields are, a jump to an address in a
/// register, a quotient that waits for its own destination, and a call that waits for it.
static OTHERS: [Row; 5] = [
    (Name::Div, 5, 6, 7, 0x10000, false, 1),
    (Name::Fence, 5, 5, 0, 0x10004, false, 2),
    (Name::Jalr, 1, 2, 0, 0x10008, true, 7),
    (Name::Div, 5, 6, 6, 0x1000C, false, 21),
    (Name::Ecall, 0, 0, 0, 0x10010, false, 41),
];

/// The pace at the start of each.
fn first(rt: &(impl Abort + AllocGlobal)) -> Pace
    ensures goes_on { GoesOnFrom 0 result }
    ensures entries { result.pipe.entries ≡ 16 }
{
    laws::issues_are_soon();
    let pipe = Pipe {
        mul: 3,
        div: 20,
        entries: 16,
        penalty: 4,
    };
    Pace::new(rt.alloc(), &pipe).expect(rt, "memory")
}

/// The clock behind an instruction.
fn behind(pace: &mut Pace, i: Inst, pc: u64, taken: bool, clock: u64) -> u64
    requires registers { (i.rd < 32) × (i.rs1 < 32) × (i.rs2 < 32) }
    requires goes_on { GoesOnFrom clock pace.old }
    requires small { clock ≤ 2 ^ 61 }
    ensures goes_on { GoesOnFrom result pace.new }
    ensures pipe { pace.new.pipe ≡ pace.old.pipe }
{
    laws::issues_are_soon();
    pace.issue(i, pc, taken, clock)
}

/// Checks the clock behind each instruction of a program. The answer is the pace behind it.
fn goes_through(rt: &(impl Abort + AllocGlobal), rows: &[Row]) -> Pace
    ensures { result.pipe.entries ≡ 16 }
{
    let mut pace = first(rt);
    let mut clock = 0;
    for &(name, rd, rs1, rs2, pc, taken, wanted) in rows {
        assert!(rt; rd < 32 && rs1 < 32 && rs2 < 32 && clock < 1000);
        let i = Inst {
            name,
            rd,
            rs1,
            rs2,
            imm: 0,
        };
        clock = behind(&mut pace, i, pc, taken, clock);
        is_number(rt, pc, clock, wanted);
    }
    pace
}

/// Checks from which cycle on a register is ready.
fn is_ready(rt: &impl Abort, pace: &Pace, register: u8, wanted: u64)
    requires { register < 32 }
{
    is_number(rt, u64::from(register), pace.ready(register), wanted);
}

/// Checks the counter at a place.
fn has_counted(rt: &impl Abort, pace: &Pace, place: u32, wanted: u8)
    requires { place < pace.now.pipe.entries }
{
    assert!(rt; pace.counter(place) == wanted);
}

#[test]
fn instructions_wait_for_registers_and_predictions(rt: HostRuntime) {
    goes_through(&rt, &PRODUCT);
    goes_through(&rt, &LOOP);
    goes_through(&rt, &OTHERS);
}

#[test]
fn a_product_is_ready_later_and_x0_always(rt: HostRuntime) {
    let pace = goes_through(&rt, &PRODUCT);
    is_ready(&rt, &pace, 6, 4);
    is_ready(&rt, &pace, 10, 5);
    is_ready(&rt, &pace, 0, 0);
}

#[test]
fn a_branch_moves_its_own_counter_alone(rt: HostRuntime) {
    let pace = goes_through(&rt, &LOOP);
    has_counted(&rt, &pace, 2, 2);
    has_counted(&rt, &pace, 1, 1);
    has_counted(&rt, &pace, 3, 1);
}
