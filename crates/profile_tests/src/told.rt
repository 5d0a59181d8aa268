//! Which bytes of their lines the accesses of small programs use, and which jumps they make: each told
//! by one replay, to two tracers at once.
ghost use Rattle.machine_desc.specs.Machine.{IsMachine};

use crate::given::{fetching, loaded, plain, schedule_of, two_cores};
use last_jumps::{Jump, LastJumps};
use line_use::LineUse;
use machine_desc::Machine;
use std::process::Abort;
use trace::trace;
use tracers::Both;

/// What both were told of a program of these words under a schedule with these turns, which are all
/// in one interval.
fn told_of(
    rt: &(impl Abort + AllocGlobal),
    machine: &Machine,
    words: &[u32],
    turns: &[u16],
) -> Both<LineUse, LastJumps>
    requires { IsMachine machine.now }
{
    let image = loaded(rt, machine, words);
    let schedule = schedule_of(rt, machine.cores, turns, 10);
    let mut both = Both::new(
        LineUse::new(rt.alloc()),
        LastJumps::new(rt.alloc(), machine.cores),
    );
    trace(rt.alloc(), machine, &image, &schedule, &mut both).expect(rt, "a legal schedule");
    assert!(rt; both.is_whole());
    both
}

/// Checks which bytes of a line a core read, and which it wrote.
fn uses(
    rt: &impl Abort,
    both: &Both<LineUse, LastJumps>,
    core: u16,
    line: u64,
    read: u64,
    written: u64,
) {
    assert!(rt; both.first().read(core, line) == read);
    assert!(rt; both.first().written(core, line) == written);
}

/// lui x5, 17; lw x6, 4(x5); sb x6, 63(x5); addi x7, x5, 16; amoadd.w x6, x6, (x7);
/// addi x8, x5, 32; lr.d x6, (x8); sc.d x9, x6, (x8); addi x8, x5, 40; sc.w x9, x6, (x8);
/// addi x17, x0, 93; ecall: the last store-conditional fails.
static KINDS: [u32; 12] = [
    0x0001_12B7,
    0x0042_A303,
    0x0262_8FA3,
    0x0102_8393,
    0x0063_A32F,
    0x0202_8413,
    0x1004_332F,
    0x1864_34AF,
    0x0282_8413,
    0x1864_24AF,
    0x05D0_0893,
    0x0000_0073,
];

#[test]
fn each_kind_of_access_uses_its_bytes(rt: HostRuntime) {
    let both = told_of(&rt, &plain(&rt), &KINDS, &[0; 6]);
    uses(
        &rt,
        &both,
        0,
        0x440,
        0x0000_00FF_000F_00F0,
        0x8000_0FFF_000F_0000,
    );
    uses(&rt, &both, 0, 0x441, 0, 0);
    uses(&rt, &both, 1, 0x440, 0, 0);
}

/// lui x5, 17; ld x6, 60(x5); addi x17, x0, 93; ecall
static ACROSS: [u32; 4] = [0x0001_12B7, 0x03C2_B303, 0x05D0_0893, 0x0000_0073];

#[test]
fn a_load_across_lines_reads_bytes_of_both(rt: HostRuntime) {
    let both = told_of(&rt, &plain(&rt), &ACROSS, &[0, 0]);
    uses(&rt, &both, 0, 0x440, 0xF000_0000_0000_0000, 0);
    uses(&rt, &both, 0, 0x441, 0xF, 0);
}

/// lui x5, 17; beq x10, x0, 12; sd x0, 0(x5); jal x0, 12; ld x6, 0(x5); ld x6, 0(x5);
/// addi x17, x0, 93; ecall: core 0 loads twice, and core 1 stores.
static SHARED: [u32; 8] = [
    0x0001_12B7,
    0x0005_0663,
    0x0002_B023,
    0x00C0_006F,
    0x0002_B303,
    0x0002_B303,
    0x05D0_0893,
    0x0000_0073,
];

#[test]
fn each_core_has_its_own_bytes_and_jumps(rt: HostRuntime) {
    let both = told_of(&rt, &two_cores(&rt), &SHARED, &[0, 1, 0]);
    uses(&rt, &both, 0, 0x440, 0xFF, 0);
    uses(&rt, &both, 1, 0x440, 0, 0xFF);
    jumps(&rt, &both, 0, None, &[(0x1_0004, 0x1_0010)]);
    jumps(&rt, &both, 1, None, &[(0x1_000C, 0x1_0018)]);
}

/// addi x17, x0, 93; ecall
static NO_DATA: [u32; 2] = [0x05D0_0893, 0x0000_0073];

#[test]
fn a_fetch_uses_no_byte(rt: HostRuntime) {
    let both = told_of(&rt, &fetching(&rt), &NO_DATA, &[0]);
    uses(&rt, &both, 0, 0x400, 0, 0);
}

/// Checks the last jumps of a core that is to go on at `next`.
fn jumps(
    rt: &(impl Abort + AllocGlobal),
    both: &Both<LineUse, LastJumps>,
    core: u16,
    next: Option<u64>,
    wanted: &[(u64, u64)],
) {
    let found = both
        .second()
        .jumps(rt.alloc(), core, next)
        .expect(rt, "memory");
    assert!(rt; found.len() == wanted.len());
    for (Jump { from, to }, (wanted_from, wanted_to)) in found.iter().zip(wanted) {
        assert!(rt; *from == *wanted_from && *to == *wanted_to);
    }
}

/// ld x5, -8(x2); addi x5, x0, 20; addi x5, x5, -1; bne x5, x0, -4; jal x0, 8; addi x0, x0, 0;
/// addi x17, x0, 93; ecall: 19 turns of the loop jump back.
static LOOP: [u32; 8] = [
    0xFF81_3283,
    0x0140_0293,
    0xFFF2_8293,
    0xFE02_9EE3,
    0x0080_006F,
    0x0000_0013,
    0x05D0_0893,
    0x0000_0073,
];

const BACK: (u64, u64) = (0x1_000C, 0x1_0008);

const ON: (u64, u64) = (0x1_0010, 0x1_0018);

static LAST_OF_LOOP: [(u64, u64); 16] = [
    BACK, BACK, BACK, BACK, BACK, BACK, BACK, BACK, BACK, BACK, BACK, BACK, BACK, BACK, BACK, ON,
];

#[test]
fn a_loop_leaves_its_last_16_jumps(rt: HostRuntime) {
    let both = told_of(&rt, &plain(&rt), &LOOP, &[0]);
    jumps(&rt, &both, 0, None, &LAST_OF_LOOP);
}

/// ld x5, -8(x2); addi x17, x0, 93; ecall
static ON_STACK: [u32; 3] = [0xFF81_3283, 0x05D0_0893, 0x0000_0073];

#[test]
fn a_core_that_exits_without_a_jump_has_none(rt: HostRuntime) {
    let both = told_of(&rt, &plain(&rt), &ON_STACK, &[0]);
    jumps(&rt, &both, 0, None, &[]);
    jumps(&rt, &both, 1, Some(0x1_0000), &[]);
}

/// ld x5, -8(x2); jalr x0, 8(x0): there is no instruction at 8.
static OUT: [u32; 2] = [0xFF81_3283, 0x0080_0067];

#[test]
fn a_jump_to_where_the_core_halted_is_the_last_one(rt: HostRuntime) {
    let both = told_of(&rt, &plain(&rt), &OUT, &[0]);
    jumps(&rt, &both, 0, Some(8), &[(0x1_0004, 8)]);
    jumps(&rt, &both, 0, Some(0x1_0008), &[]);
}
