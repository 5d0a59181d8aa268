//! Whole instructions and small programs, with numbers from the RISC-V Unprivileged ISA manual and
//! its table of opcodes.
ghost use Rattle.std.specs.Prelude.{◌<◌, IsSome};

use crate::checks::is_number;
use crate::executables::{BASE, SIZE, file_of};
use crate::images::{decoded, read};
use elf_load::Image;
use rv_blocks::DecodedProgram;
use rv_core::{Ask, Core, Program, Single, Why};
use std::process::Abort;
use zs_num::{AmoOp, Request};

/// addi a7, x0, 93
const EXIT: u32 = 0x05d0_0893;

const ECALL: u32 = 0x73;

/// The image of a program of these words.
pub(crate) fn image(rt: &(impl Abort + AllocGlobal), words: &[u32]) -> Image {
    read(rt, &file_of(rt, words))
}

/// The one core of a machine, before its first instruction.
fn core() -> Core {
    Core::new(0, 1, BASE, BASE + SIZE, BASE, SIZE, false)
}

/// What the core asks for next.
pub(crate) fn next<P: Program>(core: &mut Core, program: &P) -> Ask {
    core.next(program)
}

/// The number in a register.
fn register(core: &Core, number: u8) -> u64
    requires { number < 32 }
{
    core.reg(number)
}

/// Answers the access that the core waits for.
fn answer(core: &mut Core, number: u64) -> Option<u8>
    requires { IsSome core.old.instruction }
{
    core.answer(number)
}

/// Answers the access that the core asked for.
pub(crate) fn reply(rt: &impl Abort, core: &mut Core, number: u64) -> Option<u8> {
    assert!(rt; core.request().is_some());
    answer(core, number)
}

/// Checks what a core asks for.
pub(crate) fn is_ask(rt: &impl Abort, found: Ask, wanted: Ask) {
    assert!(rt; found == wanted);
}

/// The address of the fetch at which a core halted.
fn fetch_of(core: &Core) -> Option<u64> {
    match core.halted() {
        Some(Why::Fetch { addr }) => Some(addr),
        _ => None,
    }
}

/// Checks the number in a register, and pc.
fn is_at(rt: &impl Abort, core: &Core, index: u8, number: u64, pc: u64) {
    assert!(rt; index < 32);
    is_number(rt, u64::from(index), register(core, index), number);
    is_number(rt, u64::from(index), core.pc(), pc);
}

/// What the first instruction that is not local asks for.
pub(crate) fn first_ask(core: &mut Core, image: &Image) -> Ask {
    for _ in 0..1000 {
        match next(core, image) {
            Ask::Local => {}
            other => return other,
        }
    }
    Ask::Local
}

/// Checks what a program of these words asks for first.
fn asks(rt: &(impl Abort + AllocGlobal), words: &[u32], wanted: Ask) {
    is_ask(rt, first_ask(&mut core(), &image(rt, words)), wanted);
}

/// An access that a core asks for, what it is answered, a register with the number that it then
/// has, and pc.
pub(crate) type Access = (Request, u64, u8, u64, u64);

/// Checks an access of a core, and answers it.
pub(crate) fn is_asked(rt: &impl Abort, core: &mut Core, image: &Image, access: &Access) {
    is_ask(rt, first_ask(core, image), Ask::Access(access.0));
    assert!(rt; reply(rt, core, access.1).is_none());
    is_at(rt, core, access.2, access.3, access.4);
}

/// Checks the accesses of a core, and answers them. The last ends its instruction.
fn are_asked(rt: &impl Abort, core: &mut Core, image: &Image, accesses: &[Access]) {
    for access in accesses {
        is_asked(rt, core, image, access);
    }
    assert!(rt; !core.in_progress());
}

/// Checks the accesses of a program of these words.
fn accesses(rt: &(impl Abort + AllocGlobal), words: &[u32], accesses: &[Access]) {
    are_asked(rt, &mut core(), &image(rt, words), accesses);
}

#[test]
fn words_that_are_no_instructions_halt(rt: HostRuntime) {
    for word in [0, 0x0200_101b, 0x0000_100f, 0x0000_1073] {
        asks(&rt, &[word], Ask::Halted(Why::Illegal { word }));
    }
}

/// Checks that a core halts so, is then at the base with nothing in x5, and stays halted.
fn stays_halted(rt: &impl Abort, core: &mut Core, image: &Image, halted: Ask) {
    is_ask(rt, next(core, image), halted);
    is_at(rt, core, 5, 0, BASE);
    is_ask(rt, next(core, image), halted);
}

#[test]
fn a_misaligned_jump_halts_and_writes_nothing(rt: HostRuntime) {
    let halted = Ask::Halted(Why::Misaligned { target: 2 });
    // jalr x5, 2(x0)
    stays_halted(&rt, &mut core(), &image(&rt, &[0x0020_02e7]), halted);
    // jalr x0, 2(x0)
    asks(&rt, &[0x0020_0067], halted);
    // beq x0, x0, 6
    asks(
        &rt,
        &[0x0000_0363],
        Ask::Halted(Why::Misaligned { target: BASE + 6 }),
    );
    // bne x0, x0, 6; ebreak
    asks(&rt, &[0x0000_1363, 0x0010_0073], Ask::Halted(Why::Break));
}

#[test]
fn a_jump_out_of_the_program_halts_at_the_fetch(rt: HostRuntime) {
    // jalr x0, 0(x0)
    asks(&rt, &[0x0000_0067], Ask::Halted(Why::Fetch { addr: 0 }));
    // fence, and then past the end
    asks(
        &rt,
        &[0x0ff0_000f],
        Ask::Halted(Why::Fetch { addr: BASE + 4 }),
    );
}

/// Checks that a core jumps over the word that is no instruction, and has the address behind the
/// jump in x5.
fn jumps(rt: &impl Abort, core: &mut Core, image: &Image) {
    is_ask(rt, first_ask(core, image), Ask::Halted(Why::Break));
    is_at(rt, core, 0, 0, BASE + 16);
    is_at(rt, core, 5, BASE + 8, BASE + 16);
}

#[test]
fn a_register_jump_goes_by_the_old_register_with_its_lowest_bit_cleared(rt: HostRuntime) {
    // lui x5, 0x10; jalr x5, 13(x5); a word that is no instruction; addi x0, x0, 5; ebreak
    let words = [0x0001_02b7, 0x00d2_82e7, 0, 0x0050_0013, 0x0010_0073];
    jumps(&rt, &mut core(), &image(&rt, &words));
}

#[test]
fn an_access_that_is_not_all_in_memory_halts_at_its_own_address(rt: HostRuntime) {
    // ld x5, 0(x0)
    asks(&rt, &[0x0000_3283], Ask::Halted(Why::Access { addr: 0 }));
    // lui x6, 0x110; ld x5, -4(x6): memory ends, and with it a line, at 0x110000
    let halted = Ask::Halted(Why::Access { addr: 0x10_fffc });
    asks(&rt, &[0x0011_0337, 0xffc3_3283], halted);
    // lui x6, 0x110; ld x5, -8(x6)
    let last = Request::Load {
        addr: 0x10_fff8,
        width: 8,
    };
    asks(&rt, &[0x0011_0337, 0xff83_3283], Ask::Access(last));
}

#[test]
fn an_atomic_is_tested_for_alignment_before_memory(rt: HostRuntime) {
    let halted = Ask::Halted(Why::AtomicAlign { addr: 1 });
    // lr.d x5, (x11), where a1 is the number of cores
    asks(&rt, &[0x1005_b2af], halted);
    // amoadd.w x5, x7, (x11)
    asks(&rt, &[0x0075_a2af], halted);
    // lr.w x5, (x6), where x6 is 0
    asks(&rt, &[0x1003_22af], Ask::Halted(Why::Access { addr: 0 }));
}

#[test]
fn a_load_that_crosses_a_line_joins_two_accesses(rt: HostRuntime) {
    // lui x6, 0x11; ld x5, 60(x6)
    accesses(&rt, &[0x0001_1337, 0x03c3_3283], &CROSSING_LOAD);
}

static CROSSING_LOAD: [Access; 2] = [
    (
        Request::Load {
            addr: 0x1_103c,
            width: 4,
        },
        0x0403_0201,
        5,
        0,
        BASE + 4,
    ),
    (
        Request::Load {
            addr: 0x1_1040,
            width: 4,
        },
        0x0807_0605,
        5,
        0x0807_0605_0403_0201,
        BASE + 8,
    ),
];

#[test]
fn a_store_that_crosses_a_line_stores_the_lower_bytes_in_the_lower_line(rt: HostRuntime) {
    // lui x6, 0x11; lui x5, 0x12345; sw x5, 63(x6)
    accesses(
        &rt,
        &[0x0001_1337, 0x1234_52b7, 0x0253_2fa3],
        &CROSSING_STORE,
    );
}

static CROSSING_STORE: [Access; 2] = [
    (
        Request::Store {
            addr: 0x1_103f,
            width: 1,
            value: 0,
        },
        0,
        5,
        0x1234_5000,
        BASE + 8,
    ),
    (
        Request::Store {
            addr: 0x1_1040,
            width: 3,
            value: 0x12_3450,
        },
        0,
        5,
        0x1234_5000,
        BASE + 12,
    ),
];

#[test]
fn loads_extend_by_their_sign_or_by_zeros(rt: HostRuntime) {
    for &(word, width, number, loaded) in &LOADS {
        let load = Request::Load {
            addr: 0x1_1000,
            width,
        };
        // lui x6, 0x11, and the load
        accesses(
            &rt,
            &[0x0001_1337, word],
            &[(load, number, 5, loaded, BASE + 8)],
        );
    }
}

/// Loads of x5 from x6, of so many bytes, what is in memory, and what x5 gets.
static LOADS: [(u32, u8, u64, u64); 9] = [
    (0x0003_0283, 1, 0x80, 0xffff_ffff_ffff_ff80),
    (0x0003_0283, 1, 0x7f, 0x7f),
    (0x0003_4283, 1, 0x80, 0x80),
    (0x0003_1283, 2, 0x8000, 0xffff_ffff_ffff_8000),
    (0x0003_5283, 2, 0x8000, 0x8000),
    (0x0003_2283, 4, 0x8000_0000, 0xffff_ffff_8000_0000),
    (0x0003_2283, 4, 0x7fff_ffff, 0x7fff_ffff),
    (0x0003_6283, 4, 0x8000_0000, 0x8000_0000),
    (0x0003_3283, 8, 0x8000_0000_0000_0000, 0x8000_0000_0000_0000),
];

#[test]
fn a_store_conditional_is_paired_with_the_latest_load_reserved(rt: HostRuntime) {
    // lui x6, 0x11; addi x5, x0, -1; lr.w x8, (x6); sc.d x7, x5, (x6); lr.w x8, (x6);
    // sc.w x7, x5, (x6); sc.w x7, x5, (x6)
    let words = [
        0x0001_1337,
        0xfff0_0293,
        0x1003_242f,
        0x1853_33af,
        0x1003_242f,
        0x1853_23af,
        0x1853_23af,
    ];
    accesses(&rt, &words, &CONDITIONALS);
}

const RESERVE: Request = Request::Lr {
    addr: 0x1_1000,
    width: 4,
};

/// A store-conditional of a doubleword, which is not paired.
const OTHER: Request = Request::Sc {
    addr: 0x1_1000,
    width: 8,
    value: u64::MAX,
    paired: false,
};

const PAIRED: Request = Request::Sc {
    addr: 0x1_1000,
    width: 4,
    value: 0xffff_ffff,
    paired: true,
};

/// The same store-conditional once more.
const AGAIN: Request = Request::Sc {
    addr: 0x1_1000,
    width: 4,
    value: 0xffff_ffff,
    paired: false,
};

static CONDITIONALS: [Access; 5] = [
    (RESERVE, 0x8000_0000, 8, 0xffff_ffff_8000_0000, BASE + 12),
    (OTHER, 1, 7, 1, BASE + 16),
    (RESERVE, 0, 8, 0, BASE + 20),
    (PAIRED, 0, 7, 0, BASE + 24),
    (AGAIN, 1, 7, 1, BASE + 28),
];

#[test]
fn an_atomic_update_gives_the_old_number(rt: HostRuntime) {
    // lui x6, 0x11; addi x7, x0, -1; amoadd.w x5, x7, (x6); amoswap.d x5, x7, (x6)
    let words = [0x0001_1337, 0xfff0_0393, 0x0073_22af, 0x0873_32af];
    accesses(&rt, &words, &UPDATES);
}

static UPDATES: [Access; 2] = [
    (
        Request::Amo {
            op: AmoOp::Add,
            addr: 0x1_1000,
            width: 4,
            value: 0xffff_ffff,
        },
        0xffff_fffe,
        5,
        u64::MAX - 1,
        BASE + 12,
    ),
    (
        Request::Amo {
            op: AmoOp::Swap,
            addr: 0x1_1000,
            width: 8,
            value: u64::MAX,
        },
        0xffff_fffe,
        5,
        0xffff_fffe,
        BASE + 16,
    ),
];

static LETTERS: [u8; 3] = [b'h', b'e', b'y'];

/// The letter of "hey" at a place, where it stands again and again.
fn letter_of(place: u64) -> u8 {
    LETTERS[(place % 3) as usize]
}

/// Checks that a core asks for a byte for the console, and answers the letters of "hey" in turn.
fn give_letter(rt: &impl Abort, core: &mut Core, ask: Ask, bytes: u64) {
    let addr = BASE.wrapping_add(bytes);
    is_ask(rt, ask, Ask::Access(Request::Load { addr, width: 1 }));
    let letter = letter_of(bytes);
    assert!(rt; reply(rt, core, u64::from(letter)) == Some(letter));
}

/// The number with which a program ends.
fn exit_of(ask: Ask) -> Option<u64> {
    match ask {
        Ask::Halted(Why::Exit(number)) => Some(number),
        _ => None,
    }
}

/// What a core gives in a0 in the end, where memory has the letters of "hey" from the base on again
/// and again, and how many bytes reach the console.
fn written(rt: &impl Abort, core: &mut Core, image: &Image) -> (u64, u64) {
    for bytes in 0..300 {
        let ask = first_ask(core, image);
        if let Some(a0) = exit_of(ask) {
            return (a0, bytes);
        }
        give_letter(rt, core, ask, bytes);
    }
    panic!(rt; "no halt")
}

/// What a call gives in a0, and how many bytes reach the console.
fn write(rt: &(impl Abort + AllocGlobal), call: [u32; 4]) -> (u64, u64) {
    // addi a7, x0, 64, the arguments, ecall, and then exit with a0
    let [number, file, addr, count] = call;
    let image = image(rt, &[number, file, addr, count, ECALL, EXIT, ECALL]);
    written(rt, &mut core(), &image)
}

#[test]
fn a_write_call_gives_its_count_or_a_linux_error(rt: HostRuntime) {
    for &(call, a0, bytes) in &CALLS {
        assert!(rt; write(&rt, call) == (a0, bytes));
    }
}

/// Instructions that set a7, a0, a1 and a2 before a call, and what it gives in a0 and on the
/// console.
static CALLS: [([u32; 4], u64, u64); 10] = [
    // write of 3 bytes from the base on, to the standard output and to the standard error
    ([0x0400_0893, 0x0010_0513, 0x0001_05b7, 0x0030_0613], 3, 3),
    ([0x0400_0893, 0x0020_0513, 0x0001_05b7, 0x0030_0613], 3, 3),
    // of 0 bytes, from address 0 and from address -1 too
    ([0x0400_0893, 0x0010_0513, 0x0001_05b7, 0x0000_0613], 0, 0),
    ([0x0400_0893, 0x0010_0513, 0x0000_0593, 0x0000_0613], 0, 0),
    ([0x0400_0893, 0x0010_0513, 0xfff0_0593, 0x0000_0613], 0, 0),
    // of 257 bytes
    (
        [0x0400_0893, 0x0010_0513, 0x0001_05b7, 0x1010_0613],
        256,
        256,
    ),
    // from address 0, from address -1, to another file, and another call
    (
        [0x0400_0893, 0x0010_0513, 0x0000_0593, 0x0050_0613],
        18446744073709551602,
        0,
    ),
    (
        [0x0400_0893, 0x0010_0513, 0xfff0_0593, 0x0030_0613],
        18446744073709551602,
        0,
    ),
    (
        [0x0400_0893, 0x0030_0513, 0x0001_05b7, 0x0030_0613],
        18446744073709551578,
        0,
    ),
    (
        [0x3e70_0893, 0x0010_0513, 0x0001_05b7, 0x0030_0613],
        18446744073709551578,
        0,
    ),
];

#[test]
fn a_core_begins_with_its_number_the_number_of_cores_and_its_stack(rt: HostRuntime) {
    let core = Core::new(3, 4, 0x1_0078, 0x10_d000, BASE, SIZE, false);
    assert!(rt; core.halted().is_none() && !core.in_progress());
    for n in 0..32 {
        let number = match n {
            2 => 0x10_d000,
            10 => 3,
            11 => 4,
            _ => 0,
        };
        is_at(&rt, &core, n, number, 0x1_0078);
    }
}

/// Checks that two cores ask for the same, and are then at the same pc with the same x5.
fn asks_the_same(
    rt: &impl Abort,
    once: &mut Core,
    program: &DecodedProgram,
    anew: &mut Core,
    image: &Image,
) {
    is_ask(rt, next(once, program), next(anew, image));
    is_at(rt, once, 5, register(anew, 5), anew.pc());
}

/// Checks that two cores do the same, the one with the program that is decoded once.
fn do_the_same(rt: &impl Abort, program: &DecodedProgram, image: &Image) {
    let (mut once, mut anew) = (core(), core());
    for _ in 0..12 {
        asks_the_same(rt, &mut once, program, &mut anew, image);
    }
    assert!(rt; fetch_of(&once) == Some(BASE + 24));
}

#[test]
fn a_program_decoded_once_is_the_same_program(rt: HostRuntime) {
    // addi x5, x0, 3; addi x5, x5, -1; bne x5, x0, -4; jal x0, 8; 0; and past the end
    let words = [
        0x0030_0293,
        0xfff2_8293,
        0xfe02_9ee3,
        0x0080_006f,
        0,
        0x0000_0013,
    ];
    let image = image(&rt, &words);
    do_the_same(&rt, &decoded(&rt, &image), &image);
}

/// The access that a core met, if it met one.
fn access_of(met: Option<Single>) -> Option<Request> {
    match met {
        Some(single) => Some(single.request()),
        None => None,
    }
}

/// Checks what a core at its start comes to by so many instructions at most, none of which makes an
/// access: how many it executes, its x5 and its pc.
fn comes_to(
    rt: &impl Abort,
    program: &DecodedProgram,
    most: u64,
    count: u64,
    number: u64,
    pc: u64,
) {
    let mut core = core();
    assert!(rt; core.is_free() && !core.is_fetched());
    let ran = core.run_blocks(program, most);
    assert!(rt; ran.count == count && ran.met.is_none());
    is_at(rt, &core, 5, number, pc);
}

#[test]
fn blocks_are_executed_as_far_as_they_fit(rt: HostRuntime) {
    // addi x5, x0, 3; addi x5, x5, -1; bne x5, x0, -4; jal x0, 8; 0; addi x0, x0, 0
    let words = [
        0x0030_0293,
        0xfff2_8293,
        0xfe02_9ee3,
        0x0080_006f,
        0,
        0x0000_0013,
    ];
    let image = image(&rt, &words);
    let program = decoded(&rt, &image);
    comes_to(&rt, &program, 0, 0, 0, BASE);
    comes_to(&rt, &program, 2, 2, 2, BASE + 8);
    comes_to(&rt, &program, 6, 6, 0, BASE + 8);
    comes_to(&rt, &program, 7, 7, 0, BASE + 12);
    comes_to(&rt, &program, 100, 9, 0, BASE + 24);
}

/// Checks which access a core meets at an instruction that stands behind `addi x5, x0, -1`, where
/// so many instructions may be executed. Of these two it executes the first.
fn meets(rt: &(impl Abort + AllocGlobal), word: u32, most: u64, met: Option<Request>) {
    let image = image(rt, &[0xfff0_0293, word]);
    let program = decoded(rt, &image);
    let mut core = core();
    assert!(rt; core.is_free() && !core.is_fetched());
    let ran = core.run_blocks(&program, most);
    assert!(rt; ran.count == 1 && access_of(ran.met) == met);
    is_at(rt, &core, 5, 0xffff_ffff_ffff_ffff, BASE + 4);
}

#[test]
fn loads_and_stores_within_a_line_are_met(rt: HostRuntime) {
    // lw x6, -4(x2), without a cycle for it and with one
    let load = Request::Load {
        addr: BASE + SIZE - 4,
        width: 4,
    };
    meets(&rt, 0xffc1_2303, 1, None);
    meets(&rt, 0xffc1_2303, 2, Some(load));
    // sb x5, -1(x2)
    let store = Request::Store {
        addr: BASE + SIZE - 1,
        width: 1,
        value: 255,
    };
    meets(&rt, 0xfe51_0fa3, 2, Some(store));
    // lw x6, -66(x2), over the end of a line, and lw x6, 0(x2), behind memory
    meets(&rt, 0xfbe1_2303, 2, None);
    meets(&rt, 0x0001_2303, 2, None);
}

#[test]
fn a_core_that_fetches_is_run_to_the_end_of_its_line(rt: HostRuntime) {
    // 18 times addi x5, x5, 1
    let image = image(&rt, &[0x0012_8293; 18]);
    let program = decoded(&rt, &image);
    let mut core = Core::new(0, 1, BASE, BASE + SIZE, BASE, SIZE, true);
    assert!(rt; core.is_free() && !core.is_fetched());
    assert!(rt; core.run_in_line(&program, 5).count == 5);
    assert!(rt; core.is_free() && !core.is_fetched());
    assert!(rt; core.run_in_line(&program, 100).count == 11);
    is_at(&rt, &core, 5, 16, BASE + 64);
}
