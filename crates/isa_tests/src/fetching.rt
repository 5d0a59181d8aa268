//! Cores that fetch their instructions by accesses, a line of 64 bytes at a time.
use crate::executables::{BASE, SIZE};
use crate::images::decoded;
use crate::instructions::{Access, first_ask, image, is_ask, is_asked, next, reply};
use elf_load::Image;
use rv_blocks::DecodedProgram;
use rv_core::{Ask, Core, Why};
use std::process::Abort;
use zs_num::Request;

/// addi x0, x0, 0
const NOP: u32 = 0x13;

const EBREAK: u32 = 0x0010_0073;

/// The one core of a machine whose cores fetch, before its first instruction.
fn fetching() -> Core {
    Core::new(0, 1, BASE, BASE + SIZE, BASE, SIZE, true)
}

/// The fetch of an instruction. It changes no register and not pc.
fn fetch(addr: u64) -> Access {
    (Request::Fetch { addr }, 1, 5, 0, addr)
}

/// Checks the accesses of a core that fetches, with a program of these words, and what it asks for
/// behind them.
fn asks(rt: &(impl Abort + AllocGlobal), words: &[u32], accesses: &[Access], last: Ask) {
    let image = image(rt, words);
    let mut core = fetching();
    for access in accesses {
        is_asked(rt, &mut core, &image, access);
    }
    is_ask(rt, first_ask(&mut core, &image), last);
}

#[test]
fn a_load_comes_behind_the_fetch_of_its_line(rt: HostRuntime) {
    let load = Request::Load {
        addr: BASE + SIZE - 8,
        width: 8,
    };
    // ld x6, -8(x2), where x2 is the end of memory
    asks(
        &rt,
        &[0xff81_3303, EBREAK],
        &[fetch(BASE), (load, 7, 6, 7, BASE + 4)],
        Ask::Halted(Why::Break),
    );
}

/// Checks whether a core waits for a reply, and whether its instruction was fetched and is to be
/// executed. With either it is in progress.
fn is_at_work(rt: &impl Abort, core: &Core, waits: bool, fetched: bool) {
    assert!(rt; core.request().is_some() == waits);
    assert!(rt; core.is_fetched() == fetched);
    assert!(rt; core.in_progress() == (waits || fetched));
}

/// Checks that the instruction at an address is in progress from its fetch on, and then executed.
fn is_fetched_first(rt: &impl Abort, core: &mut Core, image: &Image, addr: u64) {
    is_at_work(rt, core, false, false);
    is_ask(rt, next(core, image), Ask::Access(Request::Fetch { addr }));
    is_at_work(rt, core, true, false);
    is_ask(rt, next(core, image), Ask::Access(Request::Fetch { addr }));
    assert!(rt; reply(rt, core, 1).is_none());
    is_at_work(rt, core, false, true);
    is_ask(rt, next(core, image), Ask::Local);
    is_at_work(rt, core, false, false);
}

#[test]
fn an_instruction_is_in_progress_from_its_fetch_on(rt: HostRuntime) {
    is_fetched_first(&rt, &mut fetching(), &image(&rt, &[NOP]), BASE);
}

#[test]
fn each_other_line_is_fetched_anew(rt: HostRuntime) {
    let mut words = [NOP; 17];
    // jal x0, -64
    words[16] = 0xfc1f_f06f;
    let next = Request::Fetch { addr: BASE + 64 };
    asks(
        &rt,
        &words,
        &[fetch(BASE), fetch(BASE + 64), fetch(BASE)],
        Ask::Access(next),
    );
}

#[test]
fn a_line_is_fetched_at_the_address_of_the_instruction(rt: HostRuntime) {
    let mut words = [NOP; 18];
    // jal x0, 68
    words[0] = 0x0440_006f;
    words[17] = EBREAK;
    asks(
        &rt,
        &words,
        &[fetch(BASE), fetch(BASE + 68)],
        Ask::Halted(Why::Break),
    );
}

#[test]
fn a_word_that_is_no_instruction_halts_behind_its_fetch(rt: HostRuntime) {
    let halted = Ask::Halted(Why::Illegal { word: 0 });
    asks(&rt, &[0], &[fetch(BASE)], halted);
}

#[test]
fn a_misaligned_jump_fetches_itself_alone(rt: HostRuntime) {
    let halted = Ask::Halted(Why::Misaligned { target: 2 });
    // jalr x0, 2(x0)
    asks(&rt, &[0x0020_0067], &[fetch(BASE)], halted);
}

#[test]
fn past_the_program_nothing_is_fetched(rt: HostRuntime) {
    let halted = Ask::Halted(Why::Fetch { addr: BASE + 64 });
    asks(&rt, &[NOP; 16], &[fetch(BASE)], halted);
}

#[test]
fn a_pairing_lasts_across_a_fetch(rt: HostRuntime) {
    let addr = BASE + SIZE - 8;
    let reserve = Request::Lr { addr, width: 8 };
    let store = Request::Sc {
        addr,
        width: 8,
        value: 0,
        paired: true,
    };
    let mut words = [NOP; 18];
    // addi x6, x2, -8; lr.d x7, (x6); and in the next line sc.d x7, x0, (x6); ebreak
    words[14] = 0xff81_0313;
    words[15] = 0x1003_33af;
    words[16] = 0x1803_33af;
    words[17] = EBREAK;
    let accesses = [
        fetch(BASE),
        (reserve, 9, 7, 9, BASE + 64),
        fetch(BASE + 64),
        (store, 0, 7, 0, BASE + 68),
    ];
    asks(&rt, &words, &accesses, Ask::Halted(Why::Break));
}

/// Checks that two cores ask for the same, and answers them.
fn asks_the_same(
    rt: &impl Abort,
    once: &mut Core,
    program: &DecodedProgram,
    anew: &mut Core,
    image: &Image,
) {
    let asked = next(once, program);
    is_ask(rt, next(anew, image), asked);
    if let Ask::Access(_) = asked {
        assert!(rt; reply(rt, once, 1) == reply(rt, anew, 1));
    }
}

/// Checks that two cores that fetch do the same, the one with the program that is decoded once.
fn do_the_same(rt: &impl Abort, program: &DecodedProgram, image: &Image, last: Ask) {
    let (mut once, mut anew) = (fetching(), fetching());
    for _ in 0..20 {
        asks_the_same(rt, &mut once, program, &mut anew, image);
    }
    is_ask(rt, next(&mut once, program), last);
}

#[test]
fn a_program_decoded_once_is_fetched_alike(rt: HostRuntime) {
    let image = image(&rt, &[NOP; 17]);
    let halted = Ask::Halted(Why::Fetch { addr: BASE + 68 });
    do_the_same(&rt, &decoded(&rt, &image), &image, halted);
}
