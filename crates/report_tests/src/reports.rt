//! Reports of small programs on one core, with texts made by hand. The words are from the tables of
//! the RISC-V Unprivileged ISA manual.
ghost use Rattle.std.specs.Prelude.{◌≡◌, ◌+◌, ◌≤◌, ◌^◌, ⊤, None, length, true};
ghost use Rattle.machine_desc.specs.Machine.{IsMachine};

use crate::machines::{machine, no_counters};
use bound_core::{BoundCore, Port};
use elf_load::{Image, load};
use event_graph::Plain;
use machine_desc::Machine;
use report::{text, write_printed};
use std::array;
use std::process::Abort;
use zs_num::{Bytes, Cycle, Entry, Outcome, Request};

/// The ELF header, and the header of one segment that may be executed: the 28 bytes of the file
/// from 120 on are at 0x10000.
static HEADERS: [u8; 120] = [
    0x7f, 0x45, 0x4c, 0x46, 0x02, 0x01, 0x01, 0x00, 0x00, 0x00, 0x00, 0x00, 0x00, 0x00, 0x00, 0x00,
    0x02, 0x00, 0xf3, 0x00, 0x01, 0x00, 0x00, 0x00, 0x00, 0x00, 0x01, 0x00, 0x00, 0x00, 0x00, 0x00,
    0x40, 0x00, 0x00, 0x00, 0x00, 0x00, 0x00, 0x00, 0x00, 0x00, 0x00, 0x00, 0x00, 0x00, 0x00, 0x00,
    0x00, 0x00, 0x00, 0x00, 0x40, 0x00, 0x38, 0x00, 0x01, 0x00, 0x00, 0x00, 0x00, 0x00, 0x00, 0x00,
    0x01, 0x00, 0x00, 0x00, 0x05, 0x00, 0x00, 0x00, 0x78, 0x00, 0x00, 0x00, 0x00, 0x00, 0x00, 0x00,
    0x00, 0x00, 0x01, 0x00, 0x00, 0x00, 0x00, 0x00, 0x00, 0x00, 0x01, 0x00, 0x00, 0x00, 0x00, 0x00,
    0x1c, 0x00, 0x00, 0x00, 0x00, 0x00, 0x00, 0x00, 0x1c, 0x00, 0x00, 0x00, 0x00, 0x00, 0x00, 0x00,
    0x01, 0x00, 0x00, 0x00, 0x00, 0x00, 0x00, 0x00,
];

/// addi x10, x0, 7; addi x17, x0, 93; ecall
static SEVEN: [u32; 7] = [0x0070_0513, 0x05d0_0893, 0x0000_0073, 0, 0, 0, 0];

/// The call that writes eight bytes from 0x10000 on, and an exit with their number: addi x10, x0,
/// 1; lui x11, 0x10; addi x12, x0, 8; addi x17, x0, 64; ecall; addi x17, x0, 93; ecall
static WRITE: [u32; 7] = [
    0x0010_0513,
    0x0001_05b7,
    0x0080_0613,
    0x0400_0893,
    0x0000_0073,
    0x05d0_0893,
    0x0000_0073,
];

/// The last and the first byte that print as themselves, the quote, the backslash and their like.
static WRITTEN: [u8; 8] = [0x7e, 0x20, 0x00, 0x22, 0x5c, 0x7f, 0xff, 0x41];

/// A port that answers each access of a byte with the next byte of `WRITTEN`, and each of a
/// doubleword with 0xabcdef0123456789.
#[derive(Drop)]
struct WrittenBytes {
    base: u64,
    size: u64,
    next: usize,
}

impl Port for WrittenBytes {
    ghost core = { λ p. 0 };

    ghost base = { λ p. p.base };

    ghost size = { λ p. p.size };

    ghost l1i = { λ p. true };

    ghost room = { λ p. 2 ^ 20 };

    ghost gives = { λ p start request e q. ⊤ };

    ghost logged = { λ p. None };

    fn access(&mut self, start: Cycle, request: Request) -> Entry {
        let reply = match request {
            Request::Load { width: 8, .. } => 0xabcd_ef01_2345_6789,
            _ => u64::from(WRITTEN[self.next % 8]),
        };
        self.next = self.next.wrapping_add(1);
        Entry {
            core: 0,
            stamp: 1,
            start,
            request,
            reply,
            outcome: Outcome::Hit,
        }
    }
}

/// Puts a word at the end of a file.
fn push_word(rt: &impl Abort, file: &mut Vec<u8>, word: u32) {
    file.extend_from_slice(&word.to_le_bytes())
        .expect(rt, "memory");
}

/// A file of these headers and words.
fn file_of(rt: &(impl Abort + AllocGlobal), headers: &[u8], words: &[u32]) -> Vec<u8> {
    let mut file = Vec::from_slice(rt.alloc(), headers).expect(rt, "memory");
    for word in words {
        push_word(rt, &mut file, *word);
    }
    file
}

/// The image of a program of these words in a memory of `size` bytes from `base` on.
fn loaded(rt: &(impl Abort + AllocGlobal), words: &[u32], base: u64, size: u64) -> Image
    requires { base + size ≤ 2 ^ 48 }
    ensures base { result.base ≡ base }
    ensures size { result.size ≡ size }
{
    load(rt.alloc(), &file_of(rt, &HEADERS, words), base, size).expect(rt, "an image")
}

/// The image of a program of these words in the machine's memory.
fn image(rt: &(impl Abort + AllocGlobal), machine: &Machine, words: &[u32]) -> Image
    requires { IsMachine machine.now }
    ensures base { result.base ≡ machine.now.memory.base }
    ensures size { result.size ≡ machine.now.memory.size }
{
    loaded(rt, words, machine.memory.base, machine.memory.size)
}

/// Core 0 of a machine before its first instruction, with room for what it writes in 1,000 cycles.
fn first_core(rt: &(impl Abort + AllocGlobal), machine: &Machine, image: &Image) -> BoundCore
    requires { IsMachine machine.now }
    ensures number { result.number ≡ 0 }
    ensures clock { result.timed.clock ≡ 0 }
    ensures base { result.timed.core.memory.base ≡ machine.now.memory.base }
    ensures size { result.timed.core.memory.size ≡ machine.now.memory.size }
    ensures room { 1258 ≤ result.spare }
{
    let mut core = BoundCore::new(rt.alloc(), machine, image, 0).expect(rt, "memory");
    core.reserve(1000).expect(rt, "memory");
    core
}

/// Runs core 0 of a machine for an interval of so many cycles, at most 1,000.
fn run(core: &mut BoundCore, machine: &Machine, image: &Image, end: Cycle)
    requires machine { IsMachine machine.now }
    requires end { end ≤ 1000 }
    requires number { core.old.number ≡ 0 }
    requires clock { core.old.timed.clock ≡ 0 }
    requires base { core.old.timed.core.memory.base ≡ machine.now.memory.base }
    requires size { core.old.timed.core.memory.size ≡ machine.now.memory.size }
    requires room { 1258 ≤ core.old.spare }
{
    let mut port = WrittenBytes {
        base: machine.memory.base,
        size: machine.memory.size,
        next: 0,
    };
    core.run_one(image, &Plain::of(machine), end, &mut port);
}

/// Core 0 of a machine after these words and an interval of so many cycles, at most 1,000.
fn ran(rt: &(impl Abort + AllocGlobal), machine: &Machine, words: &[u32], end: Cycle) -> BoundCore
    requires machine { IsMachine machine.now }
    requires end { end ≤ 1000 }
{
    let image = image(rt, machine, words);
    let mut core = first_core(rt, machine, &image);
    run(&mut core, machine, &image, end);
    core
}

/// The report of a machine of which these are the cores. Nothing is counted.
fn report_of(
    rt: &(impl Abort + AllocGlobal),
    machine: &Machine,
    cores: &[BoundCore],
    intervals: u32,
    brief: bool,
) -> Bytes
    requires machine { IsMachine machine.now }
    requires cores { length cores.now ≡ machine.now.cores }
{
    let counters = no_counters(rt, machine);
    text(rt.alloc(), machine, &counters, cores, intervals, brief).expect(rt, "memory")
}

/// The report of a machine with one core, which ran these words for an interval of so many cycles,
/// at most 1,000. Nothing is counted.
fn report(rt: &(impl Abort + AllocGlobal), words: &[u32], end: Cycle, brief: bool) -> Bytes
    requires { end ≤ 1000 }
{
    let machine = machine(rt, 1, 1, 1);
    let core = ran(rt, &machine, words, end);
    report_of(rt, &machine, array::from_ref(&core), 1, brief)
}

/// Checks the report after so many cycles, at most 1,000.
fn is_reported(
    rt: &(impl Abort + AllocGlobal),
    words: &[u32],
    end: Cycle,
    brief: bool,
    wanted: &str,
)
    requires { end ≤ 1000 }
{
    let found = report(rt, words, end, brief);
    assert!(rt; found.as_slice() == wanted.as_bytes());
}

#[test]
fn three_instructions_exit_with_seven(rt: HostRuntime) {
    is_reported(&rt, &SEVEN, 1000, false, EXITED);
    is_reported(&rt, &SEVEN, 1000, true, SUMMARY);
}

const EXITED: &str =
    "zsim report 1\ncores 1\nintervals 1\ninstructions 3\ncycles 3\naccesses 0\nevents 0\ncore 0 instructions 3 cycles 3 delay 0 loads 0 stores 0 atomics 0 hits 0 upgrades 0 l2hits 0 misses 0 halt exit 7\ncore 0 console 0 \"\"\nbank 0 events 0 waited 0 free 0\ncontroller 0 events 0 waited 0 free 0\n";

const SUMMARY: &str =
    "zsim report 1\ncores 1\nintervals 1\ninstructions 3\ncycles 3\naccesses 0\nevents 0\n";

#[test]
fn a_console_is_printed_byte_by_byte(rt: HostRuntime) {
    is_reported(&rt, &WRITE, 1000, false, PRINTED);
}

/// Five instructions come before the bytes, and two behind them; each of these takes a cycle.
const PRINTED: &str =
    "zsim report 1\ncores 1\nintervals 1\ninstructions 7\ncycles 15\naccesses 0\nevents 0\ncore 0 instructions 7 cycles 15 delay 0 loads 0 stores 0 atomics 0 hits 0 upgrades 0 l2hits 0 misses 0 halt exit 8\ncore 0 console 8 \"~ \\x00\\x22\\x5c\\x7f\\xffA\"\nbank 0 events 0 waited 0 free 0\ncontroller 0 events 0 waited 0 free 0\n";

#[test]
fn a_core_that_has_not_halted_runs(rt: HostRuntime) {
    is_reported(&rt, &SEVEN, 2, false, RUNNING);
}

const RUNNING: &str =
    "zsim report 1\ncores 1\nintervals 1\ninstructions 2\ncycles 2\naccesses 0\nevents 0\ncore 0 instructions 2 cycles 2 delay 0 loads 0 stores 0 atomics 0 hits 0 upgrades 0 l2hits 0 misses 0 halt running\ncore 0 console 0 \"\"\nbank 0 events 0 waited 0 free 0\ncontroller 0 events 0 waited 0 free 0\n";

/// The text of a report.
fn text_of<'a>(rt: &impl Abort, report: &'a [u8]) -> &'a str {
    str::from_utf8(report).expect(rt, "a text")
}

/// Checks that a part of the report of a program is as wanted.
fn has_part(rt: &(impl Abort + AllocGlobal), words: &[u32], wanted: &str) {
    let found = report(rt, words, 1000, false);
    assert!(rt; text_of(rt, found.as_slice()).contains(wanted));
}

/// Checks how it is told that each of these programs halted.
fn have_parts(rt: &(impl Abort + AllocGlobal), rows: &[([u32; 7], &str)]) {
    for (words, halt) in rows {
        has_part(rt, words, *halt);
    }
}

#[test]
fn each_halt_is_told(rt: HostRuntime) {
    have_parts(&rt, &HALTS);
}

/// Programs, and how it is told that they halted.
static HALTS: [([u32; 7], &str); 8] = [
    // addi x10, x0, -1; addi x17, x0, 93; ecall
    (
        [0xfff0_0513, 0x05d0_0893, 0x0000_0073, 0, 0, 0, 0],
        " halt exit 18446744073709551615\n",
    ),
    // fence.i
    ([0x0000_100f, 0, 0, 0, 0, 0, 0], " halt illegal 0000100f\n"),
    // jal x0, 2
    (
        [0x0020_006f, 0, 0, 0, 0, 0, 0],
        " halt misaligned 0000000000010002\n",
    ),
    // addi x6, x0, -1; lr.w x5, (x6)
    (
        [0xfff0_0313, 0x1003_22af, 0, 0, 0, 0, 0],
        " halt atomic ffffffffffffffff\n",
    ),
    // lui x5, 0x10; ld x6, 0(x5); jalr x0, -1(x6)
    (
        [0x0001_02b7, 0x0002_b303, 0xfff3_0067, 0, 0, 0, 0],
        " halt fetch abcdef0123456788\n",
    ),
    // ld x5, 0(x0)
    (
        [0x0000_3283, 0, 0, 0, 0, 0, 0],
        " halt access 0000000000000000\n",
    ),
    // lui x5, 0x10; ld x6, 0(x5); ld x7, 0(x6)
    (
        [0x0001_02b7, 0x0002_b303, 0x0003_3383, 0, 0, 0, 0],
        " halt access abcdef0123456789\n",
    ),
    // ebreak
    ([0x0010_0073, 0, 0, 0, 0, 0, 0], " halt break\n"),
];

/// How so many bytes 0 are printed.
fn printed_zeros(rt: &(impl Abort + AllocGlobal), count: usize) -> String {
    let zeros = vec![in rt.alloc(); 0u8; count].expect(rt, "memory");
    let mut text = String::new(rt.alloc());
    write_printed(&mut text, &zeros).expect(rt, "memory");
    text
}

/// Checks how a text begins and ends.
fn begins_and_ends(rt: &impl Abort, text: &str, start: &str, end: &str) {
    assert!(rt; text.starts_with(start));
    assert!(rt; text.ends_with(end));
}

/// Checks the text of so many bytes 0, each of four characters.
fn are_zeros(rt: &impl Abort, text: &str, count: usize) {
    assert!(rt; Some(text.len()) == count.checked_mul(4));
    begins_and_ends(rt, text, "\\x00\\x00", "\\x00");
}

/// The bytes of a console of 1 MiB, of which no byte prints as itself.
#[test]
fn a_long_console_is_printed_whole(rt: HostRuntime) {
    are_zeros(&rt, printed_zeros(&rt, 1 << 20).as_str(), 1 << 20);
}

/// The cores of a machine before their first instruction.
fn cores_of(rt: &(impl Abort + AllocGlobal), machine: &Machine, image: &Image) -> Vec<BoundCore>
    requires { IsMachine machine.now }
{
    let mut cores = Vec::new(rt.alloc());
    for number in 0..machine.cores {
        let core = BoundCore::new(rt.alloc(), machine, image, number).expect(rt, "memory");
        cores.push(core).expect(rt, "memory");
    }
    cores
}

/// The report of a machine of these cores after as many intervals as there can be.
fn longest_report(rt: &(impl Abort + AllocGlobal), machine: &Machine, cores: &[BoundCore]) -> Bytes
    requires { IsMachine machine.now }
{
    assert!(rt; cores.len() == usize::from(machine.cores));
    report_of(rt, machine, cores, machine.intervals, false)
}

/// The report of a machine that runs `SEVEN`, before its cores' first instruction.
fn first_report(rt: &(impl Abort + AllocGlobal), machine: &Machine) -> Bytes
    requires { IsMachine machine.now }
{
    let cores = cores_of(rt, machine, &image(rt, machine, &SEVEN));
    longest_report(rt, machine, &cores)
}

/// How many lines a text has.
fn line_count(text: &str) -> usize {
    text.lines().count()
}

/// Checks the lines of a report: how many they are, how they begin and end, and a part of them.
fn has_lines(rt: &impl Abort, report: &str, count: usize, parts: &[&str; 3]) {
    let &[start, part, end] = parts;
    assert!(rt; line_count(report) == count);
    assert!(rt; report.contains(part));
    begins_and_ends(rt, report, start, end);
}

/// Seven lines, two of each core, and one of each component.
#[test]
fn the_report_of_the_greatest_machine_is_whole(rt: HostRuntime) {
    let report = first_report(&rt, &machine(&rt, 256, 64, 16));
    let text = text_of(&rt, report.as_slice());
    has_lines(&rt, text, 7 + 2 * 256 + 64 + 16, &GREATEST_PARTS);
}

static GREATEST_PARTS: [&str; 3] = [
    "zsim report 1\ncores 256\nintervals 1048576\ninstructions 0\ncycles 0\naccesses 0\nevents 0\ncore 0 instructions 0 cycles 0 delay 0 loads 0 stores 0 atomics 0 hits 0 upgrades 0 l2hits 0 misses 0 halt running\ncore 0 console 0 \"\"\ncore 1 instructions 0 ",
    "\ncore 255 console 0 \"\"\nbank 0 events 0 waited 0 free 0\nbank 1 events ",
    "\ncontroller 15 events 0 waited 0 free 0\n",
];
