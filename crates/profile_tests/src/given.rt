//! What the tests run: machines with the caches and the memory of the built-in one, executables of
//! one segment, and schedules.
ghost use Rattle.std.specs.Prelude.{◌≡◌, ◌≤◌, ◌<◌, ◌+◌, ◌^◌, [], ◌∷◌, IfSome};
ghost use Rattle.machine_desc.specs.Machine.{IsL1, IsMachine};

use access_log::Schedule;
use elf_load::{Image, load};
use machine_desc::{Controllers, Domains, L1, L2, Machine, Memory, Places};
use noc_mesh::Net;
use profile::Profile;
use std::process::Abort;
use trace::trace;

/// The first address of memory, at which the programs begin.
const BASE: u64 = 0x1_0000;

/// How many components the machines have: a bank and a controller.
const COMPS: usize = 2;

/// An ELF header and the header of one segment that may be executed, without its lengths: the
/// file's bytes from 120 on are at 0x10000.
static HEADERS: [u8; 88] = [
    0x7f, 0x45, 0x4c, 0x46, 0x02, 0x01, 0x01, 0x00, 0x00, 0x00, 0x00, 0x00, 0x00, 0x00, 0x00, 0x00,
    0x02, 0x00, 0xf3, 0x00, 0x01, 0x00, 0x00, 0x00, 0x00, 0x00, 0x01, 0x00, 0x00, 0x00, 0x00, 0x00,
    0x40, 0x00, 0x00, 0x00, 0x00, 0x00, 0x00, 0x00, 0x00, 0x00, 0x00, 0x00, 0x00, 0x00, 0x00, 0x00,
    0x00, 0x00, 0x00, 0x00, 0x40, 0x00, 0x38, 0x00, 0x01, 0x00, 0x00, 0x00, 0x00, 0x00, 0x00, 0x00,
    0x01, 0x00, 0x00, 0x00, 0x05, 0x00, 0x00, 0x00, 0x78, 0x00, 0x00, 0x00, 0x00, 0x00, 0x00, 0x00,
    0x00, 0x00, 0x01, 0x00, 0x00, 0x00, 0x00, 0x00,
];

/// A list of one domain.
fn place(rt: &(impl Abort + AllocGlobal), domain: u16) -> Places
    ensures { result ≡ domain ∷ [] }
{
    Places::of(vec![in rt.alloc(); domain].expect(rt, "memory"))
}

/// A machine of so many cores and of intervals so long, with the numbers of the built-in text, and
/// with instruction caches if they are given.
pub(crate) fn machine(
    rt: &(impl Abort + AllocGlobal),
    cores: u16,
    interval: u64,
    l1i: Option<L1>,
) -> Machine
    requires some { 1 ≤ cores }
    requires few { cores ≤ 2 }
    requires interval { (1 ≤ interval) × (interval ≤ 10000) }
    requires l1i { IfSome l1i (IsL1 1) }
    ensures { IsMachine result }
{
    Machine {
        version: if l1i.is_some() { 2 } else { 1 },
        cores,
        interval,
        intervals: 100_000,
        memory: Memory {
            base: BASE,
            size: 0x10_0000,
            stack: 4096,
        },
        l1: L1 {
            sets: 2,
            ways: 1,
            latency: 1,
        },
        l1i,
        l2: L2 {
            banks: 1,
            sets: 4,
            ways: 2,
            latency: 10,
            remote: 5,
            fill: 2,
            occupancy: 4,
        },
        controllers: Controllers {
            count: 1,
            read: 100,
            write: 40,
            occupancy: 20,
        },
        domains: Domains {
            count: 2,
            banks: place(rt, 0),
            controllers: place(rt, 1),
        },
        mesh: None,
        dram: None,
        pipe: None,
    }
}

/// The built-in machine, of one core.
pub(crate) fn plain(rt: &(impl Abort + AllocGlobal)) -> Machine
    ensures { IsMachine result }
{
    machine(rt, 1, 10_000, None)
}

/// The same of two cores.
pub(crate) fn two_cores(rt: &(impl Abort + AllocGlobal)) -> Machine
    ensures { IsMachine result }
{
    machine(rt, 2, 10_000, None)
}

/// The machine of one core that fetches, through an instruction cache that is as its L1.
pub(crate) fn fetching(rt: &(impl Abort + AllocGlobal)) -> Machine
    ensures { IsMachine result }
{
    let l1i = L1 {
        sets: 2,
        ways: 1,
        latency: 1,
    };
    machine(rt, 1, 10_000, Some(l1i))
}

/// Adds bytes at the end.
fn add(rt: &impl Abort, list: &mut Vec<u8>, bytes: &[u8]) {
    list.extend_from_slice(bytes).expect(rt, "memory");
}

/// The file of a program of these words.
fn file_of(rt: &(impl Abort + AllocGlobal), words: &[u32]) -> Vec<u8> {
    let bytes = 4 * words.len() as u64;
    let mut file = Vec::from_slice(rt.alloc(), &HEADERS).expect(rt, "memory");
    for number in [BASE, bytes, bytes, 1] {
        add(rt, &mut file, &number.to_le_bytes());
    }
    for word in words {
        add(rt, &mut file, &word.to_le_bytes());
    }
    file
}

/// The image of a program of these words in the machine's memory.
pub(crate) fn loaded(rt: &(impl Abort + AllocGlobal), machine: &Machine, words: &[u32]) -> Image
    requires { IsMachine machine.now }
    ensures base { result.base ≡ machine.now.memory.base }
    ensures size { result.size ≡ machine.now.memory.size }
{
    let Memory { base, size, .. } = machine.memory;
    load(rt.alloc(), &file_of(rt, words), base, size).expect(rt, "an image")
}

/// Adds an interval with these turns.
fn push(rt: &(impl Abort + AllocGlobal), schedule: &mut Schedule, turns: &[u16])
    ensures { schedule.new.cores ≡ schedule.old.cores }
{
    let cores = schedule.cores();
    assert!(rt; schedule.intervals() < 10 && turns.len() < 10);
    assert!(rt; turns.iter().all(|core| *core < cores));
    let turns = Vec::from_slice(rt.alloc(), turns).expect(rt, "memory");
    schedule.push(turns).expect(rt, "memory");
}

/// The schedule of so many cores with these turns, so many in each interval.
pub(crate) fn schedule_of(
    rt: &(impl Abort + AllocGlobal),
    cores: u16,
    turns: &[u16],
    each: usize,
) -> Schedule
    requires { 0 < each }
    ensures { result.cores ≡ cores }
{
    let mut schedule = Schedule::new(rt.alloc(), cores);
    for list in turns.chunks(each) {
        push(rt, &mut schedule, list);
    }
    schedule
}

/// The profile of a program of these words under a schedule with these turns, so many in each
/// interval. A row of its series has so many intervals.
pub(crate) fn profile_in(
    rt: &(impl Abort + AllocGlobal),
    machine: &Machine,
    words: &[u32],
    turns: &[u16],
    each: usize,
    every: u32,
) -> Profile
    requires machine { IsMachine machine.now }
    requires each { 0 < each }
{
    let image = loaded(rt, machine, words);
    let schedule = schedule_of(rt, machine.cores, turns, each);
    let mut profile = Profile::new(rt.alloc(), Net::of(machine), machine.cores, COMPS, every);
    trace(rt.alloc(), machine, &image, &schedule, &mut profile).expect(rt, "a legal schedule");
    profile
}

/// The same, with a row for each interval.
pub(crate) fn profile_of(
    rt: &(impl Abort + AllocGlobal),
    machine: &Machine,
    words: &[u32],
    turns: &[u16],
    each: usize,
) -> Profile
    requires machine { IsMachine machine.now }
    requires each { 0 < each }
{
    profile_in(rt, machine, words, turns, each, 1)
}
