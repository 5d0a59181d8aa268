//! Small programs on one core, with numbers from the RISC-V Unprivileged ISA manual and its table
//! of opcodes. Memory is a flat list of bytes, and each access finds its line in memory.
ghost use Rattle.std.specs.Prelude.{◌≡◌, ◌-◌, ◌<◌, ◌≤◌, length, vec_capacity, vec_len, true, Some};
ghost use Rattle.machine_desc.specs.Machine.{IsMachine};
ghost use Rattle.flat_memory.specs.FlatMemory.{memory_after, memory_reply};

use crate::checks::{are_bytes, are_so_many, is_number};
use crate::executables::loaded;
use crate::images::decoded;
use bound_core::{BoundCore, Port, Turned};
use elf_load::Image;
use event_graph::Plain;
use flat_memory::FlatMemory;
use machine_desc::{Machine, PLAIN, read};
use rv_core::{Program, Why};
use std::process::Abort;
use zs_num::{Cycle, Entry, Outcome, Request};

/// The time of an access that finds its line in memory on the built-in machine: the look-up in the
/// core's own cache, that in the shared cache, the read of memory and the fill.
const MISS: u64 = 1 + 10 + 100 + 2;

/// auipc x11, 0; addi x11, x11, 36; addi x10, x0, 1; addi x12, x0, 3; addi x17, x0, 64; ecall;
/// addi x10, x0, 0; addi x17, x0, 93; ecall; and then "hi\n"
static WRITE: [u32; 10] = [
    0x0000_0597,
    0x0245_8593,
    0x0010_0513,
    0x0030_0613,
    0x0400_0893,
    0x0000_0073,
    0x0000_0513,
    0x05d0_0893,
    0x0000_0073,
    0x000a_6968,
];

/// auipc x5, 0; ld x6, 60(x5); addi x10, x6, 0; addi x17, x0, 93; ecall; and at 60 the doubleword,
/// which crosses a line of 64 bytes
static CROSSING: [u32; 17] = [
    0x0000_0297,
    0x03c2_b303,
    0x0003_0513,
    0x05d0_0893,
    0x0000_0073,
    0,
    0,
    0,
    0,
    0,
    0,
    0,
    0,
    0,
    0,
    0x4433_2211,
    0x8877_6655,
];

/// The machine of a description.
fn machine(rt: &(impl Abort + AllocGlobal), text: &[u8]) -> Machine
    ensures { IsMachine result }
{
    read(rt.alloc(), text).expect(rt, "a machine")
}

/// A port of one core over a flat memory. It keeps the entries that it answered.
#[derive(Drop)]
struct FlatPort {
    memory: FlatMemory,
    core: u16,
    entries: Vec<Entry>,
    ghost is_there: { core < length memory.reservations },
}

impl Port for FlatPort {
    ghost core = { λ p. p.core };

    ghost base = { λ p. p.memory.base };

    ghost size = { λ p. length p.memory.bytes };

    ghost l1i = { λ p. true };

    ghost room = { λ p. vec_capacity p.entries - vec_len p.entries };

    ghost gives = { λ p start request e q. (e.reply ≡ memory_reply p.memory p.core request) × (q.memory ≡ memory_after p.memory p.core request) };

    ghost logged = { λ p. Some p.entries.items };

    fn access(&mut self, start: Cycle, request: Request) -> Entry {
        let entry = Entry {
            core: self.core,
            stamp: self.entries.len() as u64,
            start,
            request,
            reply: self.memory.serve(self.core, request),
            outcome: Outcome::Miss {
                dirty_victim: false,
            },
        };
        self.entries.push_reserved(entry);
        entry
    }
}

/// Checks where an access began, and what it was answered.
fn is_answered(rt: &impl Abort, entry: &Entry, wanted: (Cycle, u64)) {
    let (start, reply) = wanted;
    is_number(rt, start, entry.start, start);
    is_number(rt, start, entry.reply, reply);
}

/// A core and the port to its memory.
#[derive(Drop)]
struct Served {
    core: BoundCore,
    port: FlatPort,
    ghost number: { port.core ≡ core.number },
    ghost base: { port.memory.base ≡ core.timed.core.memory.base },
    ghost size: { length port.memory.bytes ≡ core.timed.core.memory.size },
}

impl Served {
    /// Makes room for an interval of 1,000 cycles, where the clock is no later.
    fn prepare(&mut self, rt: &impl Abort)
        ensures clock { self.new.core.timed.clock ≤ 1000 }
        ensures spare { 1258 ≤ self.new.core.spare }
        ensures room { 1258 ≤ vec_capacity self.new.port.entries - vec_len self.new.port.entries }
    {
        assert!(rt; self.core.clock() <= 1000);
        self.core.reserve(1000).expect(rt, "memory");
        self.port.entries.reserve(1258).expect(rt, "memory");
    }

    /// A turn of the core in an interval that ends then, and whether it made an access.
    fn turn<P: Program>(&mut self, rt: &impl Abort, program: &P, times: &Plain, end: Cycle) -> bool
        requires { end ≤ 1000 }
    {
        self.prepare(rt);
        let turned = self.core.turn(program, times, end, &mut self.port);
        matches!(turned, Turned::Took(_))
    }

    /// Runs the core to the end of an interval.
    fn run_one<P: Program>(&mut self, rt: &impl Abort, program: &P, times: &Plain, end: Cycle)
        requires { end ≤ 1000 }
    {
        self.prepare(rt);
        self.core.run_one(program, times, end, &mut self.port);
    }

    /// The number with which the program ended.
    fn exit(&self) -> Option<u64> {
        match self.core.halted() {
            Some(Why::Exit(number)) => Some(number),
            _ => None,
        }
    }

    /// Checks the clock, and how many instructions were counted.
    fn has_counted(&self, rt: &impl Abort, clock: Cycle, instructions: u64) {
        is_number(rt, clock, self.core.clock(), clock);
        is_number(rt, clock, self.core.instructions(), instructions);
    }

    /// Checks where each access of the port began, and what it was answered.
    fn has_answered(&self, rt: &impl Abort, wanted: &[(Cycle, u64)]) {
        are_so_many(rt, self.port.entries.len(), wanted.len());
        for (entry, wanted) in self.port.entries.iter().zip(wanted) {
            is_answered(rt, entry, *wanted);
        }
    }

    /// Checks the bytes that the core wrote, and the number with which the program ended.
    fn has_ended(&self, rt: &impl Abort, console: &[u8], number: u64) {
        are_bytes(rt, self.core.console(), console);
        assert!(rt; self.exit() == Some(number));
    }

    /// The core waits 10 cycles.
    fn delay(&mut self, rt: &impl Abort) {
        self.prepare(rt);
        self.core.delay(10);
    }
}

/// Core 0 at its start.
fn fresh(rt: &(impl Abort + AllocGlobal), machine: &Machine, image: &Image) -> Served
    requires machine { IsMachine machine.now }
    requires base { image.now.base ≡ machine.now.memory.base }
    requires size { image.now.size ≡ machine.now.memory.size }
{
    Served {
        core: BoundCore::new(rt.alloc(), machine, image, 0).expect(rt, "memory"),
        port: FlatPort {
            memory: FlatMemory::loaded(rt.alloc(), image, 1).expect(rt, "memory"),
            core: 0,
            entries: Vec::new(rt.alloc()),
        },
    }
}

/// Runs a core for an interval of 1,000 cycles.
fn run(rt: &impl Abort, served: &mut Served, image: &Image, machine: &Machine)
    requires { IsMachine machine.now }
{
    served.run_one(rt, image, &Plain::of(machine), 1000);
}

/// The core after an interval of 1,000 cycles of a program of these words.
fn ran(rt: &(impl Abort + AllocGlobal), machine: &Machine, words: &[u32]) -> Served
    requires { IsMachine machine.now }
{
    let image = loaded(rt, words, machine.memory.base, machine.memory.size);
    let mut served = fresh(rt, machine, &image);
    run(rt, &mut served, &image, machine);
    served
}

#[test]
fn a_write_call_writes_byte_by_byte(rt: HostRuntime) {
    let served = ran(&rt, &machine(&rt, PLAIN.as_bytes()), &WRITE);
    served.has_answered(&rt, &WRITTEN);
    served.has_ended(&rt, b"hi\n", 0);
    served.has_counted(&rt, 6 + 3 * MISS + 3, 9);
}

/// Five instructions and the call come before the first byte.
static WRITTEN: [(Cycle, u64); 3] = [(6, 0x68), (6 + MISS, 0x69), (6 + 2 * MISS, 0x0a)];

/// Turns of the core with a program that loads across a line at cycle 2.
fn cross(rt: &impl Abort, served: &mut Served, program: &impl Program, times: &Plain) {
    // The interval ends where the load begins its first access.
    let took = served.turn(rt, program, times, 2);
    assert!(rt; took);
    is_number(rt, 2, served.core.clock(), 2 + MISS);
    assert!(rt; served.core.core().in_progress());
    served.run_one(rt, program, times, 2);
    is_number(rt, 2, served.core.clock(), 2 + 2 * MISS);
    served.delay(rt);
    let took = served.turn(rt, program, times, 500);
    assert!(rt; !took);
}

/// The core after those turns, with a program that is decoded once.
fn crossed(rt: &(impl Abort + AllocGlobal), machine: &Machine) -> Served
    requires { IsMachine machine.now }
{
    let image = loaded(rt, &CROSSING, machine.memory.base, machine.memory.size);
    let mut served = fresh(rt, machine, &image);
    cross(rt, &mut served, &decoded(rt, &image), &Plain::of(machine));
    served
}

#[test]
fn a_load_that_crosses_a_line_goes_on_past_the_end(rt: HostRuntime) {
    let served = crossed(&rt, &machine(&rt, PLAIN.as_bytes()));
    served.has_answered(&rt, &LOADED);
    served.has_ended(&rt, b"", 0x8877_6655_4433_2211);
    served.has_counted(&rt, 2 + 2 * MISS + 10 + 3, 5);
}

static LOADED: [(Cycle, u64); 2] = [(2, 0x4433_2211), (2 + MISS, 0x8877_6655)];
