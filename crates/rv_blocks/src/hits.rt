//! The loop over hits.
ghost use Rattle.std.specs.Prelude.{◌≡◌, ◌+◌, ◌-◌, ◌*◌, ◌%◌, ◌^◌, ◌≤◌, ◌<◌, None, false, length, IfSome, IsSome, IsTrue};
ghost use Rattle.rv_core.specs.Executions.{LiesIn, Meets};
ghost use Rattle.rv_core.specs.Hits.{HasGoneOn};
ghost use Rattle.rv_blocks.specs.Coming.{moment_at, HasCome};
ghost use Rattle.rv_blocks.specs.Flows.{is_access_flow, is_apart, AccessesAt};
ghost use Rattle.rv_blocks.specs.Slots.{AreSlots};

use crate::access::hit;
use crate::blocks::{Stop, by_blocks};
use crate::flow::Flow;
use crate::line::{by_line, fetched};
use crate::slot::{Slot, slot_at};
use crate::tried::Tried;
use elf_load::Image;
use rv_core::{MemoryRange, Port, Single, Stint};
use zs_num::LINE;

/// What is left of a stint: how many cycles and how many accesses. For `waited` cycles of it the
/// core waited for accesses.
#[derive(Clone, Copy)]
pub struct Left {
    pub cycles: u64,
    pub waited: u64,
    pub accesses: u64,
}

/// Where a core is that goes on by itself: at the slot of a place, with the line of its latest fetch,
/// if it fetches.
#[derive(Clone, Copy)]
pub struct Gone {
    pub place: usize,
    pub line: Option<u64>,
    pub left: Left,
}

/// Where it stopped, or came to the end of a line or a block, and at what.
#[derive(Clone, Copy)]
struct Reached {
    gone: Gone,
    flow: Flow,
}

/// Where a core has gone, and the access to which it came there, if the port was asked for it.
#[derive(Clone, Copy)]
pub struct Halt {
    pub gone: Gone,
    pub met: Option<Single>,
}

/// The loop of a core that fetches, as a type.
struct ByLine;

/// Executes instructions, each of which takes a cycle, from the one of the slot at a place on, and
/// loads, stores and fetches that the port serves at once. It answers also the access that the port
/// did not serve, where it was asked for one last.
#[inline(always)]
pub fn by_hits<Q: Port>(
    image: &Image,
    slots: &[Slot],
    first: u64,
    x: &mut [u64; 32],
    place: usize,
    line: Option<u64>,
    memory: &MemoryRange,
    stint: &Stint,
    port: &mut Q,
) -> Halt
    requires slots { AreSlots image.now first slots.now }
    requires place { place < length slots.now }
    requires reach { memory.now.base + memory.now.size ≤ 2 ^ 48 }
    requires base { Q.base port.old ≡ memory.now.base }
    requires size { Q.size port.old ≡ memory.now.size }
    requires l1i { IsSome line → IsTrue (Q.l1i port.old) }
    requires aligned { IsSome line → first % 4 ≡ 0 }
    requires room { stint.now.accesses ≤ Q.room port.old }
    requires begins { stint.now.clock ≤ stint.now.end }
    ensures place { result.gone.place < length slots.now }
    ensures left { result.gone.left.cycles + result.gone.left.waited ≤ stint.now.end - stint.now.clock }
    ensures accesses { result.gone.left.accesses ≤ stint.now.accesses }
    ensures gone { HasGoneOn image.now memory.now stint.now Q.gives Q.core Q.logged Q.room (stint.now.accesses - result.gone.left.accesses) (record { registers = x.old; pc = first + 4 * place; line = line; clock = stint.now.clock; count = 0; port = port.old }) (moment_at stint.now x.new (first + 4 * result.gone.place) result.gone.line result.gone.left port.new) }
    ensures line { IsSome line → IsSome result.gone.line }
    ensures no_line { line ≡ None → result.gone.line ≡ None }
    ensures early { IfSome result.met (λ single. 0 < result.gone.left.cycles) }
    ensures met { IfSome result.met (λ single. Meets image.now memory.now x.new (first + 4 * result.gone.place) single) }
    ensures lies { IfSome result.met (λ single. LiesIn result.gone.line (first + 4 * result.gone.place)) }
    ensures port_core { Q.core port.new ≡ Q.core port.old }
    ensures port_base { Q.base port.new ≡ Q.base port.old }
    ensures port_size { Q.size port.new ≡ Q.size port.old }
    ensures port_l1i { Q.l1i port.new ≡ Q.l1i port.old }
{
    let left = Left {
        cycles: stint.end - stint.clock,
        waited: 0,
        accesses: stint.accesses,
    };
    let mut here = Gone { place, line, left };
    'next: loop {
        let reached = go_on::<Q>(image, slots, first, x, here, memory, stint, port);
        here = reached.gone;
        match reached.flow {
            Flow::On | Flow::To(_) => {}
            flow => {
                let slot = slot_at(slots, here.place);
                match hit::<Q, Q>(flow, slot, x, memory, stint, &here.left, port) {
                    Tried::Served => {}
                    Tried::Meets(single) => {
                        return Halt {
                            gone: here,
                            met: Some(single),
                        };
                    }
                    Tried::Not => {
                        return Halt {
                            gone: here,
                            met: None,
                        };
                    }
                }
                here.left.accesses -= 1;
                here.left.waited += stint.hit;
                here.left.cycles -= 1 + stint.hit;
                here.place += 1;
            }
        }
    }
}

/// Goes on to the next slot that is not done, or to the end of a line or a block in it.
#[inline(always)]
fn go_on<Q: Port>(
    image: &Image,
    slots: &[Slot],
    first: u64,
    x: &mut [u64; 32],
    here: Gone,
    memory: &MemoryRange,
    stint: &Stint,
    port: &mut Q,
) -> Reached
    requires slots { AreSlots image.now first slots.now }
    requires place { here.place < length slots.now }
    requires reach { memory.now.base + memory.now.size ≤ 2 ^ 48 }
    requires base { Q.base port.old ≡ memory.now.base }
    requires size { Q.size port.old ≡ memory.now.size }
    requires l1i { IsSome here.line → IsTrue (Q.l1i port.old) }
    requires aligned { IsSome here.line → first % 4 ≡ 0 }
    requires room { 0 < here.left.accesses → 1 ≤ Q.room port.old }
    requires begins { stint.now.clock ≤ stint.now.end }
    requires left { here.left.cycles + here.left.waited ≤ stint.now.end - stint.now.clock }
    ensures place { result.gone.place < length slots.now }
    ensures left { result.gone.left.cycles + result.gone.left.waited ≤ stint.now.end - stint.now.clock }
    ensures come { HasCome image.now memory.now stint.now Q.gives Q.core Q.logged Q.room here.left.accesses result.gone.left.accesses (moment_at stint.now x.old (first + 4 * here.place) here.line here.left port.old) (moment_at stint.now x.new (first + 4 * result.gone.place) result.gone.line result.gone.left port.new) }
    ensures line { IsSome here.line → IsSome result.gone.line }
    ensures no_line { here.line ≡ None → result.gone.line ≡ None }
    ensures access { AccessesAt slots.now result.gone.place result.flow }
    ensures lies { IsTrue (is_access_flow result.flow) → LiesIn result.gone.line (first + 4 * result.gone.place) }
    ensures fewer { result.gone.left.cycles ≤ here.left.cycles }
    ensures goes { is_apart result.flow ≡ false → result.gone.left.cycles < here.left.cycles }
    ensures port_core { Q.core port.new ≡ Q.core port.old }
    ensures port_base { Q.base port.new ≡ Q.base port.old }
    ensures port_size { Q.size port.new ≡ Q.size port.old }
    ensures port_l1i { Q.l1i port.new ≡ Q.l1i port.old }
{
    match here.line {
        None => {
            let stop = by_blocks::<Q>(image, slots, first, x, here.place, here.left.cycles);
            stopped(stop, None, here.left)
        }
        Some(latest) => {
            let pc = first + 4 * here.place as u64;
            let slot = slot_at(slots, here.place);
            match fetched::<Q>(image, slot, pc, latest, memory, stint, here.left, port) {
                Some(left) => {
                    let stop = by_line::<(Q, ByLine)>(
                        image,
                        slots,
                        first,
                        x,
                        here.place,
                        left.cycles,
                    );
                    stopped(stop, Some(pc / LINE), left)
                }
                None => Reached {
                    gone: here,
                    flow: Flow::Apart,
                },
            }
        }
    }
}

/// Where a core is whose loop stopped there.
#[inline(always)]
fn stopped(stop: Stop, line: Option<u64>, left: Left) -> Reached
    ensures { result ≡ record { gone = record { place = stop.rest.place; line = line; left = record left { cycles = stop.rest.left } }; flow = stop.flow } }
{
    Reached {
        gone: Gone {
            place: stop.rest.place,
            line,
            left: Left {
                cycles: stop.rest.left,
                ..left
            },
        },
        flow: stop.flow,
    }
}
