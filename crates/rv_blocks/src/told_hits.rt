//! The loop over hits that tells where it went.
ghost use Rattle.std.specs.Prelude.{◌≡◌, ◌+◌, ◌-◌, ◌*◌, ◌^◌, ◌≤◌, ◌<◌, ◌++◌, List, None, length, vec_capacity, vec_len};
ghost use Rattle.rv_core.specs.Told.{leg_told, stretch_told, told_of, HasToldGoing, Told};
ghost use Rattle.rv_blocks.specs.Coming.{moment_at};
ghost use Rattle.rv_blocks.specs.Slots.{AreSlots};
ghost use Rattle.rv_blocks.specs.Telling.{HasTold};

use crate::access::hit;
use crate::flow::Flow;
use crate::hits::{Gone, Left};
use crate::perform::perform;
use crate::slot::{Slot, slot_at};
use elf_load::Image;
use rv_core::{Leg, MemoryRange, Port, Stint};

/// Where a core is that tells where it went: what it executed from the slot of a place on is not
/// told yet.
#[derive(Clone, Copy)]
pub(crate) struct Untold {
    pub gone: Gone,
    pub from: usize,
}

/// The loop of a core that tells where it went, as a type.
struct ByTelling;

/// Executes instructions, each of which takes a cycle, from the one of the slot at a place on, and
/// loads and stores that the port serves at once. The legs of its way come behind those that are
/// there. It stops where there is no room for a leg more, and where it made as many accesses as it
/// may, if any, it stops with the last one.
#[inline(always)]
pub fn by_told_hits<Q: Port>(
    image: &Image,
    slots: &[Slot],
    first: u64,
    x: &mut [u64; 32],
    place: usize,
    memory: &MemoryRange,
    stint: &Stint,
    port: &mut Q,
    way: &mut Vec<Leg>,
) -> Gone
    requires slots { AreSlots image.now first slots.now }
    requires place { place < length slots.now }
    requires reach { memory.now.base + memory.now.size ≤ 2 ^ 48 }
    requires base { Q.base port.old ≡ memory.now.base }
    requires size { Q.size port.old ≡ memory.now.size }
    requires room { stint.now.accesses ≤ Q.room port.old }
    requires begins { stint.now.clock ≤ stint.now.end }
    ensures place { result.place < length slots.now }
    ensures line { result.line ≡ None }
    ensures left { result.left.cycles + result.left.waited ≤ stint.now.end - stint.now.clock }
    ensures accesses { result.left.accesses ≤ stint.now.accesses }
    ensures gone { (told : List Told) × HasToldGoing image.now memory.now stint.now Q.gives Q.core Q.logged Q.room (stint.now.accesses - result.left.accesses) (record { registers = x.old; pc = first + 4 * place; line = None; clock = stint.now.clock; count = 0; port = port.old }) (moment_at stint.now x.new (first + 4 * result.place) None result.left port.new) told × (told_of way.new.items ≡ told_of way.old.items ++ told) }
    ensures port_core { Q.core port.new ≡ Q.core port.old }
    ensures port_base { Q.base port.new ≡ Q.base port.old }
    ensures port_size { Q.size port.new ≡ Q.size port.old }
    ensures port_l1i { Q.l1i port.new ≡ Q.l1i port.old }
{
    let last = by_legs::<Q>(image, slots, first, x, place, memory, stint, port, way);
    let place = last.gone.place;
    if last.from < place {
        tell(way, first, last.from, place - last.from, false);
    }
    last.gone
}

/// Goes on as long as there is time, and room for a leg more, and tells each leg that a jump or an
/// access ended. It stops with the last access that it may make, if it may make any.
#[inline(always)]
fn by_legs<Q: Port>(
    image: &Image,
    slots: &[Slot],
    first: u64,
    x: &mut [u64; 32],
    place: usize,
    memory: &MemoryRange,
    stint: &Stint,
    port: &mut Q,
    way: &mut Vec<Leg>,
) -> Untold
    requires slots { AreSlots image.now first slots.now }
    requires place { place < length slots.now }
    requires reach { memory.now.base + memory.now.size ≤ 2 ^ 48 }
    requires base { Q.base port.old ≡ memory.now.base }
    requires size { Q.size port.old ≡ memory.now.size }
    requires room { stint.now.accesses ≤ Q.room port.old }
    requires begins { stint.now.clock ≤ stint.now.end }
    ensures place { result.gone.place < length slots.now }
    ensures from { result.from ≤ result.gone.place }
    ensures line { result.gone.line ≡ None }
    ensures left { result.gone.left.cycles + result.gone.left.waited ≤ stint.now.end - stint.now.clock }
    ensures told { HasTold image.now memory.now stint.now Q.gives Q.core Q.logged Q.room stint.now.accesses result.gone.left.accesses (record { registers = x.old; pc = first + 4 * place; line = None; clock = stint.now.clock; count = 0; port = port.old }) (moment_at stint.now x.new (first + 4 * result.gone.place) None result.gone.left port.new) way.old.items way.new.items (stretch_told (first + 4 * result.from) (result.gone.place - result.from)) }
    ensures way { result.from < result.gone.place → vec_len way.new < vec_capacity way.new }
    ensures port_core { Q.core port.new ≡ Q.core port.old }
    ensures port_base { Q.base port.new ≡ Q.base port.old }
    ensures port_size { Q.size port.new ≡ Q.size port.old }
    ensures port_l1i { Q.l1i port.new ≡ Q.l1i port.old }
{
    let left = Left {
        cycles: stint.end - stint.clock,
        waited: 0,
        accesses: stint.accesses,
    };
    let mut here = Gone {
        place,
        line: None,
        left,
    };
    let mut from = place;
    let mut room = way.capacity() - way.len();
    if room == 0 {
        return Untold { gone: here, from };
    }
    'next: while here.left.cycles > 0 {
        let slot = slot_at(slots, here.place);
        match perform::<(Q, ByTelling)>(slot, x, first, here.place, slots.len()) {
            Flow::On => {
                here.left.cycles -= 1;
                here.place += 1;
            }
            Flow::To(next) => {
                tell(way, first, from, here.place + 1 - from, false);
                room -= 1;
                here.left.cycles -= 1;
                here.place = next;
                from = next;
                if room == 0 {
                    break 'next;
                }
            }
            flow => {
                let tried = hit::<Q, (Q, ByTelling)>(
                    flow, slot, x, memory, stint, &here.left, port,
                );
                if !tried.is_served() {
                    break 'next;
                }
                tell(way, first, from, here.place + 1 - from, true);
                room -= 1;
                here.left.accesses -= 1;
                here.left.waited += stint.hit;
                here.left.cycles -= 1 + stint.hit;
                here.place += 1;
                from = here.place;
                if room == 0 || here.left.accesses == 0 {
                    break 'next;
                }
            }
        }
    }
    Untold { gone: here, from }
}

/// Tells of so many instructions from the one of the slot at a place on, and whether the last one
/// made an access.
#[inline(always)]
pub(crate) fn tell(way: &mut Vec<Leg>, first: u64, from: usize, count: usize, made: bool)
    requires code { first + 4 * from ≤ 2 ^ 48 }
    requires room { vec_len way.old < vec_capacity way.old }
    ensures told { told_of way.new.items ≡ told_of way.old.items ++ leg_told (record { pc = first + 4 * from; count = count; made = made }) }
    ensures len { vec_len way.new ≡ vec_len way.old + 1 }
    ensures capacity { vec_capacity way.new ≡ vec_capacity way.old }
{
    way.push_reserved(Leg {
        pc: first + 4 * from as u64,
        count: count as u64,
        made,
    });
}
