//! The loop over hits and fetches that tells where it went.
ghost use Rattle.std.specs.Prelude.{◌≡◌, ◌≢◌, ◌+◌, ◌-◌, ◌*◌, ◌%◌, ◌^◌, ◌≤◌, ◌<◌, ◌++◌, ℕ, false, List, Some, is_some, length, vec_capacity, vec_len, true, IfNone, IfSome, IsSome, IsTrue};
ghost use Rattle.elf_load.specs.MemoryImage.{fetched_word};
ghost use Rattle.zs_num.specs.Request.{line_at};
ghost use Rattle.rv_core.specs.Hits.{MakesFetch};
ghost use Rattle.rv_core.specs.Told.{leg_told, stretch_told, told_of, HasToldGoing, Told};
ghost use Rattle.rv_blocks.specs.Coming.{moment_at};
ghost use Rattle.rv_blocks.specs.Slots.{is_ebreak, AreSlots};
ghost use Rattle.rv_blocks.specs.Telling.{HasTold};

use crate::access::hit;
use crate::flow::Flow;
use crate::hits::{Gone, Left};
use crate::line::fetched_anew;
use crate::perform::perform;
use crate::slot::{Slot, slot_at};
use crate::told_hits::{Untold, tell};
use elf_load::Image;
use rv_core::{Leg, MemoryRange, Port, Stint};
use zs_num::LINE;

/// The loop of a core that fetches and tells where it went, as a type.
struct ByTellingLines;

/// As [`by_told_hits`](crate::told_hits::by_told_hits), of a core whose latest fetch was of a line:
/// it also makes the fetches that the port serves at once. Each of them is told by a leg of no
/// instruction, which made an access.
#[inline(always)]
pub fn by_told_lines<Q: Port>(
    image: &Image,
    slots: &[Slot],
    first: u64,
    x: &mut [u64; 32],
    place: usize,
    line: u64,
    memory: &MemoryRange,
    stint: &Stint,
    port: &mut Q,
    way: &mut Vec<Leg>,
) -> Gone
    requires slots { AreSlots image.now first slots.now }
    requires place { place < length slots.now }
    requires reach { memory.now.base + memory.now.size ≤ 2 ^ 48 }
    requires base { Q.base port.old ≡ memory.now.base }
    requires size { Q.size port.old ≡ memory.now.size }
    requires l1i { IsTrue (Q.l1i port.old) }
    requires aligned { first % 4 ≡ 0 }
    requires room { stint.now.accesses ≤ Q.room port.old }
    requires begins { stint.now.clock ≤ stint.now.end }
    ensures place { result.place < length slots.now }
    ensures line { IsSome result.line }
    ensures left { result.left.cycles + result.left.waited ≤ stint.now.end - stint.now.clock }
    ensures accesses { result.left.accesses ≤ stint.now.accesses }
    ensures gone { (told : List Told) × HasToldGoing image.now memory.now stint.now Q.gives Q.core Q.logged Q.room (stint.now.accesses - result.left.accesses) (record { registers = x.old; pc = first + 4 * place; line = Some line; clock = stint.now.clock; count = 0; port = port.old }) (moment_at stint.now x.new (first + 4 * result.place) result.line result.left port.new) told × (told_of way.new.items ≡ told_of way.old.items ++ told) }
    ensures port_core { Q.core port.new ≡ Q.core port.old }
    ensures port_base { Q.base port.new ≡ Q.base port.old }
    ensures port_size { Q.size port.new ≡ Q.size port.old }
    ensures port_l1i { Q.l1i port.new ≡ Q.l1i port.old }
{
    let last = by_lines::<Q>(
        image, slots, first, x, place, line, memory, stint, port, way,
    );
    tell_rest(way, first, last.from, last.gone.place);
    last.gone
}

/// Goes on as long as there is time, and room for a leg more, and tells each leg that a jump, a
/// fetch or an access ended. It stops with the last access that it may make, if it may make any.
#[inline(always)]
fn by_lines<Q: Port>(
    image: &Image,
    slots: &[Slot],
    first: u64,
    x: &mut [u64; 32],
    place: usize,
    line: u64,
    memory: &MemoryRange,
    stint: &Stint,
    port: &mut Q,
    way: &mut Vec<Leg>,
) -> Untold
    requires slots { AreSlots image.now first slots.now }
    requires place { place < length slots.now }
    requires reach { memory.now.base + memory.now.size ≤ 2 ^ 48 }
    requires base { Q.base port.old ≡ memory.now.base }
    requires size { Q.size port.old ≡ memory.now.size }
    requires l1i { IsTrue (Q.l1i port.old) }
    requires aligned { first % 4 ≡ 0 }
    requires room { stint.now.accesses ≤ Q.room port.old }
    requires begins { stint.now.clock ≤ stint.now.end }
    ensures place { result.gone.place < length slots.now }
    ensures from { result.from ≤ result.gone.place }
    ensures line { IsSome result.gone.line }
    ensures left { result.gone.left.cycles + result.gone.left.waited ≤ stint.now.end - stint.now.clock }
    ensures told { HasTold image.now memory.now stint.now Q.gives Q.core Q.logged Q.room stint.now.accesses result.gone.left.accesses (record { registers = x.old; pc = first + 4 * place; line = Some line; clock = stint.now.clock; count = 0; port = port.old }) (moment_at stint.now x.new (first + 4 * result.gone.place) result.gone.line result.gone.left port.new) way.old.items way.new.items (stretch_told (first + 4 * result.from) (result.gone.place - result.from)) }
    ensures way { result.from < result.gone.place → vec_len way.new < vec_capacity way.new }
    ensures port_core { Q.core port.new ≡ Q.core port.old }
    ensures port_base { Q.base port.new ≡ Q.base port.old }
    ensures port_size { Q.size port.new ≡ Q.size port.old }
    ensures port_l1i { Q.l1i port.new ≡ Q.l1i port.old }
{
    let mut latest = line;
    let mut left = Left {
        cycles: stint.end - stint.clock,
        waited: 0,
        accesses: stint.accesses,
    };
    let mut ip = place;
    let mut from = place;
    let mut room = way.capacity() - way.len();
    if room == 0 {
        return Untold {
            gone: Gone {
                place,
                line: Some(line),
                left,
            },
            from,
        };
    }
    'next: while left.cycles > 0 {
        let slot = slot_at(slots, ip);
        if (first + 4 * ip as u64) / LINE != latest {
            let fetched = by_fetch::<Q>(
                image, slot, first, from, ip, latest, memory, stint, left, port, way,
            );
            from = ip;
            match fetched {
                None => break 'next,
                Some(after) => {
                    left = after;
                    latest = (first + 4 * ip as u64) / LINE;
                    room = way.capacity() - way.len();
                    if room == 0 || left.accesses == 0 {
                        break 'next;
                    }
                    continue 'next;
                }
            }
        }
        match perform::<(Q, ByTellingLines)>(slot, x, first, ip, slots.len()) {
            Flow::On => {
                left.cycles -= 1;
                ip += 1;
            }
            Flow::To(next) => {
                tell(way, first, from, ip + 1 - from, false);
                room -= 1;
                left.cycles -= 1;
                ip = next;
                from = next;
                if room == 0 {
                    break 'next;
                }
            }
            flow => {
                let tried = hit::<Q, (Q, ByTellingLines)>(
                    flow, slot, x, memory, stint, &left, port,
                );
                if !tried.is_served() {
                    break 'next;
                }
                tell(way, first, from, ip + 1 - from, true);
                room -= 1;
                left.accesses -= 1;
                left.waited += stint.hit;
                left.cycles -= 1 + stint.hit;
                ip += 1;
                from = ip;
                if room == 0 || left.accesses == 0 {
                    break 'next;
                }
            }
        }
    }
    Untold {
        gone: Gone {
            place: ip,
            line: Some(latest),
            left,
        },
        from,
    }
}

/// Tells what is untold, and then, if there is room for a leg more, makes the fetch of the
/// instruction at a place and tells it. It answers what is left of the stint then. None: the fetch
/// is not made.
#[inline(always)]
fn by_fetch<Q: Port>(
    image: &Image,
    slot: &Slot,
    first: u64,
    from: usize,
    place: usize,
    latest: u64,
    memory: &MemoryRange,
    stint: &Stint,
    left: Left,
    port: &mut Q,
    way: &mut Vec<Leg>,
) -> Option<Left>
    requires other { line_at (first + 4 * place) ≢ latest }
    requires found { is_ebreak slot.now.name ≡ false → IsTrue (is_some (fetched_word image.now.segments (first + 4 * place))) }
    requires aligned { (first + 4 * place) % 4 ≡ 0 }
    requires code { first + 4 * place ≤ 2 ^ 48 }
    requires from { from ≤ place }
    requires reach { memory.now.base + memory.now.size ≤ 2 ^ 48 }
    requires base { Q.base port.old ≡ memory.now.base }
    requires size { Q.size port.old ≡ memory.now.size }
    requires l1i { IsTrue (Q.l1i port.old) }
    requires room { 0 < left.accesses → 1 ≤ Q.room port.old }
    requires begins { stint.now.clock ≤ stint.now.end }
    requires left { left.cycles + left.waited ≤ stint.now.end - stint.now.clock }
    requires way { vec_len way.old < vec_capacity way.old }
    ensures made { IfSome result (λ after. (registers : List ℕ) → MakesFetch image.now memory.now stint.now Q.gives Q.core Q.logged (moment_at stint.now registers (first + 4 * place) (Some latest) left port.old) (moment_at stint.now registers (first + 4 * place) (Some (line_at (first + 4 * place))) after port.new)) }
    ensures left { IfSome result (λ after. after.cycles + after.waited ≡ left.cycles + left.waited) }
    ensures fewer { IfSome result (λ after. after.cycles ≤ left.cycles) }
    ensures accesses { IfSome result (λ after. after.accesses + 1 ≡ left.accesses) }
    ensures told { IfSome result (λ _. told_of way.new.items ≡ (told_of way.old.items ++ stretch_told (first + 4 * from) (place - from)) ++ leg_told (record { pc = first + 4 * place; count = 0; made = true })) }
    ensures rest { IfNone result (told_of way.new.items ≡ told_of way.old.items ++ stretch_told (first + 4 * from) (place - from)) }
    ensures none { IfNone result (port.new ≡ port.old) }
    ensures within { vec_len way.new ≤ vec_capacity way.new }
    ensures port_core { Q.core port.new ≡ Q.core port.old }
    ensures port_base { Q.base port.new ≡ Q.base port.old }
    ensures port_size { Q.size port.new ≡ Q.size port.old }
    ensures port_l1i { Q.l1i port.new ≡ Q.l1i port.old }
    ensures port_room { Q.room port.old ≤ Q.room port.new + 1 }
{
    tell_rest(way, first, from, place);
    if way.len() == way.capacity() {
        return None;
    }
    let pc = first + 4 * place as u64;
    let after = fetched_anew::<Q>(image, slot, pc, latest, memory, stint, left, port);
    if after.is_some() {
        tell(way, first, place, 0, true);
    }
    after
}

/// Tells of the instructions from the one of the slot at a place on to that at another, if there are
/// any.
#[inline(always)]
fn tell_rest(way: &mut Vec<Leg>, first: u64, from: usize, place: usize)
    requires code { first + 4 * place ≤ 2 ^ 48 }
    requires from { from ≤ place }
    requires room { from < place → vec_len way.old < vec_capacity way.old }
    ensures told { told_of way.new.items ≡ told_of way.old.items ++ stretch_told (first + 4 * from) (place - from) }
    ensures len { vec_len way.new ≤ vec_len way.old + 1 }
    ensures capacity { vec_capacity way.new ≡ vec_capacity way.old }
{
    if from < place {
        tell(way, first, from, place - from, false);
    }
}
