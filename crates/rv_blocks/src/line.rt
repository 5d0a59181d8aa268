//! The loop over the slots of a line, and the fetches of lines.
ghost use Rattle.std.specs.Prelude.{◌≡◌, ◌≢◌, ◌+◌, ◌-◌, ◌*◌, ◌/◌, ◌%◌, ◌^◌, ◌≤◌, ◌<◌, ℕ, false, List, Some, is_some, length, IfNone, IfSome, IsTrue};
ghost use Rattle.elf_load.specs.MemoryImage.{fetched_word};
ghost use Rattle.zs_num.specs.Request.{line_at};
ghost use Rattle.rv_core.specs.Executions.{LeadsTo};
ghost use Rattle.rv_core.specs.Hits.{MakesFetch};
ghost use Rattle.rv_blocks.specs.Coming.{moment_at, HasCome};
ghost use Rattle.rv_blocks.specs.Flows.{is_access_flow, is_apart, AccessesAt};
ghost use Rattle.rv_blocks.specs.Slots.{is_ebreak, AreSlots};

use crate::blocks::{Rest, Stop, cost_at, out_of_budget};
use crate::flow::Flow;
use crate::hits::Left;
use crate::perform::perform;
use crate::slot::{Slot, slot_at};
use elf_load::Image;
use rv_core::{MemoryRange, Port, Stint};
use rv_decode::Name;
use zs_num::LINE;

/// The bytes of an instruction.
const WORD: u64 = 4;

/// Fetches the instruction at an address, where its line is not that of the latest fetch, and
/// answers what is left of the stint then. None: nothing was done, since the fetch does not end
/// before the stint, or is none that the port serves at once.
#[inline(always)]
pub(crate) fn fetched<Q: Port>(
    _image: &Image,
    slot: &Slot,
    pc: u64,
    latest: u64,
    memory: &MemoryRange,
    stint: &Stint,
    left: Left,
    port: &mut Q,
) -> Option<Left>
    requires found { is_ebreak slot.now.name ≡ false → IsTrue (is_some (fetched_word _image.now.segments pc)) }
    requires aligned { pc % 4 ≡ 0 }
    requires reach { memory.now.base + memory.now.size ≤ 2 ^ 48 }
    requires base { Q.base port.old ≡ memory.now.base }
    requires size { Q.size port.old ≡ memory.now.size }
    requires l1i { IsTrue (Q.l1i port.old) }
    requires room { 0 < left.accesses → 1 ≤ Q.room port.old }
    requires begins { stint.now.clock ≤ stint.now.end }
    requires left { left.cycles + left.waited ≤ stint.now.end - stint.now.clock }
    ensures left { IfSome result (λ after. after.cycles + after.waited ≡ left.cycles + left.waited) }
    ensures come { IfSome result (λ after. (registers : List ℕ) → HasCome _image.now memory.now stint.now Q.gives Q.core Q.logged Q.room left.accesses after.accesses (moment_at stint.now registers pc (Some latest) left port.old) (moment_at stint.now registers pc (Some (line_at pc)) after port.new)) }
    ensures fewer { IfSome result (λ after. after.cycles ≤ left.cycles) }
    ensures none { IfNone result (port.new ≡ port.old) }
    ensures port_core { Q.core port.new ≡ Q.core port.old }
    ensures port_base { Q.base port.new ≡ Q.base port.old }
    ensures port_size { Q.size port.new ≡ Q.size port.old }
    ensures port_l1i { Q.l1i port.new ≡ Q.l1i port.old }
{
    if pc / LINE == latest {
        return Some(left);
    }
    fetched_anew::<Q>(_image, slot, pc, latest, memory, stint, left, port)
}

/// The same of an address whose line is not that of the latest fetch: it fetches the instruction
/// there, or nothing was done.
#[inline(always)]
pub(crate) fn fetched_anew<Q: Port>(
    _image: &Image,
    slot: &Slot,
    pc: u64,
    _latest: u64,
    memory: &MemoryRange,
    stint: &Stint,
    left: Left,
    port: &mut Q,
) -> Option<Left>
    requires other { line_at pc ≢ _latest }
    requires found { is_ebreak slot.now.name ≡ false → IsTrue (is_some (fetched_word _image.now.segments pc)) }
    requires aligned { pc % 4 ≡ 0 }
    requires reach { memory.now.base + memory.now.size ≤ 2 ^ 48 }
    requires base { Q.base port.old ≡ memory.now.base }
    requires size { Q.size port.old ≡ memory.now.size }
    requires l1i { IsTrue (Q.l1i port.old) }
    requires room { 0 < left.accesses → 1 ≤ Q.room port.old }
    requires begins { stint.now.clock ≤ stint.now.end }
    requires left { left.cycles + left.waited ≤ stint.now.end - stint.now.clock }
    ensures made { IfSome result (λ after. (registers : List ℕ) → MakesFetch _image.now memory.now stint.now Q.gives Q.core Q.logged (moment_at stint.now registers pc (Some _latest) left port.old) (moment_at stint.now registers pc (Some (line_at pc)) after port.new)) }
    ensures left { IfSome result (λ after. after.cycles + after.waited ≡ left.cycles + left.waited) }
    ensures fewer { IfSome result (λ after. after.cycles ≤ left.cycles) }
    ensures accesses { IfSome result (λ after. after.accesses + 1 ≡ left.accesses) }
    ensures none { IfNone result (port.new ≡ port.old) }
    ensures port_core { Q.core port.new ≡ Q.core port.old }
    ensures port_base { Q.base port.new ≡ Q.base port.old }
    ensures port_size { Q.size port.new ≡ Q.size port.old }
    ensures port_l1i { Q.l1i port.new ≡ Q.l1i port.old }
    ensures port_room { Q.room port.old ≤ Q.room port.new + 1 }
{
    if left.cycles <= stint.fetch_hit
        || left.accesses == 0
        || is_ebreak(slot.name)
        || !memory.has(pc, WORD)
        || !port.fetch_hit(stint.end - left.cycles, pc)
    {
        return None;
    }
    Some(Left {
        cycles: left.cycles - stint.fetch_hit,
        waited: left.waited + stint.fetch_hit,
        accesses: left.accesses - 1,
    })
}

/// Whether it is the name of the slots that are left to the core, whatever stands there.
#[inline(always)]
fn is_ebreak(name: Name) -> bool
    ensures { result ≡ is_ebreak name }
{
    matches!(name, Name::Ebreak)
}

/// Executes instructions, each of which costs 1 of the budget, from the one of the slot at a place
/// on: to the end of its block or of the line in which it stands.
#[inline(always)]
pub(crate) fn by_line<T>(
    _image: &Image,
    slots: &[Slot],
    first: u64,
    x: &mut [u64; 32],
    place: usize,
    budget: u64,
) -> Stop
    requires slots { AreSlots _image.now first slots.now }
    requires place { place < length slots.now }
    requires aligned { first % 4 ≡ 0 }
    ensures place { result.rest.place < length slots.now }
    ensures left { result.rest.left ≤ budget }
    ensures ran { LeadsTo (Some (line_at (first + 4 * place))) (budget - result.rest.left) _image.now x.old (first + 4 * place) x.new (first + 4 * result.rest.place) }
    ensures access { AccessesAt slots.now result.rest.place result.flow }
    ensures lies { IsTrue (is_access_flow result.flow) → line_at (first + 4 * result.rest.place) ≡ line_at (first + 4 * place) }
    ensures goes { is_apart result.flow ≡ false → result.rest.left < budget }
{
    let within = (LINE - (first + WORD * place as u64) % LINE) / WORD;
    let end = place + within as usize;
    let cost = cost_at(slots, place).min(within);
    if budget < cost {
        return out_of_budget(place, budget);
    }
    let left = budget - cost;
    let mut ip = place;
    'next: loop {
        let slot = slot_at(slots, ip);
        match perform::<T>(slot, x, first, ip, slots.len()) {
            Flow::On => {
                ip += 1;
                if ip >= end {
                    let rest = Rest { place: ip, left };
                    return Stop {
                        rest,
                        flow: Flow::On,
                    };
                }
            }
            Flow::To(next) => {
                let rest = Rest { place: next, left };
                return Stop {
                    rest,
                    flow: Flow::On,
                };
            }
            flow => {
                // 1, since a slot that is not done ends its block.
                let rest = Rest {
                    place: ip,
                    left: left + 1,
                };
                return Stop { rest, flow };
            }
        }
    }
}
