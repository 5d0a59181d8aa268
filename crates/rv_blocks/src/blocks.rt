//! The loops over slots.
ghost use Rattle.std.specs.Prelude.{◌≡◌, ◌+◌, ◌-◌, ◌*◌, ◌^◌, ◌≤◌, ◌<◌, ◌⊎◌, None, false, length, IfSome, IsTrue};
ghost use Rattle.rv_core.specs.Executions.{LeadsTo, LiesIn};
ghost use Rattle.rv_blocks.specs.Flows.{is_apart, AccessesAt};
ghost use Rattle.rv_blocks.specs.Slots.{left_at, AreSlots, Ends, LiesOut};

use crate::flow::Flow;
use crate::perform::perform;
use crate::slot::{Slot, slot_at};
use elf_load::Image;
use zs_num::LINE;

/// Where a loop ended, and how much of its budget is left.
#[derive(Clone, Copy)]
pub struct Rest {
    pub place: usize,
    pub left: u64,
}

/// Where a loop stopped, and at what: the slot there was not done.
#[derive(Clone, Copy)]
pub struct Stop {
    pub rest: Rest,
    pub flow: Flow,
}

/// The loops of a core without a port, as types. For each the compiler builds what executes an
/// instruction anew, and sets it into the loop (see [`perform`]); and so it does with what behind the
/// loop answers the access. The loops of a core with a port have types made of that of the port.
pub struct ByBlocks;

pub struct OneByOne;

/// Executes instructions, each of which costs 1 of the budget, from the one of the slot at a place
/// on. A block is paid for at its entry, and what is not executed of it is given back.
#[inline(always)]
pub fn by_blocks<T>(
    _image: &Image,
    slots: &[Slot],
    first: u64,
    x: &mut [u64; 32],
    place: usize,
    budget: u64,
) -> Stop
    requires slots { AreSlots _image.now first slots.now }
    requires place { place < length slots.now }
    ensures place { result.rest.place < length slots.now }
    ensures left { result.rest.left ≤ budget }
    ensures ran { LeadsTo None (budget - result.rest.left) _image.now x.old (first + 4 * place) x.new (first + 4 * result.rest.place) }
    ensures ends { Ends first slots.now (left_at slots.now result.rest.place) result.rest.left (record { registers = x.new; place = result.rest.place }) }
    ensures access { AccessesAt slots.now result.rest.place result.flow }
    ensures stops { IsTrue (is_apart result.flow) }
{
    let mut ip = place;
    let mut left = budget;
    let cost = cost_at(slots, ip);
    if left < cost {
        return out_of_budget(ip, left);
    }
    left -= cost;
    'next: loop {
        let slot = slot_at(slots, ip);
        match perform::<T>(slot, x, first, ip, slots.len()) {
            Flow::On => ip += 1,
            Flow::To(next) => {
                ip = next;
                let cost = cost_at(slots, ip);
                if left < cost {
                    return out_of_budget(ip, left);
                }
                left -= cost;
            }
            flow => {
                // 1, since a slot that is not done ends its block.
                let rest = Rest {
                    place: ip,
                    left: left + 1,
                };
                return Stop { rest, flow };
            }
        }
    }
}

/// A loop stopped, since a block costs more than is left of its budget.
#[inline(always)]
pub(crate) fn out_of_budget(place: usize, left: u64) -> Stop
    ensures place { result.rest.place ≡ place }
    ensures left { result.rest.left ≡ left }
    ensures flow { result.flow ≡ Flow.Apart }
{
    Stop {
        rest: Rest { place, left },
        flow: Flow::Apart,
    }
}

/// How many instructions there are from the slot at a place to its block's end, both counted.
#[inline(always)]
pub(crate) fn cost_at(slots: &[Slot], place: usize) -> u64
    requires { place < length slots.now }
    ensures { result ≡ left_at slots.now place }
{
    u64::from(slot_at(slots, place).left)
}

/// Executes instructions one by one, so many at most, from the one of the slot at a place on: as
/// far as they lie in a line, if its number is given.
#[inline(never)]
pub fn one_by_one(
    _image: &Image,
    slots: &[Slot],
    first: u64,
    x: &mut [u64; 32],
    place: usize,
    most: u64,
    line: Option<u64>,
) -> Rest
    requires slots { AreSlots _image.now first slots.now }
    requires place { place < length slots.now }
    ensures place { result.place < length slots.now }
    ensures left { result.left ≤ most }
    ensures ran { LeadsTo line (most - result.left) _image.now x.old (first + 4 * place) x.new (first + 4 * result.place) }
    ensures ends { LiesOut line (first + 4 * result.place) ⊎ Ends first slots.now 1 result.left (record { registers = x.new; place = result.place }) }
{
    let mut ip = place;
    let mut left = most;
    'next: while left > 0 && lies_in(line, first + 4 * ip as u64) {
        let slot = slot_at(slots, ip);
        left -= 1;
        match perform::<OneByOne>(slot, x, first, ip, slots.len()) {
            Flow::On => ip += 1,
            Flow::To(next) => ip = next,
            Flow::Load | Flow::Store | Flow::Apart => {
                return Rest {
                    place: ip,
                    left: left + 1,
                };
            }
        }
    }
    Rest { place: ip, left }
}

/// Whether an address lies in a line, if its number is given.
#[inline(always)]
pub fn lies_in(line: Option<u64>, addr: u64) -> bool
    ensures yes { IsTrue result → LiesIn line addr }
    ensures no { result ≡ false → LiesOut line addr }
{
    match line {
        None => true,
        Some(line) => addr / LINE == line,
    }
}
