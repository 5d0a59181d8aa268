//! The slots of a table are made of homes and L1s, which come back.
ghost use Rattle.std.specs.Prelude.{◌≡◌, ◌+◌, ◌<◌, ◌≤◌, ◌++◌, [], length, map, vec_capacity};
ghost use Rattle.std.specs.Mem.Slots.{slots_items, slots_len, IsFull};
ghost use Rattle.parts_table.specs.Slots.{home_in_slot, home_slot, homes_of, l1_in_slot, l1_slot, l1s_of};

use crate::part::{Part, TimedPart};
use atomic_table::Closed;
use home::Home;
use l1_cache::L1;
use std::alloc::Global;

/// Puts all L1s into slots.
pub(crate) fn put_l1s(slots: &mut Vec<Option<TimedPart>>, l1s: &mut Vec<L1>)
    requires room { length slots.old.items + length l1s.old.items ≤ vec_capacity slots.old }
    ensures slots { slots.new.items ≡ slots.old.items ++ map l1_slot l1s.old.items }
    ensures room { vec_capacity slots.new ≡ vec_capacity slots.old }
    ensures empty { (l1s.new.items ≡ []) × (vec_capacity l1s.new ≡ vec_capacity l1s.old) }
{
    while !l1s.is_empty() {
        let part = Part::L1(l1s.remove(0));
        slots.push_reserved(Some(TimedPart { time: 0, part }));
    }
}

/// Puts all homes into slots.
pub(crate) fn put_homes(slots: &mut Vec<Option<TimedPart>>, homes: &mut Vec<Home>)
    requires room { length slots.old.items + length homes.old.items ≤ vec_capacity slots.old }
    ensures slots { slots.new.items ≡ slots.old.items ++ map home_slot homes.old.items }
    ensures room { vec_capacity slots.new ≡ vec_capacity slots.old }
    ensures empty { (homes.new.items ≡ []) × (vec_capacity homes.new ≡ vec_capacity homes.old) }
{
    while !homes.is_empty() {
        let part = Part::Home(homes.remove(0));
        slots.push_reserved(Some(TimedPart { time: 0, part }));
    }
}

/// Puts what a slot has behind the others.
fn put_back(slot: Option<TimedPart>, homes: &mut Vec<Home>, l1s: &mut Vec<L1>)
    requires homes { length homes.old.items + length (home_in_slot slot) ≤ vec_capacity homes.old }
    requires l1s { length l1s.old.items + length (l1_in_slot slot) ≤ vec_capacity l1s.old }
    ensures homes { (homes.new.items ≡ homes.old.items ++ home_in_slot slot) × (vec_capacity homes.new ≡ vec_capacity homes.old) }
    ensures l1s { (l1s.new.items ≡ l1s.old.items ++ l1_in_slot slot) × (vec_capacity l1s.new ≡ vec_capacity l1s.old) }
{
    match slot {
        Some(
            TimedPart {
                part: Part::Home(home),
                ..
            },
        ) => homes.push_reserved(home),
        Some(
            TimedPart {
                part: Part::L1(l1),
                ..
            },
        ) => l1s.push_reserved(l1),
        None => {}
    }
}

/// The homes and the L1s of slots, put into lists with room.
pub(crate) fn taken_back(
    mut slots: Vec<Option<TimedPart>>,
    mut homes: Vec<Home>,
    mut l1s: Vec<L1>,
) -> (Vec<Home>, Vec<L1>)
    requires homes { (homes.items ≡ []) × (length (homes_of slots.items) ≤ vec_capacity homes) }
    requires l1s { (l1s.items ≡ []) × (length (l1s_of slots.items) ≤ vec_capacity l1s) }
    ensures homes { result.0.items ≡ homes_of slots.items }
    ensures l1s { result.1.items ≡ l1s_of slots.items }
{
    while !slots.is_empty() {
        put_back(slots.remove(0), &mut homes, &mut l1s);
    }
    (homes, l1s)
}

/// The homes and the L1s of a table that nobody shares any more, put into lists with room.
pub(crate) fn taken_out(
    mut closed: Closed<Option<TimedPart>, Global>,
    mut homes: Vec<Home>,
    mut l1s: Vec<L1>,
) -> (Vec<Home>, Vec<L1>)
    requires full { IsFull closed.slots }
    requires homes { (homes.items ≡ []) × (length (homes_of (slots_items closed.slots)) ≤ vec_capacity homes) }
    requires l1s { (l1s.items ≡ []) × (length (l1s_of (slots_items closed.slots)) ≤ vec_capacity l1s) }
    ensures homes { result.0.items ≡ homes_of (slots_items closed.slots) }
    ensures l1s { result.1.items ≡ l1s_of (slots_items closed.slots) }
{
    for number in 0..closed.slot_count() {
        put_back(closed.take(number), &mut homes, &mut l1s);
    }
    closed.free();
    (homes, l1s)
}
