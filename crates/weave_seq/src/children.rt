//! The children of each event.
ghost use Rattle.std.specs.Prelude.{◌≡◌, ◌<◌, ◌≤◌, ◌++◌, ◌∷◌, [], length, replicate, vec_capacity, vec_len, IfOk, IfSome};
ghost use Rattle.weave_seq.specs.Chains.{last_child, parent_in, with_last_child};

use event_graph::{Event, Parent};
use std::alloc::Global;
use zs_num::NoMemory;

/// Which of an event's two parents.
#[derive(Clone, Copy)]
pub(crate) enum ParentSlot {
    First,
    Second,
}

/// For each event those that have it as their parent in this slot: the last of them, and for each
/// of them the one before. 0 is none, since event 0 has no parents.
#[derive(Drop)]
pub(crate) struct Children {
    pub(crate) slot: ParentSlot,
    pub(crate) last: Vec<u32>,
    pub(crate) before: Vec<u32>,
}

impl Children {
    /// No children yet of so many events, and room for them all.
    pub(crate) fn none(alloc: Global, slot: ParentSlot, events: usize) -> Result<Self, NoMemory>
        ensures slot { IfOk result (λ it. it.slot ≡ slot) }
        ensures last { IfOk result (λ it. it.last.items ≡ replicate events 0) }
        ensures before { IfOk result (λ it. it.before.items ≡ []) }
        ensures room { IfOk result (λ it. events ≤ vec_capacity it.before) }
    {
        Ok(Children {
            slot,
            last: vec![in alloc; 0; events]?,
            before: Vec::with_capacity(alloc, events)?,
        })
    }

    /// Makes the next event the last child of its parent. No memory is taken.
    pub(crate) fn add(&mut self, event: &Event)
        requires room { vec_len self.old.before < vec_capacity self.old.before }
        requires parent { IfSome (parent_in self.old.slot event.now) (λ p. p.number < length self.old.last.items) }
        ensures slot { self.new.slot ≡ self.old.slot }
        ensures last { self.new.last.items ≡ with_last_child self.old.last.items (parent_in self.old.slot event.now) event.now.number }
        ensures before { self.new.before.items ≡ self.old.before.items ++ last_child self.old.last.items (parent_in self.old.slot event.now) ∷ [] }
        ensures capacity { vec_capacity self.new.before ≡ vec_capacity self.old.before }
    {
        let earlier = link(&mut self.last, parent(event, self.slot), event.number);
        self.before.push_reserved(earlier);
    }
}

/// The event's parent in this slot.
pub(crate) fn parent(event: &Event, slot: ParentSlot) -> Option<Parent>
    ensures { result ≡ parent_in slot event.now }
{
    match slot {
        ParentSlot::First => event.first,
        ParentSlot::Second => event.second,
    }
}

/// Makes the child the last of its parent, and answers the one that was.
fn link(last: &mut [u32], parent: Option<Parent>, child: u32) -> u32
    requires { IfSome parent (λ p. p.number < length last.old) }
    ensures earlier { result ≡ last_child last.old parent }
    ensures after { last.new ≡ with_last_child last.old parent child }
{
    match parent {
        Some(p) => {
            let earlier = last[p.number as usize];
            last[p.number as usize] = child;
            earlier
        }
        None => 0,
    }
}
