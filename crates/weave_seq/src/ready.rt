//! The ready events, the least (start, number) first.
ghost use Rattle.std.specs.Prelude.{◌≡◌, ◌<◌, ◌≤◌, ◌∷◌, [], All, IfNone, IfOk, IfSome, IsPermutation, false, length};
ghost use Rattle.zs_num.specs.KeyOrder.{is_key_before};

use std::alloc::Global;
use std::cmp::Reverse;
use std::collections::BinaryHeap;
use std::marker::Model;
use zs_num::{Key, NoMemory};

/// The keys of the events that are ready, and the room that was taken for them.
#[derive(Drop)]
pub(crate) struct ReadyHeap {
    heap: BinaryHeap<Reverse<Key>>,
}

impl Model for ReadyHeap {
    ghost use Rattle.std.specs.Prelude.{map};
    ghost use Rattle.std.specs.Ordering.{nat_cmp, ordering_then};
    ghost use Rattle.std.specs.BinaryHeap.{IsHeap, heap_capacity, heap_items};
    ghost use Rattle.weave_seq.specs.Order.{Keys};

    ghost Value = { Keys };

    ghost view = { λ r. record { list = map (λ k. k.0) (heap_items r.heap); room = heap_capacity r.heap } };

    ghost invariant = { λ r. IsHeap (λ a b. ordering_then (nat_cmp b.0.start a.0.start) (nat_cmp b.0.number a.0.number)) (heap_items r.heap) };
}

impl ReadyHeap {
    /// No event is ready, and there is room for so many.
    pub(crate) fn with_room(alloc: Global, room: usize) -> Result<Self, NoMemory>
        ensures empty { IfOk result (λ r. r.list ≡ []) }
        ensures room { IfOk result (λ r. room ≤ r.room) }
    {
        let heap = BinaryHeap::with_capacity(alloc, room)?;
        Ok(ReadyHeap { heap })
    }

    /// One event more is ready. No memory is taken.
    pub(crate) fn push(&mut self, key: Key)
        requires { length self.old.list < self.old.room }
        ensures list { IsPermutation (key ∷ self.old.list) self.new.list }
        ensures room { self.old.room ≤ self.new.room }
    {
        match self.heap.push(Reverse(key)) {
            Ok(()) => (),
            Err(_) => unreachable!(),
        }
    }

    /// Takes out the least key.
    pub(crate) fn pop(&mut self) -> Option<Key>
        ensures list { IfSome result (λ k. IsPermutation self.old.list (k ∷ self.new.list)) }
        ensures least { IfSome result (λ k. All (λ other. is_key_before other k ≡ false) self.old.list) }
        ensures none { IfNone result (self.old.list ≡ []) }
        ensures unchanged { IfNone result (self.new ≡ self.old) }
        ensures room { self.new.room ≡ self.old.room }
    {
        match self.heap.pop() {
            Some(Reverse(key)) => Some(key),
            None => None,
        }
    }
}
