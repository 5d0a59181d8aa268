//! The accesses that wait for their events, core by core.
ghost use Rattle.std.specs.Prelude.{◌≡◌, ◌==◌, ◌<◌, ◌≤◌, ◌++◌, ◌∷◌, ◌^◌, [], ℕ, OnOk, if◌then◌else◌, length};
ghost use Rattle.profile.specs.Makers.{head, queue_at, tail};

use crate::contribution::Maker;
use std::alloc::Global;
use std::marker::Model;
use zs_num::NoMemory;

/// Accesses of a core, in order. What was taken off stays in the list until it is cleared.
#[derive(Drop)]
pub(crate) struct Queue {
    makers: Vec<Maker>,
    taken: usize,
}

impl Model for Queue {
    ghost use Rattle.std.specs.Prelude.{List, drop, length, ◌≤◌};
    ghost use Rattle.profile.specs.declared.contribution.Maker.{Maker};

    ghost Value = { List Maker };

    ghost view = { λ q. drop q.taken q.makers.items };

    ghost invariant = { λ q. q.taken ≤ length q.makers.items };
}

impl Queue {
    fn new(alloc: Global) -> Queue
        ensures { result ≡ [] }
    {
        Queue {
            makers: Vec::new(alloc),
            taken: 0,
        }
    }

    fn push(&mut self, maker: Maker) -> Result<(), NoMemory>
        ensures { OnOk result (self.new ≡ self.old ++ maker ∷ []) }
    {
        self.makers.push(maker)?;
        Ok(())
    }

    /// The first access.
    fn first(&self) -> Option<Maker>
        ensures { result ≡ head self.now }
    {
        self.makers.get(self.taken).copied()
    }

    /// Takes it off.
    fn take(&mut self)
        ensures { self.new ≡ tail self.old }
    {
        if self.taken < self.makers.len() {
            self.taken += 1;
        }
    }

    fn clear(&mut self)
        ensures { self.new ≡ [] }
    {
        self.makers.clear();
        self.taken = 0;
    }
}

/// The first access of a core.
pub(crate) fn first_of(queues: &Vec<Queue>, core: u16) -> Option<Maker>
    ensures { result ≡ head (queue_at queues.now.items core) }
{
    let core = usize::from(core);
    if core < queues.len() {
        queues[core].first()
    } else {
        None
    }
}

/// Takes the first access of a core off.
pub(crate) fn take_first(queues: &mut Vec<Queue>, core: u16)
    ensures { (c : ℕ) → queue_at queues.new.items c ≡ (if core == c then tail (queue_at queues.old.items c) else queue_at queues.old.items c) }
{
    let core = usize::from(core);
    if core < queues.len() {
        let queue = &mut queues[core];
        queue.take();
    }
}

/// Puts an access behind those of its core.
pub(crate) fn put(alloc: Global, queues: &mut Vec<Queue>, maker: Maker) -> Result<(), NoMemory>
    ensures { OnOk result ((c : ℕ) → queue_at queues.new.items c ≡ (if maker.core == c then queue_at queues.old.items c ++ maker ∷ [] else queue_at queues.old.items c)) }
{
    let core = usize::from(maker.core);
    if core >= queues.len() {
        add_queues(alloc, queues, core)?;
    }
    put_there(queues, core, maker)
}

fn put_there(queues: &mut Vec<Queue>, core: usize, maker: Maker) -> Result<(), NoMemory>
    requires { core < length queues.old.items }
    ensures { OnOk result ((c : ℕ) → queue_at queues.new.items c ≡ (if core == c then queue_at queues.old.items c ++ maker ∷ [] else queue_at queues.old.items c)) }
{
    let queue = &mut queues[core];
    queue.push(maker)?;
    Ok(())
}

/// Adds empty queues, up to that of this core.
#[inline(never)]
fn add_queues(alloc: Global, queues: &mut Vec<Queue>, core: usize) -> Result<(), NoMemory>
    requires { core < 2 ^ 16 }
    ensures there { OnOk result (core < length queues.new.items) }
    ensures same { (c : ℕ) → queue_at queues.new.items c ≡ queue_at queues.old.items c }
{
    while queues.len() <= core {
        queues.push(Queue::new(alloc))?;
    }
    Ok(())
}

/// Clears all queues.
pub(crate) fn clear(queues: &mut Vec<Queue>)
    ensures { (c : ℕ) → queue_at queues.new.items c ≡ [] }
{
    for core in 0..queues.len() {
        clear_there(queues, core);
    }
}

fn clear_there(queues: &mut Vec<Queue>, core: usize)
    requires { core < length queues.old.items }
    ensures each { (c : ℕ) → queue_at queues.new.items c ≡ (if core == c then [] else queue_at queues.old.items c) }
    ensures count { length queues.new.items ≡ length queues.old.items }
{
    let queue = &mut queues[core];
    queue.clear();
}
