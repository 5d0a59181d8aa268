//! A worker, and workers that have nothing yet.
ghost use Rattle.std.specs.Prelude.{◌≡◌, ◌≤◌, [], IfOk, length};
ghost use Rattle.std.specs.VecDeque.{deque_capacity};
ghost use Rattle.dealing.specs.Workers.{AreFree};

use std::alloc::{AllocError, Global};
use std::collections::VecDeque;

/// A worker: the things that it has, in ascending order of their numbers, and what it works with.
#[derive(Drop)]
pub struct Worker<T, X> {
    pub queue: VecDeque<T>,
    pub tools: X,
}

impl<T, X: Drop> Worker<T, X> {
    /// A worker that has nothing, and room for so many things.
    pub fn with_room(alloc: Global, room: usize, tools: X) -> Result<Self, AllocError>
        ensures none { IfOk result (λ w. w.queue.items ≡ []) }
        ensures room { IfOk result (λ w. room ≤ deque_capacity w.queue) }
        ensures tools { IfOk result (λ w. w.tools ≡ tools) }
    {
        let queue = VecDeque::with_capacity(alloc, room)?;
        Ok(Worker { queue, tools })
    }
}

/// So many workers that have nothing, and room for so many things each. They need nothing to work
/// with.
pub fn workers<T: Drop>(
    alloc: Global,
    count: usize,
    room: usize,
) -> Result<Vec<Worker<T, ()>>, AllocError>
    ensures count { IfOk result (λ workers. length workers.items ≡ count) }
    ensures free { IfOk result (λ workers. AreFree room workers.items) }
{
    let mut workers = Vec::with_capacity(alloc, count)?;
    for _ in 0..count {
        workers.push_reserved(Worker::with_room(alloc, room, ())?);
    }
    Ok(workers)
}
