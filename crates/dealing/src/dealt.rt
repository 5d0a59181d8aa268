//! Which worker has which things.
ghost use Rattle.std.specs.Prelude.{◌≡◌, ◌+◌, ◌∷◌, List};
ghost use Rattle.dealing.specs.Dealing.{AreDealt, with_next};
ghost use Rattle.dealing.specs.Workers.{CanGive, CanTake, queues_of, rooms_of, tools_of};

use crate::worker::Worker;

/// Gives the thing of a number to its worker, which has it before all others. These have greater
/// numbers: things are given in descending order.
pub fn give<T, X>(workers: &mut [Worker<T, X>], number: usize, item: T)
    requires { CanGive number workers.old }
    ensures queues { queues_of workers.new ≡ with_next number item (queues_of workers.old) }
    ensures dealt { (items : List T) → AreDealt (number + 1) items (queues_of workers.old) → AreDealt number (item ∷ items) (queues_of workers.new) }
    ensures rooms { rooms_of workers.new ≡ rooms_of workers.old }
    ensures tools { tools_of workers.new ≡ tools_of workers.old }
{
    let worker = number % workers.len();
    workers[worker].queue.push_front_reserved(item);
}

/// Takes the thing of a number from its worker, where it is the first. Things are taken in ascending
/// order.
pub fn take<T, X>(workers: &mut [Worker<T, X>], number: usize) -> T
    requires { CanTake number workers.old }
    ensures queues { queues_of workers.old ≡ with_next number result (queues_of workers.new) }
    ensures dealt { (item : T) (items : List T) → AreDealt number (item ∷ items) (queues_of workers.old) → (result ≡ item) × AreDealt (number + 1) items (queues_of workers.new) }
    ensures rooms { rooms_of workers.new ≡ rooms_of workers.old }
    ensures tools { tools_of workers.new ≡ tools_of workers.old }
{
    let own = number % workers.len();
    let Some(item) = workers[own].queue.pop_front() else {
        unreachable!()
    };
    item
}
