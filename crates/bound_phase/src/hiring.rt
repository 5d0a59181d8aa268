//! Which worker runs which cores: worker w of W those whose number is w modulo W, in ascending
//! order.
ghost use Rattle.std.specs.Prelude.{◌≡◌, ◌<◌, ◌≤◌, [], length, vec_capacity};
ghost use Rattle.dealing.specs.Dealing.{AreDealt};
ghost use Rattle.dealing.specs.Workers.{AreFree, queues_of};
ghost use Rattle.bound_phase.specs.Shares.{AreReturned, HaveCores, mates};

use crate::member::Member;
use bound_core::BoundCore;
use dealing::{Worker, give, take};
use shard_table::CoreSeat;

/// Gives each worker its cores, with their seats.
pub(crate) fn hire(
    mut cores: Vec<BoundCore>,
    mut seats: Vec<CoreSeat>,
    crews: &mut [Worker<Member, ()>],
)
    requires some { 0 < length crews.old }
    requires seats { length seats.items ≡ length cores.items }
    requires free { AreFree (length cores.items) crews.old }
    ensures count { length crews.new ≡ length crews.old }
    ensures dealt { AreDealt 0 (mates cores.items seats.items) (queues_of crews.new) }
{
    while let Some(core) = cores.pop() {
        let Some(seat) = seats.pop() else {
            unreachable!()
        };
        give(crews, cores.len(), Member { core, seat });
    }
}

/// Takes the cores that ran back, in order of their numbers, and their seats.
pub(crate) fn let_go(
    crews: &mut [Worker<Member, ()>],
    count: u16,
    cores: &mut Vec<BoundCore>,
    seats: &mut Vec<CoreSeat>,
)
    requires dealt { HaveCores count crews.old }
    requires cores { (cores.old.items ≡ []) × (count ≤ vec_capacity cores.old) }
    requires seats { (seats.old.items ≡ []) × (count ≤ vec_capacity seats.old) }
    ensures { AreReturned count crews.old cores.new.items seats.new.items }
{
    for number in 0..usize::from(count) {
        let Member { core, seat } = take(crews, number);
        cores.push_reserved(core);
        seats.push_reserved(seat);
    }
}
