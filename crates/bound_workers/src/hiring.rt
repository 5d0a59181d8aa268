//! Which worker runs which cores: worker w of W those whose number is w modulo W, in ascending
//! order.
ghost use Rattle.std.specs.Prelude.{◌≡◌, ◌<◌, ◌≤◌, [], All, length, vec_capacity, IfOk};
ghost use Rattle.dealing.specs.Dealing.{AreDealt};
ghost use Rattle.dealing.specs.Workers.{AreFree, queues_of, tools_of};
ghost use Rattle.bound_workers.specs.Team.{IsFree};
ghost use Rattle.bound_workers.specs.Shares.{AreReturned, HaveCores, mates};

use crate::member::Member;
use crate::team::Team;
use bound_core::BoundCore;
use bound_records::CoreRecord;
use dealing::{Worker, give, take};
use parts_table::{CoreSeat, Places};
use std::alloc::Global;
use zs_num::NoMemory;

/// So many workers without cores, each with room for all.
pub(crate) fn teams(alloc: Global, workers: u16, cores: u16) -> Result<Vec<Team>, NoMemory>
    ensures count { IfOk result (λ teams. length teams.items ≡ workers) }
    ensures free { IfOk result (λ teams. All (IsFree cores) teams.items) }
{
    let mut teams = Vec::with_capacity(alloc, usize::from(workers))?;
    for _ in 0..workers {
        let places = Places::new(alloc, cores)?;
        teams.push_reserved(Worker::with_room(alloc, usize::from(cores), Some(places))?);
    }
    Ok(teams)
}

/// Gives each worker its cores, with their seats and what is kept of them.
pub(crate) fn hire(
    mut cores: Vec<BoundCore>,
    mut seats: Vec<CoreSeat>,
    mut records: Vec<CoreRecord>,
    teams: &mut [Team],
)
    requires some { 0 < length teams.old }
    requires seats { length seats.items ≡ length cores.items }
    requires records { length records.items ≡ length cores.items }
    requires free { AreFree (length cores.items) teams.old }
    ensures places { tools_of teams.new ≡ tools_of teams.old }
    ensures dealt { AreDealt 0 (mates cores.items seats.items records.items) (queues_of teams.new) }
{
    while let Some(core) = cores.pop() {
        let Some(seat) = seats.pop() else {
            unreachable!()
        };
        let Some(record) = records.pop() else {
            unreachable!()
        };
        give(teams, cores.len(), Member { core, seat, record });
    }
}

/// Takes the cores that ran back, in order of their numbers, with their seats and records.
pub(crate) fn let_go(
    teams: &mut [Team],
    count: u16,
    cores: &mut Vec<BoundCore>,
    seats: &mut Vec<CoreSeat>,
    records: &mut Vec<CoreRecord>,
)
    requires dealt { HaveCores count teams.old }
    requires cores { (cores.old.items ≡ []) × (count ≤ vec_capacity cores.old) }
    requires seats { (seats.old.items ≡ []) × (count ≤ vec_capacity seats.old) }
    requires records { (records.old.items ≡ []) × (count ≤ vec_capacity records.old) }
    ensures { AreReturned count teams.old cores.new.items seats.new.items records.new.items }
{
    for number in 0..usize::from(count) {
        let Member { core, seat, record } = take(teams, number);
        cores.push_reserved(core);
        seats.push_reserved(seat);
        records.push_reserved(record);
    }
}
