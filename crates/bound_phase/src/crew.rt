//! The cores of a worker, and all workers beside each other.
ghost use Rattle.std.specs.Prelude.{◌≡◌, ◌<◌, ◌≤◌, ℕ, length, slice_index_or};
ghost use Rattle.std.specs.Thread.{IsSync};
ghost use Rattle.bound_phase.specs.Crew.{CanWork, Crew, HasWorked};

use crate::member::{Member, run};
use dealing::Worker;
use event_graph::Expand;
use machine_desc::Memory;
use rv_core::Program;
use shard_table::ShardTable;
use std::sync::Wait;
use std::thread;
use std::thread::Threads;
use zs_host::Gate;
use zs_num::Cycle;

/// Runs the cores of a worker to the end of the interval, one after the other: the first of its queue
/// comes behind all others as it has run.
fn work<R: Wait, G: Gate, P: Program, X: Expand>(
    rt: &R,
    gate: &G,
    table: &ShardTable,
    program: &P,
    expansion: &X,
    memory: &Memory,
    end: Cycle,
    worker: u16,
    crew: &mut Worker<Member, ()>,
)
    requires { CanWork table.now memory.now end crew.old }
    ensures { HasWorked (X.time expansion.now) (P.image program.now) end table.now crew.old crew.new }
{
    for _ in 0..crew.queue.len() {
        let Some(member) = crew.queue.pop_front() else {
            unreachable!()
        };
        let member = run(
            rt, gate, table, program, expansion, memory, end, worker, member,
        );
        crew.queue.push_back_reserved(member);
    }
}

/// All workers run their cores to the end of the interval, each in a thread of its own where one
/// can be made.
pub(crate) fn work_all<R: Threads + Wait + Sync, G: Gate, P: Program + Sync, X: Expand + Sync>(
    rt: &R,
    gate: &G,
    table: &ShardTable,
    program: &P,
    expansion: &X,
    memory: &Memory,
    end: Cycle,
    crews: &mut [Worker<Member, ()>],
)
    requires some { 0 < length crews.old }
    requires few { length crews.old ≤ 64 }
    requires can { (i : ℕ) (d : Crew) → i < length crews.old → CanWork table.now memory.now end (slice_index_or crews.old i d) }
    ensures count { length crews.new ≡ length crews.old }
    ensures worked { (i : ℕ) (d : Crew) → i < length crews.old
        → HasWorked (X.time expansion.now) (P.image program.now) end table.now (slice_index_or crews.old i d) (slice_index_or crews.new i d) }
{
    let threads = crews.len();
    thread::for_each_mut(
        rt,
        crews,
        threads,
        &|worker: usize, crew: &mut Worker<Member, ()>|
            requires { IsSync G.row × (worker < 64) × CanWork table.now memory.now end crew.now }
            ensures { HasWorked (X.time expansion.entry.now) (P.image program.entry.now) end table.entry.now crew.entry.now crew.exit.now }
        {
            work(
                rt,
                gate,
                table,
                program,
                expansion,
                memory,
                end,
                worker as u16,
                crew,
            )
        },
    );
}
