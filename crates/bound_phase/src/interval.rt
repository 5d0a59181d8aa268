//! The bound phase of an interval.
ghost use Rattle.std.specs.Prelude.{◌≡◌, ◌<◌, ◌≤◌, ◌+◌, ◌^◌, ◌*◌, [], All, length, map, vec_capacity, IfOk, IfErr, OnOk};
ghost use Rattle.machine_desc.specs.Machine.{IsMachine};
ghost use Rattle.bound_core.specs.TimedCore.{beside_cycles};
ghost use Rattle.dealing.specs.Workers.{AreFree};
ghost use Rattle.bound_phase.specs.Bounds.{HaveNewSeats, CanBound, HasConsoleRoom, HaveEndedInterval, IsBound};
ghost use Rattle.bound_phase.specs.Shares.{HaveReturned, mates};

use crate::crew::work_all;
use crate::hiring::{hire, let_go};
use crate::member::Member;
use access_log::{CoreLog, Merger};
use bound_core::{BESIDE_CYCLES, BoundCore};
use dealing::Worker;
use event_graph::Expand;
use machine_desc::Machine;
use rv_core::Program;
use shard::Shard;
use shard_table::{CoreSeat, ShardTable};
use std::alloc::Global;
use std::mem;
use std::sync::Wait;
use std::thread::Threads;
use zs_host::Gate;
use zs_num::{Cycle, Entries, Entry, NoMemory};

/// Memory that one bound phase leaves to the next.
#[derive(Drop)]
pub struct PhaseBuffers {
    list: Vec<Entry>,
    logs: Vec<CoreLog>,
}

impl PhaseBuffers {
    /// No memory, as before the first bound phase.
    pub fn new(alloc: Global) -> Self {
        PhaseBuffers {
            list: Vec::new(alloc),
            logs: Vec::new(alloc),
        }
    }

    /// Leaves the buffer of a list to the next list of accesses.
    pub fn put_list(&mut self, list: Vec<Entry>) {
        self.list = list;
    }

    /// Takes the buffer that was left for a list. Its items mean nothing.
    pub fn take_list(&mut self, alloc: Global) -> Vec<Entry> {
        mem::replace(&mut self.list, Vec::new(alloc))
    }

    fn take_logs(&mut self, alloc: Global) -> Vec<CoreLog> {
        mem::replace(&mut self.logs, Vec::new(alloc))
    }
}

/// Cores and shards at the end of an interval, and the accesses of all cores in recorded order.
#[derive(Drop)]
pub struct Bounded {
    pub cores: Vec<BoundCore>,
    pub shards: Vec<Shard>,
    pub entries: Entries,
}

/// Runs the cores to the end of the interval, cycle `end`, by so many workers: each runs the cores
/// whose number is its own modulo the number of workers, in ascending order. Before each access,
/// when it holds no shard, a worker passes the gate. Where memory runs out, cores and shards come
/// back as they were, with no entries.
pub fn bound<R: Threads + Wait + Sync, G: Gate, P: Program + Sync, X: Expand + Sync>(
    rt: &R,
    alloc: Global,
    machine: &Machine,
    program: &P,
    expansion: &X,
    cores: Vec<BoundCore>,
    shards: Vec<Shard>,
    end: Cycle,
    workers: u16,
    gate: &G,
) -> Result<Bounded, (NoMemory, Bounded)>
    requires machine { IsMachine machine.now }
    requires can { CanBound machine.now end cores.items shards.items }
    requires end { end ≤ 2 ^ 60 }
    requires workers { (0 < workers) × (workers ≤ 64) }
    ensures bound { IfOk result (λ b. IsBound (X.time expansion.now) (P.image program.now) end cores.items shards.items b.cores.items b.shards.items b.entries) }
    ensures ended { IfOk result (λ b. HaveEndedInterval machine.now end cores.items b.cores.items b.entries) }
    ensures cores { IfErr result (λ back. (map (λ c. c.timed) back.1.cores.items ≡ map (λ c. c.timed) cores.items) × (map (λ c. c.number) back.1.cores.items ≡ map (λ c. c.number) cores.items)) }
    ensures shards { IfErr result (λ back. back.1.shards.items ≡ shards.items) }
    ensures none { IfErr result (λ back. back.1.entries ≡ []) }
{
    let mut buffers = PhaseBuffers::new(alloc);
    bound_in(
        rt,
        alloc,
        &mut buffers,
        machine,
        program,
        expansion,
        cores,
        shards,
        end,
        workers,
        gate,
    )
}

/// Runs the cores to the end of the interval, cycle `end`, by so many workers: each runs the cores
/// whose number is its own modulo the number of workers, in ascending order. Before each access,
/// when it holds no shard, a worker passes the gate. Where memory runs out, cores and shards come
/// back as they were, with no entries. Of the memory, that which an earlier bound phase left is
/// taken first, and what the next can take is left.
pub fn bound_in<R: Threads + Wait + Sync, G: Gate, P: Program + Sync, X: Expand + Sync>(
    rt: &R,
    alloc: Global,
    left: &mut PhaseBuffers,
    machine: &Machine,
    program: &P,
    expansion: &X,
    mut cores: Vec<BoundCore>,
    shards: Vec<Shard>,
    end: Cycle,
    workers: u16,
    gate: &G,
) -> Result<Bounded, (NoMemory, Bounded)>
    requires machine { IsMachine machine.now }
    requires can { CanBound machine.now end cores.items shards.items }
    requires end { end ≤ 2 ^ 60 }
    requires workers { (0 < workers) × (workers ≤ 64) }
    ensures bound { IfOk result (λ b. IsBound (X.time expansion.now) (P.image program.now) end cores.items shards.items b.cores.items b.shards.items b.entries) }
    ensures ended { IfOk result (λ b. HaveEndedInterval machine.now end cores.items b.cores.items b.entries) }
    ensures cores { IfErr result (λ back. (map (λ c. c.timed) back.1.cores.items ≡ map (λ c. c.timed) cores.items) × (map (λ c. c.number) back.1.cores.items ≡ map (λ c. c.number) cores.items)) }
    ensures shards { IfErr result (λ back. back.1.shards.items ≡ shards.items) }
    ensures none { IfErr result (λ back. back.1.entries ≡ []) }
{
    access_log::laws::rising_stamps_are_distinct();
    access_log::laws::rising_lists_stay();
    access_log::laws::cores_decide_the_order();
    let list = left.take_list(alloc);
    let earlier = left.take_logs(alloc);
    let memory = match Buffers::new(alloc, machine, &mut cores, workers, list) {
        Ok(memory) => memory,
        Err(error) => return Err((error, no_entries(alloc, cores, shards))),
    };
    let Buffers {
        mut crews,
        mut back,
        mut seats_back,
        merger,
    } = memory;
    match ShardTable::make_over(alloc, shards, machine.cores, room_of(machine), earlier) {
        Ok((table, seats)) => {
            run_crews(
                rt,
                gate,
                &table,
                program,
                expansion,
                machine,
                end,
                cores,
                seats,
                &mut crews,
                &mut back,
                &mut seats_back,
            );
            let (shards, logs) = table.close(seats_back);
            let entries = merger.merge(&logs);
            left.logs = logs;
            Ok(Bounded {
                cores: back,
                shards,
                entries,
            })
        }
        Err((error, shards)) => Err((error, no_entries(alloc, cores, shards))),
    }
}

/// All cores run to the end of the interval, and come back in order of their numbers with their
/// seats.
fn run_crews<R: Threads + Wait + Sync, G: Gate, P: Program + Sync, X: Expand + Sync>(
    rt: &R,
    gate: &G,
    table: &ShardTable,
    program: &P,
    expansion: &X,
    machine: &Machine,
    end: Cycle,
    cores: Vec<BoundCore>,
    seats: Vec<CoreSeat>,
    crews: &mut [Worker<Member, ()>],
    back: &mut Vec<BoundCore>,
    seats_back: &mut Vec<CoreSeat>,
)
    requires machine { IsMachine machine.now }
    requires end { end ≤ 2 ^ 60 }
    requires hired { HaveNewSeats machine.now end table.now cores.items seats.items }
    requires crews { (0 < length crews.old) × (length crews.old ≤ 64) × AreFree machine.now.cores crews.old }
    requires back { (back.old.items ≡ []) × (machine.now.cores ≤ vec_capacity back.old) }
    requires seats_back { (seats_back.old.items ≡ []) × (machine.now.cores ≤ vec_capacity seats_back.old) }
    ensures { HaveReturned (X.time expansion.now) (P.image program.now) end table.now (mates cores.items seats.items) back.new.items seats_back.new.items }
{
    dealing::laws::dealt_are_among_these::<Member, ()>();
    dealing::laws::changed_are_dealt::<Member, ()>();
    hire(cores, seats, crews);
    work_all(
        rt,
        gate,
        table,
        program,
        expansion,
        &machine.memory,
        end,
        crews,
    );
    let_go(crews, machine.cores, back, seats_back);
}

/// Cores and shards as they were handed in.
fn no_entries(alloc: Global, cores: Vec<BoundCore>, shards: Vec<Shard>) -> Bounded
    ensures { result ≡ record { cores = cores; shards = shards; entries = [] } }
{
    Bounded {
        cores,
        shards,
        entries: Entries::of(Vec::new(alloc)),
    }
}

/// The room for the accesses of a core.
fn room_of(machine: &Machine) -> u32
    requires { IsMachine machine.now }
    ensures { result ≡ machine.now.interval + beside_cycles }
{
    (machine.interval + BESIDE_CYCLES) as u32
}

/// All memory that a bound phase takes, beside that of the table.
struct Buffers {
    crews: Vec<Worker<Member, ()>>,
    back: Vec<BoundCore>,
    seats_back: Vec<CoreSeat>,
    merger: Merger,
}

impl Buffers {
    fn new(
        alloc: Global,
        machine: &Machine,
        cores: &mut [BoundCore],
        workers: u16,
        list: Vec<Entry>,
    ) -> Result<Self, NoMemory>
        requires machine { IsMachine machine.now }
        requires count { length cores.old ≡ machine.now.cores }
        requires workers { (0 < workers) × (workers ≤ 64) }
        ensures count { length cores.new ≡ length cores.old }
        ensures timed { map (λ c. c.timed) cores.new ≡ map (λ c. c.timed) cores.old }
        ensures number { map (λ c. c.number) cores.new ≡ map (λ c. c.number) cores.old }
        ensures spare { OnOk result (All (HasConsoleRoom (machine.now.interval + beside_cycles)) cores.new) }
        ensures crews { IfOk result (λ m. (0 < length m.crews.items) × (length m.crews.items ≤ 64) × AreFree machine.now.cores m.crews.items) }
        ensures back { IfOk result (λ m. (m.back.items ≡ []) × (machine.now.cores ≤ vec_capacity m.back)) }
        ensures seats { IfOk result (λ m. (m.seats_back.items ≡ []) × (machine.now.cores ≤ vec_capacity m.seats_back)) }
        ensures merger { IfOk result (λ m. m.merger ≡ machine.now.cores * (machine.now.interval + beside_cycles)) }
    {
        reserve_all(cores, machine.interval)?;
        Ok(Buffers {
            crews: dealing::workers(
                alloc,
                usize::from(workers.min(machine.cores)),
                usize::from(machine.cores),
            )?,
            back: Vec::with_capacity(alloc, usize::from(machine.cores))?,
            seats_back: Vec::with_capacity(alloc, usize::from(machine.cores))?,
            merger: Merger::over(list, u32::from(machine.cores) * room_of(machine))?,
        })
    }
}

/// Makes room on the console of each core for what it can write in the interval.
fn reserve_all(cores: &mut [BoundCore], interval: u64) -> Result<(), NoMemory>
    requires { interval ≤ 10000 }
    ensures count { length cores.new ≡ length cores.old }
    ensures timed { map (λ c. c.timed) cores.new ≡ map (λ c. c.timed) cores.old }
    ensures number { map (λ c. c.number) cores.new ≡ map (λ c. c.number) cores.old }
    ensures spare { OnOk result (All (HasConsoleRoom (interval + beside_cycles)) cores.new) }
{
    for i in 0..cores.len() {
        cores[i].reserve(interval)?;
    }
    Ok(())
}
