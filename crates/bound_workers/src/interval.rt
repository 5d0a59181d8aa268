//! The bound phase of an interval by several workers.
ghost use Rattle.std.specs.Prelude.{◌≡◌, ◌+◌, ◌*◌, ◌<◌, ◌≤◌, ◌^◌, ℕ, [], All, Some, length, map, slice_get, vec_capacity, vec_len, IfOk, OnOk};
ghost use Rattle.std.specs.Arc.{arc_value};
ghost use Rattle.crew.specs.Crews.{free_seats};
ghost use Rattle.noc_mesh.specs.NetTiming.{net_time};
ghost use Rattle.machine_desc.specs.Machine.{IsMachine};
ghost use Rattle.access_record.specs.Turns.{in_turns};
ghost use Rattle.bound_core.specs.NumberedCores.{NumberedCore, timed_of};
ghost use Rattle.bound_core.specs.ShardPort.{AreShardsOf};
ghost use Rattle.bound_core.specs.TimedCore.{beside_cycles};
ghost use Rattle.bound_records.specs.CoreRuns.{AreNumbered, IsNetOf};
ghost use Rattle.bound_records.specs.Intervals.{AreKept, CanAllRun, HaveRun};
ghost use Rattle.bound_records.specs.Recorders.{IsRecorderFor, core_room};
ghost use Rattle.parts_table.specs.TurnOrder.{AreTurnsOf};
ghost use Rattle.bound_workers.specs.Intervals.{HaveSeats};
ghost use Rattle.bound_workers.specs.Team.{IsFree};
ghost use Rattle.bound_workers.specs.Shares.{HaveReturned, mates};

use crate::buffers::{Tools, WorkBuffers};
use crate::hiring::{hire, let_go};
use crate::member::Member;
use crate::team::Team;
use crate::work::Work;
use crate::working::work_all;
use bound_core::{BESIDE_CYCLES, BoundCore, PartsPort};
use bound_records::{CoreRecord, Recorder, RecorderParts};
use crew::{Asker, Post};
use machine_desc::Machine;
use noc_mesh::Net;
use parts_table::{Blocks, CoreSeat, Merge, PartsTable, Places};
use rv_blocks::DecodedProgram;
use std::alloc::Global;
use std::sync::{Arc, Wait};
use zs_host::Gate;
use zs_num::{Cycle, NoMemory};

/// Runs the cores to the end of the interval, cycle `end`, by so many workers: each runs the cores
/// whose number is its own modulo the number of workers, in ascending order. Before each access,
/// when it holds nothing, a worker passes the gate. Worker 0 runs here, and each later one at the
/// post of the number before its own, or here where that takes none. The recorder then has the
/// accesses of this interval, and of no other. The list names the core of each, in an order in which
/// one machine makes them one after the other.
pub fn bound_by<'a, R: Wait + Sync, G: Gate>(
    rt: &'a R,
    alloc: Global,
    machine: &'a Machine,
    program: &'a DecodedProgram<'a>,
    net: &'a Net,
    end: Cycle,
    workers: u16,
    gate: &'a G,
    posts: &[Post<Work<'a, R, G>>],
    askers: &mut [Asker<Work<'a, R, G>>],
    mut cores: Vec<BoundCore>,
    recorder: Recorder,
    buffers: &mut WorkBuffers,
) -> Result<(Vec<BoundCore>, Recorder, Vec<u16>), NoMemory>
    requires machine { IsMachine machine.now }
    requires net { IsNetOf machine.now net.now }
    requires end { end ≤ 10 * 2 ^ 30 }
    requires workers { (1 ≤ workers) × (workers ≤ 64) }
    requires posts { workers ≤ length posts.now + 1 }
    requires askers { askers.old ≡ free_seats posts.now }
    requires recorder { IsRecorderFor machine.now recorder }
    requires shards { AreShardsOf machine.now.cores recorder.world.shards machine.now.memory.base machine.now.memory.size }
    requires banks { length recorder.world.shards ≡ machine.now.l2.banks }
    requires count { length cores.items ≡ machine.now.cores }
    requires ready { CanAllRun machine.now end cores.items recorder }
    requires numbered { AreNumbered cores.items }
    ensures run { IfOk result (λ r. HaveRun machine.now program.now end r.2.items (in_turns r.2.items r.1.lists) cores.items r.0.items recorder r.1) }
    ensures kept { IfOk result (λ r. AreKept machine.now r.1) }
    ensures few { IfOk result (λ r. length r.2.items < 2 ^ 32) }
    ensures known { IfOk result (λ r. All (λ number. number < machine.now.cores) r.2.items) }
    ensures askers { askers.new ≡ askers.old }
{
    bound_core::laws::histories_are_phases();
    access_log::laws::stamps_rise();
    access_log::laws::cores_decide_the_order();
    access_log::laws::recorded_order_keeps_the_stamps();
    access_record::laws::records_stand_for_accesses();
    access_record::laws::records_keep_each_access();
    access_record::laws::records_keep_the_events();
    noc_mesh::laws::net_accesses_have_few_events();
    noc_mesh::laws::net_accesses_beyond_hits_have_events();
    noc_mesh::laws::net_events_are_in_a_row();
    parts_table::order_laws::turns_put_in_order();
    let room = (machine.interval + BESIDE_CYCLES) as u32;
    let tools = buffers.take(alloc, workers, machine.cores, room)?;
    let Tools {
        mut teams,
        blocks,
        mut merge,
    } = tools;
    reserve_all(machine, &mut cores)?;
    let mut back = Returned::with_room(alloc, machine.cores)?;
    let parts = recorder.take_apart(alloc, end.saturating_sub(machine.interval))?;
    let (shards, stamps) = parts.port.take_apart();
    let (table, seats) = match PartsTable::make(alloc, shards, room, blocks) {
        Ok(made) => made,
        Err((error, _shards)) => return Err(error),
    };
    let table = Arc::new(alloc, table)?;
    run_teams(
        rt,
        alloc,
        gate,
        posts,
        askers,
        &table,
        program,
        net,
        machine,
        end,
        cores,
        seats,
        parts.records,
        &mut teams,
        &mut back,
    )?;
    let Returned {
        cores,
        seats,
        records,
    } = back;
    let (shards, mut blocks) = only(rt, table).close(seats);
    let turns = turns_of(alloc, buffers, &records, &mut blocks, &mut merge)?;
    let recorder = Recorder::of(
        alloc,
        RecorderParts {
            port: PartsPort::of(shards, stamps),
            records,
            banks: parts.banks,
            begin: parts.begin,
            base: parts.base,
            room: parts.room,
        },
        &turns,
    )?;
    buffers.put(Tools {
        teams,
        blocks,
        merge,
    });
    Ok((cores, recorder, turns))
}

/// Each core gets room on its console for what it can write in an interval.
fn reserve_all(machine: &Machine, cores: &mut [BoundCore]) -> Result<(), NoMemory>
    requires { IsMachine machine.now }
    ensures timed { OnOk result (timed_of cores.new ≡ timed_of cores.old) }
    ensures numbered { OnOk result (AreNumbered cores.old → AreNumbered cores.new) }
    ensures spare { OnOk result ((i : ℕ) (c : NumberedCore) → slice_get cores.new i ≡ Some c → machine.now.interval + beside_cycles ≤ c.spare) }
{
    for number in 0..cores.len() {
        cores[number].reserve(machine.interval)?;
    }
    Ok(())
}

/// The cores that ran, their seats, and what is kept of them, in order of their numbers.
#[derive(Drop)]
struct Returned {
    cores: Vec<BoundCore>,
    seats: Vec<CoreSeat>,
    records: Vec<CoreRecord>,
}

impl Returned {
    /// No core yet, and room for so many.
    fn with_room(alloc: Global, cores: u16) -> Result<Self, NoMemory>
        ensures cores { IfOk result (λ b. (b.cores.items ≡ []) × (cores ≤ vec_capacity b.cores)) }
        ensures seats { IfOk result (λ b. (b.seats.items ≡ []) × (cores ≤ vec_capacity b.seats)) }
        ensures records { IfOk result (λ b. (b.records.items ≡ []) × (cores ≤ vec_capacity b.records)) }
    {
        Ok(Returned {
            cores: Vec::with_capacity(alloc, usize::from(cores))?,
            seats: Vec::with_capacity(alloc, usize::from(cores))?,
            records: Vec::with_capacity(alloc, usize::from(cores))?,
        })
    }
}

/// All cores run to the end of the interval, and come back in order of their numbers with their
/// seats and what is kept of them.
fn run_teams<'a, R: Wait + Sync, G: Gate>(
    rt: &'a R,
    alloc: Global,
    gate: &'a G,
    posts: &[Post<Work<'a, R, G>>],
    askers: &mut [Asker<Work<'a, R, G>>],
    table: &Arc<PartsTable>,
    program: &'a DecodedProgram<'a>,
    net: &'a Net,
    machine: &'a Machine,
    end: Cycle,
    cores: Vec<BoundCore>,
    seats: Vec<CoreSeat>,
    records: Vec<CoreRecord>,
    teams: &mut Vec<Team>,
    back: &mut Returned,
) -> Result<(), NoMemory>
    requires machine { IsMachine machine.now }
    requires end { end ≤ 10 * 2 ^ 30 }
    requires hired { HaveSeats machine.now end (arc_value table.now) cores.items seats.items records.items }
    requires teams { (0 < vec_len teams.old) × (vec_len teams.old ≤ 64) × All (IsFree machine.now.cores) teams.old.items }
    requires posts { vec_len teams.old ≤ length posts.now + 1 }
    requires askers { askers.old ≡ free_seats posts.now }
    requires back { (back.old.cores.items ≡ []) × (machine.now.cores ≤ vec_capacity back.old.cores) }
    requires seats_back { (back.old.seats.items ≡ []) × (machine.now.cores ≤ vec_capacity back.old.seats) }
    requires records_back { (back.old.records.items ≡ []) × (machine.now.cores ≤ vec_capacity back.old.records) }
    ensures returned { OnOk result (HaveReturned (λ e. net_time net.now.path e) program.now end (arc_value table.now) (mates cores.items seats.items records.items) back.new.cores.items back.new.seats.items back.new.records.items) }
    ensures askers { askers.new ≡ askers.old }
{
    dealing::laws::dealt_are_among_these::<Member, Option<Places>>();
    dealing::laws::changed_are_dealt::<Member, Option<Places>>();
    hire(cores, seats, records, teams.as_mut_slice());
    work_all(
        rt,
        alloc,
        gate,
        posts,
        askers,
        table,
        program,
        net,
        &machine.memory,
        end,
        teams,
    )?;
    let_go(
        teams.as_mut_slice(),
        machine.cores,
        &mut back.cores,
        &mut back.seats,
        &mut back.records,
    );
    Ok(())
}

/// The table, when no worker has it any more. It waits for those that have it.
fn only<R: Wait>(rt: &R, table: Arc<PartsTable>) -> PartsTable
    ensures { result ≡ arc_value table }
{
    let mut shared = table;
    for _ in rt.forever() {
        match Arc::try_unwrap(shared) {
            Ok(table) => return table,
            Err(same) => shared = same,
        }
    }
    unreachable!()
}

/// The cores of all accesses, in the order of their keys.
fn turns_of(
    alloc: Global,
    buffers: &mut WorkBuffers,
    records: &[CoreRecord],
    blocks: &mut [Blocks],
    merge: &mut Merge,
) -> Result<Vec<u16>, NoMemory>
    requires cores { length blocks.old ≡ merge.old }
    requires some { 0 < merge.old }
    requires few { merge.old ≤ 256 }
    requires sizes { map (λ k. length k.log.entries) records.now ≡ map (λ b. length b.keys) blocks.old }
    ensures { IfOk result (λ turns. AreTurnsOf (map (λ b. b.keys) blocks.old) turns.items) }
{
    let mut count: usize = 0;
    for kept in records {
        count += kept.log.len() as usize;
    }
    let mut turns = buffers.take_turns(alloc, count)?;
    merge.put_in_order(blocks, &mut turns);
    Ok(turns)
}
