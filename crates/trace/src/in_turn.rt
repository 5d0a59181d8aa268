//! An interval of a run whose cores take their turns one after the other.
ghost use Rattle.std.specs.Prelude.{◌≡◌, ◌*◌, ◌<◌, ◌≤◌, ◌^◌, ◌++◌, min, ℕ, [], All, Some, IfOk, OnOk, length, map, slice_get};
ghost use Rattle.machine_desc.specs.Machine.{IsMachine};
ghost use Rattle.bound_core.specs.History.{begun_over_shards};
ghost use Rattle.bound_core.specs.ShardPort.{base_of, l1i_of, room_of, size_of};
ghost use Rattle.bound_core.specs.ShardWorld.{restarted, shards_serve};
ghost use Rattle.bound_core.specs.NumberedCores.{NumberedCore, timed_of};
ghost use Rattle.bound_records.specs.CoreRuns.{AreNumbered, CanRunInterval, IsNetOf};
ghost use Rattle.reference.specs.ReferenceRun.{RunState, access_room, time_of};
ghost use Rattle.run.specs.Simulation.{HasNextInterval, HasRoomForInterval, IsBoundPhase, LeadsTo};
ghost use Rattle.trace.specs.EachCore.{IsCoreAfterCore};
ghost use Rattle.trace.specs.Port.{leaves_shards, phase_of};
ghost use Rattle.trace.specs.Trace.{interval_steps, phase_steps};
ghost use Rattle.trace.specs.TracedRun.{as_run};
ghost use Rattle.trace.specs.Turns.{HaveTurned};

use crate::Tracer;
use crate::each_core::take_each;
use crate::interval::weave_interval;
use crate::logged_port::LoggedPort;
use crate::traced_run::TracedRun;
use bound_core::BoundCore;
use bound_records::reserve_all;
use machine_desc::Machine;
use noc_mesh::Net;
use run::access_room;
use rv_blocks::DecodedProgram;
use rv_core::Leg;
use std::alloc::Global;
use zs_num::{Cycle, Entries, Entry, NoMemory};

/// What an interval leaves: the list of its accesses, for its memory, and the list of its turns, each
/// the number of its core.
#[derive(Drop)]
pub struct Done {
    pub list: Vec<Entry>,
    pub turns: Vec<u16>,
}

/// What a bound phase leaves: its accesses, and the list of its turns.
#[derive(Drop)]
struct Bounded {
    entries: Entries,
    turns: Vec<u16>,
}

/// Runs this interval, which ends at cycle `end`, 10 * 2^30 at most, core after core, and tells its
/// steps. The accesses take the memory of `list`; `untold` has a list for each core.
pub fn interval_in_turn<T: Tracer>(
    run: &mut TracedRun,
    alloc: Global,
    machine: &Machine,
    program: &DecodedProgram<'_>,
    net: &Net,
    end: Cycle,
    list: Vec<Entry>,
    untold: &mut [Vec<Leg>],
    tracer: &mut T,
) -> Result<Done, NoMemory>
    requires machine { IsMachine machine.now }
    requires net { IsNetOf machine.now net.now }
    requires end { end ≤ 10 * 2 ^ 30 }
    requires room { HasRoomForInterval machine.now end (as_run machine.now run.old) }
    requires goes_on { (s : RunState) × HasNextInterval machine.now end s (as_run machine.now run.old) }
    requires lists { length untold.old ≡ machine.now.cores }
    ensures leads { IfOk result (λ done. (s : RunState) → HasNextInterval machine.now end s (as_run machine.now run.old) → LeadsTo machine.now program.now s done.turns.items (as_run machine.now run.new)) }
    ensures told { IfOk result (λ done. (s : RunState) → HasNextInterval machine.now end s (as_run machine.now run.old) → T.steps tracer.new ≡ T.steps tracer.old ++ interval_steps machine.now program.now s done.turns.items) }
    ensures fixed { T.fixed tracer.new ≡ T.fixed tracer.old }
    ensures in_turn { IfOk result (λ done. IsCoreAfterCore done.turns.items) }
    ensures known { IfOk result (λ done. All (λ number. number < machine.now.cores) done.turns.items) }
    ensures few { IfOk result (λ done. length done.turns.items < 2 ^ 32) }
    ensures lists { length untold.new ≡ length untold.old }
{
    rv_core::laws::cores_stay_sound();
    rv_core::laws::accesses_are_paired_right();
    shard::laws::leaving_is_the_machines();
    shard::laws::marks();
    shard::laws::shards_stand_for_a_machine();
    bound_core::laws::shards_do_as_the_machine();
    let Bounded { entries, turns } = bound_in_turn(
        run, alloc, machine, program, net, end, list, untold, tracer,
    )?;
    let list = weave_interval(run, alloc, machine, net, entries, tracer)?;
    Ok(Done { list, turns })
}

/// The bound phase of an interval, core after core.
fn bound_in_turn<T: Tracer>(
    run: &mut TracedRun,
    alloc: Global,
    machine: &Machine,
    program: &DecodedProgram<'_>,
    net: &Net,
    end: Cycle,
    list: Vec<Entry>,
    untold: &mut [Vec<Leg>],
    tracer: &mut T,
) -> Result<Bounded, NoMemory>
    requires machine { IsMachine machine.now }
    requires net { IsNetOf machine.now net.now }
    requires end { end ≤ 10 * 2 ^ 30 }
    requires room { HasRoomForInterval machine.now end (as_run machine.now run.old) }
    requires lists { length untold.old ≡ machine.now.cores }
    ensures bounded { IfOk result (λ b. IsBoundPhase machine.now program.now end (as_run machine.now run.old) b.turns.items (as_run machine.now run.new) b.entries) }
    ensures told { IfOk result (λ b. T.steps tracer.new ≡ T.steps tracer.old ++ phase_steps shards_serve leaves_shards program.now end (time_of machine.now) b.turns.items (begun_over_shards (timed_of run.old.cores.items) (map restarted run.old.port.world.shards))) }
    ensures fixed { T.fixed tracer.new ≡ T.fixed tracer.old }
    ensures comps { run.new.comps ≡ run.old.comps }
    ensures counters { run.new.counters ≡ run.old.counters }
    ensures in_turn { IfOk result (λ b. IsCoreAfterCore b.turns.items) }
    ensures known { IfOk result (λ b. All (λ number. number < machine.now.cores) b.turns.items) }
    ensures few { IfOk result (λ b. length b.turns.items < 2 ^ 32) }
    ensures lists { length untold.new ≡ length untold.old }
{
    bound_core::laws::phases_are_histories();
    access_log::laws::rising_stamps_are_distinct();
    access_log::laws::stamps_rise();
    run.port.begin(access_room(machine) as usize, list)?;
    let mut turns = Vec::new(alloc);
    run_each(
        machine,
        program,
        net,
        end,
        &mut run.cores,
        &mut run.port,
        &mut run.way,
        untold,
        &mut turns,
        tracer,
    )?;
    let entries = run.port.take_sorted(alloc)?;
    Ok(Bounded { entries, turns })
}

/// Runs the cores to the end of this interval, one after the other. The list of their turns comes to
/// `turns`.
fn run_each<T: Tracer>(
    machine: &Machine,
    program: &DecodedProgram<'_>,
    net: &Net,
    end: Cycle,
    cores: &mut [BoundCore],
    port: &mut LoggedPort,
    way: &mut Vec<Leg>,
    untold: &mut [Vec<Leg>],
    turns: &mut Vec<u16>,
    tracer: &mut T,
) -> Result<(), NoMemory>
    requires machine { IsMachine machine.now }
    requires net { IsNetOf machine.now net.now }
    requires end { end ≤ 10 * 2 ^ 30 }
    requires count { length cores.old ≡ machine.now.cores }
    requires ready { (i : ℕ) (c : NumberedCore) → slice_get cores.old i ≡ Some c → CanRunInterval machine.now end (base_of port.old.world) (size_of port.old.world) (l1i_of port.old.world) c.timed }
    requires numbered { AreNumbered cores.old }
    requires stamps { length port.old.world.stamps ≡ machine.now.cores }
    requires none { port.old.entries ≡ [] }
    requires room { access_room machine.now ≤ min (room_of port.old.world) port.old.room }
    requires lists { length untold.old ≡ machine.now.cores }
    requires no_turns { turns.old.items ≡ [] }
    ensures turned { OnOk result (HaveTurned machine.now program.now end turns.new.items cores.old cores.new port.old port.new) }
    ensures told { OnOk result (T.steps tracer.new ≡ T.steps tracer.old ++ phase_steps shards_serve leaves_shards program.now end (time_of machine.now) turns.new.items (phase_of cores.old port.old)) }
    ensures fixed { T.fixed tracer.new ≡ T.fixed tracer.old }
    ensures in_turn { OnOk result (IsCoreAfterCore turns.new.items) }
    ensures known { OnOk result (All (λ number. number < machine.now.cores) turns.new.items) }
    ensures many { OnOk result (length turns.new.items ≡ length port.new.entries) }
    ensures lists { length untold.new ≡ length untold.old }
{
    reserve_all(machine, cores)?;
    take_each(program, net, end, cores, port, way, untold, turns, tracer)?;
    Ok(())
}
