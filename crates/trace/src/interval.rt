//! An interval of a run under a list of turns.
ghost use Rattle.std.specs.Prelude.{◌≡◌, ◌*◌, ◌<◌, ◌≤◌, ◌^◌, ◌++◌, ◌∷◌, min, ℕ, List, [], All, Some, Err, IfErr, IfOk, OnOk, length, map, slice_get};
ghost use Rattle.machine_desc.specs.Components.{component_count};
ghost use Rattle.machine_desc.specs.Machine.{IsMachine};
ghost use Rattle.elf_load.specs.MemoryImage.{MemoryImage};
ghost use Rattle.bound_core.specs.History.{begun_over_shards};
ghost use Rattle.bound_core.specs.ReferenceMachine.{bound_phase};
ghost use Rattle.bound_core.specs.ShardPort.{base_of, l1i_of, room_of, size_of};
ghost use Rattle.bound_core.specs.ShardWorld.{restarted, shards_serve};
ghost use Rattle.bound_core.specs.NumberedCores.{NumberedCore, timed_of};
ghost use Rattle.bound_records.specs.CoreRuns.{AreNumbered, CanRunInterval, IsNetOf};
ghost use Rattle.reference.specs.ReferenceRun.{RunState, access_room, after_interval, time_of, woven_interval};
ghost use Rattle.replay.specs.Replay.{IfIllegal};
ghost use Rattle.run.specs.IntervalWeave.{interval_of};
ghost use Rattle.run.specs.Simulation.{HasNextInterval, HasRoomForInterval, IsBoundPhase, LeadsTo};
ghost use Rattle.trace.specs.Port.{leaves_shards, phase_of};
ghost use Rattle.trace.specs.Trace.{Ended, interval_steps, phase_steps};
ghost use Rattle.trace.specs.TracedRun.{HasBounded, HasFired, as_run};
ghost use Rattle.trace.specs.Turns.{HaveTurned};

use crate::Tracer;
use crate::logged_port::LoggedPort;
use crate::traced_run::TracedRun;
use crate::turns::take_turns;
use bound_core::BoundCore;
use bound_records::reserve_all;
use event_graph::{FiredList, Graph};
use machine_desc::Machine;
use noc_mesh::Net;
use replay::ReplayFail;
use run::{WovenInterval, access_room, delay_all, events_of, woven_of};
use rv_blocks::DecodedProgram;
use rv_core::Leg;
use std::alloc::Global;
use weave_seq::weave_by_core;
use zs_num::{Cycle, Entries, Entry, NoMemory};

/// Runs this interval, which ends at cycle `end`, 10 * 2^30 at most, under a list of turns, and
/// tells its steps. Answers `list`, whose memory the accesses took, or the first place of the turns
/// that is not legal.
pub fn interval_under<T: Tracer>(
    run: &mut TracedRun,
    alloc: Global,
    machine: &Machine,
    program: &DecodedProgram<'_>,
    net: &Net,
    end: Cycle,
    interval: u32,
    turns: &[u16],
    list: Vec<Entry>,
    tracer: &mut T,
) -> Result<Vec<Entry>, ReplayFail>
    requires machine { IsMachine machine.now }
    requires net { IsNetOf machine.now net.now }
    requires end { end ≤ 10 * 2 ^ 30 }
    requires known { All (λ number. number < machine.now.cores) turns.now }
    requires few { length turns.now < 2 ^ 32 }
    requires room { HasRoomForInterval machine.now end (as_run machine.now run.old) }
    requires goes_on { (s : RunState) × HasNextInterval machine.now end s (as_run machine.now run.old) }
    ensures leads { OnOk result ((s : RunState) → HasNextInterval machine.now end s (as_run machine.now run.old) → LeadsTo machine.now program.now s turns.now (as_run machine.now run.new)) }
    ensures told { OnOk result ((s : RunState) → HasNextInterval machine.now end s (as_run machine.now run.old) → T.steps tracer.new ≡ T.steps tracer.old ++ interval_steps machine.now program.now s turns.now) }
    ensures fixed { T.fixed tracer.new ≡ T.fixed tracer.old }
    ensures illegal { IfErr result (λ fail. IfIllegal fail (λ at. (at.interval ≡ interval) × ((s : RunState) → HasNextInterval machine.now end s (as_run machine.now run.old) → after_interval machine.now program.now s turns.now ≡ Err (record { interval = length s.intervals; place = at.place })))) }
{
    rv_core::laws::cores_stay_sound();
    rv_core::laws::accesses_are_paired_right();
    shard::laws::leaving_is_the_machines();
    shard::laws::marks();
    shard::laws::shards_stand_for_a_machine();
    bound_core::laws::shards_do_as_the_machine();
    let entries = bound_under(
        run, alloc, machine, program, net, end, interval, turns, list, tracer,
    )?;
    Ok(weave_interval(run, alloc, machine, net, entries, tracer)?)
}

/// Fires the events of an interval whose bound phase is done, with these accesses, takes them in, and
/// tells its end. Answers the list of the accesses, for its memory.
pub fn weave_interval<T: Tracer>(
    run: &mut TracedRun,
    alloc: Global,
    machine: &Machine,
    net: &Net,
    entries: Entries,
    tracer: &mut T,
) -> Result<Vec<Entry>, NoMemory>
    requires machine { IsMachine machine.now }
    requires net { IsNetOf machine.now net.now }
    requires bounded { (image : MemoryImage) × (s : RunState) × (turns : List ℕ) × HasBounded machine.now image s turns (as_run machine.now run.old) entries }
    ensures leads { OnOk result ((image : MemoryImage) (s : RunState) (turns : List ℕ) → HasBounded machine.now image s turns (as_run machine.now run.old) entries → LeadsTo machine.now image s turns (as_run machine.now run.new)) }
    ensures told { OnOk result ((image : MemoryImage) (s : RunState) (turns : List ℕ) → HasBounded machine.now image s turns (as_run machine.now run.old) entries → T.steps tracer.new ≡ T.steps tracer.old ++ Ended (woven_interval machine.now s.comps entries) ∷ []) }
    ensures fixed { T.fixed tracer.new ≡ T.fixed tracer.old }
{
    noc_mesh::laws::net_events_are_in_a_row();
    let graph = events_of(alloc, machine, net, &entries, &run.comps)?;
    let fired = weave_by_core(alloc, net, &graph, machine.cores, &mut run.comps)?;
    take_in(run, alloc, machine, &entries, graph, fired, tracer)?;
    Ok(entries.into_list())
}

/// The bound phase of an interval under a list of turns. Answers its accesses.
fn bound_under<T: Tracer>(
    run: &mut TracedRun,
    alloc: Global,
    machine: &Machine,
    program: &DecodedProgram<'_>,
    net: &Net,
    end: Cycle,
    interval: u32,
    turns: &[u16],
    list: Vec<Entry>,
    tracer: &mut T,
) -> Result<Entries, ReplayFail>
    requires machine { IsMachine machine.now }
    requires net { IsNetOf machine.now net.now }
    requires end { end ≤ 10 * 2 ^ 30 }
    requires known { All (λ number. number < machine.now.cores) turns.now }
    requires few { length turns.now < 2 ^ 32 }
    requires room { HasRoomForInterval machine.now end (as_run machine.now run.old) }
    ensures bounded { IfOk result (IsBoundPhase machine.now program.now end (as_run machine.now run.old) turns.now (as_run machine.now run.new)) }
    ensures told { IfOk result (λ _. T.steps tracer.new ≡ T.steps tracer.old ++ phase_steps shards_serve leaves_shards program.now end (time_of machine.now) turns.now (begun_over_shards (timed_of run.old.cores.items) (map restarted run.old.port.world.shards))) }
    ensures fixed { T.fixed tracer.new ≡ T.fixed tracer.old }
    ensures illegal { IfErr result (λ fail. IfIllegal fail (λ at. (at.interval ≡ interval) × (bound_phase shards_serve (time_of machine.now) program.now end turns.now (begun_over_shards (timed_of run.old.cores.items) (map restarted run.old.port.world.shards)) ≡ Err at.place))) }
    ensures comps { run.new.comps ≡ run.old.comps }
    ensures counters { run.new.counters ≡ run.old.counters }
{
    bound_core::laws::phases_are_histories();
    access_log::laws::rising_stamps_are_distinct();
    access_log::laws::stamps_rise();
    run.port.begin(access_room(machine) as usize, list)?;
    run_turns(
        machine,
        program,
        net,
        end,
        interval,
        turns,
        &mut run.cores,
        &mut run.port,
        &mut run.way,
        tracer,
    )?;
    let entries = run.port.take_sorted(alloc)?;
    Ok(entries)
}

/// Runs the cores to the end of this interval under a list of turns, or answers the first place of
/// the list that is not legal.
fn run_turns<T: Tracer>(
    machine: &Machine,
    program: &DecodedProgram<'_>,
    net: &Net,
    end: Cycle,
    interval: u32,
    turns: &[u16],
    cores: &mut [BoundCore],
    port: &mut LoggedPort,
    way: &mut Vec<Leg>,
    tracer: &mut T,
) -> Result<(), ReplayFail>
    requires machine { IsMachine machine.now }
    requires net { IsNetOf machine.now net.now }
    requires end { end ≤ 10 * 2 ^ 30 }
    requires known { All (λ number. number < machine.now.cores) turns.now }
    requires few { length turns.now < 2 ^ 32 }
    requires count { length cores.old ≡ machine.now.cores }
    requires ready { (i : ℕ) (c : NumberedCore) → slice_get cores.old i ≡ Some c → CanRunInterval machine.now end (base_of port.old.world) (size_of port.old.world) (l1i_of port.old.world) c.timed }
    requires numbered { AreNumbered cores.old }
    requires stamps { length port.old.world.stamps ≡ machine.now.cores }
    requires none { port.old.entries ≡ [] }
    requires room { access_room machine.now ≤ min (room_of port.old.world) port.old.room }
    ensures turned { OnOk result (HaveTurned machine.now program.now end turns.now cores.old cores.new port.old port.new) }
    ensures told { OnOk result (T.steps tracer.new ≡ T.steps tracer.old ++ phase_steps shards_serve leaves_shards program.now end (time_of machine.now) turns.now (phase_of cores.old port.old)) }
    ensures fixed { T.fixed tracer.new ≡ T.fixed tracer.old }
    ensures illegal { IfErr result (λ fail. IfIllegal fail (λ at. (at.interval ≡ interval) × (bound_phase shards_serve (time_of machine.now) program.now end turns.now (phase_of cores.old port.old) ≡ Err at.place))) }
{
    reserve_all(machine, cores)?;
    take_turns(program, net, end, interval, turns, cores, port, way, tracer)?;
    Ok(())
}

/// Takes in an interval whose events have fired: adds to each core's clock what it waited, and
/// counts the interval.
fn take_in<T: Tracer>(
    run: &mut TracedRun,
    alloc: Global,
    machine: &Machine,
    entries: &Entries,
    graph: Graph,
    fired: FiredList,
    tracer: &mut T,
) -> Result<(), NoMemory>
    requires machine { IsMachine machine.now }
    requires fired { (image : MemoryImage) × (s : RunState) × (turns : List ℕ) × HasFired machine.now image s turns (as_run machine.now run.old) entries.now graph fired }
    requires core_counts { length run.old.counters.core_counts ≡ machine.now.cores }
    requires comp_counts { length run.old.counters.comp_counts ≡ component_count machine.now }
    requires cores { All (λ e. e.core < machine.now.cores) entries.now }
    ensures leads { OnOk result ((image : MemoryImage) (s : RunState) (turns : List ℕ) → HasFired machine.now image s turns (as_run machine.now run.old) entries.now graph fired → (leads : LeadsTo machine.now image s turns (as_run machine.now run.new)) × (leads.entries ≡ entries.now)) }
    ensures told { OnOk result ((image : MemoryImage) (s : RunState) (turns : List ℕ) → HasFired machine.now image s turns (as_run machine.now run.old) entries.now graph fired → T.steps tracer.new ≡ T.steps tracer.old ++ Ended (woven_interval machine.now s.comps entries.now) ∷ []) }
    ensures fixed { T.fixed tracer.new ≡ T.fixed tracer.old }
{
    stats::laws::counters_are_sums();
    stats::laws::sums_fit();
    bound_core::laws::shards_do_as_the_machine();
    bound_core::laws::phases_are_histories();
    bound_core::laws::intervals_begin();
    event_graph::laws::machine_components_stay();
    let woven = woven_of(alloc, machine, graph, fired)?;
    tell_end(tracer, entries, &woven)?;
    delay_all(&mut run.cores, woven.delays.as_slice());
    run.counters.add(
        entries,
        &woven.graph,
        &woven.fired,
        &woven.delays,
        &run.comps,
    );
    Ok(())
}

/// Tells the end of an interval with these accesses.
fn tell_end<T: Tracer>(
    tracer: &mut T,
    entries: &Entries,
    woven: &WovenInterval,
) -> Result<(), NoMemory>
    ensures told { OnOk result (T.steps tracer.new ≡ T.steps tracer.old ++ Ended (interval_of entries.now woven.now) ∷ []) }
    ensures fixed { T.fixed tracer.new ≡ T.fixed tracer.old }
{
    let delays = woven.delays.as_slice();
    tracer.ended(entries, &woven.graph, &woven.fired, delays)
}
