//! An interval of a run under a list of turns.
ghost use Rattle.std.specs.Prelude.{◌≡◌, ◌*◌, ◌<◌, ◌≤◌, ◌^◌, ℕ, All, Err, IfErr, IfOk, OnOk, Some, length, map};
ghost use Rattle.machine_desc.specs.Machine.{IsMachine};
ghost use Rattle.elf_load.specs.MemoryImage.{MemoryImage};
ghost use Rattle.bound_core.specs.History.{begun_over_shards};
ghost use Rattle.bound_core.specs.ReferenceMachine.{bound_phase};
ghost use Rattle.bound_core.specs.ShardWorld.{restarted, shards_serve};
ghost use Rattle.bound_records.specs.CoreRuns.{IsNetOf};
ghost use Rattle.bound_records.specs.Intervals.{IfIllegalTurn};
ghost use Rattle.run.specs.declared.simulation.Simulation.{Simulation};
ghost use Rattle.reference.specs.ReferenceRun.{RunState, after_interval, time_of};
ghost use Rattle.replay.specs.Replay.{IfIllegal, fail_of};
ghost use Rattle.run.specs.Simulation.{HasNextInterval, HasRecorded, HasRoomForInterval, LeadsTo, cores_of};

use crate::ReplayFail;
use access_record::Turns;
use bound_records::TurnsFail;
use machine_desc::Machine;
use noc_mesh::Net;
use run::laws::intervals_are_woven;
use run::{Simulation, delay_all, weave_replayed};
use rv_blocks::DecodedProgram;
use std::alloc::Global;
use weave_chains::ChainBuffers;
use zs_num::{Cycle, NoMemory};

/// Runs this interval, which ends at cycle `end`, 10 * 2^30 at most, under a list of turns. `places`
/// has the domain of each component. Answers the run after the interval, or the first place of the
/// turns that is not legal.
pub fn interval_under(
    simulation: Simulation,
    alloc: Global,
    machine: &Machine,
    program: &DecodedProgram<'_>,
    net: &Net,
    end: Cycle,
    interval: u32,
    turns: &[u16],
    places: &[u16],
    chain_buffers: &mut ChainBuffers,
) -> Result<Simulation, ReplayFail>
    requires machine { IsMachine machine.now }
    requires net { IsNetOf machine.now net.now }
    requires end { end ≤ 10 * 2 ^ 30 }
    requires known { All (λ number. number < machine.now.cores) turns.now }
    requires few { length turns.now < 2 ^ 32 }
    requires room { HasRoomForInterval machine.now end simulation }
    requires goes_on { (s : RunState) × HasNextInterval machine.now end s simulation }
    ensures leads { IfOk result (λ p. (s : RunState) → HasNextInterval machine.now end s simulation → LeadsTo machine.now program.now s turns.now p) }
    ensures illegal { IfErr result (λ fail. IfIllegal fail (λ at. (at.interval ≡ interval) × ((s : RunState) → HasNextInterval machine.now end s simulation → after_interval machine.now program.now s turns.now ≡ Err (record { interval = length s.intervals; place = at.place })))) }
{
    bound_core::laws::shards_do_as_the_machine();
    match bound_under(simulation, machine, program, net, end, turns) {
        Ok(mut simulation) => {
            weave_under(
                &mut simulation,
                alloc,
                machine,
                net,
                turns,
                places,
                chain_buffers,
            )?;
            Ok(simulation)
        }
        Err(fail) => Err(fail_in(interval, fail)),
    }
}

/// Why a replay fails whose turns of this interval do.
fn fail_in(interval: u32, fail: TurnsFail) -> ReplayFail
    ensures { result ≡ fail_of interval fail }
{
    match fail {
        TurnsFail::Illegal { place } => ReplayFail::Illegal { interval, place },
        TurnsFail::NoMemory => ReplayFail::NoMemory,
    }
}

/// The bound phase of an interval under a list of turns, of whose accesses the simulation then has
/// the records.
fn bound_under(
    simulation: Simulation,
    machine: &Machine,
    program: &DecodedProgram<'_>,
    net: &Net,
    end: Cycle,
    turns: &[u16],
) -> Result<Simulation, TurnsFail>
    requires machine { IsMachine machine.now }
    requires net { IsNetOf machine.now net.now }
    requires end { end ≤ 10 * 2 ^ 30 }
    requires known { All (λ number. number < machine.now.cores) turns.now }
    requires few { length turns.now < 2 ^ 32 }
    requires room { HasRoomForInterval machine.now end simulation }
    ensures recorded { IfOk result (HasRecorded machine.now program.now end simulation (Some turns.now)) }
    ensures illegal { IfErr result (λ fail. IfIllegalTurn fail (λ place. bound_phase shards_serve (time_of machine.now) program.now end turns.now (begun_over_shards (cores_of simulation) (map restarted simulation.recorder.world.shards)) ≡ Err place)) }
{
    let Simulation {
        mut cores,
        recorder,
        comps,
        counters,
    } = simulation;
    match recorder.run_under(machine, program, net, end, turns, &mut cores) {
        Ok(recorder) => Ok(Simulation {
            cores,
            recorder,
            comps,
            counters,
        }),
        Err(fail) => Err(fail),
    }
}

/// The weave of an interval that is recorded, under a list of turns.
fn weave_under(
    simulation: &mut Simulation,
    alloc: Global,
    machine: &Machine,
    net: &Net,
    turns: &[u16],
    places: &[u16],
    chain_buffers: &mut ChainBuffers,
) -> Result<(), NoMemory>
    requires machine { IsMachine machine.now }
    requires net { IsNetOf machine.now net.now }
    requires recorded { (image : MemoryImage) × (end : ℕ) × (before : Simulation) × (s : RunState) × HasNextInterval machine.now end s before × HasRecorded machine.now image end before (Some turns.now) simulation.old }
    ensures { OnOk result ((image : MemoryImage) (end : ℕ) (before : Simulation) (s : RunState) → HasNextInterval machine.now end s before → HasRecorded machine.now image end before (Some turns.now) simulation.old → LeadsTo machine.now image s turns.now simulation.new) }
{
    stats::laws::counters_are_sums();
    stats::laws::sums_fit();
    bound_core::laws::shards_do_as_the_machine();
    bound_core::laws::phases_are_histories();
    bound_core::laws::intervals_begin();
    intervals_are_woven();
    let delays = weave_replayed(
        alloc,
        machine,
        net,
        &simulation.recorder,
        Turns::Listed(turns),
        &mut simulation.comps,
        &mut simulation.counters,
        places,
        chain_buffers,
    )?;
    delay_all(&mut simulation.cores, delays.as_slice());
    Ok(())
}
