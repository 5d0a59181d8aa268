//! An interval of a run.
ghost use Rattle.std.specs.Prelude.{◌≡◌, ◌+◌, ◌*◌, ◌<◌, ◌≤◌, ◌^◌, ℕ, IfOk, IfSome, OnOk, length, map};
ghost use Rattle.std.specs.Option.{option_map};
ghost use Rattle.crew.specs.Crews.{free_seats};
ghost use Rattle.machine_desc.specs.Machine.{IsMachine};
ghost use Rattle.elf_load.specs.MemoryImage.{MemoryImage};
ghost use Rattle.bound_records.specs.CoreRuns.{IsNetOf};
ghost use Rattle.run.specs.declared.simulation.Simulation.{Simulation};
ghost use Rattle.run.specs.Recording.{IsRecordingSoFar, is_on};
ghost use Rattle.reference.specs.ReferenceRun.{RunState};
ghost use Rattle.run.specs.Records.{AreTakenSo, IsSameButAccesses, accesses_in};
ghost use Rattle.run.specs.Waiting.{IsTurnList, turns_in};
ghost use Rattle.run.specs.Simulation.{HasGoneOn, HasNextInterval, HasRecorded, HasRoomForInterval, listed};

use crate::Recording;
use crate::context::Context;
use crate::laws::intervals_are_woven;
use crate::records::weave_recorded;
use crate::simulation::{Simulation, delay_all};
use crate::waiting::{Order, Waiting};
use access_record::{OrderBuffers, Turns};
use bound_core::BoundCore;
use bound_records::Recorder;
use bound_workers::{Work, WorkBuffers, bound_by};
use crew::{Asker, Post};
use stats::CoreCount;
use std::alloc::Global;
use std::sync::Wait;
use weave_chains::ChainBuffers;
use worker_pace::{Load, Pace, SIZES, sizes};
use zs_host::Gate;
use zs_num::{Cycle, NoMemory};

/// Runs the interval that ends at cycle `end`, 10 * 2^30 at most: first each core to the interval's
/// end, by as many workers as the pace says, or by all where the gate is to be passed. Then so many
/// workers weave, as `weave_recorded` says. The recording gains the interval's events, and the pace
/// learns what the interval had. Answers the run after the interval, and the recorded order of the
/// interval's accesses, which is still to be told where several workers ran the cores and the weave
/// did not need it.
pub(crate) fn run_interval<'a, R: Wait + Sync, G: Gate>(
    context: &Context<'a, R, G>,
    simulation: Simulation,
    end: Cycle,
    pace: &mut Pace,
    posts: &[Post<Work<'a, R, G>>],
    askers: &mut [Asker<Work<'a, R, G>>],
    domains_are_worth: &mut bool,
    recording: &mut Recording,
    chain_buffers: &mut ChainBuffers,
    order_buffers: &mut OrderBuffers,
    waiting: &mut Waiting,
    buffers: &mut WorkBuffers,
) -> Result<(Simulation, Order), NoMemory>
    requires pace { (pace.old ≤ 64) × (pace.old ≤ length posts.now + 1) }
    requires askers { askers.old ≡ free_seats posts.now }
    requires workers { (1 ≤ context.now.workers) × (context.now.workers ≤ 64) }
    requires machine { IsMachine context.now.machine.now }
    requires net { IsNetOf context.now.machine.now context.now.net.now }
    requires end { end ≤ 10 * 2 ^ 30 }
    requires room { HasRoomForInterval context.now.machine.now end simulation }
    requires recording { IsRecordingSoFar context.now.machine.now recording.old }
    requires goes_on { (s : RunState) × HasNextInterval context.now.machine.now end s simulation }
    ensures goes_on { IfOk result (λ r. (s : RunState) → HasNextInterval context.now.machine.now end s simulation → HasGoneOn context.now.machine.now context.now.program.now s (turns_in r.1) recording.old recording.new r.0) }
    ensures on { is_on recording.new ≡ is_on recording.old }
    ensures turns { IfOk result (λ r. IsTurnList context.now.machine.now.cores (turns_in r.1)) }
    ensures waiting { waiting.new.orders ≡ waiting.old.orders }
    ensures pace { pace.new ≡ pace.old }
    ensures askers { askers.new ≡ askers.old }
{
    let before = instructions_of(&simulation.cores);
    let runners = runners(pace, context.gate);
    let (mut simulation, list) = bound_all(
        context, simulation, end, runners, posts, askers, buffers,
    )?;
    let instructions = instructions_of(&simulation.cores).saturating_sub(before);
    let load = load_of(instructions, simulation.recorder.counts(), pace.all());
    pace.learn(runners, load);
    let told = weave_all(
        context,
        posts,
        askers,
        &mut simulation,
        turns_of(&list),
        domains_are_worth,
        recording,
        chain_buffers,
        order_buffers,
    )?;
    let order = order_after(
        context.alloc,
        &mut simulation.recorder,
        told,
        list,
        order_buffers,
        waiting,
        buffers,
    )?;
    Ok((simulation, order))
}

/// The recorded order of an interval that is woven, for which it may have been told. It is told
/// here where no list names the turns; else the accesses and the list are put aside.
fn order_after(
    alloc: Global,
    recorder: &mut Recorder,
    told: Option<Vec<u16>>,
    list: Option<Vec<u16>>,
    order_buffers: &mut OrderBuffers,
    waiting: &mut Waiting,
    buffers: &mut WorkBuffers,
) -> Result<Order, NoMemory>
    requires few { length recorder.old.world.shards ≤ 64 }
    requires taken { AreTakenSo (option_map (λ turns. turns.items) list) recorder.old }
    requires told { IfSome told (λ cores. cores.items ≡ map (λ e. e.core) (accesses_in recorder.old)) }
    ensures order { IfOk result (λ order. turns_in order ≡ map (λ e. e.core) (accesses_in recorder.old)) }
    ensures recorder { OnOk result (IsSameButAccesses recorder.old recorder.new) }
    ensures waiting { waiting.new.orders ≡ waiting.old.orders }
{
    if let Some(cores) = told {
        buffers.keep_turns(list);
        return Ok(Order::Told(cores));
    }
    match list {
        Some(turns) => {
            let logs = waiting.take_logs(alloc, buffers);
            let unordered = recorder.put_aside(alloc, turns, logs)?;
            Ok(Order::Untold(unordered))
        }
        None => {
            let cores = recorder.recorded_cores(alloc, Turns::CoreByCore, order_buffers)?;
            Ok(Order::Told(cores))
        }
    }
}

/// How many workers run the cores: as many as the pace says, or all where the gate is to be passed.
fn runners<G: Gate>(pace: &Pace, gate: &G) -> u16
    ensures some { 1 ≤ result }
    ensures most { result ≤ pace.now }
{
    if gate.is_open() {
        pace.workers()
    } else {
        pace.all()
    }
}

/// How many instructions were counted of all cores, or the greatest number where they are more.
fn instructions_of(cores: &[BoundCore]) -> u64 {
    let mut sum: u64 = 0;
    for core in cores {
        sum = sum.saturating_add(core.instructions());
    }
    sum
}

/// So many instructions, and the accesses that were counted, where at most so many workers share the
/// cores. Of each the greatest number where they are more.
fn load_of(instructions: u64, counts: &[CoreCount], workers: u16) -> Load {
    let mut own: u64 = 0;
    let mut upgrades: u64 = 0;
    let mut others: u64 = 0;
    for count in counts {
        own = own.saturating_add(count.hits);
        upgrades = upgrades.saturating_add(count.upgrades);
        others = others.saturating_add(count.l2hits);
        others = others.saturating_add(count.misses);
    }
    let shared = others.saturating_add(upgrades);
    Load {
        instructions,
        accesses: own.saturating_add(shared),
        shared,
        upgrades,
        busiest: busiest_of_each(counts, workers),
    }
}

/// How many of the accesses are the busiest worker's, for each size in which the workers may run,
/// where so many are all.
fn busiest_of_each(counts: &[CoreCount], workers: u16) -> [u64; SIZES] {
    let sizes = sizes(workers);
    let mut busiest = [0; SIZES];
    for size in 0..SIZES {
        busiest[size] = busiest_of(counts, sizes[size]);
    }
    busiest
}

/// How many of the accesses are of that worker of so many, 64 at most, whose cores have most.
fn busiest_of(counts: &[CoreCount], workers: u16) -> u64 {
    let workers = usize::from(workers.max(1));
    let mut sums: [u64; 64] = [0; 64];
    let mut most: u64 = 0;
    for (number, count) in counts.iter().enumerate() {
        let worker = (number % workers).min(63);
        let sum = sums[worker].saturating_add(accesses_of(count));
        sums[worker] = sum;
        most = most.max(sum);
    }
    most
}

/// How many accesses were counted of a core.
fn accesses_of(count: &CoreCount) -> u64 {
    let shared = count.l2hits.saturating_add(count.misses);
    let own = count.hits.saturating_add(count.upgrades);
    own.saturating_add(shared)
}

/// The bound phase of an interval, of whose accesses the simulation then has the records. The cores
/// ran by the turns of the list that it answers, or one after the other where it answers none.
fn bound_all<'a, R: Wait + Sync, G: Gate>(
    context: &Context<'a, R, G>,
    simulation: Simulation,
    end: Cycle,
    workers: u16,
    posts: &[Post<Work<'a, R, G>>],
    askers: &mut [Asker<Work<'a, R, G>>],
    buffers: &mut WorkBuffers,
) -> Result<(Simulation, Option<Vec<u16>>), NoMemory>
    requires machine { IsMachine context.now.machine.now }
    requires net { IsNetOf context.now.machine.now context.now.net.now }
    requires end { end ≤ 10 * 2 ^ 30 }
    requires workers { (1 ≤ workers) × (workers ≤ 64) × (workers ≤ length posts.now + 1) }
    requires askers { askers.old ≡ free_seats posts.now }
    requires room { HasRoomForInterval context.now.machine.now end simulation }
    ensures recorded { IfOk result (λ r. HasRecorded context.now.machine.now context.now.program.now end simulation (option_map (λ list. list.items) r.1) r.0) }
    ensures askers { askers.new ≡ askers.old }
{
    let Simulation {
        mut cores,
        recorder,
        comps,
        counters,
    } = simulation;
    if workers == 1 {
        let recorder = recorder.run(
            context.alloc,
            context.machine,
            context.program,
            context.net,
            end,
            context.gate,
            &mut cores,
        )?;
        let simulation = Simulation {
            cores,
            recorder,
            comps,
            counters,
        };
        return Ok((simulation, None));
    }
    let (cores, recorder, turns) = bound_by(
        context.rt,
        context.alloc,
        context.machine,
        context.program,
        context.net,
        end,
        workers,
        context.gate,
        posts,
        askers,
        cores,
        recorder,
        buffers,
    )?;
    let simulation = Simulation {
        cores,
        recorder,
        comps,
        counters,
    };
    Ok((simulation, Some(turns)))
}

/// The turns of a list, or core by core where there is none.
fn turns_of(list: &Option<Vec<u16>>) -> Turns<'_>
    ensures { listed result ≡ option_map (λ list. list.items) list.now }
{
    match list {
        Some(list) => Turns::Listed(list),
        None => Turns::CoreByCore,
    }
}

/// The weave of an interval that is recorded, and whose accesses were made by these turns. Answers
/// the cores of its accesses in recorded order, where these had to be told.
fn weave_all<'a, R: Wait + Sync, G: Gate>(
    context: &Context<'a, R, G>,
    posts: &[Post<Work<'a, R, G>>],
    askers: &mut [Asker<Work<'a, R, G>>],
    simulation: &mut Simulation,
    turns: Turns<'_>,
    domains_are_worth: &mut bool,
    recording: &mut Recording,
    chain_buffers: &mut ChainBuffers,
    order_buffers: &mut OrderBuffers,
) -> Result<Option<Vec<u16>>, NoMemory>
    requires workers { (1 ≤ context.now.workers) × (context.now.workers ≤ 64) }
    requires askers { askers.old ≡ free_seats posts.now }
    requires machine { IsMachine context.now.machine.now }
    requires net { IsNetOf context.now.machine.now context.now.net.now }
    requires recording { IsRecordingSoFar context.now.machine.now recording.old }
    requires recorded { (image : MemoryImage) × (end : ℕ) × (before : Simulation) × (s : RunState) × HasNextInterval context.now.machine.now end s before × HasRecorded context.now.machine.now image end before (listed turns) simulation.old }
    ensures goes_on { OnOk result ((image : MemoryImage) (end : ℕ) (before : Simulation) (s : RunState) → HasNextInterval context.now.machine.now end s before → HasRecorded context.now.machine.now image end before (listed turns.entry) simulation.old → HasGoneOn context.now.machine.now image s (map (λ e. e.core) (accesses_in simulation.old.recorder)) recording.old recording.new simulation.new) }
    ensures told { IfOk result (λ told. IfSome told (λ cores. cores.items ≡ map (λ e. e.core) (accesses_in simulation.old.recorder))) }
    ensures recorder { OnOk result (simulation.new.recorder ≡ simulation.old.recorder) }
    ensures on { is_on recording.new ≡ is_on recording.old }
    ensures askers { askers.new ≡ askers.old }
    ensures turns { OnOk result (IsTurnList context.now.machine.now.cores (map (λ e. e.core) (accesses_in simulation.old.recorder))) }
{
    stats::laws::counters_are_sums();
    stats::laws::sums_fit();
    access_log::laws::stamps_rise();
    access_log::laws::recorded_order_keeps_the_stamps();
    access_log::laws::cores_decide_the_order();
    bound_core::laws::histories_are_phases();
    bound_core::laws::recorded_order_is_a_history();
    bound_core::laws::shards_do_as_the_machine();
    bound_core::laws::phases_are_histories();
    bound_core::laws::intervals_begin();
    intervals_are_woven();
    let (delays, told) = weave_recorded(
        context,
        posts,
        askers,
        &simulation.recorder,
        turns,
        &mut simulation.comps,
        &mut simulation.counters,
        domains_are_worth,
        recording,
        chain_buffers,
        order_buffers,
    )?;
    delay_all(&mut simulation.cores, delays.as_slice());
    Ok(told)
}
