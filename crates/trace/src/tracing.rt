//! The run of an executable, which tells each of its steps.
ghost use Rattle.std.specs.Prelude.{◌≡◌, ◌++◌, [], IfOk, length, List};
ghost use Rattle.std.specs.List.{range_with_len};
ghost use Rattle.machine_desc.specs.Machine.{IsMachine};
ghost use Rattle.reference.specs.ReferenceRun.{IsRunOf};
ghost use Rattle.reference.specs.Results.{HasCounts};
ghost use Rattle.replay.specs.Replay.{Replays};
ghost use Rattle.run.specs.Simulation.{IsAtStart};
ghost use Rattle.trace.specs.InTurn.{IsInTurn};
ghost use Rattle.trace.specs.Trace.{IsTraceOf, Step};
ghost use Rattle.trace.specs.TracedRun.{as_run};

use crate::Tracer;
use crate::in_turn::{Done, interval_in_turn};
use crate::interval::interval_under;
use crate::traced_run::TracedRun;
use access_log::Schedule;
use component::laws::fresh_components_are_there;
use elf_load::Image;
use machine_desc::Machine;
use noc_mesh::Net;
use replay::ReplayFail;
use run::Final;
use rv_blocks::DecodedProgram;
use rv_core::Leg;
use std::alloc::Global;
use zs_num::NoMemory;

/// Replays a run on one thread, and tells each of its steps. Illegal names the first place of the
/// schedule that is not legal for the run.
pub fn trace<T: Tracer>(
    alloc: Global,
    machine: &Machine,
    image: &Image,
    schedule: &Schedule,
    tracer: &mut T,
) -> Result<Final, ReplayFail>
    requires machine { IsMachine machine.now }
    requires base { image.now.base ≡ machine.now.memory.base }
    requires size { image.now.size ≡ machine.now.memory.size }
    requires cores { schedule.now.cores ≡ machine.now.cores }
    ensures gives { Replays machine.now image.now schedule.now.lists result }
    ensures counted { IfOk result (HasCounts machine.now) }
    ensures numbered { IfOk result (λ r. r.numbers ≡ range_with_len 0 machine.now.cores) }
    ensures told { IfOk result (λ _. (steps : List Step) × IsTraceOf machine.now image.now schedule.now.lists steps × (T.steps tracer.new ≡ T.steps tracer.old ++ steps)) }
    ensures fixed { T.fixed tracer.new ≡ T.fixed tracer.old }
{
    let program = DecodedProgram::of(alloc, image)?;
    let traced = TracedRun::new(alloc, machine, image)?;
    trace_on(alloc, machine, &program, traced, schedule, tracer)
}

/// The same, of a run that is at its start.
fn trace_on<T: Tracer>(
    alloc: Global,
    machine: &Machine,
    program: &DecodedProgram<'_>,
    mut run: TracedRun,
    schedule: &Schedule,
    tracer: &mut T,
) -> Result<Final, ReplayFail>
    requires machine { IsMachine machine.now }
    requires starts { IsAtStart machine.now program.now (as_run machine.now run) }
    requires cores { schedule.now.cores ≡ machine.now.cores }
    ensures gives { Replays machine.now program.now schedule.now.lists result }
    ensures counted { IfOk result (HasCounts machine.now) }
    ensures numbered { IfOk result (λ r. r.numbers ≡ range_with_len 0 machine.now.cores) }
    ensures told { IfOk result (λ _. (steps : List Step) × IsTraceOf machine.now program.now schedule.now.lists steps × (T.steps tracer.new ≡ T.steps tracer.old ++ steps)) }
    ensures fixed { T.fixed tracer.new ≡ T.fixed tracer.old }
{
    let net = Net::of(machine);
    let mut list = Vec::new(alloc);
    let lists = schedule.intervals();
    let mut k = 0;
    let mut end = 0;
    while !run.has_ended(machine, k) {
        if k == lists {
            return Err(ReplayFail::Illegal {
                interval: k,
                place: 0,
            });
        }
        end += machine.interval;
        let turns = schedule.list(k);
        list = interval_under(
            &mut run, alloc, machine, program, &net, end, k, turns, list, tracer,
        )?;
        k += 1;
    }
    if k < lists {
        return Err(ReplayFail::Illegal {
            interval: k,
            place: 0,
        });
    }
    Ok(run.results(k))
}

/// Runs an executable on one thread, in each interval core after core, as one worker does, and tells
/// each of its steps. The schedule gains the list of each interval; where memory runs out, it
/// has those of the first intervals.
pub fn trace_in_turn<T: Tracer>(
    alloc: Global,
    machine: &Machine,
    image: &Image,
    schedule: &mut Schedule,
    tracer: &mut T,
) -> Result<Final, NoMemory>
    requires machine { IsMachine machine.now }
    requires base { image.now.base ≡ machine.now.memory.base }
    requires size { image.now.size ≡ machine.now.memory.size }
    requires empty { schedule.old.lists ≡ [] }
    requires cores { schedule.old.cores ≡ machine.now.cores }
    ensures ran { IfOk result (IsRunOf machine.now image.now schedule.new.lists) }
    ensures in_turn { IsInTurn machine.now image.now schedule.new.lists }
    ensures cores { schedule.new.cores ≡ schedule.old.cores }
    ensures counted { IfOk result (HasCounts machine.now) }
    ensures numbered { IfOk result (λ r. r.numbers ≡ range_with_len 0 machine.now.cores) }
    ensures told { IfOk result (λ _. (steps : List Step) × IsTraceOf machine.now image.now schedule.new.lists steps × (T.steps tracer.new ≡ T.steps tracer.old ++ steps)) }
    ensures fixed { T.fixed tracer.new ≡ T.fixed tracer.old }
{
    fresh_components_are_there();
    let program = DecodedProgram::of(alloc, image)?;
    let traced = TracedRun::new(alloc, machine, image)?;
    trace_turns(alloc, machine, &program, traced, schedule, tracer)
}

/// The same, of a run that is at its start.
fn trace_turns<T: Tracer>(
    alloc: Global,
    machine: &Machine,
    program: &DecodedProgram<'_>,
    mut run: TracedRun,
    schedule: &mut Schedule,
    tracer: &mut T,
) -> Result<Final, NoMemory>
    requires machine { IsMachine machine.now }
    requires starts { IsAtStart machine.now program.now (as_run machine.now run) }
    requires empty { schedule.old.lists ≡ [] }
    requires cores { schedule.old.cores ≡ machine.now.cores }
    ensures ran { IfOk result (IsRunOf machine.now program.now schedule.new.lists) }
    ensures in_turn { IsInTurn machine.now program.now schedule.new.lists }
    ensures cores { schedule.new.cores ≡ schedule.old.cores }
    ensures counted { IfOk result (HasCounts machine.now) }
    ensures numbered { IfOk result (λ r. r.numbers ≡ range_with_len 0 machine.now.cores) }
    ensures told { IfOk result (λ _. (steps : List Step) × IsTraceOf machine.now program.now schedule.new.lists steps × (T.steps tracer.new ≡ T.steps tracer.old ++ steps)) }
    ensures fixed { T.fixed tracer.new ≡ T.fixed tracer.old }
{
    let net = Net::of(machine);
    let mut untold = lists_for(alloc, machine.cores)?;
    let mut list = Vec::new(alloc);
    let mut k = 0;
    let mut end = 0;
    while !run.has_ended(machine, k) {
        end += machine.interval;
        let Done { list: same, turns } = interval_in_turn(
            &mut run,
            alloc,
            machine,
            program,
            &net,
            end,
            list,
            &mut untold,
            tracer,
        )?;
        schedule.push(turns)?;
        list = same;
        k += 1;
    }
    Ok(run.results(k))
}

/// An empty list for each of so many cores.
fn lists_for(alloc: Global, cores: u16) -> Result<Vec<Vec<Leg>>, NoMemory>
    ensures { IfOk result (λ lists. length lists.items ≡ cores) }
{
    let mut lists = Vec::new(alloc);
    for _ in 0..cores {
        lists.push(Vec::new(alloc))?;
    }
    Ok(lists)
}
