//! The run of an executable: intervals until every core halted, or until a limit.
ghost use Rattle.std.specs.Prelude.{◌≡◌, ◌+◌, ◌*◌, ◌≤◌, [], false, length, min, IfOk, Some};
ghost use Rattle.std.specs.List.{range_with_len};
ghost use Rattle.machine_desc.specs.Machine.{IsMachine};
ghost use Rattle.crew.specs.Crews.{free_seats};
ghost use Rattle.bound_records.specs.CoreRuns.{IsNetOf};
ghost use Rattle.std.specs.Thread.{IsSync};
ghost use Rattle.run.specs.Going.{CanGo, HasGone};
ghost use Rattle.run.specs.Recording.{IsRecordedRun, IsRecordingOf, is_on};
ghost use Rattle.reference.specs.ReferenceRun.{IsKeptInOrder, IsRunOf};
ghost use Rattle.reference.specs.Results.{HasCounts};
ghost use Rattle.run.specs.Simulation.{IsAtStart};

use crate::context::Context;
use crate::interval::run_interval;
use crate::simulation::Simulation;
use crate::waiting::Waiting;
use crate::{Final, Recording};
use access_log::Schedule;
use access_record::OrderBuffers;
use bound_workers::{Work, WorkBuffers};
use component::laws::fresh_components_are_there;
use crew::{Asker, Crew, Post, end_all, run_beside};
use domain_map::component_domains;
use elf_load::Image;
use machine_desc::Machine;
use noc_mesh::Net;
use rv_blocks::DecodedProgram;
use std::alloc::Global;
use std::sync::Wait;
use std::thread::Threads;
use weave_chains::ChainBuffers;
use worker_pace::Pace;
use zs_host::Gate;
use zs_num::NoMemory;

/// In which intervals several workers fire the events by their domains, whether or not it was worth
/// it before: in the first, and in one of so many.
const TRIED: u32 = 64;

/// Runs an image by so many workers, one at least and 64 at most: in each interval each core to the
/// interval's end, and then the events, which one worker fires core by core or on one list, and
/// several by their domains, or as one does where the domains were not worth it. Of W workers
/// worker w runs the cores, and then the domains, whose number is w modulo W, in ascending order;
/// there are no more workers than cores, or than domains, and one alone runs the cores where
/// several are not worth it and no gate is to be passed. Before each access and each event a worker
/// passes the gate, when it holds nothing. The schedule gains a list for each interval, the cores
/// of its accesses in recorded order; where memory runs out, it has those of the first intervals.
/// The recording gains the events of each interval.
pub fn run<R: Threads + Wait + Sync, G: Gate>(
    rt: &R,
    alloc: Global,
    machine: &Machine,
    image: &Image,
    workers: u16,
    gate: &G,
    schedule: &mut Schedule,
    recording: &mut Recording,
) -> Result<Final, NoMemory>
    requires machine { IsMachine machine.now }
    requires base { image.now.base ≡ machine.now.memory.base }
    requires size { image.now.size ≡ machine.now.memory.size }
    requires empty { schedule.old.lists ≡ [] }
    requires cores_known { schedule.old.cores ≡ machine.now.cores }
    requires recording { IsRecordingOf machine.now [] recording.old }
    ensures ok { IfOk result (IsRunOf machine.now image.now schedule.new.lists) }
    ensures recorded { IfOk result (λ r. IsRecordedRun machine.now image.now schedule.new.lists recording.new) }
    ensures on { is_on recording.new ≡ is_on recording.old }
    ensures counted { IfOk result (HasCounts machine.now) }
    ensures numbered { IfOk result (λ r. r.numbers ≡ range_with_len 0 machine.now.cores) }
    ensures in_order { IsKeptInOrder machine.now image.now schedule.new.lists }
    ensures cores { schedule.new.cores ≡ schedule.old.cores }
{
    fresh_components_are_there();
    let places = component_domains(alloc, machine)?;
    let program = DecodedProgram::of(alloc, image)?;
    let workers = workers.clamp(1, 64);
    let simulation = Simulation::new(alloc, machine, image)?;
    let net = Net::of(machine);
    let context = Context {
        rt,
        alloc,
        machine,
        program: &program,
        net: &net,
        places: &places,
        gate,
        workers,
    };
    run_by_crew(&context, simulation, schedule, recording)
}

/// The same, of a simulation that is at its start, by workers that are hired for the whole run.
fn run_by_crew<R: Threads + Wait + Sync, G: Gate>(
    context: &Context<'_, R, G>,
    simulation: Simulation,
    schedule: &mut Schedule,
    recording: &mut Recording,
) -> Result<Final, NoMemory>
    requires machine { IsMachine context.now.machine.now }
    requires net { IsNetOf context.now.machine.now context.now.net.now }
    requires starts { IsAtStart context.now.machine.now context.now.program.now simulation }
    requires workers { (1 ≤ context.now.workers) × (context.now.workers ≤ 64) }
    requires empty { schedule.old.lists ≡ [] }
    requires cores_known { schedule.old.cores ≡ context.now.machine.now.cores }
    requires recording { IsRecordingOf context.now.machine.now [] recording.old }
    ensures ok { IfOk result (IsRunOf context.now.machine.now context.now.program.now schedule.new.lists) }
    ensures recorded { IfOk result (λ r. IsRecordedRun context.now.machine.now context.now.program.now schedule.new.lists recording.new) }
    ensures on { is_on recording.new ≡ is_on recording.old }
    ensures counted { IfOk result (HasCounts context.now.machine.now) }
    ensures numbered { IfOk result (λ r. r.numbers ≡ range_with_len 0 context.now.machine.now.cores) }
    ensures in_order { IsKeptInOrder context.now.machine.now context.now.program.now schedule.new.lists }
    ensures cores { schedule.new.cores ≡ schedule.old.cores }
{
    let most = context.machine.cores.max(context.machine.domains.count);
    let hired = usize::from(context.workers.min(most) - 1);
    let crew = Crew::hire(context.alloc, hired)?;
    run_beside_them(context, simulation, crew, schedule, recording)
}

/// The same beside the workers of this crew, who begin here and end here.
fn run_beside_them<'a, R: Threads + Wait + Sync, G: Gate>(
    context: &Context<'a, R, G>,
    simulation: Simulation,
    crew: Crew<Work<'a, R, G>>,
    schedule: &mut Schedule,
    recording: &mut Recording,
) -> Result<Final, NoMemory>
    requires net { IsNetOf context.now.machine.now context.now.net.now }
    requires askers { crew.askers.items ≡ free_seats crew.posts.items }
    requires hands { crew.workers.items ≡ free_seats crew.posts.items }
    requires can { CanGo context.now.machine.now context.now.program.now context.now.workers (length crew.posts.items) (Some simulation) schedule.old recording.old }
    ensures { HasGone context.now.machine.now context.now.program.now schedule.old recording.old schedule.new recording.new result }
{
    let Crew {
        posts,
        mut askers,
        workers: mut hands,
    } = crew;
    let mut first = Some(simulation);
    if posts.is_empty() {
        return go(
            context,
            &mut first,
            posts.as_slice(),
            askers.as_mut_slice(),
            schedule,
            recording,
        );
    }
    let mut led = ||
        requires { IsSync R.row × IsSync G.row × IsNetOf context.now.machine.now context.now.net.now × (askers.items ≡ free_seats posts.items)
            × CanGo context.now.machine.now context.now.program.now context.now.workers (length posts.items) first schedule.now recording.now }
        ensures { HasGone context.entry.now.machine.now context.entry.now.program.now schedule.entry.now recording.entry.now schedule.exit.now recording.exit.now result }
    {
        go(
            context,
            &mut first,
            posts.as_slice(),
            askers.as_mut_slice(),
            schedule,
            recording,
        )
    };
    run_beside(context.rt, posts.as_slice(), hands.as_mut_slice(), &mut led)
}

/// The same, and tells the workers at these posts that no job follows.
fn go<'a, R: Threads + Wait + Sync, G: Gate>(
    context: &Context<'a, R, G>,
    first: &mut Option<Simulation>,
    posts: &[Post<Work<'a, R, G>>],
    askers: &mut [Asker<Work<'a, R, G>>],
    schedule: &mut Schedule,
    recording: &mut Recording,
) -> Result<Final, NoMemory>
    requires net { IsNetOf context.now.machine.now context.now.net.now }
    requires askers { askers.old ≡ free_seats posts.now }
    requires can { CanGo context.now.machine.now context.now.program.now context.now.workers (length posts.now) first.old schedule.old recording.old }
    ensures { HasGone context.now.machine.now context.now.program.now schedule.old recording.old schedule.new recording.new result }
{
    let Some(simulation) = first.take() else {
        unreachable!()
    };
    let result = run_on(context, simulation, posts, askers, schedule, recording);
    end_all(posts, askers);
    result
}

/// The same, while the workers at these posts are there to be asked.
fn run_on<'a, R: Threads + Wait + Sync, G: Gate>(
    context: &Context<'a, R, G>,
    mut simulation: Simulation,
    posts: &[Post<Work<'a, R, G>>],
    askers: &mut [Asker<Work<'a, R, G>>],
    schedule: &mut Schedule,
    recording: &mut Recording,
) -> Result<Final, NoMemory>
    requires machine { IsMachine context.now.machine.now }
    requires net { IsNetOf context.now.machine.now context.now.net.now }
    requires posts { min context.now.workers context.now.machine.now.cores ≤ length posts.now + 1 }
    requires askers { askers.old ≡ free_seats posts.now }
    requires starts { IsAtStart context.now.machine.now context.now.program.now simulation }
    requires workers { (1 ≤ context.now.workers) × (context.now.workers ≤ 64) }
    requires empty { schedule.old.lists ≡ [] }
    requires cores_known { schedule.old.cores ≡ context.now.machine.now.cores }
    requires recording { IsRecordingOf context.now.machine.now [] recording.old }
    ensures ok { IfOk result (IsRunOf context.now.machine.now context.now.program.now schedule.new.lists) }
    ensures recorded { IfOk result (λ r. IsRecordedRun context.now.machine.now context.now.program.now schedule.new.lists recording.new) }
    ensures on { is_on recording.new ≡ is_on recording.old }
    ensures counted { IfOk result (HasCounts context.now.machine.now) }
    ensures numbered { IfOk result (λ r. r.numbers ≡ range_with_len 0 context.now.machine.now.cores) }
    ensures in_order { IsKeptInOrder context.now.machine.now context.now.program.now schedule.new.lists }
    ensures cores { schedule.new.cores ≡ schedule.old.cores }
    ensures askers { askers.new ≡ askers.old }
{
    let mut pace = Pace::here(context.rt, context.workers.min(context.machine.cores));
    let mut chain_buffers = ChainBuffers::new(context.alloc);
    let mut order_buffers = OrderBuffers::none();
    let mut work_buffers = WorkBuffers::none();
    let mut waiting = Waiting::none(context.alloc);
    let mut domains_are_worth = true;
    let mut k = 0;
    let mut end = 0;
    while !simulation.has_ended(context.machine, k) {
        domains_are_worth = domains_are_worth || k % TRIED == 0;
        k += 1;
        end += context.machine.interval;
        let (next, order) = run_interval(
            context,
            simulation,
            end,
            &mut pace,
            posts,
            askers,
            &mut domains_are_worth,
            recording,
            &mut chain_buffers,
            &mut order_buffers,
            &mut waiting,
            &mut work_buffers,
        )?;
        simulation = next;
        waiting.add(context, posts, askers, order, schedule)?;
    }
    waiting.tell(context, posts, askers, schedule)?;
    Ok(simulation.results(k))
}
