//! The call that does all that the program does.
ghost use Rattle.std.specs.Prelude.{◌≡◌, ◌⊎◌, [], IfOk, IfSome, IsSomeAnd, None, Ok, is_some, map, option_map, string_bytes};
ghost use Rattle.machine_desc.specs.Machine.{IsMachine};
ghost use Rattle.run.specs.Recording.{IsRecordingOf, is_on};
ghost use Rattle.reference.specs.ReferenceRun.{IsKeptInOrder};
ghost use Rattle.reference.specs.Results.{Results};
ghost use Rattle.zsim.specs.Answered.{Answers, HasCome};
ghost use Rattle.zsim.specs.CommandLine.{command_of};
ghost use Rattle.zsim.specs.Ended.{Gives, EndsAs, IsNoCommand, KeepsNothing, Says, no_intervals};
ghost use Rattle.zsim.specs.Seen.{files_seen, sink_seen};
ghost use Rattle.zsim.specs.Setup.{schedule_by};
ghost use Rattle.zsim.specs.Steps.{ReplaysAs, ReplaysFile, RunGives, RunsAs};
ghost use Rattle.zsim.specs.CommandValue.{execution_value};

use crate::checking::check_file;
use crate::command_line::{Command, Execution, Task, command_of};
use crate::error_line::error_line;
use crate::outputs::{finish, finish_run, output_if, schedule_bytes};
use crate::put::say_line;
use crate::setup::{take_exe, take_machine, take_schedule};
use crate::{Ended, Kept, Said, ScheduleFault, Status, Which};
use access_log::Schedule;
use elf_load::Image;
use machine_desc::Machine;
use replay::{Recording, ReplayFail, replay, run};
use std::alloc::{AllocError, Global};
use std::sync::Wait;
use std::thread::Threads;
use zs_host::{Files, Gate, Sink};
use zs_num::{Bytes, NoMemory};

/// Does what the words say: they are those after the program's name. The report goes to `out`, and
/// the line of the status to `err`. The workers of a run pass the gate before each access and each
/// event.
pub fn zsim<R: Threads + Wait + Sync, F: Files, O: Sink, E: Sink, G: Gate>(
    rt: &R,
    alloc: Global,
    words: &[String],
    files: &mut F,
    out: &mut O,
    err: &mut E,
    gate: &G,
) -> Ended
    // Where the words are no command, the status says so, and nothing is touched.
    ensures usage { command_of (map string_bytes words.now) ≡ None → IsNoCommand result.status result.kept × (files.new ≡ files.old) × (out.new ≡ out.old) }

    // Where they are a command: what the status and what was kept tell of the files and of standard
    // output.
    ensures ended { IfSome (command_of (map string_bytes words.now)) (λ command. Answers command (files_seen F.is_seen F.contents F.faults F.latest files.old files.new) (sink_seen O.is_seen O.bytes O.faults out.old out.new) result.status result.kept) }

    // Standard output is not touched until a run has come to its end, or a check to a yes.
    ensures untouched { (out.new ≡ out.old) ⊎ IsSomeAnd (command_of (map string_bytes words.now)) (λ command. HasCome command result.kept) }

    // Standard error gained the line of the status. It is not touched where the status is Ran.
    ensures error_line { Says result.said result.status (sink_seen E.is_seen E.bytes E.faults err.old err.new) }
    ensures silent { result.status ≡ Status.Ran → (result.said ≡ Said.All) × (err.new ≡ err.old) }
{
    let mut kept = Kept {
        machine: Bytes::of(Vec::new(alloc)),
        exe: Bytes::of(Vec::new(alloc)),
        sched_file: Bytes::of(Vec::new(alloc)),
        schedule: Schedule::new(alloc, 0),
        events: Bytes::of(Vec::new(alloc)),
    };
    let status = match command_of(alloc, words) {
        Ok(Some(Command::Execute(command))) => {
            carry_out(rt, alloc, &command, files, out, gate, &mut kept)
        }
        Ok(Some(Command::Check(command))) => check_file(alloc, &command, files, out, &mut kept),
        Ok(None) => Status::Usage,
        Err(AllocError) => Status::NoMemory,
    };
    let said = say(alloc, err, &status);
    Ended { status, said, kept }
}

/// Runs or replays: takes the inputs, and does what the task says.
fn carry_out<R: Threads + Wait + Sync, F: Files, O: Sink, G: Gate>(
    rt: &R,
    alloc: Global,
    command: &Execution<'_>,
    files: &mut F,
    out: &mut O,
    gate: &G,
    kept: &mut Kept,
) -> Status
    requires { KeepsNothing kept.old }
    ensures ended { EndsAs (record { command = execution_value command.now; files = files_seen F.is_seen F.contents F.faults F.latest files.old files.new; out = sink_seen O.is_seen O.bytes O.faults out.old out.new }) result kept.new }
    ensures untouched { (out.new ≡ out.old) ⊎ ((r : Results) × Gives (execution_value command.now) kept.new r) }
    ensures no_events { kept.new.events ≡ [] }
{
    let machine = match take_machine(alloc, command.machine, files, &mut kept.machine) {
        Ok(machine) => machine,
        Err(status) => return status,
    };
    kept.schedule = Schedule::new(alloc, machine.cores);
    let image = match take_exe(alloc, &machine, command.exe, files, &mut kept.exe) {
        Ok(image) => image,
        Err(status) => return status,
    };
    let brief = command.brief;
    match command.task {
        Task::Run {
            workers,
            record_to,
            events_to,
        } => run_and_report(
            rt,
            alloc,
            &machine,
            &image,
            workers,
            gate,
            brief,
            record_to,
            events_to,
            &mut kept.schedule,
            files,
            out,
        ),
        Task::Replay { schedule: name } => {
            let (sched_file, schedule) = (&mut kept.sched_file, &mut kept.schedule);
            replay_file(
                alloc, &machine, &image, brief, name, sched_file, schedule, files, out,
            )
        }
    }
}

/// Runs an image, writes its report, and behind it the files of its schedule and of its events where
/// they are named. Nothing is written where the events are too long for a file.
fn run_and_report<R: Threads + Wait + Sync, F: Files, O: Sink, G: Gate>(
    rt: &R,
    alloc: Global,
    machine: &Machine,
    image: &Image,
    workers: u16,
    gate: &G,
    brief: bool,
    record_to: Option<&str>,
    events_to: Option<&str>,
    schedule: &mut Schedule,
    files: &mut F,
    out: &mut O,
) -> Status
    requires machine { IsMachine machine.now }
    requires base { image.now.base ≡ machine.now.memory.base }
    requires size { image.now.size ≡ machine.now.memory.size }
    requires empty { schedule.old.lists ≡ [] }
    requires cores { schedule.old.cores ≡ machine.now.cores }
    ensures cores { schedule.new.cores ≡ schedule.old.cores }
    ensures in_order { IsKeptInOrder machine.now image.now schedule.new.lists }
    ensures run { RunsAs result machine.now image.now brief (option_map (λ n. n.now) record_to.entry) (option_map (λ n. n.now) events_to.entry) schedule.new (files_seen F.is_seen F.contents F.faults F.latest files.old files.new) (sink_seen O.is_seen O.bytes O.faults out.old out.new) }
    ensures untouched { (out.new ≡ out.old) ⊎ ((r : Results) × RunGives machine.now image.now schedule.new r) }
{
    component::laws::fresh_components_are_there();
    let mut recording = match recording_for(alloc, machine, events_to) {
        Ok(recording) => recording,
        Err(NoMemory) => return Status::NoMemory,
    };
    let results = match run(
        rt,
        alloc,
        machine,
        image,
        workers,
        gate,
        schedule,
        &mut recording,
    ) {
        Ok(results) => results,
        Err(NoMemory) => return Status::NoMemory,
    };
    let Some(events) = recording.bytes() else {
        return Status::TooLong(Which::Events);
    };
    let bytes = match schedule_bytes(alloc, record_to, schedule) {
        Ok(bytes) => bytes,
        Err(NoMemory) => return Status::NoMemory,
    };
    let record = output_if(record_to, bytes.as_slice());
    let events = output_if(events_to, events);
    finish_run(alloc, machine, brief, &results, record, events, files, out)
}

/// A recording of events where a file is named for them.
fn recording_for(
    alloc: Global,
    machine: &Machine,
    events_to: Option<&str>,
) -> Result<Recording, NoMemory>
    requires { IsMachine machine.now }
    ensures none { IfOk result (λ recording. IsRecordingOf machine.now [] recording) }
    ensures on { IfOk result (λ recording. is_on recording ≡ is_some events_to.entry) }
{
    match events_to {
        Some(_) => Recording::new(alloc, machine),
        None => Ok(Recording::Off),
    }
}

/// Reads the schedule of a file, which is kept, and runs an image under it.
fn replay_file<F: Files, O: Sink>(
    alloc: Global,
    machine: &Machine,
    image: &Image,
    brief: bool,
    name: &str,
    sched_file: &mut Bytes,
    schedule: &mut Schedule,
    files: &mut F,
    out: &mut O,
) -> Status
    requires machine { IsMachine machine.now }
    requires base { image.now.base ≡ machine.now.memory.base }
    requires size { image.now.size ≡ machine.now.memory.size }
    requires nothing { sched_file.old ≡ [] }
    requires empty { schedule.old ≡ no_intervals machine.now.cores }
    ensures replay { ReplaysFile result machine.now image.now brief name.now schedule.new sched_file.new (files_seen F.is_seen F.contents F.faults F.latest files.old files.new) (sink_seen O.is_seen O.bytes O.faults out.old out.new) }
    ensures untouched { (out.new ≡ out.old) ⊎ ((schedule_by machine.now sched_file.new ≡ Ok schedule.new) × ((r : Results) × RunGives machine.now image.now schedule.new r)) }
{
    *schedule = match take_schedule(alloc, machine, name, files, sched_file) {
        Ok(read) => read,
        Err(status) => return status,
    };
    replay_and_report(alloc, machine, image, brief, schedule, files, out)
}

/// Runs an image under a schedule, and writes its report.
fn replay_and_report<F: Files, O: Sink>(
    alloc: Global,
    machine: &Machine,
    image: &Image,
    brief: bool,
    schedule: &Schedule,
    files: &mut F,
    out: &mut O,
) -> Status
    requires machine { IsMachine machine.now }
    requires base { image.now.base ≡ machine.now.memory.base }
    requires size { image.now.size ≡ machine.now.memory.size }
    requires cores { schedule.now.cores ≡ machine.now.cores }
    ensures replay { ReplaysAs result machine.now image.now brief schedule.now (files_seen F.is_seen F.contents F.faults F.latest files.old files.new) (sink_seen O.is_seen O.bytes O.faults out.old out.new) }
    ensures untouched { (out.new ≡ out.old) ⊎ ((r : Results) × RunGives machine.now image.now schedule.now r) }
{
    replay::laws::each_run_has_one_events_file();
    match replay(alloc, machine, image, schedule) {
        Ok(results) => finish(alloc, machine, brief, &results, &[], files, out),
        Err(ReplayFail::Illegal { interval, place }) => Status::BadSchedule(ScheduleFault::Illegal {
            interval,
            place,
        }),
        Err(ReplayFail::NoMemory) => Status::NoMemory,
    }
}

/// Says on standard error how the call ended.
fn say<E: Sink>(alloc: Global, err: &mut E, status: &Status) -> Said
    ensures line { Says result status.now (sink_seen E.is_seen E.bytes E.faults err.old err.new) }
    ensures silent { status.now ≡ Status.Ran → (result ≡ Said.All) × (err.new ≡ err.old) }
{
    if matches!(status, Status::Ran) {
        return Said::All;
    }
    match error_line(alloc, status) {
        Ok(line) => say_line(alloc, err, line.as_bytes()),
        Err(AllocError) => Said::NoMemory,
    }
}
