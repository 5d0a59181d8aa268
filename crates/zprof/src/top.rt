//! The call that does all that the program does.
ghost use Rattle.std.specs.Prelude.{◌≡◌, ◌⊎◌, IfSome, None, is_some, map, string_bytes};
ghost use Rattle.std.specs.Prelude.{IsSomeAnd};
ghost use Rattle.zsim.specs.Ended.{IsNoCommand, KeepsNothing, SaysLine};
ghost use Rattle.zsim.specs.Seen.{files_seen, sink_seen};
ghost use Rattle.zprof.specs.CommandLine.{command_of};
ghost use Rattle.zprof.specs.CommandValue.{profiling_value};
ghost use Rattle.zprof.specs.Ended.{EndsAs, HasEnded};
ghost use Rattle.zprof.specs.ErrorLine.{profile_line};

use crate::command_line::{Profiling, command_of};
use crate::error_line::profile_line;
use crate::profile_run::profile_run;
use access_log::Schedule;
use std::alloc::{AllocError, Global};
use zs_host::{Files, Sink};
use zs_num::Bytes;
use zsim::steps::{say_line, take_exe, take_machine};
use zsim::{Ended, Kept, Said, Status};

/// Does what the words say: they are those after the program's name. The report goes to `out`, the
/// files of the profile to the folder that the words name, and the line of the status to `err`.
pub fn zprof<F: Files, O: Sink, E: Sink>(
    alloc: Global,
    words: &[String],
    files: &mut F,
    out: &mut O,
    err: &mut E,
) -> Ended
    // Where the words are no command, the status says so, and nothing is touched.
    ensures usage { command_of (map string_bytes words.now) ≡ None → IsNoCommand result.status result.kept × (files.new ≡ files.old) × (out.new ≡ out.old) }

    // Where they are a command: what the status and what was kept tell of the files and of standard
    // output.
    ensures ended { IfSome (command_of (map string_bytes words.now)) (λ command. EndsAs result.status command result.kept (files_seen F.is_seen F.contents F.faults F.latest files.old files.new) (sink_seen O.is_seen O.bytes O.faults out.old out.new)) }

    // Standard output is not touched until the run has come to its end.
    ensures untouched { (out.new ≡ out.old) ⊎ HasEnded result.kept }

    // Standard error gained the line of the status. It is not touched where the status is Ran.
    ensures error_line { SaysLine result.said (profile_line result.status) (sink_seen E.is_seen E.bytes E.faults err.old err.new) }
    ensures silent { result.status ≡ Status.Ran → (result.said ≡ Said.All) × (err.new ≡ err.old) }
{
    let mut kept = Kept {
        machine: Bytes::of(Vec::new(alloc)),
        exe: Bytes::of(Vec::new(alloc)),
        sched_file: Bytes::of(Vec::new(alloc)),
        schedule: Schedule::new(alloc, 0),
        events: Bytes::of(Vec::new(alloc)),
    };
    let status = match command_of(alloc, words) {
        Ok(Some(command)) => carry_out(alloc, &command, files, out, &mut kept),
        Ok(None) => Status::Usage,
        Err(AllocError) => Status::NoMemory,
    };
    let said = say(alloc, err, &status);
    Ended { status, said, kept }
}

/// Takes the machine and the executable, runs that, and writes what comes of it.
fn carry_out<F: Files, O: Sink>(
    alloc: Global,
    command: &Profiling<'_>,
    files: &mut F,
    out: &mut O,
    kept: &mut Kept,
) -> Status
    requires { KeepsNothing kept.old }
    ensures ended { EndsAs result (profiling_value command.now) kept.new (files_seen F.is_seen F.contents F.faults F.latest files.old files.new) (sink_seen O.is_seen O.bytes O.faults out.old out.new) }
    ensures untouched { (out.new ≡ out.old) ⊎ HasEnded kept.new }
{
    let machine = match take_machine(alloc, command.machine, files, &mut kept.machine) {
        Ok(machine) => machine,
        Err(status) => return status,
    };
    kept.schedule = Schedule::new(alloc, machine.cores);
    let image = match take_exe(alloc, &machine, command.exe, files, &mut kept.exe) {
        Ok(image) => image,
        Err(status) => return status,
    };
    let (sched_file, schedule) = (&mut kept.sched_file, &mut kept.schedule);
    profile_run(
        alloc, &machine, &image, command, files, out, sched_file, schedule,
    )
}

/// Says on standard error how the call ended.
fn say<E: Sink>(alloc: Global, err: &mut E, status: &Status) -> Said
    ensures line { SaysLine result (profile_line status.now) (sink_seen E.is_seen E.bytes E.faults err.old err.new) }
    ensures silent { status.now ≡ Status.Ran → (result ≡ Said.All) × (err.new ≡ err.old) }
{
    if matches!(status, Status::Ran) {
        return Said::All;
    }
    match profile_line(alloc, status) {
        Ok(line) => say_line(alloc, err, line.as_bytes()),
        Err(AllocError) => Said::NoMemory,
    }
}
