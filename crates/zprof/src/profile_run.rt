//! The run that is looked at.
ghost use Rattle.std.specs.Prelude.{◌≡◌, ◌⊎◌, [], None, option_map};
ghost use Rattle.machine_desc.specs.Machine.{IsMachine};
ghost use Rattle.reference.specs.ReferenceRun.{IsRunOf};
ghost use Rattle.reference.specs.Results.{Results};
ghost use Rattle.zsim.specs.Ended.{no_intervals};
ghost use Rattle.zsim.specs.Seen.{files_seen, sink_seen};
ghost use Rattle.zprof.specs.CommandValue.{profiling_value};
ghost use Rattle.zprof.specs.Ended.{ProfilesAs};
ghost use Rattle.zprof.specs.Steps.{LooksAs};

use crate::command_line::Profiling;
use crate::order::read_order;
use crate::watched::watched;
use crate::written::write_profile;
use access_log::Schedule;
use elf_load::Image;
use machine_desc::Machine;
use replay::ReplayFail;
use std::alloc::Global;
use trace::{trace, trace_in_turn};
use zs_host::{Files, Sink};
use zs_num::{Bytes, NoMemory};
use zsim::{ScheduleFault, Status};

/// Runs an image and writes what comes of that: under the schedule of the file that the command
/// names, whose bytes are kept; or else core after core, and then the schedule of that run is kept.
pub fn profile_run<F: Files, O: Sink>(
    alloc: Global,
    machine: &Machine,
    image: &Image,
    command: &Profiling<'_>,
    files: &mut F,
    out: &mut O,
    sched_file: &mut Bytes,
    schedule: &mut Schedule,
) -> Status
    requires machine { IsMachine machine.now }
    requires base { image.now.base ≡ machine.now.memory.base }
    requires size { image.now.size ≡ machine.now.memory.size }
    requires nothing { sched_file.old ≡ [] }
    requires empty { schedule.old ≡ no_intervals machine.now.cores }
    ensures looks { LooksAs result machine.now image.now (profiling_value command.now) (option_map (λ n. n.now) command.now.schedule) schedule.new sched_file.new (files_seen F.is_seen F.contents F.faults F.latest files.old files.new) (sink_seen O.is_seen O.bytes O.faults out.old out.new) }
    ensures untouched { (out.new ≡ out.old) ⊎ ((r : Results) × IsRunOf machine.now image.now schedule.new.lists r) }
{
    match command.schedule {
        Some(name) => match read_order(alloc, machine, name, files, sched_file, schedule) {
            Ok(()) => profile_under(alloc, machine, image, command, schedule, files, out),
            Err(status) => status,
        },
        None => profile_in_turn(alloc, machine, image, command, schedule, files, out),
    }
}

/// Runs an image under a schedule, writes its report, and behind it the files of its profile.
fn profile_under<F: Files, O: Sink>(
    alloc: Global,
    machine: &Machine,
    image: &Image,
    command: &Profiling<'_>,
    schedule: &Schedule,
    files: &mut F,
    out: &mut O,
) -> Status
    requires machine { IsMachine machine.now }
    requires base { image.now.base ≡ machine.now.memory.base }
    requires size { image.now.size ≡ machine.now.memory.size }
    requires cores { schedule.now.cores ≡ machine.now.cores }
    ensures profiles { ProfilesAs result machine.now image.now (profiling_value command.now) schedule.now (files_seen F.is_seen F.contents F.faults F.latest files.old files.new) (sink_seen O.is_seen O.bytes O.faults out.old out.new) }
    ensures untouched { (out.new ≡ out.old) ⊎ ((r : Results) × IsRunOf machine.now image.now schedule.now.lists r) }
{
    let mut watched = watched(alloc, machine, command.every);
    match trace(alloc, machine, image, schedule, &mut watched) {
        Ok(results) => write_profile(alloc, machine, command, &results, &watched, files, out),
        Err(ReplayFail::Illegal { interval, place }) => {
            Status::BadSchedule(ScheduleFault::Illegal { interval, place })
        }
        Err(ReplayFail::NoMemory) => Status::NoMemory,
    }
}

/// Runs an image, in each interval core after core, writes its report, and behind it the files of its
/// profile. The schedule gains the list of each interval.
fn profile_in_turn<F: Files, O: Sink>(
    alloc: Global,
    machine: &Machine,
    image: &Image,
    command: &Profiling<'_>,
    schedule: &mut Schedule,
    files: &mut F,
    out: &mut O,
) -> Status
    requires machine { IsMachine machine.now }
    requires base { image.now.base ≡ machine.now.memory.base }
    requires size { image.now.size ≡ machine.now.memory.size }
    requires empty { schedule.old ≡ no_intervals machine.now.cores }
    ensures looks { LooksAs result machine.now image.now (profiling_value command.now) None schedule.new [] (files_seen F.is_seen F.contents F.faults F.latest files.old files.new) (sink_seen O.is_seen O.bytes O.faults out.old out.new) }
    ensures untouched { (out.new ≡ out.old) ⊎ ((r : Results) × IsRunOf machine.now image.now schedule.new.lists r) }
{
    let mut watched = watched(alloc, machine, command.every);
    match trace_in_turn(alloc, machine, image, schedule, &mut watched) {
        Ok(results) => write_profile(alloc, machine, command, &results, &watched, files, out),
        Err(NoMemory) => Status::NoMemory,
    }
}
