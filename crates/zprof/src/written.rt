//! What is written of a run that was looked at.
ghost use Rattle.std.specs.Prelude.{◌≡◌};
ghost use Rattle.machine_desc.specs.Machine.{IsMachine};
ghost use Rattle.reference.specs.Results.{HasCounts};
ghost use Rattle.zsim.specs.Seen.{files_seen, sink_seen};
ghost use Rattle.zprof.specs.CommandValue.{profiling_value};
ghost use Rattle.zprof.specs.ProfileFiles.{profile_of};
ghost use Rattle.zprof.specs.Steps.{WritesAs};

use crate::command_line::Profiling;
use crate::folder::Folder;
use crate::watched::Watched;
use machine_desc::Machine;
use replay::Final;
use std::alloc::Global;
use zs_host::{Files, Sink};
use zs_num::NoMemory;
use zsim::Status;
use zsim::steps::finish;

/// Writes the report of a run that was watched and gave these results, and behind it the files of its
/// profile.
pub fn write_profile<F: Files, O: Sink>(
    alloc: Global,
    machine: &Machine,
    command: &Profiling<'_>,
    results: &Final,
    watched: &Watched,
    files: &mut F,
    out: &mut O,
) -> Status
    requires machine { IsMachine machine.now }
    requires counted { HasCounts machine.now results.now }
    requires profile { watched.now.first ≡ profile_of machine.now command.now.every watched.now.first.steps }
    ensures { WritesAs result machine.now (profiling_value command.now) watched.now.first.steps results.now (files_seen F.is_seen F.contents F.faults F.latest files.old files.new) (sink_seen O.is_seen O.bytes O.faults out.old out.new) }
{
    let folder = match Folder::of(alloc, machine, command, results, watched) {
        Ok(folder) => folder,
        Err(NoMemory) => return Status::NoMemory,
    };
    let outputs = folder.outputs();
    finish(alloc, machine, command.brief, results, &outputs, files, out)
}
