//! The schedule of a file.
ghost use Rattle.std.specs.Prelude.{◌≡◌, [], IfErr, Ok, OnOk, Some};
ghost use Rattle.machine_desc.specs.Machine.{IsMachine};
ghost use Rattle.zsim.specs.InputLengths.{schedule_limit};
ghost use Rattle.zsim.specs.Seen.{files_seen, WasRead};
ghost use Rattle.zsim.specs.Setup.{schedule_by};
ghost use Rattle.zsim.specs.Steps.{IsNotTaken, IsQuiet};

use access_log::Schedule;
use machine_desc::Machine;
use std::alloc::Global;
use zs_host::Files;
use zs_num::Bytes;
use zsim::Status;
use zsim::steps::take_schedule;

/// Takes the schedule of the file of this name, whose bytes are kept.
pub fn read_order<F: Files>(
    alloc: Global,
    machine: &Machine,
    name: &str,
    files: &mut F,
    sched_file: &mut Bytes,
    schedule: &mut Schedule,
) -> Result<(), Status>
    requires machine { IsMachine machine.now }
    requires nothing { sched_file.old ≡ [] }
    ensures taken { OnOk result ((schedule_by machine.now sched_file.new ≡ Ok schedule.new) × WasRead (files_seen F.is_seen F.contents F.faults F.latest files.old files.new) name.now schedule_limit sched_file.new) }
    ensures quiet { OnOk result (IsQuiet (files_seen F.is_seen F.contents F.faults F.latest files.old files.new)) }
    ensures cores { OnOk result (schedule.new.cores ≡ machine.now.cores) }
    ensures not { IfErr result (λ s. (schedule.new ≡ schedule.old) × IsNotTaken (λ seen. WasRead seen name.now schedule_limit) (schedule_by machine.now) (Some name.now) s (files_seen F.is_seen F.contents F.faults F.latest files.old files.new) sched_file.new) }
{
    *schedule = take_schedule(alloc, machine, name, files, sched_file)?;
    Ok(())
}
