//! What a call is to run or to check: the machine, the executable, the schedule and the events, each
//! read and checked.
ghost use Rattle.std.specs.Prelude.{◌≡◌, ◌≤◌, List, [], Some, IfOk, option_map};
ghost use Rattle.component.specs.declared.comp.Comp.{Comp};
ghost use Rattle.component.specs.Components.{AreFresh};
ghost use Rattle.machine_desc.specs.Machine.{IsMachine};
ghost use Rattle.zsim.specs.Checked.{checked_on};
ghost use Rattle.zsim.specs.CommandLine.{exe_file, replay};
ghost use Rattle.zsim.specs.Ended.{IsExeOf, IsMachineText, IsScheduleFile};
ghost use Rattle.zsim.specs.InputLengths.{events_limit};
ghost use Rattle.zsim.specs.Seen.{files_seen, SameNames, WasRead};
ghost use Rattle.zsim.specs.Setup.{image_by, machine_by, schedule_by};
ghost use Rattle.zsim.specs.Steps.{Checks, Reads, Takes, status_of_read};
ghost use Rattle.zsim.specs.CommandValue.{exe_value};

use crate::command_line::Exe;
use crate::limits::{EVENTS_LIMIT, EXE_LIMIT, MACHINE_LIMIT, SCHEDULE_LIMIT};
use crate::{ScheduleFault, Status, Which};
use access_log::Schedule;
use certify::{CheckFail, Verdict};
use component::components;
use elf_load::{Image, LoadFail, load};
use gen_prog::generate;
use machine_desc::{Machine, MachineFail, PLAIN};
use schedule_file::ScheduleReadFail;
use std::alloc::Global;
use zs_host::{FileFail, Files};
use zs_num::{Bytes, NoMemory};

/// Reads and checks the machine. Its text is kept, from the file of this name or the built-in one.
pub fn take_machine<F: Files>(
    alloc: Global,
    name: Option<&str>,
    files: &mut F,
    text: &mut Bytes,
) -> Result<Machine, Status>
    requires { text.old ≡ [] }
    ensures takes { Takes (λ seen. IsMachineText seen (option_map (λ n. n.now) name.entry)) machine_by (option_map (λ n. n.now) name.entry) result (files_seen F.is_seen F.contents F.faults F.latest files.old files.new) text.new }
    ensures valid { IfOk result IsMachine }
{
    match read_machine(alloc, name, files) {
        Ok(read) => *text = read,
        Err(fail) => return Err(status_of_read(fail)),
    }
    check_machine(alloc, text.as_slice())
}

/// Reads and checks the executable. Its bytes are kept, from its file or as they are generated.
pub fn take_exe<F: Files>(
    alloc: Global,
    machine: &Machine,
    exe: Exe<'_>,
    files: &mut F,
    bytes: &mut Bytes,
) -> Result<Image, Status>
    requires machine { IsMachine machine.now }
    requires nothing { bytes.old ≡ [] }
    ensures takes { Takes (λ seen. IsExeOf seen machine.now (exe_value exe.entry)) (image_by machine.now) (exe_file (exe_value exe.entry)) result (files_seen F.is_seen F.contents F.faults F.latest files.old files.new) bytes.new }
    ensures memory { IfOk result (λ image. (image.base ≡ machine.now.memory.base) × (image.size ≡ machine.now.memory.size)) }
{
    match read_exe(alloc, machine, exe, files) {
        Ok(read) => *bytes = read,
        Err(fail) => return Err(status_of_read(fail)),
    }
    check_exe(alloc, machine, bytes.as_slice())
}

/// Reads and checks the schedule of a replay. The bytes of its file are kept.
pub fn take_schedule<F: Files>(
    alloc: Global,
    machine: &Machine,
    name: &str,
    files: &mut F,
    bytes: &mut Bytes,
) -> Result<Schedule, Status>
    requires machine { IsMachine machine.now }
    requires nothing { bytes.old ≡ [] }
    ensures takes { Takes (λ seen. IsScheduleFile seen (replay name.now)) (schedule_by machine.now) (Some name.now) result (files_seen F.is_seen F.contents F.faults F.latest files.old files.new) bytes.new }
{
    match files.read(alloc, name, SCHEDULE_LIMIT + 1) {
        Ok(read) => *bytes = read,
        Err(fail) => return Err(status_of_read(fail)),
    }
    check_schedule(alloc, machine, bytes.as_slice())
}

/// Reads the events of a file, whose bytes are kept, and checks them on a machine: how many
/// intervals and how many events it has, where they are the weave's.
pub fn take_events<F: Files>(
    alloc: Global,
    machine: &Machine,
    name: &str,
    files: &mut F,
    bytes: &mut Bytes,
) -> Result<(u32, u32), Status>
    requires machine { IsMachine machine.now }
    requires nothing { bytes.old ≡ [] }
    ensures takes { (comps : List Comp) → AreFresh machine.now comps → Takes (λ seen. WasRead seen name.now events_limit) (checked_on comps) (Some name.now) result (files_seen F.is_seen F.contents F.faults F.latest files.old files.new) bytes.new }
{
    match files.read(alloc, name, EVENTS_LIMIT + 1) {
        Ok(read) => *bytes = read,
        Err(fail) => return Err(status_of_read(fail)),
    }
    check_events(alloc, machine, bytes.as_slice())
}

/// The status where an input was not read.
fn status_of_read(fail: FileFail) -> Status
    ensures { result ≡ status_of_read fail }
{
    match fail {
        FileFail::Failed => Status::ReadFault,
        FileFail::NoMemory => Status::NoMemory,
    }
}

/// The text of the machine: the first bytes of the file of this name, up to the limit and one more;
/// or the built-in text, where there is no name.
fn read_machine<F: Files>(
    alloc: Global,
    name: Option<&str>,
    files: &mut F,
) -> Result<Bytes, FileFail>
    ensures text { IfOk result (IsMachineText (files_seen F.is_seen F.contents F.faults F.latest files.old files.new) (option_map (λ n. n.now) name.entry)) }
    ensures names { SameNames (files_seen F.is_seen F.contents F.faults F.latest files.old files.new) }
    ensures faults { Reads result (files_seen F.is_seen F.contents F.faults F.latest files.old files.new) (option_map (λ n. n.now) name.entry) }
{
    match name {
        Some(name) => files.read(alloc, name, MACHINE_LIMIT + 1),
        None => Ok(Bytes::from_slice(alloc, PLAIN.as_bytes())?),
    }
}

/// The bytes of the executable: the first of its file, up to the limit and one more; or those of
/// the program that is generated for this machine.
fn read_exe<F: Files>(
    alloc: Global,
    machine: &Machine,
    exe: Exe<'_>,
    files: &mut F,
) -> Result<Bytes, FileFail>
    requires { IsMachine machine.now }
    ensures exe { IfOk result (IsExeOf (files_seen F.is_seen F.contents F.faults F.latest files.old files.new) machine.now (exe_value exe.entry)) }
    ensures names { SameNames (files_seen F.is_seen F.contents F.faults F.latest files.old files.new) }
    ensures faults { Reads result (files_seen F.is_seen F.contents F.faults F.latest files.old files.new) (exe_file (exe_value exe.entry)) }
{
    match exe {
        Exe::File(name) => files.read(alloc, name, EXE_LIMIT + 1),
        Exe::Generated(n) => Ok(generate(alloc, n, machine.memory.base)?),
    }
}

/// The machine of a description, or the refusal of the first check that fails: its length, and then
/// the checks of the description.
#[tactic(auto, unfolding(crate::specs::Setup::machine_by))]
fn check_machine(alloc: Global, text: &[u8]) -> Result<Machine, Status>
    ensures answer { Checks result (machine_by text.now) }
    ensures valid { IfOk result IsMachine }
{
    if text.len() > MACHINE_LIMIT {
        return Err(Status::TooLong(Which::Machine));
    }
    match machine_desc::read(alloc, text) {
        Ok(machine) => Ok(machine),
        Err(MachineFail::Bad(bad)) => Err(Status::BadMachine(bad)),
        Err(MachineFail::NoMemory) => Err(Status::NoMemory),
    }
}

/// The image of an executable, or the refusal of the first check that fails: its length, and then
/// the checks of its file format.
#[tactic(auto, unfolding(crate::specs::Setup::image_by))]
fn check_exe(alloc: Global, machine: &Machine, exe: &[u8]) -> Result<Image, Status>
    requires { IsMachine machine.now }
    ensures answer { Checks result (image_by machine.now exe.now) }
    ensures memory { IfOk result (λ image. (image.base ≡ machine.now.memory.base) × (image.size ≡ machine.now.memory.size)) }
{
    if exe.len() > EXE_LIMIT {
        return Err(Status::TooLong(Which::Exe));
    }
    match load(alloc, exe, machine.memory.base, machine.memory.size) {
        Ok(image) => Ok(image),
        Err(LoadFail::Bad(bad)) => Err(Status::BadElf(bad)),
        Err(LoadFail::NoMemory) => Err(Status::NoMemory),
    }
}

/// The schedule of a file, or the refusal of the first check that fails: its length, and then the
/// checks of its format.
#[tactic(auto, unfolding(crate::specs::Setup::schedule_by))]
fn check_schedule(alloc: Global, machine: &Machine, file: &[u8]) -> Result<Schedule, Status>
    requires { IsMachine machine.now }
    ensures { Checks result (schedule_by machine.now file.now) }
{
    if file.len() > SCHEDULE_LIMIT {
        return Err(Status::TooLong(Which::Schedule));
    }
    match schedule_file::read(alloc, file, machine.cores) {
        Ok(schedule) => Ok(schedule),
        Err(ScheduleReadFail::Bad(bad)) => Err(Status::BadSchedule(ScheduleFault::File(bad))),
        Err(ScheduleReadFail::NoMemory) => Err(Status::NoMemory),
    }
}

/// How many intervals and events a file has, or the refusal of the first check that fails: its
/// length, then the checks of its format, and then whether its events are the weave's.
#[tactic(auto, unfolding(crate::specs::Checked::checked_on))]
fn check_events(alloc: Global, machine: &Machine, file: &[u8]) -> Result<(u32, u32), Status>
    requires { IsMachine machine.now }
    ensures { (comps : List Comp) → AreFresh machine.now comps → Checks result (checked_on comps file.now) }
{
    if file.len() > EVENTS_LIMIT {
        return Err(Status::TooLong(Which::Events));
    }
    component::laws::fresh_components_are_one();
    let comps = match components(alloc, machine) {
        Ok(comps) => comps,
        Err(NoMemory) => return Err(Status::NoMemory),
    };
    match certify::check(alloc, file, comps) {
        Ok(Verdict::Yes { intervals, events }) => Ok((intervals, events)),
        Ok(verdict) => Err(Status::NotWoven(verdict)),
        Err(CheckFail::Bad(bad)) => Err(Status::BadEvents(bad)),
        Err(CheckFail::NoMemory) => Err(Status::NoMemory),
    }
}
