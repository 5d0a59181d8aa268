//! The outputs of a run: the report, and behind it files.
ghost use Rattle.std.specs.Prelude.{◌≡◌, ◌⊎◌, ◌++◌, IfOk, IfSome, option_map};
ghost use Rattle.std.specs.List.{flat_map};
ghost use Rattle.reference.specs.Results.{HasCounts};
ghost use Rattle.schedule_file.specs.ScheduleFile.{schedule_file_of};
ghost use Rattle.zsim.specs.Ended.{status_at};
ghost use Rattle.zsim.specs.Report.{report_of};
ghost use Rattle.zsim.specs.Outputs.{named_if};
ghost use Rattle.zsim.specs.Seen.{files_seen, sink_seen};
ghost use Rattle.zsim.specs.Steps.{FinishesAs, IsUntouched, Writes, output_list};

use crate::Status;
use crate::put::put_all;
use access_log::Schedule;
use machine_desc::Machine;
use replay::Final;
use std::alloc::Global;
use zs_host::{FileFail, Files, Sink, SinkFail};
use zs_num::{Bytes, NoMemory};

/// A file that is to be written.
#[derive(Clone, Copy)]
pub struct OutputFile<'w> {
    pub name: &'w str,
    pub bytes: &'w [u8],
}

/// The bytes of a schedule's file, where one is named.
pub fn schedule_bytes(
    alloc: Global,
    name: Option<&str>,
    schedule: &Schedule,
) -> Result<Bytes, NoMemory>
    ensures { IfOk result (λ bytes. IfSome name.entry (λ n. bytes ≡ schedule_file_of schedule.now)) }
{
    match name {
        Some(_) => schedule_file::write(alloc, schedule),
        None => Ok(Bytes::of(Vec::new(alloc))),
    }
}

/// These bytes as a file, where one is named for them.
pub fn output_if<'w>(name: Option<&'w str>, bytes: &'w [u8]) -> Option<OutputFile<'w>>
    ensures { output_list result ≡ named_if (option_map (λ n. n.now) name.entry) bytes.now }
{
    match name {
        Some(name) => Some(OutputFile { name, bytes }),
        None => None,
    }
}

/// Writes the report of a run, and behind it the file of the schedule and then that of the events,
/// where there are such files.
pub fn finish_run<'w, F: Files, O: Sink>(
    alloc: Global,
    machine: &Machine,
    brief: bool,
    results: &Final,
    schedule: Option<OutputFile<'w>>,
    events: Option<OutputFile<'w>>,
    files: &mut F,
    out: &mut O,
) -> Status
    requires { HasCounts machine.now results.now }
    ensures { ((result ≡ Status.NoMemory) × IsUntouched (files_seen F.is_seen F.contents F.faults F.latest files.old files.new) (sink_seen O.is_seen O.bytes O.faults out.old out.new))
        ⊎ FinishesAs result results.now.limit (report_of machine.now brief results.now) (output_list schedule.entry ++ output_list events.entry) (files_seen F.is_seen F.contents F.faults F.latest files.old files.new) (sink_seen O.is_seen O.bytes O.faults out.old out.new) }
{
    let outputs = [schedule, events];
    finish(alloc, machine, brief, results, &outputs, files, out)
}

/// Writes the report, and behind it these files, one after the other, where there are such.
pub fn finish<F: Files, O: Sink>(
    alloc: Global,
    machine: &Machine,
    brief: bool,
    results: &Final,
    outputs: &[Option<OutputFile<'_>>],
    files: &mut F,
    out: &mut O,
) -> Status
    requires { HasCounts machine.now results.now }
    ensures { ((result ≡ Status.NoMemory) × IsUntouched (files_seen F.is_seen F.contents F.faults F.latest files.old files.new) (sink_seen O.is_seen O.bytes O.faults out.old out.new))
        ⊎ FinishesAs result results.now.limit (report_of machine.now brief results.now) (flat_map output_list outputs.now) (files_seen F.is_seen F.contents F.faults F.latest files.old files.new) (sink_seen O.is_seen O.bytes O.faults out.old out.new) }
{
    let text = match report_of(alloc, machine, results, brief) {
        Ok(text) => text,
        Err(NoMemory) => return Status::NoMemory,
    };
    match put_all(alloc, out, text.as_slice()) {
        Ok(()) => {}
        Err(SinkFail::Failed) => return Status::WriteFault,
        Err(SinkFail::NoMemory) => return Status::NoMemory,
    }
    match write_files(alloc, outputs, files) {
        Ok(()) => status_of(results.limit),
        Err(FileFail::Failed) => Status::WriteFault,
        Err(FileFail::NoMemory) => Status::NoMemory,
    }
}

/// Writes these files, one after the other, where there are such.
fn write_files<F: Files>(
    alloc: Global,
    outputs: &[Option<OutputFile<'_>>],
    files: &mut F,
) -> Result<(), FileFail>
    ensures { Writes result (flat_map output_list outputs.now) (files_seen F.is_seen F.contents F.faults F.latest files.old files.new) }
{
    match outputs.split_first() {
        Some((first, rest)) => {
            write_file(alloc, *first, files)?;
            write_files(alloc, rest, files)
        }
        None => Ok(()),
    }
}

/// Writes a file, if there is one.
fn write_file<F: Files>(
    alloc: Global,
    file: Option<OutputFile<'_>>,
    files: &mut F,
) -> Result<(), FileFail>
    ensures { Writes result (output_list file.entry) (files_seen F.is_seen F.contents F.faults F.latest files.old files.new) }
{
    match file {
        Some(file) => files.write(alloc, file.name, file.bytes),
        None => Ok(()),
    }
}

/// The report of a run, whole or brief.
fn report_of(
    alloc: Global,
    machine: &Machine,
    results: &Final,
    brief: bool,
) -> Result<Bytes, NoMemory>
    requires { HasCounts machine.now results.now }
    ensures { IfOk result (λ text. text ≡ report_of machine.now brief results.now) }
{
    report::text(
        alloc,
        machine,
        &results.counters,
        &results.cores,
        results.intervals,
        brief,
    )
}

/// The status of a run that was reported whole.
fn status_of(limit: bool) -> Status
    ensures { result ≡ status_at limit }
{
    if limit { Status::Limit } else { Status::Ran }
}
