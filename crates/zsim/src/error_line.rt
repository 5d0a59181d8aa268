//! The line on standard error for each status.
ghost use Rattle.std.specs.Prelude.{◌≡◌, ◌++◌, codes, IfOk, OnOk, string_bytes};
ghost use Rattle.report.specs.ReportText.{printed};
ghost use Rattle.zsim.specs.ErrorLine.{elf_details, error_line, events_details, machine_details, schedule_details, verdict_details};

use crate::{ScheduleFault, Status, Which};
use certify::{BadEvents, Verdict};
use elf_load::BadElf;
use machine_desc::{BadMachine, KeyName};
use report::write_printed;
use schedule_file::BadSchedule;
use std::alloc::{AllocError, Global};

/// The line for a status, with its newline.
pub fn error_line(alloc: Global, status: &Status) -> Result<String, AllocError>
    ensures { IfOk result (λ line. string_bytes line ≡ error_line status.now) }
{
    match status {
        Status::Ran => Ok(String::new(alloc)),
        Status::Limit => String::from_str(alloc, "zsim: stopped at the limit\n"),
        Status::Usage => String::from_str(alloc, USAGE),
        Status::ReadFault => String::from_str(alloc, "zsim: cannot read\n"),
        Status::WriteFault => String::from_str(alloc, "zsim: cannot write\n"),
        Status::BadMachine(bad) => machine_line(alloc, bad),
        Status::BadElf(bad) => elf_line(alloc, *bad),
        Status::BadSchedule(wrong) => schedule_line(alloc, *wrong),
        Status::TooLong(Which::Machine) => String::from_str(alloc, "zsim: too long: machine\n"),
        Status::TooLong(Which::Exe) => String::from_str(alloc, "zsim: too long: executable\n"),
        Status::TooLong(Which::Schedule) => String::from_str(alloc, "zsim: too long: schedule\n"),
        Status::TooLong(Which::Events) => String::from_str(alloc, "zsim: too long: events\n"),
        Status::BadEvents(bad) => events_line(alloc, *bad),
        Status::NotWoven(verdict) => verdict_line(alloc, *verdict),
        Status::NoMemory => String::from_str(alloc, "zsim: out of memory\n"),
    }
}

const USAGE: &str =
    "zsim: usage: zsim run MACHINE EXE [--workers N] [--record NAME] [--events NAME] [--brief] or zsim replay MACHINE EXE --schedule NAME [--brief] or zsim check MACHINE EVENTS\n";

/// The line for a machine description that is refused.
fn machine_line(alloc: Global, bad: &BadMachine) -> Result<String, AllocError>
    ensures { IfOk result (λ line. string_bytes line ≡ codes "zsim: machine " ++ machine_details bad.now ++ codes "\n") }
{
    let mut line = String::from_str(alloc, "zsim: machine ")?;
    write_machine_details(&mut line, bad)?;
    line.push_str("\n")?;
    Ok(line)
}

/// Writes the number of the check that a description failed, and what it names.
fn write_machine_details(line: &mut String, bad: &BadMachine) -> Result<(), AllocError>
    ensures { OnOk result (string_bytes line.new ≡ string_bytes line.old ++ machine_details bad.now) }
{
    match bad {
        BadMachine::Text => line.push_str("1"),
        BadMachine::Missing { key } => write_key(line, "2 ", key),
        BadMachine::Kind { key } => write_key(line, "3 ", key),
        BadMachine::Range { key, value } => {
            write_key(line, "4 ", key)?;
            write!(line, " {value}")
        }
        BadMachine::Unknown { key } => write_key(line, "5 ", key),
        BadMachine::Ratio { key } => write_key(line, "6 ", key),
        BadMachine::Domain { component } => write!(line, "7 {component}"),
    }
}

/// Writes a number, and a key as the bytes of a console are printed.
fn write_key(line: &mut String, number: &str, key: &KeyName) -> Result<(), AllocError>
    ensures { OnOk result (string_bytes line.new ≡ string_bytes line.old ++ (number.now ++ printed key.now)) }
{
    line.push_str(number)?;
    write_printed(line, key.as_slice())
}

/// The line for an executable that is refused.
fn elf_line(alloc: Global, bad: BadElf) -> Result<String, AllocError>
    ensures { IfOk result (λ line. string_bytes line ≡ codes "zsim: elf " ++ elf_details bad ++ codes "\n") }
{
    let mut line = String::from_str(alloc, "zsim: elf ")?;
    write_elf_details(&mut line, bad)?;
    line.push_str("\n")?;
    Ok(line)
}

/// Writes the number of the check that an executable failed, and what it names.
fn write_elf_details(line: &mut String, bad: BadElf) -> Result<(), AllocError>
    ensures { OnOk result (string_bytes line.new ≡ string_bytes line.old ++ elf_details bad) }
{
    match bad {
        BadElf::Short => line.push_str("1"),
        BadElf::Magic => line.push_str("2"),
        BadElf::ClassOrData => line.push_str("3"),
        BadElf::Type_ => line.push_str("4"),
        BadElf::Machine => line.push_str("5"),
        BadElf::Flags => line.push_str("6"),
        BadElf::Headers => line.push_str("7"),
        BadElf::Dynamic => line.push_str("8"),
        BadElf::SegmentPastFile { index } => write!(line, "9 {index}"),
        BadElf::SegmentPastMemory { index } => write!(line, "10 {index}"),
        BadElf::Overlap { first, second } => write!(line, "11 {first} {second}"),
        BadElf::Entry => line.push_str("12"),
    }
}

/// The line for a schedule that is refused.
fn schedule_line(alloc: Global, wrong: ScheduleFault) -> Result<String, AllocError>
    ensures { IfOk result (λ line. string_bytes line ≡ codes "zsim: schedule " ++ schedule_details wrong ++ codes "\n") }
{
    let mut line = String::from_str(alloc, "zsim: schedule ")?;
    write_schedule_details(&mut line, wrong)?;
    line.push_str("\n")?;
    Ok(line)
}

/// Writes the number of the check that a schedule failed, and what it names.
fn write_schedule_details(line: &mut String, wrong: ScheduleFault) -> Result<(), AllocError>
    ensures { OnOk result (string_bytes line.new ≡ string_bytes line.old ++ schedule_details wrong) }
{
    match wrong {
        ScheduleFault::File(BadSchedule::Short { at }) => write!(line, "1 {at}"),
        ScheduleFault::File(BadSchedule::Magic) => line.push_str("2"),
        ScheduleFault::File(BadSchedule::Version { found }) => write!(line, "3 {found}"),
        ScheduleFault::File(BadSchedule::Cores { found }) => write!(line, "4 {found}"),
        ScheduleFault::File(BadSchedule::Core { interval, place }) => {
            write!(line, "5 {interval} {place}")
        }
        ScheduleFault::File(BadSchedule::After { at }) => write!(line, "6 {at}"),
        ScheduleFault::Illegal { interval, place } => write!(line, "7 {interval} {place}"),
    }
}

/// The line for an events file that is refused.
fn events_line(alloc: Global, bad: BadEvents) -> Result<String, AllocError>
    ensures { IfOk result (λ line. string_bytes line ≡ codes "zsim: events " ++ events_details bad ++ codes "\n") }
{
    let mut line = String::from_str(alloc, "zsim: events ")?;
    write_events_details(&mut line, bad)?;
    line.push_str("\n")?;
    Ok(line)
}

/// Writes the number of the check that an events file failed, and what it names.
fn write_events_details(line: &mut String, bad: BadEvents) -> Result<(), AllocError>
    ensures { OnOk result (string_bytes line.new ≡ string_bytes line.old ++ events_details bad) }
{
    match bad {
        BadEvents::Short { at } => write!(line, "1 {at}"),
        BadEvents::Magic => line.push_str("2"),
        BadEvents::Version { found } => write!(line, "3 {found}"),
        BadEvents::Components { found } => write!(line, "4 {found}"),
        BadEvents::Field { interval, place } => write!(line, "5 {interval} {place}"),
        BadEvents::After { at } => write!(line, "6 {at}"),
    }
}

/// The line for events that are not the weave's.
fn verdict_line(alloc: Global, verdict: Verdict) -> Result<String, AllocError>
    ensures { IfOk result (λ line. string_bytes line ≡ codes "zsim: not the weave: " ++ verdict_details verdict ++ codes "\n") }
{
    let mut line = String::from_str(alloc, "zsim: not the weave: ")?;
    write_verdict_details(&mut line, verdict)?;
    line.push_str("\n")?;
    Ok(line)
}

/// Writes what is wrong with the first event that is, and its interval and number.
fn write_verdict_details(line: &mut String, verdict: Verdict) -> Result<(), AllocError>
    ensures { OnOk result (string_bytes line.new ≡ string_bytes line.old ++ verdict_details verdict) }
{
    match verdict {
        Verdict::Yes { intervals, events } => write!(line, "yes {intervals} {events}"),
        Verdict::Start { interval, number } => write!(line, "start {interval} {number}"),
        Verdict::Finish { interval, number } => write!(line, "finish {interval} {number}"),
    }
}
