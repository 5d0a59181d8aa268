//! The command that checks the events of a file.
ghost use Rattle.std.specs.Prelude.{◌≡◌, ◌⊎◌, codes, ◌++◌, string_bytes, IfOk};
ghost use Rattle.zsim.specs.Checked.{ChecksAs, IsYes, check_text};
ghost use Rattle.zsim.specs.CommandValue.{checking_value};
ghost use Rattle.zsim.specs.Ended.{KeepsNothing};
ghost use Rattle.zsim.specs.Seen.{files_seen, sink_seen};
ghost use Rattle.zsim.specs.Steps.{SaysText};

use crate::command_line::Checking;
use crate::put::put_all;
use crate::setup::{take_events, take_machine};
use crate::{Kept, Status};
use std::alloc::{AllocError, Global};
use zs_host::{Files, Sink, SinkFail};

/// Checks the events of a file on a machine, and says so where they are the weave's.
pub fn check_file<F: Files, O: Sink>(
    alloc: Global,
    command: &Checking<'_>,
    files: &mut F,
    out: &mut O,
    kept: &mut Kept,
) -> Status
    requires { KeepsNothing kept.old }
    ensures checked { ChecksAs (record { command = checking_value command.now; files = files_seen F.is_seen F.contents F.faults F.latest files.old files.new; out = sink_seen O.is_seen O.bytes O.faults out.old out.new }) result kept.new }
    ensures untouched { (out.new ≡ out.old) ⊎ IsYes kept.new }
{
    component::laws::fresh_components_are_there();
    let machine = match take_machine(alloc, command.machine, files, &mut kept.machine) {
        Ok(machine) => machine,
        Err(status) => return status,
    };
    match take_events(alloc, &machine, command.events, files, &mut kept.events) {
        Ok(counts) => say_yes(alloc, counts, out),
        Err(status) => status,
    }
}

/// Says that so many intervals and events are the weave's.
fn say_yes<O: Sink>(alloc: Global, counts: (u32, u32), out: &mut O) -> Status
    ensures { SaysText result (check_text counts) (sink_seen O.is_seen O.bytes O.faults out.old out.new) }
{
    let text = match yes_text(alloc, counts) {
        Ok(text) => text,
        Err(AllocError) => return Status::NoMemory,
    };
    match put_all(alloc, out, text.as_bytes()) {
        Ok(()) => Status::Ran,
        Err(SinkFail::Failed) => Status::WriteFault,
        Err(SinkFail::NoMemory) => Status::NoMemory,
    }
}

/// The text of a yes.
fn yes_text(alloc: Global, counts: (u32, u32)) -> Result<String, AllocError>
    ensures { IfOk result (λ text. string_bytes text ≡ check_text counts) }
{
    let (intervals, events) = counts;
    let mut text = String::from_str(alloc, "zsim check 1\n")?;
    write!(text, "intervals {intervals}\n")?;
    write!(text, "events {events}\n")?;
    text.push_str("yes\n")?;
    Ok(text)
}
