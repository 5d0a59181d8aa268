//! Puts a whole text into a sink.
ghost use Rattle.std.specs.Prelude.{OnOk, OnErr};
ghost use Rattle.zsim.specs.Ended.{SaysLine};
ghost use Rattle.zs_host.specs.Faults.{SinkFaults};
ghost use Rattle.zsim.specs.Seen.{sink_seen, Gained, GainedPrefix};

use crate::Said;
use std::alloc::Global;
use zs_host::{Sink, SinkFail};

/// Puts all of a text. Each put is offered the whole rest.
pub fn put_all<S: Sink>(alloc: Global, sink: &mut S, text: &[u8]) -> Result<(), SinkFail>
    ensures all { OnOk result (Gained (sink_seen S.is_seen S.bytes S.faults sink.old sink.new) text.now) }
    ensures cut { OnErr result (GainedPrefix (sink_seen S.is_seen S.bytes S.faults sink.old sink.new) text.now) }
    ensures faults { SinkFaults result (S.faults sink.old) (S.faults sink.new) }
{
    let mut done = 0;
    while done < text.len() {
        done += sink.put(alloc, &text[done..])?;
    }
    Ok(())
}

/// Says a line, and answers how much of it was said.
pub fn say_line<S: Sink>(alloc: Global, sink: &mut S, line: &[u8]) -> Said
    ensures { SaysLine result line.now (sink_seen S.is_seen S.bytes S.faults sink.old sink.new) }
{
    match put_all(alloc, sink, line) {
        Ok(()) => Said::All,
        Err(SinkFail::Failed) => Said::Fault,
        Err(SinkFail::NoMemory) => Said::NoMemory,
    }
}
