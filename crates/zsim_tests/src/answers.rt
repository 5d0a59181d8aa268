//! What a call answers, and how it is written.
use crate::gates::CaseGate;
use crate::page::Page;
use crate::top_call::{answer, profile_answer};
use access_log::Schedule;
use std::alloc::Global;
use std::sync::Wait;
use std::thread::Threads;
use zs_host::{Files, MemFiles, MemSink};
use zsim::{Ended, Said};

/// What a stream holds is written whole up to so many bytes.
const LONG: usize = 20_000;

/// Standard output and standard error.
#[derive(Drop)]
pub struct Streams {
    pub out: MemSink,
    pub err: MemSink,
}

impl Streams {
    /// Streams that take all.
    pub fn new(alloc: Global) -> Option<Self> {
        Some(Streams {
            out: MemSink::new(alloc, usize::MAX, &[]).ok()?,
            err: MemSink::new(alloc, usize::MAX, &[]).ok()?,
        })
    }
}

/// What a call answered, and what the two streams hold after it.
pub struct Called {
    pub ended: Ended,
    pub streams: Streams,
}

/// Taken apart in this one place, so that whoever lets go of an answer owes this call alone.
impl Drop for Called {
    fn drop(self) {
        let Called {
            ended: _ended,
            streams: _streams,
        } = self;
    }
}

/// Calls on these words, over these files and streams and past this gate.
pub fn call<F: Files>(
    rt: &(impl Threads + Wait + Sync),
    alloc: Global,
    words: &[String],
    files: &mut F,
    mut streams: Streams,
    gate: CaseGate,
) -> Called {
    let ended = answer(
        rt,
        alloc,
        words,
        files,
        &mut streams.out,
        &mut streams.err,
        gate,
    );
    Called { ended, streams }
}

/// Calls the profiler on these words, over these files and streams.
pub fn profile<F: Files>(
    alloc: Global,
    words: &[String],
    files: &mut F,
    mut streams: Streams,
) -> Called {
    let ended = profile_answer(alloc, words, files, &mut streams.out, &mut streams.err);
    Called { ended, streams }
}

impl Called {
    fn output(&self) -> &[u8] {
        self.streams.out.bytes()
    }

    fn error(&self) -> &[u8] {
        self.streams.err.bytes()
    }

    /// Standard output as a text, which is the report where there is one. `None` where it is no
    /// UTF-8.
    pub fn report(&self) -> Option<&str> {
        str::from_utf8(self.output()).ok()
    }

    /// Writes what the call put on both streams, and its status.
    pub fn write(&self, page: &mut Page) {
        write_ended(&self.ended, self.output(), self.error(), page);
    }

    /// Writes what no order of accesses changes: the lines of cores, instructions and accesses, how
    /// many lines there are, and the status.
    pub fn write_steady(&self, page: &mut Page) -> Option<()> {
        write_steady_lines(self.report()?, page);
        write_ended(&self.ended, &[], self.error(), page);
        Some(())
    }

    /// Whether another call answered the same on both streams, with the same status.
    pub fn is_as(&self, other: &Called) -> bool {
        self.ended.status.number() == other.ended.status.number()
            && self.output() == other.output()
            && self.error() == other.error()
    }

    /// Writes how many lines of standard output end with this text.
    pub fn write_found(&self, text: &str, page: &mut Page) -> Option<()> {
        page.number(found(self.report()?, text));
        page.text(" with ");
        page.line(text);
        Some(())
    }

    /// Writes what was said on standard error, and what was kept. The names are those that should
    /// hold the machine, the executable and the schedule file.
    pub fn write_kept(&self, names: &[String], files: &MemFiles, page: &mut Page) -> Option<()> {
        let [machine, exe, sched_file] = names else {
            return None;
        };
        let kept = &self.ended.kept;
        page.text("said ");
        page.text(said(self.ended.said));
        page.text(", kept");
        write_held(machine, kept.machine.as_slice(), files, page);
        write_held(exe, kept.exe.as_slice(), files, page);
        write_held(sched_file, kept.sched_file.as_slice(), files, page);
        write_schedule(&kept.schedule, page);
        page.text(", faults ");
        page.number(files.fault_count());
        page.line("");
        Some(())
    }

    /// Writes what was kept of a file of events. The name is the one that should hold it.
    pub fn write_kept_events(&self, name: &str, files: &MemFiles, page: &mut Page) {
        page.text("events");
        write_held(name, self.ended.kept.events.as_slice(), files, page);
        page.line("");
    }
}

/// How many lines end with this text.
fn found(report: &str, text: &str) -> u64 {
    let mut found = 0u64;
    for line in report.lines() {
        if line.ends_with(text) {
            found = found.saturating_add(1);
        }
    }
    found
}

fn write_steady_lines(report: &str, page: &mut Page) {
    let mut lines = 0u64;
    for line in report.lines() {
        if is_steady(line) {
            page.line(line);
        }
        lines = lines.saturating_add(1);
    }
    page.text("lines ");
    page.number(lines);
    page.line("");
}

fn said(said: Said) -> &'static str {
    match said {
        Said::All => "All",
        Said::Fault => "Fault",
        Said::NoMemory => "NoMemory",
    }
}

/// Writes a name and how many bytes were kept of it, and whether it holds them.
fn write_held(name: &str, kept: &[u8], files: &MemFiles, page: &mut Page) {
    page.text(" ");
    page.text(how_held(files.get(name), kept));
    page.text(name);
    page.text(" ");
    page.number(kept.len() as u64);
}

/// What is written before a name: nothing where it holds what was kept.
fn how_held(held: Option<&[u8]>, kept: &[u8]) -> &'static str {
    match held {
        Some(bytes) if bytes == kept => "",
        Some(_) => "not ",
        None => "no ",
    }
}

/// Writes for how many cores a schedule is, and the cores of each interval.
fn write_schedule(schedule: &Schedule, page: &mut Page) {
    page.text(", of cores ");
    page.number(u64::from(schedule.cores()));
    for interval in 0..schedule.intervals() {
        page.text(" interval");
        write_turns(schedule.list(interval), page);
    }
}

fn write_turns(turns: &[u16], page: &mut Page) {
    for core in turns {
        page.text(" ");
        page.number(u64::from(*core));
    }
}

/// Writes what stands on both streams after a call, and its status.
pub fn write_ended(ended: &Ended, output: &[u8], error: &[u8], page: &mut Page) {
    write_stream(output, page);
    write_stream(error, page);
    page.text("status ");
    page.number(u64::from(ended.status.number()));
    page.line("");
}

/// Writes what a stream holds. Two dots stand behind a line that has no end.
fn write_stream(bytes: &[u8], page: &mut Page) {
    let len = bytes.len();
    if len > LONG {
        page.number(len as u64);
        page.text(" bytes: ");
        page.put(part(bytes, 0, 32));
        page.text("..");
        page.put(part(bytes, len.saturating_sub(9), len));
    } else {
        page.put(bytes);
    }
    if !bytes.is_empty() && !bytes.ends_with(b"\n") {
        page.line("..");
    }
}

/// The bytes from an index up to another, or none where these are out of range.
fn part(bytes: &[u8], first: usize, end: usize) -> &[u8] {
    match bytes.get(first..end) {
        Some(part) => part,
        None => &[],
    }
}

/// No order of accesses changes this line of a generated program's answer: its branches depend on
/// no word that a core writes.
fn is_steady(line: &str) -> bool {
    line.starts_with("cores ") || line.starts_with("instructions ") || line.starts_with("accesses ")
}
