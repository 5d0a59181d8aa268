//! The calls of the cases: what names hold, the streams, and what the last call answered.
use crate::answers::{Called, Streams, call, profile, write_ended};
use crate::contents::put_contents;
use crate::gates::{CaseGate, CountingGate, write_met};
use crate::page::Page;
use crate::top_call::answer;
use crate::words::{counts_of, parted, words_of};
use std::alloc::Global;
use std::mem;
use std::sync::Wait;
use std::thread::Threads;
use zs_host::{Files, MeetingGate, MemFiles, MemSink, SureFiles, SureSink};

/// What names hold, the streams of the next call, and what the last call answered, and for a moment
/// the one before it.
pub struct Scene {
    streams: Streams,
    files: MemFiles,
    last: Option<Called>,
    before: Option<Called>,
}

/// Taken apart in this one place, so that whoever lets go of a scene owes this call alone.
impl Drop for Scene {
    fn drop(self) {
        let Scene {
            streams: _streams,
            files: _files,
            last: _last,
            before: _before,
        } = self;
    }
}

impl Scene {
    /// No names, streams that take all, and no call.
    pub fn new(alloc: Global) -> Option<Self> {
        Some(Scene {
            streams: Streams::new(alloc)?,
            files: MemFiles::new(alloc, &[]).ok()?,
            last: None,
            before: None,
        })
    }

    /// Does what a line says that stands on those before it, and writes what it has to write. The
    /// files beside this one are in `beside`. `None` where memory runs out for a call or the line
    /// is none of these.
    pub fn play<F: Files>(
        &mut self,
        rt: &(impl Threads + Wait + Sync),
        alloc: Global,
        kind: &str,
        rest: &str,
        beside: &mut F,
        page: &mut Page,
    ) -> Option<()> {
        match kind {
            "anew" => self.begin(alloc, rest),
            "hold" => self.hold_named(alloc, rest, beside),
            "set" => self.set_byte(alloc, rest),
            "cut" => self.cut(alloc, rest),
            "show" => self.write_held(rest, page),
            "out" => self.set_out(alloc, rest),
            "err" => self.set_err(alloc, rest),
            "text" => self.write_text(rest, page),
            "call" => self.write_called(rt, alloc, rest, page),
            "profile" => self.write_profiled(alloc, rest, page),
            "race" => self.write_race(rt, alloc, rest, page),
            "meet" => self.write_met(rt, alloc, rest, page),
            "count" => self.write_counts(rt, alloc, rest, false, page),
            "owners" => self.write_counts(rt, alloc, rest, true, page),
            "again" => self.write_again(rt, alloc, rest, page),
            "rounds" => self.write_rounds(rt, alloc, rest, page),
            "sure" => self.write_sure(rt, alloc, rest, page),
            "find" => self.last.as_ref()?.write_found(rest, page),
            "kept" => self.write_kept(alloc, rest, page),
            "events" => {
                self.last
                    .as_ref()?
                    .write_kept_events(rest, &self.files, page);
                Some(())
            }
            _ => None,
        }
    }

    /// From here on no name holds anything, and the calls on the files with these numbers fail.
    fn begin(&mut self, alloc: Global, numbers: &str) -> Option<()> {
        self.files = MemFiles::new(alloc, &counts_of(alloc, numbers)?).ok()?;
        Some(())
    }

    /// Has the standard output of the next call take and fail as these numbers say (`taking`).
    fn set_out(&mut self, alloc: Global, numbers: &str) -> Option<()> {
        self.streams.out = taking(alloc, numbers)?;
        Some(())
    }

    /// Has the standard error of the next call take and fail as these numbers say (`taking`).
    fn set_err(&mut self, alloc: Global, numbers: &str) -> Option<()> {
        self.streams.err = taking(alloc, numbers)?;
        Some(())
    }

    /// Has the name that a line begins with hold the contents behind it.
    fn hold_named<F: Files>(&mut self, alloc: Global, rest: &str, beside: &mut F) -> Option<()> {
        let (name, text) = parted(rest);
        self.hold(alloc, name, parted(text), beside)
    }

    /// Has a name hold contents.
    fn hold<F: Files>(
        &mut self,
        alloc: Global,
        name: &str,
        (kind, rest): (&str, &str),
        beside: &mut F,
    ) -> Option<()> {
        let mut bytes = Vec::new(alloc);
        put_contents(alloc, kind, rest, beside, &mut bytes)?;
        self.files.set(alloc, name, &bytes).ok()
    }

    /// Has a byte of what a name holds be another one: the line has the name, the index and the
    /// byte.
    fn set_byte(&mut self, alloc: Global, rest: &str) -> Option<()> {
        let (name, numbers) = parted(rest);
        let (index, byte) = parted(numbers);
        let mut bytes = self.copy_of(alloc, name)?;
        *bytes.get_mut(index.parse::<usize>().ok()?)? = byte.parse::<u8>().ok()?;
        self.files.set(alloc, name, &bytes).ok()
    }

    /// Has a name hold the first bytes of what it holds: the line has the name and how many.
    fn cut(&mut self, alloc: Global, rest: &str) -> Option<()> {
        let (name, count) = parted(rest);
        let bytes = self.copy_of(alloc, name)?;
        let first = bytes.get(0..count.parse::<usize>().ok()?)?;
        self.files.set(alloc, name, first).ok()
    }

    /// The bytes that a name holds.
    fn copy_of(&self, alloc: Global, name: &str) -> Option<Vec<u8>> {
        Vec::from_slice(alloc, self.files.get(name)?).ok()
    }

    /// Writes the bytes that a name holds, in hexadecimal digits.
    fn write_held(&self, name: &str, page: &mut Page) -> Option<()> {
        let held = self.files.get(name)?;
        page.text(name);
        for byte in held {
            page.text(" ");
            page.byte(*byte);
        }
        page.line("");
        Some(())
    }

    /// Writes what a name holds, as it stands.
    fn write_text(&self, name: &str, page: &mut Page) -> Option<()> {
        page.put(self.files.get(name)?);
        Some(())
    }

    /// Calls on these words past this gate, over what the names hold and the streams that stand
    /// ready. Those of the next call take all.
    fn call(
        &mut self,
        rt: &(impl Threads + Wait + Sync),
        alloc: Global,
        words: &str,
        gate: CaseGate,
    ) -> Option<()> {
        let words = words_of(alloc, words)?;
        self.call_on(rt, alloc, &words, gate)
    }

    fn call_on(
        &mut self,
        rt: &(impl Threads + Wait + Sync),
        alloc: Global,
        words: &[String],
        gate: CaseGate,
    ) -> Option<()> {
        let streams = mem::replace(&mut self.streams, Streams::new(alloc)?);
        self.last = Some(call(rt, alloc, words, &mut self.files, streams, gate));
        Some(())
    }

    /// Writes what a call answers.
    fn write_called(
        &mut self,
        rt: &(impl Threads + Wait + Sync),
        alloc: Global,
        words: &str,
        page: &mut Page,
    ) -> Option<()> {
        self.call(rt, alloc, words, CaseGate::Open)?;
        self.last.as_ref()?.write(page);
        Some(())
    }

    /// Writes what a call of the profiler answers.
    fn write_profiled(&mut self, alloc: Global, words: &str, page: &mut Page) -> Option<()> {
        let words = words_of(alloc, words)?;
        let streams = mem::replace(&mut self.streams, Streams::new(alloc)?);
        let called = profile(alloc, &words, &mut self.files, streams);
        called.write(page);
        self.last = Some(called);
        Some(())
    }

    /// Has A hold these contents, and writes what a call answers.
    pub fn write_call<F: Files>(
        &mut self,
        rt: &(impl Threads + Wait + Sync),
        alloc: Global,
        words: &str,
        exe: (&str, &str),
        beside: &mut F,
        page: &mut Page,
    ) -> Option<()> {
        self.hold(alloc, "A", exe, beside)?;
        self.write_called(rt, alloc, words, page)
    }

    /// Has m hold these contents, and writes what a run of these instructions on it answers.
    pub fn write_on<F: Files>(
        &mut self,
        rt: &(impl Threads + Wait + Sync),
        alloc: Global,
        machine: (&str, &str),
        code: &str,
        beside: &mut F,
        page: &mut Page,
    ) -> Option<()> {
        self.hold(alloc, "m", machine, beside)?;
        self.write_call(rt, alloc, "run m A", ("code", code), beside, page)
    }

    /// Writes of what a call answers what no order of accesses changes.
    fn write_race(
        &mut self,
        rt: &(impl Threads + Wait + Sync),
        alloc: Global,
        words: &str,
        page: &mut Page,
    ) -> Option<()> {
        self.call(rt, alloc, words, CaseGate::Open)?;
        self.last.as_ref()?.write_steady(page)
    }

    /// Writes who met whom in a call of several workers, and what it answered.
    fn write_met(
        &mut self,
        rt: &(impl Threads + Wait + Sync),
        alloc: Global,
        words: &str,
        page: &mut Page,
    ) -> Option<()> {
        let gate = MeetingGate::new();
        self.call(rt, alloc, words, CaseGate::Meeting(&gate))?;
        self.last.as_ref()?.write(page);
        write_met(&gate, page);
        Some(())
    }

    /// Writes who passed the gate in a call of several workers, and what no order of accesses
    /// changes; and whether the workers of their domains fired the events.
    fn write_counts(
        &mut self,
        rt: &(impl Threads + Wait + Sync),
        alloc: Global,
        words: &str,
        with_owners: bool,
        page: &mut Page,
    ) -> Option<()> {
        let gate = CountingGate::new();
        self.call(rt, alloc, words, CaseGate::Counting(&gate))?;
        write_counted(alloc, self.last.as_ref()?, &gate, with_owners, page)
    }

    /// Writes whether a call answers what the last one did, and if not, what it answers. It is no
    /// last one for the lines that follow.
    fn write_again(
        &mut self,
        rt: &(impl Threads + Wait + Sync),
        alloc: Global,
        words: &str,
        page: &mut Page,
    ) -> Option<()> {
        self.before = self.last.take();
        self.call(rt, alloc, words, CaseGate::Open)?;
        write_compared(self.last.as_ref()?, self.before.as_ref()?, page);
        self.last = self.before.take();
        Some(())
    }

    /// Writes how many of so many calls answer what the call before each did. The line has how many,
    /// the words of the calls before, which go past a gate that isn't open, and those of the others.
    fn write_rounds(
        &mut self,
        rt: &(impl Threads + Wait + Sync),
        alloc: Global,
        rest: &str,
        page: &mut Page,
    ) -> Option<()> {
        let (count, words) = parted(rest);
        let rounds = count.parse::<u64>().ok()?;
        let (first, second) = words.split_once(" : ")?;
        let mut same = 0u64;
        for _ in 0..rounds {
            let is_same = self.is_answered_again(rt, alloc, first, second)?;
            same = same.saturating_add(u64::from(is_same));
        }
        page.number(same);
        page.line(" the same");
        Some(())
    }

    /// Whether a call answers what one does before it, which goes past a gate that isn't open.
    fn is_answered_again(
        &mut self,
        rt: &(impl Threads + Wait + Sync),
        alloc: Global,
        first: &str,
        second: &str,
    ) -> Option<bool> {
        let gate = CountingGate::new();
        self.call(rt, alloc, first, CaseGate::Counting(&gate))?;
        self.before = self.last.take();
        self.call(rt, alloc, second, CaseGate::Open)?;
        Some(self.last.as_ref()?.is_as(self.before.as_ref()?))
    }

    /// Writes what a call answers over files and streams that never fail. Of the names, those among
    /// the words hold what they hold here.
    fn write_sure(
        &mut self,
        rt: &(impl Threads + Wait + Sync),
        alloc: Global,
        words: &str,
        page: &mut Page,
    ) -> Option<()> {
        let words = words_of(alloc, words)?;
        let mut files = SureFiles::new(alloc);
        self.give(alloc, &words, &mut files)?;
        write_surely(rt, alloc, &words, &mut files, page);
        Some(())
    }

    /// Has those of the names that hold something here hold it there.
    fn give(&self, alloc: Global, names: &[String], files: &mut SureFiles) -> Option<()> {
        for name in names {
            if let Some(bytes) = self.files.get(name) {
                files.set(alloc, name, bytes).ok()?;
            }
        }
        Some(())
    }

    /// Writes what the last call kept.
    fn write_kept(&self, alloc: Global, names: &str, page: &mut Page) -> Option<()> {
        let names = words_of(alloc, names)?;
        self.last.as_ref()?.write_kept(&names, &self.files, page)
    }
}

/// Writes what no order of accesses changes, and who passed the gate.
fn write_counted(
    alloc: Global,
    called: &Called,
    gate: &CountingGate,
    with_owners: bool,
    page: &mut Page,
) -> Option<()> {
    called.write_steady(page)?;
    gate.write(alloc, called, page)?;
    if with_owners {
        gate.write_owners(called, page);
    }
    Some(())
}

/// Writes whether a call answered the same as one before, and if not, what it answered.
fn write_compared(called: &Called, before: &Called, page: &mut Page) {
    if called.is_as(before) {
        page.line("the same");
    } else {
        called.write(page);
    }
}

/// Writes what a call answers over files and streams that never fail.
fn write_surely(
    rt: &(impl Threads + Wait + Sync),
    alloc: Global,
    words: &[String],
    files: &mut SureFiles,
    page: &mut Page,
) {
    let (mut out, mut err) = (SureSink::new(alloc), SureSink::new(alloc));
    let ended = answer(rt, alloc, words, files, &mut out, &mut err, CaseGate::Open);
    write_ended(&ended, out.bytes(), err.bytes(), page);
}

/// A stream that takes at most so many bytes a put, as the first number says. The puts of the other
/// numbers fail.
fn taking(alloc: Global, text: &str) -> Option<MemSink> {
    let counts = counts_of(alloc, text)?;
    let (most, fail) = counts.split_first()?;
    MemSink::new(alloc, *most as usize, fail).ok()
}
