//! Cases from a file. Each line is one, and its first word says what the others are:
//!
//! - `#`: a line for the reader.
//! - `words WORDS`: the words of a call, where A holds the executable that exits with seven.
//! - `example NAME`: `run plain NAME`, over the files beside this one.
//! - `files WORDS`: the words of a call over these files.
//! - `describe NAME`: a machine description among them. Its numbers of cores, banks, controllers
//!   and domains are written.
//! - `exe CONTENTS`: `run plain A`, where A holds these (`contents.rt`); `code ..`: the same of
//!   instructions.
//! - `spoil NUMBERS`: the same of the executable that exits with seven, with other bytes.
//! - `description CONTENTS`: `run m A`, where m holds these, and A the executable that exits with
//!   seven.
//! - `machine CHANGES` or `machine CHANGES : CODE`: the same, where m holds the built-in machine
//!   with changes, and A these instructions, if there are any.
//!
//! Others stand on those before them (`scene.rt`):
//!
//! - `anew N..`: from here on no name holds anything, and the calls on the files with these numbers
//!   fail.
//! - `hold NAME CONTENTS`: what the name holds from here on.
//! - `set NAME INDEX BYTE`, `cut NAME COUNT`: of what it holds a byte is another one, or only so many
//!   bytes are left.
//! - `show NAME`: the bytes that it holds; `text NAME`: the same as they stand.
//! - `out MOST N..`, `err MOST N..`: standard output or standard error of the next call takes at
//!   most so many bytes a put, and the puts with these numbers fail.
//! - `call WORDS`: the words of a call over what the names hold; `profile WORDS`: those of a call of
//!   the profiler.
//! - `race WORDS`: a call of which only what no order of accesses changes is written.
//! - `count WORDS`: the same, and who passed the gate; `owners WORDS`: and whether the workers of
//!   their domains fired the events, where two workers have two domains.
//! - `meet WORDS`: a call in which two cores, and then two domains, wait for each other at the
//!   gate.
//! - `sure WORDS`: a call over files and streams that never fail.
//! - `again WORDS`: a call, and whether it answers what the last one did.
//! - `rounds N WORDS : WORDS`: so many times a call past a gate that isn't open, and one behind it;
//!   how many of these answer what the one before did.
//! - `find TEXT`: how many lines of the last answer end with this text.
//! - `kept MACHINE EXE SCHEDULE`: what the last call kept, and whether these names hold it; `events
//!   NAME`: the same of a file of events.
use crate::answers::{Streams, call};
use crate::contents::MOST;
use crate::executables::SEVEN;
use crate::gates::CaseGate;
use crate::page::Page;
use crate::scene::Scene;
use crate::words::{parted, put_words, words_of};
use machine_desc::read;
use std::alloc::Global;
use std::sync::Wait;
use std::thread::Threads;
use zs_host::Files;

/// Writes what all cases of the file `cases` answer, in their order. `None` where memory runs out
/// for a call or a line is no case, which then stands behind the answers of those before it.
pub fn answer_all<F: Files>(
    rt: &(impl Threads + Wait + Sync),
    alloc: Global,
    files: &mut F,
    page: &mut Page,
) -> Option<()> {
    let bytes = files.read(alloc, "cases", MOST).ok()?;
    let mut scene = Scene::new(alloc)?;
    let text = str::from_utf8(bytes.as_slice()).ok()?;
    write_cases(rt, alloc, text, files, &mut scene, page)
}

/// Writes what the cases of these lines answer.
fn write_cases<F: Files>(
    rt: &(impl Threads + Wait + Sync),
    alloc: Global,
    text: &str,
    files: &mut F,
    scene: &mut Scene,
    page: &mut Page,
) -> Option<()> {
    for line in text.lines() {
        if write_case(rt, alloc, line, files, scene, page).is_none() {
            page.line(line);
            return None;
        }
    }
    Some(())
}

/// Writes what a case answers. `None` where memory runs out for its call or the line is no case.
fn write_case<F: Files>(
    rt: &(impl Threads + Wait + Sync),
    alloc: Global,
    line: &str,
    files: &mut F,
    scene: &mut Scene,
    page: &mut Page,
) -> Option<()> {
    let (kind, rest) = parted(line);
    match kind {
        "#" => {
            page.line(line);
            Some(())
        }
        "words" => write_call(rt, alloc, rest, ("code", SEVEN), files, page),
        "example" => write_example(rt, alloc, rest, files, page),
        "files" => write_files(rt, alloc, rest, files, page),
        "describe" => write_machine(alloc, rest, files, page),
        "exe" => write_call(rt, alloc, "run plain A", parted(rest), files, page),
        "code" | "spoil" => write_call(rt, alloc, "run plain A", (kind, rest), files, page),
        "description" => write_on(rt, alloc, parted(rest), SEVEN, files, page),
        "machine" => write_on_changed(rt, alloc, rest, files, page),
        _ => scene.play(rt, alloc, kind, rest, files, page),
    }
}

/// Writes what these words answer, where A holds these contents.
fn write_call<F: Files>(
    rt: &(impl Threads + Wait + Sync),
    alloc: Global,
    words: &str,
    exe: (&str, &str),
    files: &mut F,
    page: &mut Page,
) -> Option<()> {
    let mut scene = Scene::new(alloc)?;
    scene.write_call(rt, alloc, words, exe, files, page)
}

/// Writes what `run m A` answers, where m holds the built-in machine with changes, and A the
/// executable of the instructions behind ` : `, if there are any, and else the one that exits with
/// seven.
fn write_on_changed<F: Files>(
    rt: &(impl Threads + Wait + Sync),
    alloc: Global,
    rest: &str,
    files: &mut F,
    page: &mut Page,
) -> Option<()> {
    let (changes, code) = rest.split_once(" : ").unwrap_or((rest, SEVEN));
    write_on(rt, alloc, ("machine", changes), code, files, page)
}

/// Writes what `run m A` answers, where m holds these contents and A the executable of these
/// instructions.
fn write_on<F: Files>(
    rt: &(impl Threads + Wait + Sync),
    alloc: Global,
    machine: (&str, &str),
    code: &str,
    files: &mut F,
    page: &mut Page,
) -> Option<()> {
    let mut scene = Scene::new(alloc)?;
    scene.write_on(rt, alloc, machine, code, files, page)
}

/// Writes what `run plain NAME` answers, over these files.
fn write_example<F: Files>(
    rt: &(impl Threads + Wait + Sync),
    alloc: Global,
    name: &str,
    files: &mut F,
    page: &mut Page,
) -> Option<()> {
    let words = run_of(alloc, name)?;
    write_answer(rt, alloc, &words, files, page)
}

/// The words `run plain NAME`.
fn run_of(alloc: Global, name: &str) -> Option<Vec<String>> {
    let mut words = words_of(alloc, "run plain")?;
    put_words(alloc, name, &mut words)?;
    Some(words)
}

/// Writes what a call on these words answers, over these files.
fn write_files<F: Files>(
    rt: &(impl Threads + Wait + Sync),
    alloc: Global,
    words: &str,
    files: &mut F,
    page: &mut Page,
) -> Option<()> {
    let words = words_of(alloc, words)?;
    write_answer(rt, alloc, &words, files, page)
}

fn write_answer<F: Files>(
    rt: &(impl Threads + Wait + Sync),
    alloc: Global,
    words: &[String],
    files: &mut F,
    page: &mut Page,
) -> Option<()> {
    let streams = Streams::new(alloc)?;
    call(rt, alloc, words, files, streams, CaseGate::Open).write(page);
    Some(())
}

/// Writes the numbers of cores, banks, controllers and domains of the machine that a file
/// describes.
fn write_machine<F: Files>(
    alloc: Global,
    name: &str,
    files: &mut F,
    page: &mut Page,
) -> Option<()> {
    let text = files.read(alloc, name, MOST).ok()?;
    let machine = read(alloc, text.as_slice()).ok()?;
    page.text(name);
    page.text(":");
    for number in [
        machine.cores,
        machine.l2.banks,
        machine.controllers.count,
        machine.domains.count,
    ] {
        page.text(" ");
        page.number(u64::from(number));
    }
    page.line("");
    Some(())
}
