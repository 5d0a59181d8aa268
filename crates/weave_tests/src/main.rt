//! Weaves graphs on one list, by domains and by workers, and writes what they answer, a line for
//! each case; the stored output has what they must answer, worked by hand from the rules of the
//! weave. `time N` prints how long each way takes to weave N events.
#![tactic(auto)]

mod at_the_gate;
mod by_domains;
mod by_workers;
mod delayed;
mod driven;
mod fitting;
mod graphs;
mod one_list;
mod page;
mod random;
mod regular;
mod scripts;
mod server;
mod times;
mod watched;
mod ways;
mod worked;

use crate::page::Page;
use std::alloc::Global;
use std::io::Print;
use std::process::ExitCode;
use std::thread::Threads;
use std::{env, io};

/// What the words of the command line ask for.
#[derive(Clone, Copy)]
enum Task {
    /// What all cases answer.
    Cases,
    /// How long each way takes to weave so many events.
    Times(u32),
    /// They ask for nothing that there is.
    Nothing,
}

/// What these words ask for, of which the first is the name of the program.
fn task_of(words: &[String]) -> Task {
    if words.len() == 1 {
        return Task::Cases;
    }
    if words.len() != 3 || words[1].as_str() != "time" {
        return Task::Nothing;
    }
    match words[2].parse::<u32>() {
        Ok(count) => Task::Times(count),
        Err(_) => Task::Nothing,
    }
}

/// What the words of this call ask for.
fn asked(rt: &HostRuntime) -> io::Result<Task> {
    let words: Vec<String> = env::args(rt)?.collect(rt.alloc())?;
    Ok(task_of(&words))
}

/// Puts what all cases answer on a page.
fn put_cases<T: Threads + Sync>(threads: &T, alloc: Global, page: &mut Page) {
    scripts::run(alloc, page);
    worked::run(threads, alloc, page);
    worked::run_by_one(threads, alloc, page);
    worked::run_at_a_gate(threads, alloc, page);
    at_the_gate::run(threads, alloc, page);
    delayed::run(alloc, page);
    regular::run(threads, alloc, page);
    random::run(threads, alloc, page);
}

/// Writes a line for each case. Answers whether all found memory.
fn write_cases<T: Threads + Sync>(rt: &HostRuntime, threads: &T) -> io::Result<bool> {
    let mut page = Page::new(rt.alloc());
    put_cases(threads, rt.alloc(), &mut page);
    rt.stdout().write_all(page.bytes())?;
    Ok(page.is_whole())
}

fn main(rt: HostRuntime) -> io::Result<ExitCode> {
    let is_done = match asked(&rt)? {
        Task::Cases => write_cases(&rt, &rt)?,
        Task::Times(count) => times::run(&rt, &rt, count)?,
        Task::Nothing => false,
    };
    Ok(if is_done {
        ExitCode::SUCCESS
    } else {
        ExitCode::FAILURE
    })
}
