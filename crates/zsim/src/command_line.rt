//! The words of the command line.
ghost use Rattle.std.specs.Prelude.{◌≡◌, map, option_map, string_bytes, IfOk};
ghost use Rattle.std.specs.Char.{is_ascii_digit};
ghost use Rattle.std.specs.List.{list_all};
ghost use Rattle.clap.specs.Words.{first_of, found_of, rows_of};
ghost use Rattle.zsim.specs.CommandLine.{check, checking_after, checking_of, command_of, decimal_of, exe_of, execute, execution_after, execution_by, is_decimal, is_one_name, machine_file_of, replay_of, run_of, run_to, workers_of};
ghost use Rattle.zsim.specs.CommandValue.{checking_value, command_value, exe_value, execution_value, task_value};
ghost use Rattle.zsim.specs.Options.{check_options, replay_options, run_options};

use crate::options::{check_options, matched_by, replay_options, run_options};
use clap::ArgMatches;
use std::alloc::{AllocError, Global};

/// What is to be executed.
#[derive(Clone, Copy)]
pub enum Exe<'w> {
    /// The file of this name.
    File(&'w str),
    /// What the generator makes of a number.
    Generated(u64),
}

/// What is to be done with the executable.
#[derive(Clone, Copy)]
pub enum Task<'w> {
    /// It is run. Its schedule and its events may be written to two files.
    Run {
        /// How many threads are to do the work, from 1 to 64.
        workers: u16,
        /// The name of the file for the schedule.
        record_to: Option<&'w str>,
        /// The name of the file for the events.
        events_to: Option<&'w str>,
    },
    /// It is run under the schedule of a file.
    Replay {
        /// The name of the file.
        schedule: &'w str,
    },
}

/// An executable is run or replayed.
#[derive(Clone, Copy)]
pub struct Execution<'w> {
    /// The name of the machine's file, or None for the built-in machine.
    pub machine: Option<&'w str>,
    pub exe: Exe<'w>,
    pub task: Task<'w>,
    /// Only the summary is reported.
    pub brief: bool,
}

/// The events of a file are checked.
#[derive(Clone, Copy)]
pub struct Checking<'w> {
    /// The name of the machine's file, or None for the built-in machine.
    pub machine: Option<&'w str>,
    /// The name of the file.
    pub events: &'w str,
}

/// What the words ask for.
#[derive(Clone, Copy)]
pub enum Command<'w> {
    Execute(Execution<'w>),
    Check(Checking<'w>),
}

/// The command that the words are, if they are one.
#[tactic(auto, unfolding(crate::specs::CommandLine::command_of))]
pub fn command_of(alloc: Global, words: &[String]) -> Result<Option<Command<'_>>, AllocError>
    ensures { IfOk result (λ command. option_map command_value command ≡ command_of (map string_bytes words.now)) }
{
    let Some((verb, words)) = words.split_first() else {
        return Ok(None);
    };
    match verb.as_str() {
        "run" => command_after_run(alloc, words),
        "replay" => command_after_replay(alloc, words),
        "check" => command_after_check(alloc, words),
        _ => Ok(None),
    }
}

/// The command that the words after `run` ask for.
fn command_after_run(alloc: Global, words: &[String]) -> Result<Option<Command<'_>>, AllocError>
    ensures { IfOk result (λ command. option_map command_value command ≡ option_map execute (execution_after run_options run_of (map string_bytes words.now))) }
{
    match matched_by(run_options(alloc)?, words)? {
        Some(matches) => Ok(execute(execution_by(&matches, run_of(&matches)))),
        None => Ok(None),
    }
}

/// The command that the words after `replay` ask for.
fn command_after_replay(alloc: Global, words: &[String]) -> Result<Option<Command<'_>>, AllocError>
    ensures { IfOk result (λ command. option_map command_value command ≡ option_map execute (execution_after replay_options replay_of (map string_bytes words.now))) }
{
    match matched_by(replay_options(alloc)?, words)? {
        Some(matches) => Ok(execute(execution_by(&matches, replay_of(&matches)))),
        None => Ok(None),
    }
}

/// The command that the words after `check` ask for.
fn command_after_check(alloc: Global, words: &[String]) -> Result<Option<Command<'_>>, AllocError>
    ensures { IfOk result (λ command. option_map command_value command ≡ option_map check (checking_after (map string_bytes words.now))) }
{
    match matched_by(check_options(alloc)?, words)? {
        Some(matches) => Ok(check(checking_of(&matches))),
        None => Ok(None),
    }
}

/// The command to run or replay, if it is one.
fn execute(execution: Option<Execution<'_>>) -> Option<Command<'_>>
    ensures { option_map command_value result ≡ option_map execute (option_map execution_value execution.entry) }
{
    match execution {
        Some(execution) => Some(Command::Execute(execution)),
        None => None,
    }
}

/// The command to check, if it is one.
fn check(checking: Option<Checking<'_>>) -> Option<Command<'_>>
    ensures { option_map command_value result ≡ option_map check (option_map checking_value checking.entry) }
{
    match checking {
        Some(checking) => Some(Command::Check(checking)),
        None => None,
    }
}

/// A check, where the machine and the events are named.
fn checking_of<'w>(matches: &ArgMatches<'w>) -> Option<Checking<'w>>
    ensures { option_map checking_value result ≡ checking_of (rows_of (found_of matches.now)) }
{
    let machine = value(matches, "machine")?;
    Some(Checking {
        machine: machine_file_of(machine),
        events: value(matches, "events")?,
    })
}

/// A run, where its number of workers is well formed, and its schedule and its events do not go to
/// one file.
fn run_of<'w>(matches: &ArgMatches<'w>) -> Option<Task<'w>>
    ensures { option_map task_value result ≡ run_of (rows_of (found_of matches.now)) }
{
    let workers = workers_of(value(matches, "workers"))?;
    run_to(value(matches, "record"), value(matches, "events"), workers)
}

/// A run by so many workers, where its schedule and its events do not go to one file.
fn run_to<'w>(
    record_to: Option<&'w str>,
    events_to: Option<&'w str>,
    workers: u16,
) -> Option<Task<'w>>
    ensures { option_map task_value result ≡ run_to (option_map (λ s. s.now) record_to.entry) (option_map (λ s. s.now) events_to.entry) workers }
{
    if is_one_name(record_to, events_to) {
        return None;
    }
    Some(Task::Run {
        workers,
        record_to,
        events_to,
    })
}

/// Whether two names are there and the same.
fn is_one_name(first: Option<&str>, second: Option<&str>) -> bool
    ensures { result ≡ is_one_name (option_map (λ s. s.now) first.entry) (option_map (λ s. s.now) second.entry) }
{
    match (first, second) {
        (Some(first), Some(second)) => first == second,
        _ => false,
    }
}

/// A replay, where the schedule is named.
fn replay_of<'w>(matches: &ArgMatches<'w>) -> Option<Task<'w>>
    ensures { option_map task_value result ≡ replay_of (rows_of (found_of matches.now)) }
{
    Some(Task::Replay {
        schedule: value(matches, "schedule")?,
    })
}

/// What the matched words ask for beside a task, where their values are well formed.
#[tactic(auto, unfolding(crate::specs::CommandLine::execution_by))]
fn execution_by<'w>(matches: &ArgMatches<'w>, task: Option<Task<'w>>) -> Option<Execution<'w>>
    ensures { option_map execution_value result ≡ execution_by (rows_of (found_of matches.now)) (option_map task_value task.entry) }
{
    let machine = value(matches, "machine")?;
    let exe = exe_of(value(matches, "exe")?)?;
    let task = task?;
    Some(Execution {
        machine: machine_file_of(machine),
        exe,
        task,
        brief: matches!(value(matches, "brief"), Some("true")),
    })
}

/// The first value of an option or a positional word.
pub fn value<'w>(matches: &ArgMatches<'w>, name: &str) -> Option<&'w str>
    ensures { option_map (λ s. s.now) result ≡ first_of name.now (rows_of (found_of matches.now)) }
{
    matches.get_str(name)
}

/// The name of the machine's file, where the word is not that of the built-in machine.
#[tactic(auto, unfolding(crate::specs::CommandLine::machine_file_of))]
pub fn machine_file_of(word: &str) -> Option<&str>
    ensures { option_map (λ name. name.now) result ≡ machine_file_of word.now }
{
    if word == "plain" { None } else { Some(word) }
}

/// What the word for the executable names: `gen:N`, or a file.
#[tactic(auto, unfolding(crate::specs::CommandLine::exe_of))]
pub fn exe_of(word: &str) -> Option<Exe<'_>>
    ensures { option_map exe_value result ≡ exe_of word.now }
{
    match word.strip_prefix("gen:") {
        Some(number) => Some(Exe::Generated(number_of(number)?)),
        None => Some(Exe::File(word)),
    }
}

/// The number of workers, which is 1 where none is given.
#[tactic(auto, unfolding(crate::specs::CommandLine::workers_of))]
fn workers_of(word: Option<&str>) -> Option<u16>
    ensures { result ≡ workers_of (option_map (λ s. s.now) word.entry) }
{
    let Some(word) = word else {
        return Some(1);
    };
    match number_of(word)? {
        n @ 1..=64 => Some(n as u16),
        _ => None,
    }
}

/// The number below 2^64 that a word writes.
pub fn number_of(word: &str) -> Option<u64>
    ensures { result ≡ decimal_of word.now }
{
    if !is_decimal(word.as_bytes()) {
        return None;
    }
    match word.parse() {
        Ok(number) => Some(number),
        Err(_) => None,
    }
}

/// Whether a word has decimal digits alone, without a leading zero.
#[tactic(auto, unfolding(crate::specs::CommandLine::is_decimal))]
fn is_decimal(word: &[u8]) -> bool
    ensures { result ≡ is_decimal word.now }
{
    !word.is_empty() && has_digits(word) && (word == b"0".as_slice() || !word.starts_with(b"0"))
}

/// Whether a word has decimal digits alone.
fn has_digits(word: &[u8]) -> bool
    ensures { result ≡ list_all is_ascii_digit word.now }
{
    word.iter().all(|byte| byte.is_ascii_digit())
}
