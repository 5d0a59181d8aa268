//! The words of the command line.
ghost use Rattle.std.specs.Prelude.{◌≡◌, map, option_map, string_bytes, IfOk};
ghost use Rattle.clap.specs.Words.{first_of, found_of, rows_of};
ghost use Rattle.zprof.specs.CommandLine.{command_of, every_of, folder_of, is_given, profiling_of};
ghost use Rattle.zprof.specs.CommandValue.{profiling_value};

use crate::options::profile_options;
use clap::ArgMatches;
use std::alloc::{AllocError, Global};
use zsim::steps::{Exe, exe_of, machine_file_of, matched_by, number_of, value};

/// A run is to be looked at.
#[derive(Clone, Copy)]
pub struct Profiling<'w> {
    /// The name of the machine's file, or None for the built-in machine.
    pub machine: Option<&'w str>,
    pub exe: Exe<'w>,
    /// The name of the schedule's file, or None for the order core after core.
    pub schedule: Option<&'w str>,
    /// The name of the folder of the files.
    pub folder: &'w str,
    /// What was counted of an instruction is told by core.
    pub separate: bool,
    /// How many intervals a row of the series has, one at least.
    pub every: u32,
    /// Only the summary is reported.
    pub brief: bool,
}

/// The command that the words are, if they are one.
pub fn command_of(alloc: Global, words: &[String]) -> Result<Option<Profiling<'_>>, AllocError>
    ensures { IfOk result (λ command. option_map profiling_value command ≡ command_of (map string_bytes words.now)) }
{
    match matched_by(profile_options(alloc)?, words)? {
        Some(matches) => Ok(profiling_of(&matches)),
        None => Ok(None),
    }
}

/// What the matched words ask for, where their values are well formed.
#[tactic(auto, unfolding(crate::specs::CommandLine::profiling_of))]
fn profiling_of<'w>(matches: &ArgMatches<'w>) -> Option<Profiling<'w>>
    ensures { option_map profiling_value result ≡ profiling_of (rows_of (found_of matches.now)) }
{
    let machine = value(matches, "machine")?;
    let exe = exe_of(value(matches, "exe")?)?;
    let folder = folder_of(value(matches, "out")?)?;
    let every = every_of(value(matches, "every"))?;
    Some(Profiling {
        machine: machine_file_of(machine),
        exe,
        schedule: value(matches, "schedule"),
        folder,
        separate: is_given(matches, "separate-cores"),
        every,
        brief: is_given(matches, "brief"),
    })
}

/// The name of the folder, which is not empty.
#[tactic(auto, unfolding(crate::specs::CommandLine::folder_of))]
fn folder_of(name: &str) -> Option<&str>
    ensures { option_map (λ s. s.now) result ≡ folder_of name.now }
{
    if name.is_empty() { None } else { Some(name) }
}

/// How many intervals a row has, which is 1 where nothing is said.
#[tactic(auto, unfolding(crate::specs::CommandLine::every_of))]
fn every_of(word: Option<&str>) -> Option<u32>
    ensures { result ≡ every_of (option_map (λ s. s.now) word.entry) }
{
    let Some(word) = word else {
        return Some(1);
    };
    match number_of(word)? {
        every @ 1..=0xffff_ffff => Some(every as u32),
        _ => None,
    }
}

/// Whether an option was given that takes no value.
fn is_given(matches: &ArgMatches<'_>, name: &str) -> bool
    ensures { result ≡ is_given (first_of name.now (rows_of (found_of matches.now))) }
{
    matches!(value(matches, name), Some("true"))
}
