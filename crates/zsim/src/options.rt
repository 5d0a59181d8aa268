//! The words after `run`, `replay` and `check`, as `clap` reads them.
ghost use Rattle.std.specs.Prelude.{◌≡◌, false, true, map, option_map, string_bytes, IfOk};
ghost use Rattle.clap.specs.Words.{app_of, found_of, is_simple_and_free, rows_of, rule_of, with_rule};
ghost use Rattle.zsim.specs.Options.{check_options, flag, inputs, matched_by, needed_option, no_options, option, positional, replay_options, run_options};

use clap::error::ErrorKind;
use clap::{Arg, ArgAction, ArgMatches, Command};
use std::alloc::{AllocError, Global};

/// The options of a run.
pub fn run_options<'w>(alloc: Global) -> Result<Command<'w>, AllocError>
    ensures options { IfOk result (λ options. app_of options ≡ run_options) }
    ensures simple { IfOk result (λ options. is_simple_and_free (app_of options) ≡ true) }
{
    let options = inputs(alloc)?;
    let options = with_arg(options, option(alloc, "workers"))?;
    let options = with_arg(options, option(alloc, "record"))?;
    let options = with_arg(options, option(alloc, "events"))?;
    with_arg(options, flag(alloc, "brief"))
}

/// The options of a replay.
pub fn replay_options<'w>(alloc: Global) -> Result<Command<'w>, AllocError>
    ensures options { IfOk result (λ options. app_of options ≡ replay_options) }
    ensures simple { IfOk result (λ options. is_simple_and_free (app_of options) ≡ true) }
{
    let options = inputs(alloc)?;
    let options = with_arg(options, option(alloc, "schedule").required(true))?;
    with_arg(options, flag(alloc, "brief"))
}

/// The words of a check: the machine and the file of the events.
pub fn check_options<'w>(alloc: Global) -> Result<Command<'w>, AllocError>
    ensures options { IfOk result (λ options. app_of options ≡ check_options) }
    ensures simple { IfOk result (λ options. is_simple_and_free (app_of options) ≡ true) }
{
    let options = with_arg(no_options(alloc), positional(alloc, "machine"))?;
    with_arg(options, positional(alloc, "events"))
}

/// The machine and the executable.
pub fn inputs<'w>(alloc: Global) -> Result<Command<'w>, AllocError>
    ensures { IfOk result (λ options. app_of options ≡ inputs) }
{
    let options = with_arg(no_options(alloc), positional(alloc, "machine"))?;
    with_arg(options, positional(alloc, "exe"))
}

/// No option. The first word is not the program's name, and none asks for help.
fn no_options<'w>(alloc: Global) -> Command<'w>
    ensures { app_of result ≡ no_options }
{
    Command::new(alloc, "zsim")
        .no_binary_name(true)
        .disable_help_flag(true)
}

/// One argument more.
pub fn with_arg<'w>(options: Command<'w>, arg: Arg<'w>) -> Result<Command<'w>, AllocError>
    requires { arg.global ≡ false }
    ensures { IfOk result (λ more. app_of more ≡ with_rule (app_of options.entry) (rule_of arg.entry)) }
{
    options.arg(arg)
}

/// A word that has no name, and has to be there.
fn positional<'w>(alloc: Global, name: &'w str) -> Arg<'w>
    ensures rule { rule_of result ≡ positional name.entry.now }
    ensures local { result.global ≡ false }
{
    Arg::new(alloc, name).required(true)
}

/// `--name VALUE`.
pub fn option<'w>(alloc: Global, name: &'w str) -> Arg<'w>
    ensures rule { rule_of result ≡ option name.entry.now }
    ensures local { result.global ≡ false }
{
    Arg::new(alloc, name).long(name)
}

/// `--name`.
pub fn flag<'w>(alloc: Global, name: &'w str) -> Arg<'w>
    ensures rule { rule_of result ≡ flag name.entry.now }
    ensures local { result.global ≡ false }
{
    option(alloc, name).action(ArgAction::SetTrue)
}

/// What `clap` matches with the options, or None where the words do not fit.
pub fn matched_by<'w>(
    options: Command<'w>,
    words: &'w [String],
) -> Result<Option<ArgMatches<'w>>, AllocError>
    requires { is_simple_and_free (app_of options) ≡ true }
    ensures { IfOk result (λ matches. option_map (λ m. rows_of (found_of m)) matches ≡ matched_by (app_of options.entry) (map string_bytes words.entry.now)) }
{
    match options.try_get_matches_from(words) {
        Ok(matches) => Ok(Some(matches)),
        Err(error) if error.kind() == ErrorKind::OutOfMemory => Err(AllocError),
        Err(_) => Ok(None),
    }
}
