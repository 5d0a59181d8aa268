//! The words of a profile, as `clap` reads them.
ghost use Rattle.std.specs.Prelude.{◌≡◌, true, IfOk};
ghost use Rattle.clap.specs.Words.{app_of, is_simple_and_free};
ghost use Rattle.zprof.specs.Options.{profile_options};

use clap::Command;
use std::alloc::{AllocError, Global};
use zsim::steps::{flag, inputs, option, with_arg};

/// The options of a profile.
pub fn profile_options<'w>(alloc: Global) -> Result<Command<'w>, AllocError>
    ensures options { IfOk result (λ options. app_of options ≡ profile_options) }
    ensures simple { IfOk result (λ options. is_simple_and_free (app_of options) ≡ true) }
{
    let options = inputs(alloc)?;
    let options = with_arg(options, option(alloc, "schedule"))?;
    let options = with_arg(options, option(alloc, "out").required(true))?;
    let options = with_arg(options, flag(alloc, "separate-cores"))?;
    let options = with_arg(options, option(alloc, "every"))?;
    with_arg(options, flag(alloc, "brief"))
}
