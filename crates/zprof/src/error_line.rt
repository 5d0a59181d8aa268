//! The line on standard error for each status.
ghost use Rattle.std.specs.Prelude.{◌≡◌, IfOk, string_bytes};
ghost use Rattle.zprof.specs.ErrorLine.{profile_line, renamed};

use std::alloc::{AllocError, Global};
use zsim::Status;
use zsim::steps::error_line;

const USAGE: &str =
    "zprof: usage: zprof MACHINE EXE [--schedule NAME] --out FOLDER [--separate-cores] [--every N] [--brief]\n";

/// The line for a status, with its newline.
pub fn profile_line(alloc: Global, status: &Status) -> Result<String, AllocError>
    ensures { IfOk result (λ line. string_bytes line ≡ profile_line status.now) }
{
    match status {
        Status::Usage => String::from_str(alloc, USAGE),
        _ => {
            let line = error_line(alloc, status)?;
            renamed(alloc, &line)
        }
    }
}

/// A line of zsim as one of zprof.
#[tactic(auto, unfolding(crate::specs::ErrorLine::renamed))]
fn renamed(alloc: Global, line: &str) -> Result<String, AllocError>
    ensures { IfOk result (λ new. string_bytes new ≡ renamed line.now) }
{
    let Some(rest) = line.strip_prefix("zsim") else {
        return String::from_str(alloc, line);
    };
    let mut new = String::from_str(alloc, "zprof")?;
    new.push_str(rest)?;
    Ok(new)
}
