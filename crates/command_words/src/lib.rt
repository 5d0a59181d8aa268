//! The words that a program is called with.
#![tactic(auto)]

use std::env;
use std::io::{self, ErrorKind};
use std::rt::Env;

/// The words after the program's name. Where one of them is not UTF-8 there are none, which is no
/// command of any program here. No contract of std says what a program is called with, so none says
/// so here either.
///
/// # Errors
///
/// Where memory ran out.
pub fn words(rt: &(impl Env + AllocGlobal)) -> io::Result<Vec<String>> {
    match env::args(rt) {
        Ok(args) => Ok(args.skip(1).collect(rt.alloc())?),
        Err(error) if error.kind() == ErrorKind::InvalidData => Ok(Vec::new(rt.alloc())),
        Err(error) => Err(error),
    }
}
