//! The top call of the profiler: from the words of the command line to the report of a run and the
//! files of its profile.
#![tactic(auto)]

mod command_line;
mod error_line;
mod folder;
mod halt_rows;
mod lines_used;
mod named_file;
mod options;
mod order;
mod profile_run;
mod top;
mod watched;
mod written;

pub use top::zprof;
