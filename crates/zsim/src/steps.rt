//! The steps of a call, for other calls that take the same inputs.
pub use crate::command_line::{Exe, exe_of, machine_file_of, number_of, value};
pub use crate::error_line::error_line;
pub use crate::options::{flag, inputs, matched_by, option, with_arg};
pub use crate::outputs::{OutputFile, finish};
pub use crate::put::say_line;
pub use crate::setup::{take_exe, take_machine, take_schedule};
