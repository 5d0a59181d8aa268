//! Runs the cases of the file `cases`, the examples among them, as the program does, and writes
//! what they answer; the stored output has what they must answer.
#![tactic(auto)]

mod answers;
mod cases;
mod contents;
mod executables;
mod gates;
mod machines;
mod page;
mod scene;
mod top_call;
mod words;

use crate::page::Page;
use std::io::Print;
use std::process::ExitCode;
use zs_host::RealFiles;

fn main(rt: HostRuntime) -> ExitCode {
    let alloc = rt.alloc();
    let mut files = RealFiles::new(&rt);
    let mut page = Page::new(alloc);
    let all = cases::answer_all(&rt, alloc, &mut files, &mut page);
    let written = rt.stdout().write_all(page.bytes()).is_ok();
    if all.is_some() && page.is_whole() && written {
        ExitCode::SUCCESS
    } else {
        ExitCode::FAILURE
    }
}
