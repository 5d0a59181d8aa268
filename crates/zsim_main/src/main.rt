//! The simulator: hands its words to the call `zsim`.
#![tactic(auto)]

use command_words::words;
use std::process::ExitCode;
use zs_host::{OpenGate, RealFiles, RealSink};
use zsim::{Status, zsim};

fn main(rt: HostRuntime) -> ExitCode {
    let Ok(words) = words(&rt) else {
        return ExitCode::from(Status::NoMemory.number());
    };
    let alloc = rt.alloc();
    let mut out = RealSink::new(rt.stdout());
    let mut err = RealSink::new(rt.stderr());
    let mut files = RealFiles::new(&rt);
    let ended = zsim(
        &rt, alloc, &words, &mut files, &mut out, &mut err, &OpenGate,
    );
    ExitCode::from(ended.status.number())
}
