//! The profiler: hands its words to the call `zprof`.
#![tactic(auto)]

use command_words::words;
use std::process::ExitCode;
use zprof::zprof;
use zs_host::{RealFiles, RealSink};
use zsim::Status;

fn main(rt: HostRuntime) -> ExitCode {
    let Ok(words) = words(&rt) else {
        return ExitCode::from(Status::NoMemory.number());
    };
    let alloc = rt.alloc();
    let mut out = RealSink::new(rt.stdout());
    let mut err = RealSink::new(rt.stderr());
    let mut files = RealFiles::new(&rt);
    let ended = zprof(alloc, &words, &mut files, &mut out, &mut err);
    ExitCode::from(ended.status.number())
}
