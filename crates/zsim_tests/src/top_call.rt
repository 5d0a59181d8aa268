//! The one place here that calls the top calls. What calls this has none of their contracts among
//! what is known.
use crate::gates::CaseGate;
use std::alloc::Global;
use std::sync::Wait;
use std::thread::Threads;
use zprof::zprof;
use zs_host::{Files, Sink};
use zsim::{Ended, zsim};

/// What the top call answers. No clause says so: the tests look at the answer itself.
pub fn answer<R: Threads + Wait + Sync, F: Files, S: Sink>(
    rt: &R,
    alloc: Global,
    words: &[String],
    files: &mut F,
    out: &mut S,
    err: &mut S,
    gate: CaseGate,
) -> Ended {
    zsim(rt, alloc, words, files, out, err, &gate)
}

/// What the profiler answers, of which no clause says anything here either.
pub fn profile_answer<F: Files, S: Sink>(
    alloc: Global,
    words: &[String],
    files: &mut F,
    out: &mut S,
    err: &mut S,
) -> Ended {
    zprof(alloc, words, files, out, err)
}
