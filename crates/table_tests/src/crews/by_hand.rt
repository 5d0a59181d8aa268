//! The calls at a post, by turns in one thread.
use super::adding::Adding;
use crew::{Collected, Job, Post};
use std::process::Abort;
use std::sync::Wait;
use std::test::Fail;

/// Checks that a job comes back answered, with this sum.
fn is_answered(rt: &impl Abort, found: Collected<Adding>, sum: u64) {
    assert!(rt; matches!(&found, Collected::Answered(answer) if answer.sum == sum));
}

/// Checks that a job comes back untouched, with this sum.
fn is_untouched(rt: &impl Abort, found: Collected<Adding>, sum: u64) {
    assert!(rt; matches!(&found, Collected::Untouched(job) if job.sum == sum));
}

/// Sends a job that is done, one that nobody takes, and none.
fn sends_and_ends<R: Abort + Wait + AllocGlobal>(rt: &R) {
    let (post, mut asker, mut worker) = Post::new(rt.alloc()).expect(rt, "memory");
    asker.send(&post, Adding { sum: 1 });
    let job = worker.next(rt, &post).expect(rt, "a job");
    worker.answer(&post, job.work());
    is_answered(rt, asker.collect(rt, &post), 2);
    asker.send(&post, Adding { sum: 5 });
    is_untouched(rt, asker.collect(rt, &post), 5);
    asker.end(&post);
    assert!(rt; worker.next(rt, &post).is_none());
}

#[test]
fn a_job_comes_back_answered_or_untouched(rt: HostRuntime) {
    sends_and_ends(&rt);
}
