//! Workers that live while someone asks them.
ghost use Rattle.std.specs.Prelude.{◌≡◌, ◌+◌, ◌<◌, ℕ, IfOk, length, slice_index_or};
ghost use denote.Param.Send.{IsSend, IsSync};
ghost use Rattle.crew.specs.declared.view.Stage.TheVariants.{Ended};
ghost use Rattle.crew.specs.Crews.{AreFreeFrom, IsFreeAt, free_seat, free_seats};
ghost use Rattle.crew.specs.Seats.{SeatValue, at_stage};

use crate::asker::Asker;
use crate::job::Job;
use crate::post::Post;
use crate::worker::Worker;
use std::alloc::Global;
use std::sync::Wait;
use std::thread::{Threads, for_each_mut, join_mut};
use zs_num::NoMemory;

/// Workers at posts of their own, who wait for somebody to ask them.
#[derive(Drop)]
pub struct Crew<J: Job> {
    pub posts: Vec<Post<J>>,
    /// Who asks at each of the posts.
    pub askers: Vec<Asker<J>>,
    /// Who works at each of them.
    pub workers: Vec<Worker<J>>,
}

impl<J: Job> Crew<J> {
    /// A crew of so many workers.
    pub fn hire(alloc: Global, count: usize) -> Result<Crew<J>, NoMemory>
        ensures count { IfOk result (λ crew. length crew.posts.items ≡ count) }
        ensures askers { IfOk result (λ crew. crew.askers.items ≡ free_seats crew.posts.items) }
        ensures workers { IfOk result (λ crew. crew.workers.items ≡ free_seats crew.posts.items) }
    {
        let mut posts = Vec::with_capacity(alloc, count)?;
        let mut askers = Vec::with_capacity(alloc, count)?;
        let mut workers = Vec::with_capacity(alloc, count)?;
        for _ in 0..count {
            let (post, asker, worker) = Post::new(alloc)?;
            posts.push_reserved(post);
            askers.push_reserved(asker);
            workers.push_reserved(worker);
        }
        Ok(Crew {
            posts,
            askers,
            workers,
        })
    }
}

/// Runs a lead in this thread, who asks the workers, and each worker in a thread of its own where
/// one can be made. A worker whose thread can't be made takes no job; what was sent to it comes back
/// untouched. The lead ends by `end_all`, as nothing else ends the workers. Where no thread can be
/// made they come last, and find that the lead has ended.
pub fn run_beside<R: Threads + Wait + Sync, J: Job, T, L: FnMut() -> T>(
    rt: &R,
    posts: &[Post<J>],
    workers: &mut [Worker<J>],
    lead: &mut L,
) -> T
    requires workers { workers.old ≡ free_seats posts.now }
    requires lead { L.pre lead.old }
    ensures { L.step lead.old result lead.new }
{
    let mut worked = ||
        requires { IsSync R.row × IsSend J.row × (workers.now ≡ free_seats posts.now) }
        ensures { length workers.exit.now ≡ length workers.entry.now }
    { serve_all(rt, posts, workers) };
    let ((), led) = join_mut(rt, &mut worked, lead);
    led
}

/// Tells all workers that no job follows. It waits for nobody.
pub fn end_all<J: Job>(posts: &[Post<J>], askers: &mut [Asker<J>])
    requires { askers.old ≡ free_seats posts.now }
{
    for number in 0..posts.len() {
        end_at(posts, askers, number);
    }
}

/// Tells the worker at the post of this number that no job follows.
fn end_at<J: Job>(posts: &[Post<J>], askers: &mut [Asker<J>], number: usize)
    requires there { number < length posts.now }
    requires free { AreFreeFrom number posts.now askers.old }
    ensures { AreFreeFrom (number + 1) posts.now askers.new }
{
    askers[number].end(&posts[number]);
}

/// Each worker does what it is asked for, in a thread of its own where one can be made.
fn serve_all<R: Threads + Wait + Sync, J: Job>(rt: &R, posts: &[Post<J>], workers: &mut [Worker<J>])
    requires free { (number : ℕ) (d : SeatValue J) → number < length workers.old → IsFreeAt posts.now number (slice_index_or workers.old number d) }
    requires count { length workers.old ≡ length posts.now }
    ensures { length workers.new ≡ length workers.old }
{
    let threads = workers.len();
    if threads == 0 {
        return;
    }
    for_each_mut(
        rt,
        workers,
        threads,
        &|number: usize, worker: &mut Worker<J>|
            requires { IsSend J.row × (number < length posts.now) × IsFreeAt posts.now number worker.now }
            ensures { worker.exit.now.post ≡ worker.entry.now.post }
        { serve(rt, &posts[number], worker) },
    );
}

/// Does jobs until none follows.
fn serve<R: Wait, J: Job>(rt: &R, post: &Post<J>, worker: &mut Worker<J>)
    requires { worker.old ≡ free_seat post.now }
    ensures { worker.new ≡ at_stage worker.old Ended }
{
    for _ in rt.forever() {
        let Some(job) = worker.next(rt, post) else {
            return;
        };
        worker.answer(post, job.work());
    }
    unreachable!()
}
