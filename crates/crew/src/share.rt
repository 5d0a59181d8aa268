//! Jobs that are done beside each other by who asks and the workers of a crew.
ghost use Rattle.std.specs.Prelude.{◌≡◌, ◌+◌, ◌<◌, ◌≤◌, All, length, slice_index_or, slice_set, vec_len};
ghost use Rattle.std.specs.Vec.{vec_capacity};
ghost use Rattle.crew.specs.declared.view.Stage.TheVariants.{Busy, Free};
ghost use Rattle.crew.specs.Crews.{AreFreeAt, AreFreeBelow, IsBusyAt, free_seats};
ghost use Rattle.crew.specs.Seats.{SeatValue, at_stage};
ghost use Rattle.crew.specs.Sharing.{AreDone};

use crate::asker::Asker;
use crate::job::Job;
use crate::post::Post;
use std::sync::Wait;

/// Does all jobs: the first here, and each later one by the worker at the post of the number before
/// its own, or here where that takes none. Takes no memory.
#[tactic(auto, using(crate::proofs::Seated::all_below))]
pub fn do_all<R: Wait, J: Job>(
    rt: &R,
    posts: &[Post<J>],
    askers: &mut [Asker<J>],
    jobs: &mut Vec<J>,
)
    requires free { askers.old ≡ free_seats posts.now }
    requires few { vec_len jobs.old ≤ length posts.now + 1 }
    requires can { All J.can jobs.old.items }
    ensures free { askers.new ≡ askers.old }
    ensures done { AreDone J.done jobs.old.items jobs.new.items }
    ensures room { vec_capacity jobs.new ≡ vec_capacity jobs.old }
{
    share_out(rt, posts, askers, jobs);
}

/// The same with the first askers alone. It sends the last job, does those before it, and collects.
fn share_out<R: Wait, J: Job>(rt: &R, posts: &[Post<J>], askers: &mut [Asker<J>], jobs: &mut Vec<J>)
    requires free { AreFreeBelow (vec_len jobs.old) posts.now askers.old }
    requires few { vec_len jobs.old ≤ length posts.now + 1 }
    requires can { All J.can jobs.old.items }
    ensures free { askers.new ≡ askers.old }
    ensures done { AreDone J.done jobs.old.items jobs.new.items }
    ensures room { vec_capacity jobs.new ≡ vec_capacity jobs.old }
{
    let Some(job) = jobs.pop() else {
        return;
    };
    let count = jobs.len();
    if count == 0 {
        jobs.push_reserved(job.work());
        return;
    }
    send_at(posts, askers, count - 1, job);
    share_out(rt, posts, askers, jobs);
    let answer = collect_at(rt, posts, askers, count - 1);
    jobs.push_reserved(answer);
}

/// Sends a job to the worker at the post of this number.
fn send_at<J: Job>(posts: &[Post<J>], askers: &mut [Asker<J>], number: usize, job: J)
    requires there { number < length posts.now }
    requires free { AreFreeAt number posts.now askers.old }
    requires can { J.can job }
    ensures sent { (d : SeatValue J) → askers.new ≡ slice_set askers.old number (at_stage (slice_index_or askers.old number d) (Busy job)) }
{
    askers[number].send(&posts[number], job);
}

/// The answer from the worker at the post of this number, or what is done here in its place.
fn collect_at<R: Wait, J: Job>(
    rt: &R,
    posts: &[Post<J>],
    askers: &mut [Asker<J>],
    number: usize,
) -> J
    requires there { number < length posts.now }
    requires busy { (sent : J) × IsBusyAt number posts.now sent askers.old }
    ensures free { (d : SeatValue J) → askers.new ≡ slice_set askers.old number (at_stage (slice_index_or askers.old number d) Free) }
    ensures done { (sent : J) → IsBusyAt number posts.now sent askers.old → J.done sent result }
{
    askers[number].collect(rt, &posts[number]).finish()
}
