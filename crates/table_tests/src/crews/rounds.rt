//! A thousand rounds of jobs, by crews of none to three workers.
ghost use Rattle.std.specs.Prelude.{◌≡◌, ◌+◌, ◌*◌, ◌<◌, ◌≤◌, IfOk, length, vec_len};
ghost use Rattle.std.specs.Thread.{IsSync};
ghost use Rattle.crew.specs.Crews.{free_seats};

use super::adding::Adding;
use crew::{Asker, Crew, Post, Worker, do_all, end_all, run_beside};
use std::alloc::Global;
use std::process::Abort;
use std::sync::Wait;
use std::thread::Threads;
use zs_num::NoMemory;

/// Has each number added to a thousand times, and ends the workers at these posts.
fn add_rounds<R: Wait>(
    rt: &R,
    posts: &[Post<Adding>],
    askers: &mut [Asker<Adding>],
    numbers: &mut Vec<Adding>,
)
    requires free { askers.old ≡ free_seats posts.now }
    requires few { vec_len numbers.old ≤ length posts.now + 1 }
{
    for _ in 0..1000u32 {
        do_all(rt, posts, askers, numbers);
    }
    end_all(posts, askers);
}

/// The same, beside these workers.
fn add_beside<R: Threads + Wait + Sync>(
    rt: &R,
    posts: &[Post<Adding>],
    askers: &mut [Asker<Adding>],
    workers: &mut [Worker<Adding>],
    numbers: &mut Vec<Adding>,
)
    requires free { askers.old ≡ free_seats posts.now }
    requires workers { workers.old ≡ free_seats posts.now }
    requires few { vec_len numbers.old ≤ length posts.now + 1 }
{
    let mut lead = ||
        requires { IsSync R.row × (askers.now ≡ free_seats posts.now) × (vec_len numbers.now ≤ length posts.now + 1) }
    { add_rounds(rt, posts, askers, numbers) };
    run_beside(rt, posts, workers, &mut lead);
}

/// So many zeros.
fn zeros(alloc: Global, count: usize) -> Result<Vec<Adding>, NoMemory>
    ensures { IfOk result (λ numbers. vec_len numbers ≡ count) }
{
    let mut numbers = Vec::with_capacity(alloc, count)?;
    for _ in 0..count {
        numbers.push_reserved(Adding { sum: 0 });
    }
    Ok(numbers)
}

/// Has the numbers added to by a crew of so many workers.
fn adds<R: Threads + Wait + Sync>(
    rt: &R,
    alloc: Global,
    workers: usize,
) -> Result<Vec<Adding>, NoMemory>
    requires { workers < 4 }
{
    let mut numbers = zeros(alloc, workers + 1)?;
    let Crew {
        posts,
        mut askers,
        workers: mut hands,
    } = Crew::hire(alloc, workers)?;
    add_beside(rt, &posts, &mut askers, &mut hands, &mut numbers);
    Ok(numbers)
}

/// Checks that each number was added to a thousand times.
fn are_a_thousand(rt: &impl Abort, numbers: &[Adding]) {
    for number in numbers {
        assert!(rt; number.sum == 1000);
    }
}

#[test]
fn each_number_is_added_to_once_in_each_round(rt: HostRuntime) {
    for workers in 0..4usize {
        let numbers = adds(&rt, rt.alloc(), workers).expect(&rt, "memory");
        assert!(&rt; numbers.len() == workers + 1);
        are_a_thousand(&rt, numbers.as_slice());
    }
}
