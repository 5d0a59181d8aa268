//! A job that adds.
use crew::Job;

/// A number to which its work adds 1.
#[derive(Drop)]
pub(super) struct Adding {
    pub(super) sum: u64,
}

impl Job for Adding {
    ghost use Rattle.std.specs.Prelude.{◌≡◌, ◌+◌, ◌%◌, ◌^◌, ⊤};

    ghost can = { λ _. ⊤ };

    ghost done = { λ job answer. answer.sum ≡ (job.sum + 1) % 2 ^ 64 };

    fn work(self) -> Self {
        Adding {
            sum: self.sum.wrapping_add(1),
        }
    }
}
