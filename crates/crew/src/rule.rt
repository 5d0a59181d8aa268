//! What holds between any two steps at a post.
//! Word 16 says where the job is, as the constants below have it. Words 17 and 18 are 1 while the
//! asker or the worker sleeps or is about to. Slot 0 is the job's.
use crate::job::Job;
use crate::view::View;
use atomic_table::{Seat, Shared, Table, TableRule};
use std::alloc::Global;
use std::marker::PhantomData;

/// So many words has a post: those with 128 bytes before and behind them that are of no use, so
/// that no two posts share a pair of cache lines of the host.
pub(crate) const WORDS: usize = 32;

/// The number of the word that says where the job is.
pub(crate) const STATE: usize = 16;

/// The number of the word that is 1 while the asker sleeps.
pub(crate) const ASKER_SLEEPS: usize = 17;

/// The number of the word that is 1 while the worker sleeps.
pub(crate) const WORKER_SLEEPS: usize = 18;

/// The asker has the slot in hand, with no job.
pub(crate) const FREE: u64 = 0;

/// A job lies in the slot.
pub(crate) const SENT: u64 = 1;

/// The worker has the job in hand.
pub(crate) const TAKEN: u64 = 2;

/// An answer lies in the slot.
pub(crate) const ANSWERED: u64 = 3;

/// No job follows.
pub(crate) const ENDED: u64 = 4;

/// The rule of a post.
pub struct PostRule<J> {
    jobs: PhantomData<J>,
}

impl<J: Job> TableRule<Option<J>, View<J>, ()> for PostRule<J> {
    ghost use Rattle.crew.specs.Rule.{IsPost};
    ghost use Rattle.crew.specs.declared.view.View.TheVariants.{Begun};

    ghost holds = { λ _ s. IsPost J.can J.done s };

    ghost first = { λ _. Begun };
}

/// The words and the slot.
pub(crate) type Words<J> = Table<Option<J>, View<J>, (), PostRule<J>, Global>;

/// The part of them that both share.
pub(crate) type Bench<J> = Shared<Option<J>, View<J>, (), PostRule<J>>;

/// A seat at the post.
pub(crate) type Place<J> = Seat<Option<J>, View<J>>;
