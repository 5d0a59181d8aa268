//! The workers that live, as those whom a weave can ask.

use crew::{Asker, Job, Post};
use weave_run::Hands;

/// The workers at these posts and who asks them, for as many shares as there is room for jobs.
#[derive(Drop)]
pub(crate) struct CrewHands<'r, 'p, 's, 'j, R, J: Job> {
    pub rt: &'r R,
    pub posts: &'p [Post<J>],
    pub askers: &'s mut [Asker<J>],
    pub jobs: &'j mut Vec<J>,
    pub most: usize,
}

impl<'r, 'p, 's, 'j, R, J: Job> Hands for CrewHands<'r, 'p, 's, 'j, R, J> {
    ghost use Rattle.bound_workers.specs.Hands.{AreReady, Stay, most_of, stay};

    ghost Kept = { Stay J };

    ghost kept = { λ h. stay h };

    ghost ready = { λ k. AreReady k };

    ghost most = { λ k. most_of k };

    /// To ask the workers takes a few microseconds, in which some fifty events fire.
    const WORTH: usize = 64;

    fn room(&self) -> usize {
        self.most
    }
}
