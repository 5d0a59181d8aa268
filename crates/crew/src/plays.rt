//! What each step at a post tells.
ghost use Rattle.crew.specs.Steps.{asks_on, began, collected, ended, nothing, picked, sent, taken_back, works, answered};

use crate::job::Job;
use crate::view::View;
use atomic_table::{Play, Split};

/// The first seat takes the slot.
pub(crate) struct Begin;

impl<J: Job> Play<Option<J>, View<J>> for Begin {
    ghost then = { began };
}

/// A job is sent.
pub(crate) struct Ask;

impl<J: Job> Play<Option<J>, View<J>> for Ask {
    ghost then = { sent };
}

/// The worker takes a job that lies there, or is told that none follows.
pub(crate) struct Pick;

impl<J: Job> Play<Option<J>, View<J>> for Pick {
    ghost then = { picked J.can };
}

/// A job is answered.
pub(crate) struct Answer;

impl<J: Job> Play<Option<J>, View<J>> for Answer {
    ghost then = { answered };
}

/// The asker takes an answer that lies there.
pub(crate) struct Collect;

impl<J: Job> Play<Option<J>, View<J>> for Collect {
    ghost then = { collected J.done };
}

/// The asker takes a job back that lies there.
pub(crate) struct TakeBack;

impl<J: Job> Play<Option<J>, View<J>> for TakeBack {
    ghost then = { taken_back J.can };
}

/// The asker ends.
pub(crate) struct End;

impl<J: Job> Play<Option<J>, View<J>> for End {
    ghost then = { ended };
}

/// One of the two is about to sleep, or is awake again.
pub(crate) struct Turn;

impl<J: Job> Play<Option<J>, View<J>> for Turn {
    ghost then = { nothing };
}

/// The first seat becomes the asker's, and the worker gets its own.
pub(crate) struct Hire;

impl<J: Job> Split<View<J>> for Hire {
    ghost left = { asks_on };

    ghost right = { works };
}
