//! What the two at a post know. No value of these types is made: they are what proofs say of a
//! seat.

/// How far someone at a post is.
pub enum Stage<J> {
    /// Nobody has asked for a job, or the answer is collected. Of the worker: it has no job.
    Free,
    /// The asker sent this job, and has not collected it. Of the worker: it took this job, and has
    /// not answered it.
    Busy(J),
    /// No job follows. Of the worker: it was told so.
    Ended,
}

/// What a seat at the post knows.
pub enum View<J> {
    /// Nothing was done yet.
    Begun,
    /// The one seat has the slot in hand.
    Alone,
    /// It is the asker's.
    Asks(Stage<J>),
    /// It is the worker's.
    Works(Stage<J>),
}
