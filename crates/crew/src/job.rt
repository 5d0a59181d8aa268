//! What a worker can be asked for.

/// What goes to a worker, and comes back as its answer.
pub trait Job: Drop + Send {
    /// What may be asked for.
    ghost can: { Self → Type 0 };

    /// Which answer it may have.
    ghost done: { Self → Self → Type 0 };

    /// Does it, and is then its answer.
    fn work(self) -> Self
        requires { can self }
        ensures { done self result };
}
