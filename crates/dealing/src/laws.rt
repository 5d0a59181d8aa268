//! Laws over the definitions alone, each the contract of a function that does nothing.
ghost use Rattle.dealing.specs.Laws.{AreAmongThese, ChangedAreDealt};

/// What lies in the queue of a worker is among the things that were dealt.
pub fn dealt_are_among_these<T, X>()
    ensures { AreAmongThese T X }
{}

/// Where each worker changes the things in its queue, and keeps their order, the queues are dealt
/// what the things were changed to.
pub fn changed_are_dealt<T, X>()
    ensures { ChangedAreDealt T X }
{}
