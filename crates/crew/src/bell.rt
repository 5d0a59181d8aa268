//! How one of the two at a post waits for the other.
ghost use Rattle.std.specs.Prelude.{◌≡◌, ◌<◌};

use crate::job::Job;
use crate::plays::Turn;
use crate::rule::{ANSWERED, ASKER_SLEEPS, Bench, ENDED, Place, SENT, STATE, WORKER_SLEEPS};
use std::sync::Wait;
use std::{hint, thread};

/// How often the word is looked at before other threads are let run: for less than a microsecond.
/// Ten times as many were no faster.
const LOOKS: u32 = 200;

/// How often it is looked at before the sleep: for a millisecond or some, so that nobody sleeps
/// between two jobs that soon follow each other, and nobody takes a processor for longer than that.
const LOOKS_AWAKE: u32 = 4_000;

/// Who waits.
#[derive(Clone, Copy)]
pub(crate) enum Side {
    Asker,
    Worker,
}

impl Side {
    /// The number of the word that is 1 while this side sleeps.
    fn bell(self) -> usize
        ensures { (16 < result) × (result < 32) }
    {
        match self {
            Side::Asker => ASKER_SLEEPS,
            Side::Worker => WORKER_SLEEPS,
        }
    }

    /// Whether this is a word that this side waits for.
    fn is_called_by(self, word: u64) -> bool {
        match self {
            Side::Asker => word == ANSWERED,
            Side::Worker => word == SENT || word == ENDED,
        }
    }
}

/// Lets a while pass after so many looks.
pub(crate) fn rest(looks: u32) {
    if looks < LOOKS {
        hint::spin_loop();
    } else {
        thread::yield_now();
    }
}

/// Waits until the word is one that this side waits for. It may return earlier.
pub(crate) fn wait<R: Wait, J: Job>(rt: &R, bench: &Bench<J>, place: &mut Place<J>, side: Side)
    requires table { place.old.table_id ≡ bench.now.table_id }
    requires words { bench.now.table_id.words ≡ 32 }
    ensures table { (place.new.table_id ≡ place.old.table_id) × (place.new.id ≡ place.old.id) }
    ensures knows { place.new.me ≡ place.old.me }
{
    for looks in 0..LOOKS_AWAKE {
        if side.is_called_by(bench.peek(STATE)) {
            return;
        }
        rest(looks);
    }
    // Whoever changes the word looks at the bell after that. So where this change isn't seen here,
    // the bell is seen there.
    bench.store::<Turn>(place, side.bell(), 1);
    let word = bench.peek(STATE);
    if !side.is_called_by(word) {
        bench.park(rt, STATE, (word % (1 << 32)) as u32);
    }
    bench.store::<Turn>(place, side.bell(), 0);
}

/// Wakes a side that sleeps, after the word has changed.
pub(crate) fn wake<J: Job>(bench: &Bench<J>, side: Side)
    requires { bench.now.table_id.words ≡ 32 }
{
    if bench.peek(side.bell()) != 0 {
        bench.wake_one(STATE);
    }
}
