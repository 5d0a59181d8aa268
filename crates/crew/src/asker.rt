//! Who asks at a post.
ghost use Rattle.std.specs.Prelude.{◌≡◌, IfSome, IfNone};
ghost use Rattle.crew.specs.declared.view.Stage.TheVariants.{Free, Busy, Ended};
ghost use Rattle.crew.specs.Collects.{IsCollected, MayFinish};
ghost use Rattle.crew.specs.Seats.{IsBusy, asker_at, at_stage};

use crate::bell::{Side, rest, wait, wake};
use crate::job::Job;
use crate::plays::{Ask, Collect, End, TakeBack};
use crate::post::Post;
use crate::rule::{ANSWERED, Bench, ENDED, FREE, Place, SENT, STATE};
use std::marker::Model;
use std::sync::Wait;

/// How often a job is looked at that the worker hasn't taken, before it is taken back: for some
/// tens of microseconds, in which a worker takes it that doesn't sleep, if its thread runs.
pub(crate) const PATIENCE: u32 = 400;

/// How often after one that came back untouched: for a fraction of a microsecond, as
/// long as a worker takes that looks at it.
const LESS_PATIENCE: u32 = 100;

/// The right to ask at a post.
#[derive(Drop)]
pub struct Asker<J: Job> {
    pub(crate) place: Place<J>,
    /// How often it looks at a job before it takes it back.
    pub(crate) patience: u32,
}

impl<J: Job> Model for Asker<J> {
    ghost use Rattle.crew.specs.Seats.{IsPlace, SeatValue, asker_at, seat_value};

    ghost Value = { SeatValue J };

    ghost view = { λ a. seat_value a.place.table_id a.place.me.0 };

    ghost invariant = { λ a. IsPlace a.place.table_id asker_at a.place.me };
}

/// What became of a job that was sent.
#[derive(Drop)]
pub enum Collected<J> {
    /// The worker's answer.
    Answered(J),
    /// The job itself: no worker has taken it, and none will.
    Untouched(J),
}

impl<J: Job> Collected<J> {
    /// The answer. Where no worker has taken the job, it is done here.
    pub fn finish(self) -> J
        requires { MayFinish J.can self }
        ensures { (sent : J) → IsCollected J.can J.done sent self → J.done sent result }
    {
        match self {
            Collected::Answered(answer) => answer,
            Collected::Untouched(job) => job.work(),
        }
    }
}

impl<J: Job> Asker<J> {
    /// Sends a job. It waits for nobody.
    pub fn send(&mut self, post: &Post<J>, job: J)
        requires post { self.old.post ≡ post.now }
        requires free { self.old.stage ≡ Free }
        requires can { J.can job }
        ensures { self.new ≡ at_stage self.old (Busy job) }
    {
        let bench = &post.table.shared;
        drop(bench.exchange(&mut self.place, 0, Some(job)));
        bench.store::<Ask>(&mut self.place, STATE, SENT);
        wake(bench, Side::Worker);
    }

    /// The answer to the job that was sent, as soon as there is one. Where no worker takes the job
    /// for some tens of microseconds it comes back as it is: nobody waits for a worker whose thread
    /// couldn't be started.
    pub fn collect<R: Wait>(&mut self, rt: &R, post: &Post<J>) -> Collected<J>
        requires post { self.old.post ≡ post.now }
        requires sent { IsBusy self.old }
        ensures free { self.new ≡ at_stage self.old Free }
        ensures job { (sent : J) → self.old.stage ≡ Busy sent → IsCollected J.can J.done sent result }
    {
        let bench = &post.table.shared;
        if let Some(job) = take_back(bench, &mut self.place, self.patience) {
            self.patience = LESS_PATIENCE;
            return Collected::Untouched(job);
        }
        self.patience = PATIENCE;
        Collected::Answered(take_answer(rt, bench, &mut self.place))
    }

    /// Ends: no job follows. It waits for nobody.
    pub fn end(&mut self, post: &Post<J>)
        requires post { self.old.post ≡ post.now }
        requires free { self.old.stage ≡ Free }
        ensures { self.new ≡ at_stage self.old Ended }
    {
        let bench = &post.table.shared;
        bench.store::<End>(&mut self.place, STATE, ENDED);
        wake(bench, Side::Worker);
    }
}

/// The job that was sent, where no worker takes it for so many looks.
fn take_back<J: Job>(bench: &Bench<J>, place: &mut Place<J>, patience: u32) -> Option<J>
    requires table { place.old.table_id ≡ bench.now.table_id }
    requires words { bench.now.table_id.words ≡ 32 }
    requires busy { (job : J) × (place.old.me ≡ asker_at (Busy job)) }
    ensures table { (place.new.table_id ≡ place.old.table_id) × (place.new.id ≡ place.old.id) }
    ensures job { IfSome result (λ job. (place.old.me ≡ asker_at (Busy job)) × (place.new.me ≡ asker_at Free) × J.can job) }
    ensures none { IfNone result (place.new.me ≡ place.old.me) }
{
    for looks in 0..patience {
        if bench.peek(STATE) != SENT {
            return None;
        }
        rest(looks);
    }
    if bench.compare_exchange::<TakeBack>(place, STATE, SENT, FREE) == SENT {
        bench.exchange(place, 0, None)
    } else {
        None
    }
}

/// The answer to the job that was sent.
fn take_answer<R: Wait, J: Job>(rt: &R, bench: &Bench<J>, place: &mut Place<J>) -> J
    requires table { place.old.table_id ≡ bench.now.table_id }
    requires words { bench.now.table_id.words ≡ 32 }
    requires busy { (job : J) × (place.old.me ≡ asker_at (Busy job)) }
    ensures table { (place.new.table_id ≡ place.old.table_id) × (place.new.id ≡ place.old.id) }
    ensures free { place.new.me ≡ asker_at Free }
    ensures answer { (sent : J) → place.old.me ≡ asker_at (Busy sent) → J.done sent result }
{
    for _ in rt.forever() {
        wait(rt, bench, place, Side::Asker);
        if bench.compare_exchange::<Collect>(place, STATE, ANSWERED, FREE) == ANSWERED {
            let Some(job) = bench.exchange(place, 0, None) else {
                unreachable!()
            };
            return job;
        }
    }
    unreachable!()
}
