//! Who works at a post.
ghost use Rattle.std.specs.Prelude.{◌≡◌, IfSome, IfNone};
ghost use Rattle.crew.specs.declared.view.Stage.TheVariants.{Free, Busy, Ended};
ghost use Rattle.crew.specs.Seats.{at_stage, worker_at};

use crate::bell::{Side, wait, wake};
use crate::job::Job;
use crate::plays::{Answer, Pick};
use crate::post::Post;
use crate::rule::{ANSWERED, Bench, ENDED, Place, SENT, STATE, TAKEN};
use std::marker::Model;
use std::sync::Wait;

/// The right to work at a post.
#[derive(Drop)]
pub struct Worker<J: Job> {
    pub(crate) place: Place<J>,
}

impl<J: Job> Model for Worker<J> {
    ghost use Rattle.crew.specs.Seats.{IsPlace, SeatValue, seat_value, worker_at};

    ghost Value = { SeatValue J };

    ghost view = { λ w. seat_value w.place.table_id w.place.me.0 };

    ghost invariant = { λ w. IsPlace w.place.table_id worker_at w.place.me };
}

impl<J: Job> Worker<J> {
    /// The next job, which this worker is then to answer. It waits until there is one. None where
    /// the asker has ended.
    pub fn next<R: Wait>(&mut self, rt: &R, post: &Post<J>) -> Option<J>
        requires post { self.old.post ≡ post.now }
        requires free { self.old.stage ≡ Free }
        ensures job { IfSome result (λ job. J.can job × (self.new ≡ at_stage self.old (Busy job))) }
        ensures ended { IfNone result (self.new ≡ at_stage self.old Ended) }
    {
        pick(rt, &post.table.shared, &mut self.place)
    }

    /// Answers the job that the worker has.
    pub fn answer(&mut self, post: &Post<J>, job: J)
        requires post { self.old.post ≡ post.now }
        requires done { (had : J) × (self.old.stage ≡ Busy had) × J.done had job }
        ensures { self.new ≡ at_stage self.old Free }
    {
        let bench = &post.table.shared;
        drop(bench.exchange(&mut self.place, 0, Some(job)));
        bench.store::<Answer>(&mut self.place, STATE, ANSWERED);
        wake(bench, Side::Asker);
    }
}

/// The next job, in hand, or None where the asker has ended.
fn pick<R: Wait, J: Job>(rt: &R, bench: &Bench<J>, place: &mut Place<J>) -> Option<J>
    requires table { place.old.table_id ≡ bench.now.table_id }
    requires words { bench.now.table_id.words ≡ 32 }
    requires free { place.old.me ≡ worker_at Free }
    ensures table { (place.new.table_id ≡ place.old.table_id) × (place.new.id ≡ place.old.id) }
    ensures job { IfSome result (λ job. J.can job × (place.new.me ≡ worker_at (Busy job))) }
    ensures ended { IfNone result (place.new.me ≡ worker_at Ended) }
{
    for _ in rt.forever() {
        wait(rt, bench, place, Side::Worker);
        let found = bench.compare_exchange::<Pick>(place, STATE, SENT, TAKEN);
        if found == SENT {
            return bench.exchange(place, 0, None);
        }
        if found == ENDED {
            return None;
        }
    }
    unreachable!()
}
