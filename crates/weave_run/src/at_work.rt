//! All workers beside each other.
ghost use Rattle.std.specs.Prelude.{◌≡◌, ◌<◌, ◌≤◌, ℕ, All, length, slice_index_or};
ghost use Rattle.weave_run.specs.Crews.{CanWork, Crew, HasWorked};
ghost use Rattle.weave_run.specs.Rounds.{CanWeavePlan};
ghost use Rattle.weave_run.specs.Shares.{AreExchanged, AreShares, with_crew};

use crate::crew::Crew;
use crate::hands::run_in_threads;
use crate::plan::Plan;
use crate::share::DomainShare;
use crate::way::{DomainWay, WatchedDomains};
use component::Component;
use crossing::Crossings;
use std::mem;
use std::thread::Threads;
use zs_host::Gate;

/// All workers run their domains, each in a thread of its own where one can be made.
pub(crate) fn work_all<R: Threads + Sync, C: Component + Send, G: Gate>(
    rt: &R,
    crews: &mut [Crew<C>],
    shares: &mut Vec<DomainShare<C, WatchedDomains<'_, G>>>,
    plan: &Plan<C>,
    crossings: &Crossings,
)
    requires can { CanWeavePlan C.serves C.floor C.stepped C.greatest plan.now }
    requires crews { All (CanWork C.stepped plan.now crossings.now) crews.old }
    requires shares { AreShares plan.now crossings.now (length crews.old) shares.old.items }
    requires several { 0 < length crews.old }
    ensures count { length crews.new ≡ length crews.old }
    ensures shares { AreShares plan.now crossings.now (length crews.old) shares.new.items }
    ensures worked { (worker : ℕ) (d : Crew C) → worker < length crews.old
        → HasWorked C.stepped plan.now crossings.now (slice_index_or crews.old worker d) (slice_index_or crews.new worker d) }
{
    exchange(crews, shares);
    run_in_threads(rt, shares);
    exchange(crews, shares);
}

/// Each worker's domains go into its share, and what lies there comes out.
pub(crate) fn exchange<C: Component, W: DomainWay>(
    crews: &mut [Crew<C>],
    shares: &mut Vec<DomainShare<C, W>>,
)
    requires { length shares.old.items ≡ length crews.old }
    ensures { AreExchanged crews.old crews.new shares.old.items shares.new.items (length crews.old) }
{
    for worker in 0..crews.len() {
        exchange_one(&mut crews[worker], &mut shares[worker]);
    }
}

/// The same of one worker.
fn exchange_one<C: Component, W: DomainWay>(crew: &mut Crew<C>, share: &mut DomainShare<C, W>)
    ensures crew { crew.new ≡ share.old.crew }
    ensures share { share.new ≡ with_crew share.old crew.old }
{
    mem::swap(crew, &mut share.crew);
}
