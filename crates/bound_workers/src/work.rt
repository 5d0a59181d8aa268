//! What a worker is asked for.
ghost use Rattle.std.specs.Prelude.{◌≡◌};

use crate::carries::Carries;
use crate::ordering::Ordering;
use crate::share::Share;
use crate::team::work;
use crate::way::Watched;
use component::Comp;
use crew::Job;
use std::sync::Wait;
use weave_run::{DomainShare, WatchedDomains};
use zs_host::Gate;

/// What a worker is asked for: its share of an interval, the recorded order of one, or its domains
/// in a round of the weave.
#[derive(Drop)]
pub enum Work<'a, R: Wait + Sync, G: Gate> {
    /// To run its cores.
    Cores(Share<'a, R, G>),
    /// To tell in which order the accesses of an interval are recorded.
    Order(Ordering),
    /// To run its domains.
    Domains(DomainShare<Comp, WatchedDomains<'a, G>>),
}

impl<'a, R: Wait + Sync, G: Gate> Job for Work<'a, R, G> {
    ghost use Rattle.bound_workers.specs.Works.{CanDo, HasDone};

    ghost can = { λ w. CanDo w };

    ghost done = { λ w v. HasDone w v };

    fn work(self) -> Self {
        match self {
            Work::Cores(share) => {
                let Share {
                    rt,
                    gate,
                    table,
                    program,
                    net,
                    memory,
                    end,
                    worker,
                    mut team,
                } = share;
                let way = Watched { gate };
                work(
                    rt, &way, &table, program, net, memory, end, worker, &mut team,
                );
                Work::Cores(Share {
                    rt,
                    gate,
                    table,
                    program,
                    net,
                    memory,
                    end,
                    worker,
                    team,
                })
            }
            Work::Order(order) => Work::Order(order.tell()),
            Work::Domains(share) => Work::Domains(share.work()),
        }
    }
}

impl<'a, R: Wait + Sync, G: Gate> Carries<WatchedDomains<'a, G>> for Work<'a, R, G> {
    ghost use Rattle.bound_workers.specs.declared.work.Work.TheVariants.{Domains};

    ghost of = { λ share. Domains share };

    fn with(share: DomainShare<Comp, WatchedDomains<'a, G>>) -> Self
        ensures { result ≡ Domains share.entry }
    {
        Work::Domains(share)
    }

    fn take(self) -> DomainShare<Comp, WatchedDomains<'a, G>> {
        match self {
            Work::Domains(share) => share,
            Work::Cores(_) | Work::Order(_) => unreachable!(),
        }
    }
}
