//! A round in which the workers run their domains beside each other.
ghost use Rattle.std.specs.Prelude.{◌≡◌, ◌<◌, ◌≤◌, length};
ghost use Rattle.weave_run.specs.Outgoing.{AreOutgoing};
ghost use Rattle.weave_run.specs.Rounds.{AreMet, AreNoted, CanWeavePlan, HasRunRound};
ghost use Rattle.weave_run.specs.Teams.{IsTeam};

use crate::at_work::work_all;
use crate::hiring::{hire, let_go};
use crate::outgoing::Outgoing;
use crate::plan::Plan;
use crate::post::Post;
use crate::team::Team;
use crate::tell::tell_each;
use crate::way::WatchedDomains;
use component::Component;
use domain_map::Parts;
use std::thread::Threads;
use weave_core::{Domain, laws};
use zs_host::Gate;

/// Runs all domains by their workers, and once all of these have ended, tells every domain what the
/// others fired.
pub(crate) fn run_beside<R: Threads + Sync, C: Component + Send, G: Gate>(
    rt: &R,
    domains: &mut Vec<Domain<C>>,
    team: &mut Team<C, WatchedDomains<'_, G>>,
    plan: &Plan<C>,
    parts: &Parts,
    outgoing: &Outgoing,
)
    requires can { CanWeavePlan C.serves C.floor C.stepped C.greatest plan.now }
    requires parts { parts.now ≡ plan.now.parts.value }
    requires outgoing { AreOutgoing plan.now.parts.value.crossings (length plan.now.graph.value) outgoing.now }
    requires met { AreMet C.stepped plan.now domains.old.items }
    requires team { IsTeam C.stepped plan.now domains.old.items team.old }
    ensures ran { HasRunRound C.stepped plan.now domains.old.items domains.new.items }
    ensures team { IsTeam C.stepped plan.now domains.new.items team.new }
{
    laws::domains_keep_to_the_weave::<C>();
    dealing::laws::dealt_are_among_these::<Post<C>, ()>();
    dealing::laws::changed_are_dealt::<Post<C>, ()>();
    let count = parts.domains();
    let crossings = &*team.crossings;
    let crews = team.crews.as_mut_slice();
    let counts = team.counts.as_mut_slice();
    note(domains, counts);
    hire(domains, &mut team.seats, crews);
    work_all(rt, crews, &mut team.shares, plan, crossings);
    let_go(crews, count, domains, &mut team.seats);
    tell_each(domains.as_mut_slice(), plan, parts, outgoing, counts);
}

/// How many events each domain has fired.
pub(crate) fn note<C: Component>(domains: &[Domain<C>], counts: &mut [usize])
    requires room { length counts.old ≡ length domains.now }
    ensures count { length counts.new ≡ length counts.old }
    ensures noted { AreNoted domains.now counts.new (length domains.now) }
{
    for index in 0..domains.len() {
        counts[index] = domains[index].fired().len();
    }
}
