//! A domain that runs beside others, which it tells what it fires, and of which it learns, by the
//! words of the crossings.
ghost use Rattle.std.specs.Prelude.{◌≡◌, ◌<◌, length};
ghost use Rattle.zs_num.specs.declared.time.Key.{Key};
ghost use Rattle.weave_core.specs.DomainCalls.{IsBlockedBy, MayFire};
ghost use Rattle.weave_run.specs.Outgoing.{AreOutgoing};
ghost use Rattle.weave_run.specs.Rounds.{CanWeavePlan, IsFinish};
ghost use Rattle.weave_run.specs.Seating.{IsPostSeated, HasFiredThere, HasLearned, HasLooked, HasPublished, HasServed, IsSeatOfPlan, MayPublish, says_more as more_than};

use crate::outgoing::Outgoing;
use crate::plan::Plan;
use crate::raise::raise_all;
use crate::run::fire;
use crate::way::DomainWay;
use component::Component;
use crossing::{Crossings, DomainSeat};
use event_graph::Fired;
use weave_core::{Domain, Next, laws};
use zs_num::{Cycle, Word};

/// A domain with its number and its seat at the crossings.
#[derive(Drop)]
pub(crate) struct Post<C: Component> {
    pub(crate) number: u16,
    pub(crate) domain: Domain<C>,
    pub(crate) seat: DomainSeat,
}

/// Fires while the next event may fire, and publishes each finish. Where the domain is blocked it
/// raises the words of its crossings, looks at the word of the crossing that blocks it, and goes on
/// if that says more than what the domain knows. At most so many fires and looks.
pub(crate) fn run_beside_others<C: Component, W: DomainWay>(
    post: &mut Post<C>,
    plan: &Plan<C>,
    outgoing: &Outgoing,
    crossings: &Crossings,
    worker: u16,
    way: &W,
    steps: usize,
)
    requires can { CanWeavePlan C.serves C.floor C.stepped C.greatest plan.now }
    requires outgoing { AreOutgoing plan.now.parts.value.crossings (length plan.now.graph.value) outgoing.now }
    requires post { IsPostSeated C.stepped plan.now crossings.now post.old }
    requires some { 0 < steps }
    ensures { HasServed C.stepped plan.now crossings.now post.old post.new }
{
    laws::domains_keep_to_the_weave::<C>();
    let mut raises = true;
    for _step in 0..steps {
        match post.domain.next() {
            Next::Fire { .. } => {
                fire_and_publish(post, plan, outgoing, crossings, worker, way);
                raises = true;
            }
            Next::Blocked { crossing, bound } => {
                if !raise_and_look(post, plan, crossings, crossing, bound, raises) {
                    return;
                }
                raises = false;
            }
            Next::Done => return,
        }
    }
}

/// Fires the domain's next event once the gate lets it, and publishes its finish.
fn fire_and_publish<C: Component, W: DomainWay>(
    post: &mut Post<C>,
    plan: &Plan<C>,
    outgoing: &Outgoing,
    crossings: &Crossings,
    worker: u16,
    way: &W,
)
    requires can { CanWeavePlan C.serves C.floor C.stepped C.greatest plan.now }
    requires outgoing { AreOutgoing plan.now.parts.value.crossings (length plan.now.graph.value) outgoing.now }
    requires post { IsPostSeated C.stepped plan.now crossings.now post.old }
    requires may { (key : Key) × MayFire plan.now.graph.value plan.now.parts.value post.old.domain.domain post.old.domain.own key }
    ensures { HasFiredThere C.stepped plan.now crossings.now post.old post.new }
{
    laws::domains_keep_to_the_weave::<C>();
    let fired = fire(&mut post.domain, plan, post.number, worker, way);
    publish_all(crossings, &mut post.seat, plan, outgoing, fired);
}

/// Publishes the finish of an event by all crossings out of it.
fn publish_all<C: Component>(
    crossings: &Crossings,
    seat: &mut DomainSeat,
    plan: &Plan<C>,
    outgoing: &Outgoing,
    fired: Fired,
)
    requires can { CanWeavePlan C.serves C.floor C.stepped C.greatest plan.now }
    requires outgoing { AreOutgoing plan.now.parts.value.crossings (length plan.now.graph.value) outgoing.now }
    requires seat { IsSeatOfPlan C.stepped plan.now crossings.now seat.old.domain seat.old }
    requires there { fired.number < length plan.now.graph.value }
    requires finish { IsFinish C.stepped plan.now fired.number fired.finish }
    requires may { MayPublish plan.now seat.old fired.number }
    ensures { HasPublished plan.now seat.old seat.new fired.number fired.finish }
{
    laws::domains_keep_to_the_weave::<C>();
    let mut link = outgoing.last[fired.number as usize];
    while link > 0 {
        crossings.publish(seat, link - 1, fired.finish);
        link = outgoing.before[(link - 1) as usize];
    }
}

/// Raises the words of the domain's crossings where it is to, and looks at the word of the crossing
/// that blocks it. Answers whether that says more than what the domain knew.
fn raise_and_look<C: Component>(
    post: &mut Post<C>,
    plan: &Plan<C>,
    crossings: &Crossings,
    crossing: u32,
    bound: Cycle,
    raises: bool,
) -> bool
    requires can { CanWeavePlan C.serves C.floor C.stepped C.greatest plan.now }
    requires post { IsPostSeated C.stepped plan.now crossings.now post.old }
    requires blocked { IsBlockedBy plan.now.graph.value plan.now.parts.value post.old.domain.domain post.old.domain.own crossing bound }
    ensures { HasLearned C.stepped plan.now crossings.now post.old post.new }
{
    laws::domains_keep_to_the_weave::<C>();
    if raises {
        raise_all(post, plan, crossings);
    }
    look_again(post, plan, crossings, crossing, bound)
}

/// Looks at the word of the crossing that blocks the domain at this bound. If it says more, the
/// domain is told it. Answers whether it does.
fn look_again<C: Component>(
    post: &mut Post<C>,
    plan: &Plan<C>,
    crossings: &Crossings,
    crossing: u32,
    bound: Cycle,
) -> bool
    requires can { CanWeavePlan C.serves C.floor C.stepped C.greatest plan.now }
    requires post { IsPostSeated C.stepped plan.now crossings.now post.old }
    requires blocked { IsBlockedBy plan.now.graph.value plan.now.parts.value post.old.domain.domain post.old.domain.own crossing bound }
    ensures { HasLooked C.stepped plan.now crossings.now post.old post.new crossing bound result }
{
    laws::domains_keep_to_the_weave::<C>();
    let word = crossings.look(&mut post.seat, crossing);
    if !says_more(bound, word) {
        return false;
    }
    post.domain.look(crossing, word);
    true
}

/// Whether a word says more than that a parent finishes at this bound or later.
fn says_more(bound: Cycle, word: Word) -> bool
    ensures { result ≡ more_than bound word }
{
    match word {
        Word::Bound(found) => found > bound,
        Word::Exact(_) => true,
    }
}
