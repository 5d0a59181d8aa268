//! What a blocked domain says of the events that it has yet to fire, by the words of the crossings
//! out of it.
ghost use Rattle.std.specs.Prelude.{◌≡◌, ◌≤◌, ◌^◌, length, slice_index};
ghost use Rattle.crossing.specs.Seats.{MayWrite};
ghost use Rattle.weave_run.specs.Rounds.{CanWeavePlan};
ghost use Rattle.weave_run.specs.Seating.{HasRaised, HasRaisedWord, IsPostSeated};

use crate::plan::Plan;
use crate::post::Post;
use component::Component;
use crossing::{Crossings, DomainSeat};
use weave_core::laws;
use zs_num::{Cycle, Word};

/// A domain with more crossings out of it raises no bounds: that takes longer than the rounds that
/// it saves.
pub(crate) const MOST_RAISED: usize = 64;

/// Raises the words of the crossings out of a domain to the bounds that it gives, where these are
/// more than what it last wrote.
pub(crate) fn raise_all<C: Component>(post: &mut Post<C>, plan: &Plan<C>, crossings: &Crossings)
    requires can { CanWeavePlan C.serves C.floor C.stepped C.greatest plan.now }
    requires post { IsPostSeated C.stepped plan.now crossings.now post.old }
    ensures { HasRaised C.stepped plan.now crossings.now post.old post.new }
{
    let count = post.domain.outgoing().len();
    if count > MOST_RAISED {
        return;
    }
    for index in 0..count {
        raise_at(post, plan, crossings, index);
    }
}

/// Raises the word of the crossing at a place among those out of a domain, where its parent has yet
/// to fire.
fn raise_at<C: Component>(post: &mut Post<C>, plan: &Plan<C>, crossings: &Crossings, index: usize)
    requires can { CanWeavePlan C.serves C.floor C.stepped C.greatest plan.now }
    requires post { IsPostSeated C.stepped plan.now crossings.now post.old }
    ensures { HasRaised C.stepped plan.now crossings.now post.old post.new }
{
    laws::domains_keep_to_the_weave::<C>();
    let outgoing = post.domain.outgoing();
    if index >= outgoing.len() {
        return;
    }
    let crossing = outgoing[index];
    let Some(bound) = post.domain.bound(crossing) else {
        return;
    };
    raise(crossings, &mut post.seat, crossing, bound);
}

/// Raises the word of a crossing to a bound, unless it says as much.
fn raise(crossings: &Crossings, seat: &mut DomainSeat, crossing: u32, bound: Cycle)
    requires crossings { seat.old.crossings ≡ crossings.now }
    requires wide { length seat.old.wrote ≡ length seat.old.sources }
    requires may { MayWrite seat.old crossing }
    requires sound { bound ≤ slice_index seat.old.finishes crossing }
    requires small { bound ≤ 2 ^ 62 }
    ensures { HasRaisedWord seat.old seat.new crossing bound }
{
    let Word::Bound(before) = crossings.look(seat, crossing) else {
        return;
    };
    if bound <= before {
        return;
    }
    crossings.raise(seat, crossing, bound);
}
