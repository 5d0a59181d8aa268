//! Laws over the definitions alone, each the contract of a function that does nothing.
ghost use Rattle.weave_chains.specs.RoundLaws.{RoundLaws};

use component::Component;
use event_graph::{Expand, laws};

/// What the rounds of the weave rest on.
pub(crate) fn rounds_rest_on_these<X: Expand, C: Component>()
    ensures { (x : _) → RoundLaws C.serves C.floor C.stepped C.greatest (X.pieces x) }
{
    laws::events_are_placed::<X>();
    laws::each_event_fires_once::<C>();
    laws::events_fire_in_order::<C>();
    laws::firings_are_of_the_first_events::<C>();
    laws::each_firing_is_of_the_next_event::<C>();
    laws::events_of_a_core_fire_in_order::<X, C>();
    laws::starts_so_far_stay_small::<C>();
}
