//! Laws over the definitions alone, each the contract of a function that does nothing.
ghost use Rattle.weave_core.specs.AtBarrier.{BarrierFloorsHold, BarriersAdvance};
ghost use Rattle.weave_core.specs.Following.{FirstFollows, FiresFollow, FloorsFollow, LooksFollow};
ghost use Rattle.weave_core.specs.Interleavings.{FirstUnfiredMayFire, Interleavings};
ghost use Rattle.weave_core.specs.Keeping.{KeepingLaws};
ghost use Rattle.weave_core.specs.Raising.{RaisedBoundsHold};
ghost use Rattle.weave_core.specs.SoundDomain.{SoundDomainsFollow, SoundFloorsBound};

use component::Component;

/// After every list of steps each domain has fired the first events of the one-list weave in that
/// domain, at the weave's cycles; its components are what these events leave; and every word and
/// floor is sound.
pub fn interleavings<C: Component>()
    ensures { Interleavings C.serves C.floor C.stepped }
{
    event_graph::laws::each_event_fires_once::<C>();
    event_graph::laws::events_fire_in_order::<C>();
    event_graph::laws::the_least_ready_event_fires::<C>();
    event_graph::laws::each_firing_is_of_the_next_event::<C>();
    event_graph::laws::firings_are_of_the_first_events::<C>();
    event_graph::laws::components_serve_their_own_events::<C>();
    event_graph::laws::graphs_keep_fitting::<C>();
}

/// After a barrier, the domain that has the first unfired event of the one-list weave may fire, and
/// what it fires is that event.
pub fn progress<C: Component>()
    ensures { FirstUnfiredMayFire C.serves C.floor C.stepped }
{
    event_graph::laws::each_event_fires_once::<C>();
    event_graph::laws::events_fire_in_order::<C>();
    event_graph::laws::the_least_ready_event_fires::<C>();
    event_graph::laws::each_firing_is_of_the_next_event::<C>();
    event_graph::laws::firings_are_of_the_first_events::<C>();
    event_graph::laws::components_serve_their_own_events::<C>();
    event_graph::laws::graphs_keep_fitting::<C>();
}

/// For every solution of the timing rules: where a domain has fired the first of its events in it,
/// and its words and its bounds are sound for it, the event that may fire is the domain's next in
/// it, with that start, and its component computes that finish.
pub fn sound_domains_follow<C: Component>()
    ensures { SoundDomainsFollow C.serves C.floor C.stepped }
{
    event_graph::laws::each_event_fires_once::<C>();
    event_graph::laws::events_fire_in_order::<C>();
    event_graph::laws::the_least_ready_event_fires::<C>();
    event_graph::laws::each_firing_is_of_the_next_event::<C>();
    event_graph::laws::firings_are_of_the_first_events::<C>();
    event_graph::laws::components_serve_their_own_events::<C>();
    event_graph::laws::graphs_keep_fitting::<C>();
    event_graph::laws::weave_is_the_one_solution::<C>();
}

/// For every solution of the timing rules: where a domain's words and its floor are sound for it,
/// so are the bounds that it takes of its unresolved crossings.
pub fn sound_floors_bound<C: Component>()
    ensures { SoundFloorsBound C.serves C.floor C.stepped }
{
    event_graph::laws::each_event_fires_once::<C>();
    event_graph::laws::events_fire_in_order::<C>();
    event_graph::laws::the_least_ready_event_fires::<C>();
    event_graph::laws::each_firing_is_of_the_next_event::<C>();
    event_graph::laws::firings_are_of_the_first_events::<C>();
    event_graph::laws::components_serve_their_own_events::<C>();
    event_graph::laws::graphs_keep_fitting::<C>();
    event_graph::laws::weave_is_the_one_solution::<C>();
}

/// A domain that has fired nothing and knows nothing keeps to every solution of the timing rules.
pub fn first_follows<C: Component>()
    ensures { FirstFollows C.stepped }
{}

/// A domain that keeps to a solution where what it was told is sound does so after another word.
pub fn looks_follow<C: Component>()
    ensures { LooksFollow C.stepped }
{}

/// A domain that keeps to a solution where what it was told is sound does so at a higher floor.
pub fn floors_follow<C: Component>()
    ensures { FloorsFollow C.stepped }
{}

/// A domain that keeps to a solution where what it was told is sound does so after a fire that its
/// unresolved crossings allow: what it fires is its next event there, with that start and finish.
pub fn fires_follow<C: Component>()
    ensures { FiresFollow C.serves C.floor C.stepped }
{
    sound_domains_follow::<C>();
}

/// For every solution of the timing rules: where a domain has fired the first of its events in it,
/// and its words and its bounds are sound for it, no event that it has yet to fire finishes before
/// a bound that its word may be raised to, whatever the other domains do.
pub fn raised_bounds_hold<C: Component>()
    ensures { RaisedBoundsHold C.serves C.floor C.stepped }
{
    event_graph::laws::each_event_fires_once::<C>();
    event_graph::laws::events_fire_in_order::<C>();
    event_graph::laws::the_least_ready_event_fires::<C>();
    event_graph::laws::each_firing_is_of_the_next_event::<C>();
    event_graph::laws::firings_are_of_the_first_events::<C>();
    event_graph::laws::components_serve_their_own_events::<C>();
    event_graph::laws::graphs_keep_fitting::<C>();
    event_graph::laws::weave_is_the_one_solution::<C>();
}

/// Where the domains keep to a solution of the timing rules, and each knows the finish of every
/// parent that another one fired, the least start of a ready event is a sound floor for all of
/// them.
pub fn barrier_floors_hold<C: Component>()
    ensures { BarrierFloorsHold C.serves C.floor C.stepped }
{
    event_graph::laws::each_event_fires_once::<C>();
    event_graph::laws::events_fire_in_order::<C>();
    event_graph::laws::the_least_ready_event_fires::<C>();
    event_graph::laws::each_firing_is_of_the_next_event::<C>();
    event_graph::laws::firings_are_of_the_first_events::<C>();
    event_graph::laws::components_serve_their_own_events::<C>();
    event_graph::laws::graphs_keep_fitting::<C>();
    event_graph::laws::weave_is_the_one_solution::<C>();
}

/// In the same state, while an event is unfired, some domain has one ready; and at that floor the
/// domain with the first unfired event of the one-list weave may fire that event.
pub fn barriers_advance<C: Component>()
    ensures { BarriersAdvance C.serves C.floor C.stepped }
{
    event_graph::laws::each_event_fires_once::<C>();
    event_graph::laws::events_fire_in_order::<C>();
    event_graph::laws::the_least_ready_event_fires::<C>();
    event_graph::laws::each_firing_is_of_the_next_event::<C>();
    event_graph::laws::firings_are_of_the_first_events::<C>();
    event_graph::laws::components_serve_their_own_events::<C>();
    event_graph::laws::graphs_keep_fitting::<C>();
    event_graph::laws::weave_is_the_one_solution::<C>();
}

/// A domain that keeps to the one-list weave does so through each of its calls; a barrier gives all
/// domains a sound floor and lets the first unfired event fire; and once all events have fired,
/// what the domains fired and what their components are is what the weave gives.
pub fn domains_keep_to_the_weave<C: Component>()
    ensures { KeepingLaws C.serves C.floor C.stepped C.greatest }
{
    event_graph::laws::each_event_fires_once::<C>();
    event_graph::laws::events_fire_in_order::<C>();
    event_graph::laws::the_least_ready_event_fires::<C>();
    event_graph::laws::each_firing_is_of_the_next_event::<C>();
    event_graph::laws::firings_are_of_the_first_events::<C>();
    event_graph::laws::components_serve_their_own_events::<C>();
    event_graph::laws::graphs_keep_fitting::<C>();
    event_graph::laws::weave_is_the_one_solution::<C>();
    event_graph::laws::events_take_their_time::<C>();
    sound_floors_bound::<C>();
    fires_follow::<C>();
    raised_bounds_hold::<C>();
    barrier_floors_hold::<C>();
    barriers_advance::<C>();
}
