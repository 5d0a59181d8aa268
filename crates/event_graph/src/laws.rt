//! Laws over the definitions alone, each the contract of a function that does nothing.
ghost use Rattle.std.specs.Prelude.{◌≡◌, ◌+◌, ◌*◌, ◌^◌, ◌<◌, ◌≤◌, ◌↔◌, ℕ, suc, Bool, true, List, All, Some, if◌then◌else◌, length, map, slice_get, slice_index_or, sum_by, take, IsPermutation};
ghost use Rattle.std.specs.List.{Contains};
ghost use Rattle.std.specs.Option.{option_map};
ghost use Rattle.zs_num.specs.declared.entry.Entry.{Entry};
ghost use Rattle.event_graph.specs.declared.event.Event.{Event};
ghost use Rattle.event_graph.specs.ComponentOrders.{IsSolutionByComponents};
ghost use Rattle.event_graph.specs.Critical.{is_critical_of, last_critical};
ghost use Rattle.event_graph.specs.EventGraph.{all_events, event_at};
ghost use Rattle.event_graph.specs.Firing.{FiredByTheRules, FiresNext, IsNext, time_so_far};
ghost use Rattle.event_graph.specs.Fits.{GraphFits};
ghost use Rattle.event_graph.specs.Growth.{BeginBy, IsPaced};
ghost use Rattle.event_graph.specs.InARow.{AreInARow};
ghost use Rattle.event_graph.specs.Laws.{MachineComponentsStay, MachineStepsStaySmall, PlainAccessesHaveFewEvents, PlainGraphsFit, PlainFloorsAreOfComponents};
ghost use Rattle.event_graph.specs.MadeOfPieces.{IsMadeAlike, with_events};
ghost use Rattle.event_graph.specs.Near.{AreNear};
ghost use Rattle.event_graph.specs.Numbered.{IsNumbered};
ghost use Rattle.event_graph.specs.OneListWeave.{FiredEvent, after_firings, comps_after, finish_in, fired_of, is_fired, start_of, weave, woven};
ghost use Rattle.event_graph.specs.OrderByCore.{AreRenumberedByCore, HaveTheSameByCore};
ghost use Rattle.event_graph.specs.PlacedEvents.{IsEventOf, IsOfSameCore, events_before, first_number};
ghost use Rattle.event_graph.specs.Renumbering.{AreAlikeAtTies, AreRenumbered, HaveTheTimesOf, renumbered, renumbered_fired};
ghost use Rattle.event_graph.specs.SmallSteps.{AreSmallSteps};
ghost use Rattle.event_graph.specs.Timely.{AreTimely};
ghost use Rattle.event_graph.specs.declared.access_path.AccessPath.{AccessPath};
ghost use Rattle.event_graph.specs.declared.piece.Piece.{Piece};
ghost use Rattle.event_graph.specs.PlainTiming.{pieces_of};
ghost use Rattle.event_graph.specs.ServedEvents.{after_serving, of_component};
ghost use Rattle.event_graph.specs.TimingSolution.{IsInOrder, IsSolution, ServesInTurn};
ghost use Rattle.event_graph.specs.FloorsServed.{AreFloorsOf};

use crate::Expand;
use component::{Comp, Component};

/// Components that have the floors of an expansion serve all events of its accesses, and each with
/// the event's time at zero load as its floor.
pub fn graphs_with_their_floors_fit<X: Expand, C: Component>()
    ensures { (x : _) (comps : List _) (entries : List Entry) → AreFloorsOf (X.floors x) C.serves C.floor comps → GraphFits C.serves C.floor (all_events (X.pieces x) entries) comps }
{}

/// The components of a machine without open rows have the floors of its `Plain`.
pub fn plain_floors_are_of_components()
    ensures { PlainFloorsAreOfComponents }
{}

/// The components of a machine without open rows serve all events that `Plain` expands its accesses
/// into.
pub fn plain_graphs_fit()
    ensures { PlainGraphsFit }
{}

/// Where no access starts after the cycle `last`, no event starts later than `last + 2^20` at zero
/// load, and no parent's delay is more than `last + 2^20` cycles.
pub fn events_begin_with_their_accesses<X: Expand>()
    ensures { (x : _) (entries : List Entry) (last : ℕ) → All (λ e. e.start ≤ last) entries → AreNear (last + 2 ^ 20) (last + 2 ^ 20) (all_events (X.pieces x) entries) }
{}

/// Where the accesses are of cores below a number, so are their events.
pub fn events_keep_their_cores<X: Expand>()
    ensures { (x : _) (entries : List Entry) (cores : ℕ) → All (λ e. e.core < cores) entries → All (λ e. e.core < cores) (all_events (X.pieces x) entries) }
{}

/// In whatever order an interval's accesses are listed, as long as each core has its own in the same
/// order, their events are the same under other numbers, which put the events of each core in the
/// same order.
pub fn events_are_of_their_cores<X: Expand>()
    ensures { (x : _) (entries others : List Entry) → HaveTheSameByCore entries others →
        (to : ℕ → ℕ) × AreRenumberedByCore to (all_events (X.pieces x) entries) (all_events (X.pieces x) others) }
{}

/// Where the events of each access stand in a row, a core's events fire in order of their numbers:
/// so its first unfired event is the one that can fire next.
pub fn events_of_a_core_fire_in_order<X: Expand, C: Component>()
    ensures next { (x : _) (entries : List Entry) (comps : List C) (firings : ℕ) (next : FiredEvent) (c : C) (d : Event) →
        ((access : Entry) → AreInARow (X.pieces x access)) → GraphFits C.serves C.floor (all_events (X.pieces x) entries) comps →
        FiresNext C.serves C.stepped (all_events (X.pieces x) entries) (after_firings C.stepped (all_events (X.pieces x) entries) comps firings) (after_firings C.stepped (all_events (X.pieces x) entries) comps (suc firings)) next c →
        Contains (all_events (X.pieces x) entries) d → d.core ≡ next.event.core → d.number < next.event.number →
        is_fired (after_firings C.stepped (all_events (X.pieces x) entries) comps firings).fired d.number ≡ true }
    ensures order { (x : _) (entries : List Entry) (comps : List C) (firings : ℕ) (d e : Event) →
        ((access : Entry) → AreInARow (X.pieces x access)) → GraphFits C.serves C.floor (all_events (X.pieces x) entries) comps →
        Contains (all_events (X.pieces x) entries) d → Contains (all_events (X.pieces x) entries) e → d.core ≡ e.core → d.number < e.number →
        is_fired (after_firings C.stepped (all_events (X.pieces x) entries) comps firings).fired e.number ≡ true →
        is_fired (after_firings C.stepped (all_events (X.pieces x) entries) comps firings).fired d.number ≡ true }
{}

/// Events are made of an access's core, its start and its pieces, and of nothing else of it; and
/// accesses without events may be left out.
pub fn events_are_made_of_pieces<X: Expand>()
    ensures alike { (x : _) (entries : List Entry) (other : Entry → Entry) → ((e : Entry) → IsMadeAlike (X.pieces x) e (other e)) →
        all_events (X.pieces x) (map other entries) ≡ all_events (X.pieces x) entries }
    ensures left_out { (x : _) (entries : List Entry) → all_events (X.pieces x) (with_events (X.pieces x) entries) ≡ all_events (X.pieces x) entries }
{}

/// The events of an access that `Plain` makes stand in a row.
pub fn plain_events_are_in_a_row()
    ensures { (path : AccessPath) (e : Entry) → AreInARow (pieces_of path e) }
{}

/// The events of an access stand behind those of the accesses before it, in the order of their
/// places; each event is one of an access; its parents are events of the same core; and what a core
/// has waited for behind an access is the access's last event.
pub fn events_are_placed<X: Expand>()
    ensures numbered { (x : _) (entries : List Entry) → IsNumbered (all_events (X.pieces x) entries) }
    ensures there { (x : _) (entries : List Entry) (a : ℕ) (e : Entry) (k : ℕ) (p : Piece) → slice_get entries a ≡ Some e → slice_get (X.pieces x e) k ≡ Some p →
        (slice_get (all_events (X.pieces x) entries) (first_number (X.pieces x) entries a + k)
        ≡ Some (event_at (events_before (X.pieces x) entries a) e (X.pieces x e) k p)) }
    ensures next { (x : _) (entries : List Entry) (a : ℕ) (e : Entry) → slice_get entries a ≡ Some e →
        first_number (X.pieces x) entries (a + 1) ≡ first_number (X.pieces x) entries a + length (X.pieces x e) }
    ensures each { (x : _) (entries : List Entry) (number : ℕ) (e : Event) → slice_get (all_events (X.pieces x) entries) number ≡ Some e → IsEventOf (X.pieces x) entries number e }
    ensures parents { (x : _) (entries : List Entry) (number : ℕ) (e : Event) → slice_get (all_events (X.pieces x) entries) number ≡ Some e →
        IsOfSameCore (X.pieces x) entries e e.first × IsOfSameCore (X.pieces x) entries e e.second }
    ensures last { (x : _) (entries : List Entry) (core a : ℕ) (e : Event) → last_critical core (events_before (X.pieces x) entries a) ≡ Some e →
        (slice_get (events_before (X.pieces x) entries a) e.number ≡ Some e) × ((slice_get (all_events (X.pieces x) entries) e.number ≡ Some e) × (e.core ≡ core)) }
    ensures ends { (x : _) (entries : List Entry) (a : ℕ) (e : Entry) (k : ℕ) (p : Piece) → slice_get entries a ≡ Some e → slice_get (X.pieces x e) k ≡ Some p → k + 1 ≡ length (X.pieces x e) →
        last_critical e.core (events_before (X.pieces x) entries (a + 1)) ≡ Some (event_at (events_before (X.pieces x) entries a) e (X.pieces x e) k p) }
{}

/// There are as many events as the accesses have pieces together.
pub fn events_are_counted<X: Expand>()
    ensures { (x : _) (entries : List Entry) → length (all_events (X.pieces x) entries) ≡ sum_by (λ e. length (X.pieces x e)) entries }
{}

/// `Plain` expands an access into four events at most.
pub fn plain_accesses_have_few_events()
    ensures { PlainAccessesHaveFewEvents }
{}

/// Each event of a graph that fits components is on one of them.
pub fn fitting_events_are_there<C: Component>()
    ensures { (events : List Event) (comps : List C) → GraphFits C.serves C.floor events comps → All (λ e. e.component < length comps) events }
{}

/// With one event more, a core's last critical event is that one, or the one that it was.
pub fn the_last_critical_event_moves_on()
    ensures { (core : ℕ) (events : List Event) (index : ℕ) (e : Event) → index < length events →
        (last_critical core (take (index + 1) events)
        ≡ (if is_critical_of core (slice_index_or events index e) then Some (slice_index_or events index e) else last_critical core (take index events))) }
{}

/// The weave fires each event exactly once.
pub fn each_event_fires_once<C: Component>()
    ensures { (events : List Event) (comps : List C) →
        IsNumbered events → GraphFits C.serves C.floor events comps →
        IsPermutation events (map (λ x. x.event) (weave C.stepped events comps).fired) }
{}

/// The weave fires events in order of start, and at a tie in order of number.
pub fn events_fire_in_order<C: Component>()
    ensures { (events : List Event) (comps : List C) →
        IsNumbered events → GraphFits C.serves C.floor events comps →
        IsInOrder (weave C.stepped events comps).fired }
{}

/// So many firings are of so many events, the first that the weave fires.
pub fn firings_are_of_the_first_events<C: Component>()
    ensures { (events : List Event) (comps : List C) (firings : ℕ) →
        IsNumbered events → GraphFits C.serves C.floor events comps →
        (after_firings C.stepped events comps firings).fired ≡ take firings (weave C.stepped events comps).fired }
{}

/// Each event that the weave fires was the least ready one, with those fired that the weave fires
/// before it.
pub fn the_least_ready_event_fires<C: Component>()
    ensures { (events : List Event) (comps : List C) (index : ℕ) (x : FiredEvent) →
        IsNumbered events → GraphFits C.serves C.floor events comps →
        slice_get (weave C.stepped events comps).fired index ≡ Some x →
        IsNext (take index (weave C.stepped events comps).fired) events x }
{}

/// While an event is unfired, a firing is of the next one, which its component serves.
pub fn each_firing_is_of_the_next_event<C: Component>()
    ensures { (events : List Event) (comps : List C) (firings : ℕ) →
        IsNumbered events → GraphFits C.serves C.floor events comps → firings < length events →
        (x : FiredEvent) × (c : C) × FiresNext C.serves C.stepped events (after_firings C.stepped events comps firings) (after_firings C.stepped events comps (suc firings)) x c }
{}

/// Each event that fired did so after its parents, started by the start rule, and took time.
pub fn events_fire_by_the_rules<C: Component>()
    ensures { (events : List Event) (comps : List C) (firings : ℕ) →
        IsNumbered events → GraphFits C.serves C.floor events comps →
        All (FiredByTheRules events (after_firings C.stepped events comps firings).fired) (after_firings C.stepped events comps firings).fired }
{}

/// What is known of the events once all fired is what the weave answers.
pub fn times_so_far_become_the_weaves<C: Component>()
    ensures { (events : List Event) (comps : List C) →
        IsNumbered events → GraphFits C.serves C.floor events comps →
        map (time_so_far (weave C.stepped events comps).fired) events ≡ map fired_of (woven C.stepped events comps) }
{}

/// After each firing a component is what its own events left, served in the order in which they
/// fired.
pub fn components_serve_their_own_events<C: Component>()
    ensures { (events : List Event) (comps : List C) (firings number : ℕ) →
        IsNumbered events → GraphFits C.serves C.floor events comps →
        (slice_get (after_firings C.stepped events comps firings).comps number
        ≡ option_map (λ c. after_serving C.stepped c (of_component number (after_firings C.stepped events comps firings).fired)) (slice_get comps number)) }
{}

/// The finish of each event is what its component computed when it served the event, after the
/// events of its own that fired before.
pub fn finishes_are_served_in_turn<C: Component>()
    ensures { (events : List Event) (comps : List C) (number : ℕ) (c : C) →
        IsNumbered events → GraphFits C.serves C.floor events comps → slice_get comps number ≡ Some c →
        ServesInTurn C.stepped c (of_component number (weave C.stepped events comps).fired) }
{}

/// After each firing the graph fits the components.
pub fn graphs_keep_fitting<C: Component>()
    ensures { (events : List Event) (comps : List C) (firings : ℕ) →
        IsNumbered events → GraphFits C.serves C.floor events comps →
        GraphFits C.serves C.floor events (after_firings C.stepped events comps firings).comps }
{}

/// The one-list weave solves the timing rules, and nothing else does: the rules, which say nothing
/// of an order of execution, fix every start and finish.
pub fn weave_is_the_one_solution<C: Component>()
    ensures { (events : List Event) (comps : List C) (timed : List FiredEvent) →
        IsNumbered events → GraphFits C.serves C.floor events comps →
        (IsSolution C.stepped events comps timed ↔ (timed ≡ woven C.stepped events comps)) }
{}

/// It is enough that each component serves its own events in order of (start, number): two events
/// of different components need no order.
pub fn an_order_on_each_component_suffices<C: Component>()
    ensures { (events : List Event) (comps : List C) (timed : List FiredEvent) →
        IsNumbered events → IsSolutionByComponents C.stepped events comps timed → IsSolution C.stepped events comps timed }
{}

/// The numbers of events decide only between two of one component that start in the same cycle:
/// where two numberings put the same one first there, all times and the components after are the
/// same.
pub fn numbers_decide_ties_alone<C: Component>()
    ensures times { (to : ℕ → ℕ) (events others : List Event) (comps : List C) →
        IsNumbered events → IsNumbered others → GraphFits C.serves C.floor events comps →
        AreRenumbered to events others → AreAlikeAtTies to (woven C.stepped events comps) →
        HaveTheTimesOf to (woven C.stepped events comps) (woven C.stepped others comps) }
    ensures comps { (to : ℕ → ℕ) (events others : List Event) (comps : List C) →
        IsNumbered events → IsNumbered others → GraphFits C.serves C.floor events comps →
        AreRenumbered to events others → AreAlikeAtTies to (woven C.stepped events comps) →
        comps_after C.stepped others comps ≡ comps_after C.stepped events comps }
    ensures sums { (to : ℕ → ℕ) (events others : List Event) (comps : List C) →
        IsNumbered events → IsNumbered others → GraphFits C.serves C.floor events comps →
        AreRenumbered to events others → AreAlikeAtTies to (woven C.stepped events comps) →
        (weight : FiredEvent → ℕ) → ((x : FiredEvent) → weight (renumbered_fired to x) ≡ weight x) → (component : ℕ) →
        sum_by weight (of_component component (woven C.stepped others comps)) ≡ sum_by weight (of_component component (woven C.stepped events comps)) }
{}

/// Under numbers that put the events of each core in the same order, the last critical event of a
/// core is the same.
pub fn cores_wait_for_the_same_event()
    ensures there { (core : ℕ) (events : List Event) (e : Event) → IsNumbered events → last_critical core events ≡ Some e → slice_get events e.number ≡ Some e }
    ensures same { (core : ℕ) (to : ℕ → ℕ) (events others : List Event) →
        IsNumbered events → IsNumbered others → AreRenumberedByCore to events others →
        last_critical core others ≡ option_map (renumbered to) (last_critical core events) }
{}

/// Where a step computes no more than `most` above the later of its start and the cycle until which
/// the component is busy, no sum of a weave passes that of all its steps and delays, from `base`
/// on.
pub fn steps_stay_small<C: Component>()
    ensures { (paced : C → Bool) (busy : C → ℕ) (most delay base : ℕ) (events : List Event) (comps : List C) →
        IsNumbered events → GraphFits C.serves C.floor events comps →
        IsPaced C.serves C.stepped C.greatest paced busy most → AreNear base delay events → BeginBy paced busy base comps →
        base + length events * (delay + most) ≤ 2 ^ 62 → AreSmallSteps C.stepped C.greatest events comps }
{}

/// No event starts before its start at zero load or takes less than its time at zero load, and each
/// finishes within 2^62 cycles.
pub fn events_take_their_time<C: Component>()
    ensures { (events : List Event) (comps : List C) →
        IsNumbered events → GraphFits C.serves C.floor events comps → AreSmallSteps C.stepped C.greatest events comps →
        AreTimely events (map fired_of (woven C.stepped events comps)) }
{}

/// No event's start so far passes 2^62.
pub fn starts_so_far_stay_small<C: Component>()
    ensures { (events : List Event) (comps : List C) (firings : ℕ) →
        IsNumbered events → GraphFits C.serves C.floor events comps → AreSmallSteps C.stepped C.greatest events comps →
        All (λ e. start_of (finish_in (after_firings C.stepped events comps firings).fired) e ≤ 2 ^ 62) events }
{}

/// The components of a machine stay its components in a weave.
pub fn machine_components_stay()
    ensures { MachineComponentsStay }
{
    component::laws::components_stay();
}

/// On the components of a machine no sum of a weave passes 2^62, where 2^17 cycles and the delay
/// for each event still have room above `base`.
pub fn machine_steps_stay_small()
    ensures { MachineStepsStaySmall }
{
    steps_stay_small::<Comp>();
}
