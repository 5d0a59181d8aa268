//! What events an access is made of.
ghost use Rattle.std.specs.Prelude.{◌≡◌, ◌<◌, ◌≤◌, ◌^◌, ℕ, List, length, Option, Some, slice_get};
ghost use Rattle.component.specs.declared.kind.Kind.{Kind};
ghost use Rattle.zs_num.specs.declared.entry.Entry.{Entry};
ghost use Rattle.zs_num.specs.declared.entry.Outcome.TheVariants as outcome;
ghost use Rattle.zs_num.specs.Request.{is_fetch};
ghost use Rattle.event_graph.specs.declared.piece.Piece.{Piece};
ghost use Rattle.event_graph.specs.Expansion.{ParentsComeBefore, OnlyFirstStartsAlone, ParentsFinishBefore, EndsAt, HaveFloors};

use crate::Piece;
use zs_num::Entry;

/// How an access is expanded into events, and how long it takes at zero load.
pub trait Expand {
    /// The events of an access, in the order of their places.
    ghost pieces: { Self → Entry → List Piece };

    /// The time of an access at zero load, in cycles.
    ghost time: { Self → Entry → ℕ };

    /// For each component and kind, the floor with which the component serves the kind, and none
    /// where there is no such component or it doesn't serve the kind.
    ghost floors: { Self → (component : ℕ) → Kind → Option ℕ };

    /// How many events an access is made of.
    fn count(&self, entry: &Entry) -> u16
        ensures { result ≡ length (pieces self.now entry.now) };

    /// The event at a place of an access.
    fn piece(&self, entry: &Entry, place: u16) -> Piece
        requires { place < length (pieces self.now entry.now) }
        ensures { slice_get (pieces self.now entry.now) place ≡ Some result };

    /// The time of an access at zero load, in cycles.
    fn time(&self, entry: &Entry) -> u64
        ensures { result ≡ time self.now entry.now };

    /// The time of a hit, in cycles: of a fetch, or of any other access.
    fn hit_time(&self, fetch: bool) -> u64
        ensures { (e : Entry) → e.outcome ≡ outcome.Hit → is_fetch e.request ≡ fetch → time self.now e ≡ result };

    /// An access takes a cycle at least, and not long.
    ghost time_at_least_one: { (x : Self) (e : Entry) → 1 ≤ time x e };

    ghost time_small: { (x : Self) (e : Entry) → time x e ≤ 2 ^ 20 };

    /// Parents have smaller places.
    ghost parents_come_before: { (x : Self) (e : Entry) → ParentsComeBefore (pieces x e) };

    /// Place 0 has no parent, and each later place has one at least.
    ghost only_first_starts_alone: { (x : Self) (e : Entry) → OnlyFirstStartsAlone (pieces x e) };

    /// No event starts before its parents finished.
    ghost parents_finish_before: { (x : Self) (e : Entry) → ParentsFinishBefore (pieces x e) };

    /// The last event ends the access, and no event ends later.
    ghost ends_with_access: { (x : Self) (e : Entry) → EndsAt (pieces x e) (time x e) };

    /// Each event's component is there and serves its kind, with the event's time as its floor.
    ghost floors_are_times: { (x : Self) (e : Entry) → HaveFloors (floors x) (pieces x e) };
}
