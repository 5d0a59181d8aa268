//! A part is given back, and what the core made is published.
ghost use Rattle.std.specs.Prelude.{◌≡◌, ◌+◌, ◌<◌, [], ◌∷◌, List, Option, ℕ};
ghost use Rattle.parts_table.specs.declared.part.TimedPart.{TimedPart};
ghost use Rattle.parts_table.specs.declared.view.CoreAccesses.{CoreAccesses};
ghost use Rattle.parts_table.specs.Seats.{hand_of, left_in, slot_of, unpublished};
ghost use Rattle.parts_table.specs.Steps.{MayGive};
ghost use Rattle.parts_table.specs.Tables.{HasPlaces};
ghost use Rattle.parts_table.specs.Views.{given};

use crate::hold::give;
use crate::made_list::MadeList;
use crate::part::TimedPart;
use crate::places::Places;
use crate::plays::Ends;
use crate::rule::{Bench, TableSeat};

/// Gives a part back, so, and publishes what isn't. Behind it the seat holds L1s alone.
pub(crate) fn give_back<E: Ends>(
    bench: &Bench,
    place: &mut TableSeat,
    _places: &Places,
    _made: &MadeList,
    number: usize,
    value: TimedPart,
)
    requires list { E.list ≡ unpublished place.old.me.0 _made.now.list }
    requires left { E.left ≡ left_in (hand_of place.old.me.0.cores _places.now value) number place.old.me.0.holds }
    requires table { place.old.table_id ≡ bench.now.table_id }
    requires places { HasPlaces bench.now.table_id bench.now.key.cores bench.now.key.banks }
    requires part { number < bench.now.key.cores + bench.now.key.banks }
    requires slot { (slots : List (ℕ × Option TimedPart)) × (place.old.me.1 ≡ slot_of number ∷ slots) }
    requires may { MayGive place.old.me.0 number value (unpublished place.old.me.0 _made.now.list) (left_in (hand_of place.old.me.0.cores _places.now value) number place.old.me.0.holds) }
    ensures table { (place.new.table_id ≡ place.old.table_id) × (place.new.id ≡ place.old.id) }
    ensures gave { (slots : List (ℕ × Option TimedPart)) (log : CoreAccesses) → place.old.me.1 ≡ slot_of number ∷ slots → place.old.me.0.logs ≡ log ∷ []
        → place.new.me ≡ (given place.old.me.0 log (unpublished place.old.me.0 _made.now.list) (left_in (hand_of place.old.me.0.cores _places.now value) number place.old.me.0.holds), slots) }
{
    give::<E>(bench, place, number, value);
}

/// The same beside a home, that the seat goes on to hold.
pub(crate) fn give_beside<E: Ends>(
    bench: &Bench,
    place: &mut TableSeat,
    _places: &Places,
    _made: &MadeList,
    number: usize,
    value: TimedPart,
    _home: &TimedPart,
)
    requires list { E.list ≡ unpublished place.old.me.0 _made.now.list }
    requires left { E.left ≡ left_in (hand_of place.old.me.0.cores _places.now _home.now) number place.old.me.0.holds }
    requires table { place.old.table_id ≡ bench.now.table_id }
    requires places { HasPlaces bench.now.table_id bench.now.key.cores bench.now.key.banks }
    requires part { number < bench.now.key.cores + bench.now.key.banks }
    requires slot { (slots : List (ℕ × Option TimedPart)) × (place.old.me.1 ≡ slot_of number ∷ slots) }
    requires may { MayGive place.old.me.0 number value (unpublished place.old.me.0 _made.now.list) (left_in (hand_of place.old.me.0.cores _places.now _home.now) number place.old.me.0.holds) }
    ensures table { (place.new.table_id ≡ place.old.table_id) × (place.new.id ≡ place.old.id) }
    ensures gave { (slots : List (ℕ × Option TimedPart)) (log : CoreAccesses) → place.old.me.1 ≡ slot_of number ∷ slots → place.old.me.0.logs ≡ log ∷ []
        → place.new.me ≡ (given place.old.me.0 log (unpublished place.old.me.0 _made.now.list) (left_in (hand_of place.old.me.0.cores _places.now _home.now) number place.old.me.0.holds), slots) }
{
    give::<E>(bench, place, number, value);
}
