//! One part is taken, and given back.
ghost use Rattle.std.specs.Prelude.{◌≡◌, ℕ, ◌+◌, ◌*◌, ◌<◌, ◌^◌, List, [], ◌∷◌, Option, Some, None};
ghost use Rattle.parts_table.specs.declared.part.TimedPart.{TimedPart};
ghost use Rattle.parts_table.specs.declared.view.CoreAccesses.{CoreAccesses};
ghost use Rattle.parts_table.specs.Steps.{MayGive, took};
ghost use Rattle.parts_table.specs.Tables.{HasPlaces};
ghost use Rattle.parts_table.specs.Views.{given};

use crate::laws;
use crate::part::TimedPart;
use crate::plays::{Ends, Give, Take, Want};
use crate::rule::{Bench, TableSeat};
use std::sync::Wait;
use std::{hint, thread};

/// How many words apart the words of two parts are: 128 bytes, so that no two share a pair of
/// cache lines of the host.
pub(crate) const APART: usize = 16;

/// How often a word is looked at before other threads are let run: for less than a microsecond.
const LOOKS: u32 = 200;

/// Takes a part for this core, unless a core holds it: then the answer is None.
pub(crate) fn try_take(
    bench: &Bench,
    place: &mut TableSeat,
    part: usize,
    core: u16,
) -> Option<TimedPart>
    requires table { place.old.table_id ≡ bench.now.table_id }
    requires places { HasPlaces bench.now.table_id bench.now.key.cores bench.now.key.banks }
    requires part { part < bench.now.key.cores + bench.now.key.banks }
    requires log { (log : CoreAccesses) × (place.old.me.0.logs ≡ log ∷ []) × (log.core ≡ core) }
    ensures table { (place.new.table_id ≡ place.old.table_id) × (place.new.id ≡ place.old.id) }
    ensures took { took part place.old.me result place.new.me }
{
    laws::machine_laws();
    let found = bench.compare_exchange::<Take>(place, APART * part, 0, core as u64 + 1);
    if found != 0 {
        return None;
    }
    bench.exchange(place, part, None)
}

/// Takes a part for this core. It waits until nobody else holds it.
pub(crate) fn take<R: Wait>(
    rt: &R,
    bench: &Bench,
    place: &mut TableSeat,
    part: usize,
    core: u16,
) -> TimedPart
    requires table { place.old.table_id ≡ bench.now.table_id }
    requires places { HasPlaces bench.now.table_id bench.now.key.cores bench.now.key.banks }
    requires part { part < bench.now.key.cores + bench.now.key.banks }
    requires log { (log : CoreAccesses) × (place.old.me.0.logs ≡ log ∷ []) × (log.core ≡ core) }
    ensures table { (place.new.table_id ≡ place.old.table_id) × (place.new.id ≡ place.old.id) }
    ensures took { took part place.old.me (Some result) place.new.me }
{
    for _ in rt.forever() {
        if let Some(value) = try_take(bench, place, part, core) {
            return value;
        }
        pause(bench, part);
    }
    unreachable!()
}

/// Lets a while pass: until nobody holds the part, or else until others ran.
pub(crate) fn pause(bench: &Bench, part: usize)
    requires places { HasPlaces bench.now.table_id bench.now.key.cores bench.now.key.banks }
    requires part { part < bench.now.key.cores + bench.now.key.banks }
{
    let word = APART * part;
    for _ in 0..LOOKS {
        if bench.peek(word) == 0 {
            return;
        }
        hint::spin_loop();
    }
    thread::yield_now();
}

/// Gives back the part that was taken last, or turned to. What is published with it and what the
/// seat holds then, the caller names.
pub(crate) fn give<E: Ends>(bench: &Bench, place: &mut TableSeat, part: usize, value: TimedPart)
    requires table { place.old.table_id ≡ bench.now.table_id }
    requires places { HasPlaces bench.now.table_id bench.now.key.cores bench.now.key.banks }
    requires part { part < bench.now.key.cores + bench.now.key.banks }
    requires slot { (slots : List (ℕ × Option TimedPart)) × (place.old.me.1 ≡ (part, None) ∷ slots) }
    requires may { MayGive place.old.me.0 part value E.list E.left }
    ensures table { (place.new.table_id ≡ place.old.table_id) × (place.new.id ≡ place.old.id) }
    ensures gave { (slots : List (ℕ × Option TimedPart)) (log : CoreAccesses) → place.old.me.1 ≡ (part, None) ∷ slots → place.old.me.0.logs ≡ log ∷ []
        → place.new.me ≡ (given place.old.me.0 log E.list E.left, slots) }
{
    laws::machine_laws();
    bench.exchange(place, part, Some(value));
    bench.store::<Give<E>>(place, APART * part, 0);
}

/// Tells the core that holds a core's L1 that it is wanted, or that it is no longer. There are so
/// many parts.
pub(crate) fn set_wanted(
    bench: &Bench,
    place: &mut TableSeat,
    parts: usize,
    core: u16,
    wanted: bool,
)
    requires table { place.old.table_id ≡ bench.now.table_id }
    requires places { HasPlaces bench.now.table_id bench.now.key.cores bench.now.key.banks }
    requires parts { parts ≡ bench.now.key.cores + bench.now.key.banks }
    requires core { core < bench.now.key.cores }
    ensures table { (place.new.table_id ≡ place.old.table_id) × (place.new.id ≡ place.old.id) }
    ensures same { place.new.me ≡ place.old.me }
{
    bench.store::<Want>(place, want_word(parts, core), u64::from(wanted));
}

/// Whether a core's L1 is wanted. There are so many parts.
#[inline(always)]
pub(crate) fn is_wanted(bench: &Bench, parts: usize, core: u16) -> bool
    requires places { HasPlaces bench.now.table_id bench.now.key.cores bench.now.key.banks }
    requires parts { parts ≡ bench.now.key.cores + bench.now.key.banks }
    requires core { core < bench.now.key.cores }
{
    bench.peek(want_word(parts, core)) != 0
}

/// Lets a while pass: until the core that wants this core's L1 has taken it and so wants it no
/// longer, or else until others ran. Without it the core that gave it would mostly have it back
/// before the other sees that it is free. There are so many parts.
pub(crate) fn until_taken(bench: &Bench, parts: usize, core: u16)
    requires places { HasPlaces bench.now.table_id bench.now.key.cores bench.now.key.banks }
    requires parts { parts ≡ bench.now.key.cores + bench.now.key.banks }
    requires core { core < bench.now.key.cores }
{
    for _ in 0..LOOKS {
        if !is_wanted(bench, parts, core) {
            return;
        }
        hint::spin_loop();
    }
    thread::yield_now();
}

/// The word that tells that a core's L1 is wanted. There are so many parts.
fn want_word(parts: usize, core: u16) -> usize
    requires { parts < 2 ^ 32 }
    ensures { result ≡ 16 * (parts + core) }
{
    APART * (parts + usize::from(core))
}
