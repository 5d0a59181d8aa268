//! Why the turns of a list are no interval.
ghost use Rattle.std.specs.Prelude.{◌≡◌};
ghost use Rattle.bound_records.specs.declared.turns_fail.TurnsFail.TheVariants as turns_fail;

use zs_num::NoMemory;

/// Why the turns of a list are no interval.
#[derive(Clone, Copy)]
pub enum TurnsFail {
    /// The first place of the list that is not legal, from 0 on: its core has no access there before
    /// it ends its interval; or it is the list's length, and a core still has one.
    Illegal { place: u32 },
    NoMemory,
}

impl From<NoMemory> for TurnsFail {
    ghost from_gives = { λ _ e. e ≡ turns_fail.NoMemory };

    fn from(_: NoMemory) -> Self {
        TurnsFail::NoMemory
    }
}
