//! What each step on a word tells the seat that makes it.
ghost use Rattle.crossing.specs.Rule.{TellsFirstSeat, Wrote, Found, with_one_more, seat_of_next_domain};

use crate::view::View;
use atomic_table::{Play, Split};
use std::marker::{Brand, PhantomData};

/// The finishes and the sources that the words are made for. No byte of them is computed: they are
/// picked where the words are made.
pub(crate) trait Finishes {
    ghost use Rattle.std.specs.Prelude.{ℕ, List};

    ghost finishes: { List ℕ };

    ghost sources: { List ℕ };
}

impl Finishes for Brand {
    ghost use Rattle.std.specs.Prelude.{[]};

    ghost finishes = { [] };

    ghost sources = { [] };
}

/// The first step: it tells the first seat the finishes and the sources.
pub(crate) struct Say<F> {
    of: PhantomData<F>,
}

impl<F: Finishes> Play<(), View> for Say<F> {
    ghost then = { TellsFirstSeat F.finishes F.sources };
}

/// The owner writes a word.
pub(crate) struct Write;

impl Play<(), View> for Write {
    ghost then = { Wrote };
}

/// A seat reads a word.
pub(crate) struct Find;

impl Play<(), View> for Find {
    ghost then = { Found };
}

/// The next domain gets its seat.
pub(crate) struct NextSeat;

impl Split<View> for NextSeat {
    ghost left = { with_one_more };

    ghost right = { seat_of_next_domain };
}
