//! What each step on the table tells.
ghost use Rattle.std.specs.Prelude.{List};
ghost use Rattle.parts_table.specs.declared.view.Hold.{Hold};
ghost use Rattle.parts_table.specs.declared.view.Made.{Made};
ghost use Rattle.parts_table.specs.Steps.{gave, same, taken};
ghost use Rattle.parts_table.specs.Views.{both, next_seat, spent, with_one_seat_more};

use crate::part::TimedPart;
use crate::view::View;
use atomic_table::{Join, Play, Split};
use std::marker::{Brand, PhantomData};

/// A part is taken, or found to be held by another.
pub(crate) struct Take;

impl Play<Option<TimedPart>, View> for Take {
    ghost then = { taken };
}

/// What is published as a part is given back, and what the seat holds then, for the proof alone. A
/// call at `Brand` picks both.
pub(crate) trait Ends {
    ghost list: { List Made };

    ghost left: { List Hold };
}

impl Ends for Brand {
    ghost use Rattle.std.specs.Prelude.{[]};

    ghost list = { [] };

    ghost left = { [] };
}

/// A part is given back.
pub(crate) struct Give<E> {
    ends: PhantomData<E>,
}

impl<E: Ends> Play<Option<TimedPart>, View> for Give<E> {
    ghost then = { gave E.list E.left };
}

/// Another core's L1 is wanted, or no longer.
pub(crate) struct Want;

impl Play<Option<TimedPart>, View> for Want {
    ghost then = { same };
}

/// The first seat makes the next.
pub(crate) struct Cut;

impl Split<View> for Cut {
    ghost left = { with_one_seat_more };

    ghost right = { next_seat };
}

/// A seat takes in another.
pub(crate) struct Glue;

impl Join<View> for Glue {
    ghost both = { both };

    ghost spent = { spent };
}
