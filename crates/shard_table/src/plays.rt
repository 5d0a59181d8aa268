//! What each step on the table tells.
ghost use Rattle.zs_num.specs.declared.entry.Entry.{Entry};
ghost use Rattle.shard_table.specs.Steps.{gave, taken};
ghost use Rattle.shard_table.specs.Views.{both, next_seat, spent, with_one_seat_more};

use crate::view::View;
use atomic_table::{Join, Play, Split};
use shard::Shard;
use std::marker::{Brand, PhantomData};

/// A shard is taken, or found to be held by another.
pub(crate) struct Take;

impl Play<Shard, View> for Take {
    ghost then = { taken };
}

/// The entry with which a hold ends, for the proof alone. A call at `Brand` picks it.
pub(crate) trait Ends {
    ghost entry: { Entry };
}

impl Ends for Brand {
    ghost use Rattle.shard_table.specs.Steps.{any_entry};

    ghost entry = { any_entry };
}

/// A hold ends with an entry.
pub(crate) struct Give<E> {
    entry: PhantomData<E>,
}

impl<E: Ends> Play<Shard, View> for Give<E> {
    ghost then = { gave E.entry };
}

/// The first seat makes the next.
pub(crate) struct Cut;

impl Split<View> for Cut {
    ghost left = { with_one_seat_more };

    ghost right = { next_seat };
}

/// A seat takes in another.
pub(crate) struct Glue;

impl Join<View> for Glue {
    ghost both = { both };

    ghost spent = { spent };
}
