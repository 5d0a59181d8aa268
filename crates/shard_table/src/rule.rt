//! What holds between any two steps on the table.
//! Word 16 s is 0 where nobody holds shard s, and c + 1 where core c does. Slot s is the
//! shard. The factor keeps the words of two shards 128 bytes apart.
ghost use Rattle.std.specs.Prelude.{ℕ};

use crate::view::View;
use atomic_table::{Seat, Shared, Table, TableRule};
use shard::Shard;
use std::alloc::Global;
use std::snapshot::Snapshot;

/// What the table is told when it is made.
#[derive(Drop)]
pub struct Opening {
    pub shards: Snapshot<Vec<Shard>>,
    pub cores: u16,
    pub room: u32,
}

/// The rule of the words and the slots.
pub struct WordRule;

impl TableRule<Shard, View, Opening> for WordRule {
    ghost use Rattle.shard_table.specs.Views.{first_view};
    ghost use Rattle.shard_table.specs.Rule.{AreHoldsAtTable};

    ghost holds = { λ key s. AreHoldsAtTable key.shards.value.items key.cores key.room s };

    ghost first = { λ key. first_view key.shards.value.items key.cores key.room };
}

/// The words, with the seats of those who step.
pub type Words = Table<Shard, View, Opening, WordRule, Global>;

/// The part of the table that all seats share.
pub type Bench = Shared<Shard, View, Opening, WordRule>;

/// A seat at the table, by which a core steps.
pub type TableSeat = Seat<Shard, View>;
