//! What holds between any two steps on the table.
//! Word 16 k is 0 where nobody holds part k, and c + 1 where core c does. Slot k is the part, and
//! None while it is held. Behind the words of the parts stands one for each core, which is not 0
//! where another core wants its L1. The factor keeps two words 128 bytes apart.
ghost use Rattle.std.specs.Prelude.{ℕ};

use crate::part::TimedPart;
use crate::view::View;
use atomic_table::{Seat, Shared, Table, TableRule};
use std::alloc::Global;
use std::snapshot::Snapshot;

/// What the table is told when it is made.
#[derive(Drop)]
pub struct Opening {
    pub parts: Snapshot<Vec<Option<TimedPart>>>,
    pub cores: u16,
    pub banks: u16,
    pub room: u32,
}

/// The rule of the words and the slots.
pub struct WordRule;

impl TableRule<Option<TimedPart>, View, Opening> for WordRule {
    ghost use Rattle.parts_table.specs.Views.{first_view};
    ghost use Rattle.parts_table.specs.Rule.{AreHoldsAtTable};

    ghost holds = { λ key s. AreHoldsAtTable key.parts.value.items key.cores key.banks key.room s };

    ghost first = { λ key. first_view key.parts.value.items key.cores key.banks key.room };
}

/// The words, with the seats of those who step.
pub type Words = Table<Option<TimedPart>, View, Opening, WordRule, Global>;

/// The part of the table that all seats share.
pub type Bench = Shared<Option<TimedPart>, View, Opening, WordRule>;

/// A seat at the table, by which a core steps.
pub type TableSeat = Seat<Option<TimedPart>, View>;
