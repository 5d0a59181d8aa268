//! What a core has at the table, at rest.
ghost use Rattle.std.specs.Prelude.{◌≡◌, ◌<◌, ◌≤◌, ◌^◌, [], ◌∷◌, map};
ghost use Rattle.parts_table.specs.TurnOrder.{key_of};
ghost use Rattle.parts_table.specs.Views.{new_log, next_seat, with_one_seat_more};

use crate::blocks::Blocks;
use crate::made_list::MadeList;
use crate::plays::Cut;
use crate::rule::{Bench, TableSeat};
use std::marker::Model;

/// What a core has at the table while it makes no access: it holds nothing, and all that it made is
/// published. Each core has one seat at a table.
#[derive(Drop)]
pub struct CoreSeat {
    pub(crate) place: TableSeat,
    pub(crate) core: u16,
    pub(crate) blocks: Blocks,
    pub(crate) made: MadeList,
}

impl Model for CoreSeat {
    ghost use Rattle.parts_table.specs.Access.{SeatState};
    ghost use Rattle.parts_table.specs.Rest.{IsAtRest};

    ghost Value = { SeatState };

    ghost view = { λ s. record { table = s.place.table_id; core = s.core; made = s.made.list; knows = s.place.me.0 } };

    ghost invariant = { λ s. IsAtRest s.place.me s.blocks s.made.list s.core };
}

impl CoreSeat {
    /// The seat of a core that has made no access.
    pub(crate) fn new(place: TableSeat, blocks: Blocks, core: u16) -> Self
        requires place { (place.me.1 ≡ []) × (place.me.0.holds ≡ []) × (place.me.0.logs ≡ new_log core ∷ []) }
        requires blocks { blocks ≡ record { keys = []; now = 1; made = 0; room = place.me.0.room } }
        requires counts { (core < place.me.0.cores) × (place.me.0.cores ≤ 256) × (place.me.0.banks < 2 ^ 16) × (place.me.0.room < 2 ^ 32) }
        ensures { result ≡ record { table = place.table_id; core = core; made = []; knows = place.me.0 } }
    {
        CoreSeat {
            place,
            core,
            blocks,
            made: MadeList::new(),
        }
    }

    /// The first seat makes that of the next core.
    pub(crate) fn next(&mut self, bench: &Bench, blocks: Blocks, core: u16) -> CoreSeat
        requires table { self.old.table ≡ bench.now.table_id }
        requires words { 0 < bench.now.table_id.words }
        requires counts { (0 < core) × (self.old.knows.made ≡ core) × (core < bench.now.key.cores) }
        requires cores { self.old.knows.cores ≡ bench.now.key.cores }
        requires blocks { blocks ≡ record { keys = []; now = 1; made = 0; room = self.old.knows.room } }
        ensures first { self.new ≡ record self.old { knows = with_one_seat_more self.old.knows } }
        ensures next { result ≡ record { table = self.old.table; core = core; made = []; knows = next_seat self.old.knows } }
    {
        CoreSeat {
            place: bench.split_seat::<Cut>(&mut self.place),
            core,
            blocks,
            made: MadeList::new(),
        }
    }

    /// The place at the table, and the keys of what the core made.
    pub(crate) fn into_place(self) -> (TableSeat, Blocks)
        ensures place { (result.0.table_id ≡ self.table) × (result.0.me ≡ (self.knows, [])) }
        ensures rest { (self.knows.holds ≡ []) × (self.knows.logs ≡ record { core = self.core; list = self.made } ∷ []) }
        ensures keys { result.1.keys ≡ map key_of self.made }
    {
        (self.place, self.blocks)
    }
}
