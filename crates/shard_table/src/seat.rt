//! What a core serves its accesses with.
ghost use Rattle.std.specs.Prelude.{◌≡◌, ◌<◌, []};
ghost use Rattle.shard_table.specs.Views.{next_seat, with_one_seat_more};

use crate::plays::Cut;
use crate::rule::{Bench, TableSeat};
use access_log::CoreLog;
use std::marker::Model;
use zs_num::{Entry, Stamp};

/// What a core serves its accesses with, and the accesses that it served. Each core has one seat at
/// a table.
#[derive(Drop)]
pub struct CoreSeat {
    pub(crate) place: TableSeat,
    pub(crate) log: CoreLog,
    pub(crate) last: Stamp,
    pub(crate) core: u16,
}

impl Model for CoreSeat {
    ghost use Rattle.shard_table.specs.Access.{SeatState};
    ghost use Rattle.shard_table.specs.Seats.{IsSeat};

    ghost Value = { SeatState };

    ghost view = { λ s. record { table = s.place.table_id; core = s.core; entries = s.log.entries; knows = s.place.me.0 } };

    ghost invariant = { λ s. IsSeat s.place.me s.log s.last s.core };
}

/// Another core holds the shard.
#[derive(Clone, Copy, Debug)]
pub struct Held {
    /// The number of that core.
    pub holder: u16,
}

impl CoreSeat {
    /// The first seat makes that of the next core.
    pub(crate) fn next(&mut self, bench: &Bench, log: CoreLog, core: u16) -> CoreSeat
        requires table { self.old.table ≡ bench.now.table_id }
        requires words { 0 < bench.now.table_id.words }
        requires counts { (0 < core) × (self.old.knows.made ≡ core) × (core < bench.now.key.cores) }
        requires opening { self.old.knows.cores ≡ bench.now.key.cores }
        requires log { log ≡ record { entries = []; room = self.old.knows.room } }
        ensures first { self.new ≡ record self.old { knows = with_one_seat_more self.old.knows } }
        ensures next { result ≡ record { table = self.old.table; core = core; entries = []; knows = next_seat self.old.knows } }
    {
        CoreSeat {
            place: bench.split_seat::<Cut>(&mut self.place),
            log,
            last: 0,
            core,
        }
    }

    /// The accesses of the core at this table, in its order, each once.
    pub fn entries(&self) -> &[Entry]
        ensures { result.now ≡ self.now.entries }
    {
        self.log.entries()
    }

    /// The number of the core.
    pub fn core(&self) -> u16
        ensures { result ≡ self.now.core }
    {
        self.core
    }
}
