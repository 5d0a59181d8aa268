//! A core at work.
ghost use Rattle.std.specs.Prelude.{◌≡◌, ◌<◌, IfNone, IfSome, length};
ghost use Rattle.zs_num.specs.declared.entry.Outcome.TheVariants.{Hit};
ghost use Rattle.parts_table.specs.Access.{CanAsk, IsAccess, IsSameSeat, IsSeatOf};
ghost use Rattle.parts_table.specs.World.{world_of, MayAsk};

use crate::hold::{is_wanted, until_taken};
use crate::laws;
use crate::pause::Pause;
use crate::places::Places;
use crate::seat::CoreSeat;
use crate::station::Station;
use crate::table::PartsTable;
use std::marker::Model;
use std::sync::Wait;
use zs_num::{Cycle, Entry, Request};

/// A core's seat at a table, while the core works: it holds the core's own L1, and no other core
/// knows what it does with that alone.
#[derive(Drop)]
pub struct CoreTurn {
    pub(crate) station: Station,
    pub(crate) places: Places,
}

impl Model for CoreTurn {
    ghost use Rattle.parts_table.specs.Access.{SeatState};
    ghost use Rattle.parts_table.specs.Seats.{IsAtWork};
    ghost use Rattle.parts_table.specs.Stations.{desk_of, seat_of};

    ghost Value = { SeatState };

    ghost view = { λ t. seat_of t.station };

    ghost invariant = { λ t. IsAtWork (desk_of t.station) t.places };
}

impl CoreSeat {
    /// The number of the core.
    pub fn core(&self) -> u16
        ensures { result ≡ self.now.core }
    {
        self.core
    }

    /// The core begins to work, with these places, of which none is filled. It waits until no other
    /// core holds its L1.
    pub fn begin<R: Wait>(self, rt: &R, table: &PartsTable, mut places: Places) -> CoreTurn
        requires table { IsSeatOf table.now self }
        requires places { (length places.l1s ≡ table.now.cores) × (places.filled ≡ 0) }
        ensures same { IsSameSeat self result }
        ensures made { result.made ≡ self.made }
    {
        let mut station = Station {
            place: self.place,
            core: self.core,
            blocks: self.blocks,
            made: self.made,
        };
        station.take_own(rt, table, &mut places);
        CoreTurn { station, places }
    }
}

impl CoreTurn {
    /// Serves an access of the core that starts then, if the core's own L1 can serve it alone, which
    /// is a hit. None: nothing changes. What is compiled for `T`, any type, is compiled for the
    /// callers that name it.
    #[inline(always)]
    pub fn serve_alone<T>(&mut self, start: Cycle, request: Request) -> Option<Entry>
        requires room { length self.old.made < self.old.knows.room }
        requires ask { MayAsk self.old.knows.cores self.old.knows.banks (world_of self.old.knows.opening) self.old.core request }
        ensures access { IfSome result (λ e. IsAccess self.old self.new start request e) }
        ensures hit { IfSome result (λ e. e.outcome ≡ Hit) }
        ensures none { IfNone result (self.new ≡ self.old) }
    {
        laws::machine_laws();
        let core = self.station.core;
        let made = self.places.serve_alone::<T>(core, start, request)?;
        self.station.note(&made);
        Some(made.entry)
    }

    /// The number of the core.
    #[inline(always)]
    pub fn core(&self) -> u16
        ensures { result ≡ self.now.core }
    {
        self.station.core
    }

    /// Serves an access of the core that starts then. It waits until no other core holds what the
    /// access touches.
    pub fn serve<R: Wait>(
        &mut self,
        rt: &R,
        table: &PartsTable,
        start: Cycle,
        request: Request,
    ) -> Entry
        requires table { IsSeatOf table.now self.old }
        requires ask { CanAsk table.now self.old request }
        ensures access { IsAccess self.old self.new start request result }
    {
        if let Some(entry) = self.serve_alone::<Self>(start, request) {
            return entry;
        }
        self.serve_shared(rt, table, start, request)
    }

    #[inline(never)]
    fn serve_shared<R: Wait>(
        &mut self,
        rt: &R,
        table: &PartsTable,
        start: Cycle,
        request: Request,
    ) -> Entry
        requires table { IsSeatOf table.now self.old }
        requires ask { CanAsk table.now self.old request }
        ensures access { IsAccess self.old self.new start request result }
    {
        self.station
            .serve(rt, table, &mut self.places, start, request)
    }

    /// Whether another core wants this one's L1. It is a hint: whether and when it is told isn't said.
    #[inline(always)]
    pub fn is_wanted(&self, table: &PartsTable) -> bool
        requires { IsSeatOf table.now self.now }
    {
        is_wanted(&table.words.shared, table.parts(), self.station.core)
    }

    /// Gives the core's own L1 to another core that wants it, if one does, and takes it back.
    #[inline(always)]
    pub fn give_way<R: Wait>(&mut self, rt: &R, table: &PartsTable)
        requires table { IsSeatOf table.now self.old }
        ensures same { IsSameSeat self.old self.new }
        ensures made { self.new.made ≡ self.old.made }
    {
        if self.is_wanted(table) {
            self.let_pass(rt, table);
        }
    }

    /// Gives the core's own L1, and takes it back when the core that wants it had it.
    #[inline(never)]
    fn let_pass<R: Wait>(&mut self, rt: &R, table: &PartsTable)
        requires table { IsSeatOf table.now self.old }
        ensures same { IsSameSeat self.old self.new }
        ensures made { self.new.made ≡ self.old.made }
    {
        self.station.give_own(table, &mut self.places);
        until_taken(&table.words.shared, table.parts(), self.station.core);
        self.station.take_own(rt, table, &mut self.places);
    }

    /// Pauses before an access. The core holds nothing then: it gives its own L1, and takes it back.
    #[inline(never)]
    pub fn pause<R: Wait, P: Pause>(&mut self, rt: &R, table: &PartsTable, pause: &P)
        requires table { IsSeatOf table.now self.old }
        ensures same { IsSameSeat self.old self.new }
        ensures made { self.new.made ≡ self.old.made }
    {
        self.station.give_own(table, &mut self.places);
        pause.pause();
        self.station.take_own(rt, table, &mut self.places);
    }

    /// The core ends its work. The places come back, none of them filled.
    pub fn end(self, table: &PartsTable) -> (CoreSeat, Places)
        requires table { IsSeatOf table.now self }
        ensures same { IsSameSeat self result.0 }
        ensures made { result.0.made ≡ self.made }
        ensures places { (length result.1.l1s ≡ table.now.cores) × (result.1.filled ≡ 0) }
    {
        let CoreTurn {
            mut station,
            mut places,
        } = self;
        station.give_own(table, &mut places);
        let Station {
            place,
            core,
            blocks,
            made,
        } = station;
        let seat = CoreSeat {
            place,
            core,
            blocks,
            made,
        };
        (seat, places)
    }
}
