//! An access that touches more than its core's own L1.
ghost use Rattle.std.specs.Prelude.{◌≡◌, ◌+◌, ◌<◌, ◌^◌, [], ◌∷◌, ℕ, if◌then◌else◌, length};
ghost use Rattle.mesi_dir.specs.CoreSets.{cores_in};
ghost use Rattle.zs_num.specs.Request.{bank_of};
ghost use Rattle.parts_table.specs.declared.part.Part.{Part};
ghost use Rattle.parts_table.specs.Access.{CanAsk, IsAccess, IsSeatOf};
ghost use Rattle.home.specs.HomeState.{HomeState};
ghost use Rattle.parts_table.specs.Places.{is_in, time_at};
ghost use Rattle.parts_table.specs.Rest.{ArePast};
ghost use Rattle.parts_table.specs.Seats.{hand_of, AreTouched, CanServe, HasHomeBeside, HasParts, IsAtWork, IsResting, IsTimely};
ghost use Rattle.parts_table.specs.Stations.{desk_of, seat_of, IsSameStation};
ghost use Rattle.parts_table.specs.World.{no_part};

use crate::hold::{take, try_take};
use crate::laws;
use crate::part::{Part, TimedPart};
use crate::places::Places;
use crate::publish::give_back;
use crate::station::Station;
use crate::table::PartsTable;
use crate::view::Made;
use home::Home;
use mesi_dir::CoreSet;
use shard::others_touched;
use std::marker::Brand;
use std::sync::Wait;
use zs_num::{Cycle, Entry, Request};

impl Station {
    /// Serves an access that the core's own L1 doesn't serve alone. If nobody holds the home and no
    /// other L1 is touched, the core keeps its own.
    pub(crate) fn serve<R: Wait>(
        &mut self,
        rt: &R,
        table: &PartsTable,
        places: &mut Places,
        start: Cycle,
        request: Request,
    ) -> Entry
        requires at { IsSeatOf table.now (seat_of self.old) }
        requires ask { CanAsk table.now (seat_of self.old) request }
        requires work { IsAtWork (desk_of self.old) places.old }
        ensures work { IsAtWork (desk_of self.new) places.new }
        ensures access { IsAccess (seat_of self.old) (seat_of self.new) start request result }
    {
        laws::machine_laws();
        let number = table.home_number(request);
        let bench = &table.words.shared;
        match try_take(bench, &mut self.place, number, self.core) {
            Some(home) => self.serve_at_once(rt, table, places, number, home, start, request),
            None => {
                self.give_own(table, places);
                self.serve_at_rest(rt, table, places, number, start, request)
            }
        }
    }

    /// Serves it from rest: the core waits for the home.
    fn serve_at_rest<R: Wait>(
        &mut self,
        rt: &R,
        table: &PartsTable,
        places: &mut Places,
        number: usize,
        start: Cycle,
        request: Request,
    ) -> Entry
        requires at { IsSeatOf table.now (seat_of self.old) }
        requires ask { CanAsk table.now (seat_of self.old) request }
        requires number { number ≡ table.now.cores + bank_of table.now.banks request }
        requires rest { IsResting (desk_of self.old) }
        requires places { (length places.old.l1s ≡ table.now.cores) × (places.old.filled ≡ 0) }
        ensures work { IsAtWork (desk_of self.new) places.new }
        ensures access { IsAccess (seat_of self.old) (seat_of self.new) start request result }
    {
        let bench = &table.words.shared;
        let home = take(rt, bench, &mut self.place, number, self.core);
        let cores = cores_touched(table, &home, self.core, request);
        self.serve_by_all(rt, table, places, number, home, cores, start, request)
    }

    /// Serves it by a home that was free at once.
    fn serve_at_once<R: Wait>(
        &mut self,
        rt: &R,
        table: &PartsTable,
        places: &mut Places,
        number: usize,
        home: TimedPart,
        start: Cycle,
        request: Request,
    ) -> Entry
        requires at { IsSeatOf table.now (seat_of self.old) }
        requires ask { CanAsk table.now (seat_of self.old) request }
        requires number { number ≡ table.now.cores + bank_of table.now.banks request }
        requires has { HasHomeBeside (desk_of self.old) places.old number home }
        ensures work { IsAtWork (desk_of self.new) places.new }
        ensures access { IsAccess (seat_of self.old) (seat_of self.new) start request result }
    {
        let cores = cores_touched(table, &home, self.core, request);
        let shared = cores.any_other(self.core);
        if shared {
            self.serve_by_others(rt, table, places, number, home, cores, start, request)
        } else {
            self.serve_kept(table, places, number, home, start, request)
        }
    }

    /// Serves it by a home and the core's own L1 alone, which the core keeps.
    fn serve_kept(
        &mut self,
        table: &PartsTable,
        places: &mut Places,
        number: usize,
        home: TimedPart,
        start: Cycle,
        request: Request,
    ) -> Entry
        requires at { IsSeatOf table.now (seat_of self.old) }
        requires ask { CanAsk table.now (seat_of self.old) request }
        requires number { number ≡ table.now.cores + bank_of table.now.banks request }
        requires touched { (state : HomeState) → home.part ≡ Part.Home state → AreTouched table.now.cores state self.old.core request (self.old.core ∷ []) }
        requires has { HasHomeBeside (desk_of self.old) places.old number home }
        ensures work { IsAtWork (desk_of self.new) places.new }
        ensures access { IsAccess (seat_of self.old) (seat_of self.new) start request result }
    {
        let own = CoreSet::of(self.core);
        self.serve_held(table, places, number, home, own, start, request)
    }

    /// Serves it by a home and L1s of others: the core gives its own L1 first, to take it in order.
    fn serve_by_others<R: Wait>(
        &mut self,
        rt: &R,
        table: &PartsTable,
        places: &mut Places,
        number: usize,
        home: TimedPart,
        cores: CoreSet,
        start: Cycle,
        request: Request,
    ) -> Entry
        requires at { IsSeatOf table.now (seat_of self.old) }
        requires ask { CanAsk table.now (seat_of self.old) request }
        requires number { number ≡ table.now.cores + bank_of table.now.banks request }
        requires touched { (state : HomeState) → home.part ≡ Part.Home state → AreTouched table.now.cores state self.old.core request (cores_in cores.words) }
        requires own { is_in (cores_in cores.words) self.old.core }
        requires known { (c : ℕ) → is_in (cores_in cores.words) c → c < table.now.cores }
        requires has { HasHomeBeside (desk_of self.old) places.old number home }
        ensures work { IsAtWork (desk_of self.new) places.new }
        ensures access { IsAccess (seat_of self.old) (seat_of self.new) start request result }
    {
        self.give_own_beside(table, places, number, &home);
        self.serve_by_all(rt, table, places, number, home, cores, start, request)
    }

    /// Serves it by a home and the L1s that it touches, which are taken in the order of their cores,
    /// the own one among them: so no two cores wait for one another.
    fn serve_by_all<R: Wait>(
        &mut self,
        rt: &R,
        table: &PartsTable,
        places: &mut Places,
        number: usize,
        home: TimedPart,
        cores: CoreSet,
        start: Cycle,
        request: Request,
    ) -> Entry
        requires at { IsSeatOf table.now (seat_of self.old) }
        requires ask { CanAsk table.now (seat_of self.old) request }
        requires number { number ≡ table.now.cores + bank_of table.now.banks request }
        requires touched { (state : HomeState) → home.part ≡ Part.Home state → AreTouched table.now.cores state self.old.core request (cores_in cores.words) }
        requires own { is_in (cores_in cores.words) self.old.core }
        requires known { (c : ℕ) → is_in (cores_in cores.words) c → c < table.now.cores }
        requires has { HasParts (desk_of self.old) places.old home (number ∷ []) [] self.old.made.list [] }
        requires timely { IsTimely (desk_of self.old) (hand_of table.now.cores places.old home) }
        ensures work { IsAtWork (desk_of self.new) places.new }
        ensures access { IsAccess (seat_of self.old) (seat_of self.new) start request result }
    {
        self.take_l1s(rt, table, places, number, &home, cores);
        let entry = self.serve_held(table, places, number, home, cores, start, request);
        self.give_l1s(table, places, cores);
        self.take_own(rt, table, places);
        entry
    }

    /// Serves it by what the seat holds, and gives the home back.
    fn serve_held(
        &mut self,
        table: &PartsTable,
        places: &mut Places,
        number: usize,
        home: TimedPart,
        cores: CoreSet,
        start: Cycle,
        request: Request,
    ) -> Entry
        requires at { IsSeatOf table.now (seat_of self.old) }
        requires can { CanServe (desk_of self.old) places.old number home (cores_in cores.words) request }
        ensures has { HasParts (desk_of self.new) places.new no_part [] (cores_in cores.words) self.new.made.list [] }
        ensures past { ArePast self.new.made.list (time_at places.new self.new.core) }
        ensures low { time_at places.new self.new.core < 2 ^ 54 }
        ensures access { IsAccess (seat_of self.old) (seat_of self.new) start request result }
    {
        laws::machine_laws();
        let (time, mut home) = home_of(home);
        let made = places.serve(&mut home, time, cores, self.core, start, request);
        self.note(&made);
        let part = home_after(home, time, &made);
        let bench = &table.words.shared;
        give_back::<Brand>(bench, &mut self.place, places, &self.made, number, part);
        made.entry
    }

    /// Takes the L1s of these cores, in the order of the cores. The seat holds that home.
    fn take_l1s<R: Wait>(
        &mut self,
        rt: &R,
        table: &PartsTable,
        places: &mut Places,
        _number: usize,
        _home: &TimedPart,
        cores: CoreSet,
    )
        requires at { IsSeatOf table.now (seat_of self.old) }
        requires has { HasParts (desk_of self.old) places.old _home.now (_number ∷ []) [] self.old.made.list [] }
        requires timely { IsTimely (desk_of self.old) (hand_of table.now.cores places.old _home.now) }
        requires known { (c : ℕ) → is_in (cores_in cores.words) c → c < table.now.cores }
        ensures has { HasParts (desk_of self.new) places.new _home.now (_number ∷ []) (cores_in cores.words) self.old.made.list [] }
        ensures timely { IsTimely (desk_of self.new) (hand_of table.now.cores places.new _home.now) }
        ensures same { IsSameStation self.old self.new }
        ensures blocks { self.new.blocks ≡ self.old.blocks }
    {
        laws::machine_laws();
        let mut left = cores;
        while let Some(core) = left.take_first() {
            self.take_l1(rt, table, places, core);
        }
    }

    /// Gives the L1s of these cores back, which are all that the seat holds.
    fn give_l1s(&mut self, table: &PartsTable, places: &mut Places, cores: CoreSet)
        requires at { IsSeatOf table.now (seat_of self.old) }
        requires has { HasParts (desk_of self.old) places.old no_part [] (cores_in cores.words) self.old.made.list [] }
        ensures rest { IsResting (desk_of self.new) }
        ensures same { IsSameStation self.old self.new }
        ensures places { (length places.new.l1s ≡ table.now.cores) × (places.new.filled ≡ 0) }
    {
        let mut left = cores;
        while let Some(core) = left.take_first() {
            self.give_l1(table, places, core);
        }
    }
}

/// The home of a part that is one, and its time.
fn home_of(part: TimedPart) -> (u64, Home)
    requires { (home : HomeState) × (part.part ≡ Part.Home home) }
    ensures { part ≡ record { time = result.0; part = Part.Home result.1 } }
{
    let TimedPart { time, part } = part;
    let Part::Home(home) = part else {
        unreachable!();
    };
    (time, home)
}

/// A home after an access: it has the access's time, if the access touched it.
fn home_after(home: Home, time: u64, made: &Made) -> TimedPart
    ensures { result ≡ record { time = if made.now.shared then made.now.time else time; part = Part.Home home } }
{
    TimedPart {
        time: if made.shared { made.time } else { time },
        part: Part::Home(home),
    }
}

/// The core, and the others whose L1s an access touches that its own L1 doesn't serve alone.
fn cores_touched(table: &PartsTable, home: &TimedPart, core: u16, request: Request) -> CoreSet
    requires core { (core < table.now.cores) × (core < 256) }
    ensures touched { (state : HomeState) → home.now.part ≡ Part.Home state → AreTouched table.now.cores state core request (cores_in result.words) }
    ensures own { is_in (cores_in result.words) core }
    ensures known { (c : ℕ) → is_in (cores_in result.words) c → c < table.now.cores }
{
    let mut cores = CoreSet::of(core);
    let Part::Home(home) = &home.part else {
        return cores;
    };
    let mut others = others_touched(home, core, request);
    while let Some(other) = others.take_first() {
        if other < table.cores {
            cores.add(other);
        }
    }
    cores
}
