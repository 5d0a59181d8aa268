//! What a core has at the table while it works, and how it takes and gives L1s.
ghost use Rattle.std.specs.Prelude.{◌≡◌, ◌+◌, ◌*◌, ◌<◌, ◌≤◌, ◌^◌, [], ◌∷◌, ◌++◌, List, ℕ, false, true, length};
ghost use Rattle.parts_table.specs.declared.part.TimedPart.{TimedPart};
ghost use Rattle.parts_table.specs.declared.view.CoreAccesses.{CoreAccesses};
ghost use Rattle.parts_table.specs.declared.view.Made.{Made};
ghost use Rattle.parts_table.specs.Access.{IsSameSeat, IsSeatOf};
ghost use Rattle.parts_table.specs.Places.{in_place, time_at};
ghost use Rattle.parts_table.specs.Seats.{slot_of, HasParts, IsAtWork, IsResting};
ghost use Rattle.parts_table.specs.Steps.{IsTaken};
ghost use Rattle.parts_table.specs.TurnOrder.{key_of};
ghost use Rattle.parts_table.specs.Views.{holding};
ghost use Rattle.parts_table.specs.Stations.{desk_of, seat_of, HasTakenL1, IsSameStation};
ghost use Rattle.parts_table.specs.World.{no_part};

use crate::blocks::Blocks;
use crate::hold::{pause, set_wanted, try_take};
use crate::laws;
use crate::made_list::MadeList;
use crate::part::TimedPart;
use crate::places::Places;
use crate::publish::{give_back, give_beside};
use crate::rule::TableSeat;
use crate::table::PartsTable;
use crate::view::Made;
use std::marker::Brand;
use std::sync::Wait;

/// A core's seat at the table, its number, and its accesses: of these their keys alone are kept.
#[derive(Drop)]
pub(crate) struct Station {
    pub place: TableSeat,
    pub core: u16,
    pub blocks: Blocks,
    pub made: MadeList,
}

impl Station {
    /// Takes the L1 of a core into its place, behind all else that the seat holds. It waits until no
    /// other core holds it, and tells that core so.
    pub(crate) fn take_l1<R: Wait>(
        &mut self,
        rt: &R,
        table: &PartsTable,
        places: &mut Places,
        core: u16,
    )
        requires at { IsSeatOf table.now (seat_of self.old) }
        requires own { (log : CoreAccesses) × (self.old.place.me.0.logs ≡ log ∷ []) × (log.core ≡ self.old.core) }
        requires core { core < table.now.cores }
        requires count { length places.old.l1s ≡ table.now.cores }
        requires room { places.old.filled < 256 }
        ensures took { HasTakenL1 self.old places.old core self.new places.new }
        ensures same { IsSameStation self.old self.new }
        ensures blocks { self.new.blocks ≡ self.old.blocks }
    {
        let part = wait_for(rt, table, &mut self.place, self.core, core);
        places.put(core, part);
        self.place.turn();
    }

    /// Gives back the L1 of a core, which is the first that the seat holds.
    pub(crate) fn give_l1(&mut self, table: &PartsTable, places: &mut Places, core: u16)
        requires at { IsSeatOf table.now (seat_of self.old) }
        requires has { (rest : List ℕ) × (done : List Made) × (list : List Made) × HasParts (desk_of self.old) places.old no_part [] (core ∷ rest) done list }
        ensures left { (rest : List ℕ) (done list : List Made) → HasParts (desk_of self.old) places.old no_part [] (core ∷ rest) done list
            → HasParts (desk_of self.new) places.new no_part [] rest self.old.made.list [] }
        ensures same { IsSameStation self.old self.new }
        ensures blocks { self.new.blocks ≡ self.old.blocks }
    {
        laws::machine_laws();
        let part = places.take_out(core);
        let bench = &table.words.shared;
        let number = usize::from(core);
        give_back::<Brand>(bench, &mut self.place, places, &self.made, number, part);
    }

    /// Gives back the core's own L1, while the seat holds a home.
    pub(crate) fn give_own_beside(
        &mut self,
        table: &PartsTable,
        places: &mut Places,
        number: usize,
        home: &TimedPart,
    )
        requires at { IsSeatOf table.now (seat_of self.old) }
        requires has { (done : List Made) × (list : List Made) × HasParts (desk_of self.old) places.old home.now (number ∷ []) (self.old.core ∷ []) done list }
        ensures left { HasParts (desk_of self.new) places.new home.now (number ∷ []) [] self.old.made.list [] }
        ensures same { IsSameStation self.old self.new }
        ensures blocks { self.new.blocks ≡ self.old.blocks }
    {
        laws::machine_laws();
        self.place.turn();
        let part = places.take_out(self.core);
        let bench = &table.words.shared;
        let own = usize::from(self.core);
        give_beside::<Brand>(bench, &mut self.place, places, &self.made, own, part, home);
    }

    /// The core begins to work: it takes its own L1.
    pub(crate) fn take_own<R: Wait>(&mut self, rt: &R, table: &PartsTable, places: &mut Places)
        requires at { IsSeatOf table.now (seat_of self.old) }
        requires rest { IsResting (desk_of self.old) }
        requires places { (length places.old.l1s ≡ table.now.cores) × (places.old.filled ≡ 0) }
        ensures work { IsAtWork (desk_of self.new) places.new }
        ensures same { IsSameStation self.old self.new }
    {
        let core = self.core;
        self.take_l1(rt, table, places, core);
    }

    /// The core ends its work: it gives its own L1 back.
    pub(crate) fn give_own(&mut self, table: &PartsTable, places: &mut Places)
        requires at { IsSeatOf table.now (seat_of self.old) }
        requires work { IsAtWork (desk_of self.old) places.old }
        ensures rest { IsResting (desk_of self.new) }
        ensures same { IsSameStation self.old self.new }
        ensures places { (length places.new.l1s ≡ table.now.cores) × (places.new.filled ≡ 0) }
    {
        let core = self.core;
        self.give_l1(table, places, core);
    }
}

impl Station {
    /// Adds an access that the core made.
    #[inline(always)]
    pub(crate) fn note(&mut self, made: &Made)
        requires room { self.old.blocks.made < self.old.blocks.room }
        requires alone { made.now.shared ≡ false → self.old.blocks.now ≤ 2 * made.now.time + 1 }
        requires shared { made.now.shared ≡ true → self.old.blocks.now < 2 * made.now.time }
        requires low { made.now.time < 2 ^ 54 }
        ensures made { self.new.made.list ≡ self.old.made.list ++ made.now ∷ [] }
        ensures blocks { self.new.blocks ≡ record self.old.blocks { keys = self.old.blocks.keys ++ key_of made.now ∷ []; now = 2 * made.now.time + 1; made = self.old.blocks.made + 1 } }
        ensures place { (self.new.place ≡ self.old.place) × (self.new.core ≡ self.old.core) }
    {
        if made.shared {
            self.blocks.put_shared(made.time);
        } else {
            self.blocks.begin(made.time);
            self.blocks.put_alone();
        }
        self.made = self.made.then(made);
    }
}

/// Takes the L1 of a core for another, or for that core itself.
fn wait_for<R: Wait>(
    rt: &R,
    table: &PartsTable,
    place: &mut TableSeat,
    own: u16,
    core: u16,
) -> TimedPart
    requires at { place.old.table_id ≡ table.now.table }
    requires own { (log : CoreAccesses) × (place.old.me.0.logs ≡ log ∷ []) × (log.core ≡ own) }
    requires core { core < table.now.cores }
    ensures table { place.new.table_id ≡ place.old.table_id }
    ensures me { place.new.me ≡ (holding place.old.me.0 core result, slot_of core ∷ place.old.me.1) }
    ensures taken { IsTaken place.old.me.0 core result }
{
    let bench = &table.words.shared;
    let part = usize::from(core);
    if let Some(value) = try_take(bench, place, part, own) {
        return value;
    }
    for _ in rt.forever() {
        set_wanted(bench, place, table.parts(), core, true);
        pause(bench, part);
        if let Some(value) = try_take(bench, place, part, own) {
            set_wanted(bench, place, table.parts(), core, false);
            return value;
        }
    }
    unreachable!()
}
