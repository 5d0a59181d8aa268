//! A table of homes and L1s, and its two cores at rest, which come to work for one access.
ghost use Rattle.std.specs.Prelude.{◌≡◌, ◌+◌, ◌<◌, ◌∷◌, All, [], IfNone, IfOk, IfSome, false, length};
ghost use Rattle.parts_table.specs.Access.{AreNewSeats};
ghost use Rattle.parts_table.specs.NextKeys.{number_of_keys};
ghost use Rattle.table_tests.specs.PartsTested.{IsOneShard, IsPartsTested, IsResting};
ghost use Rattle.zs_num.specs.Servable.{IsServable};

use crate::given::{ECALL, image_of, machine};
use parts_table::{Blocks, CoreSeat, PartsTable, Places};
use shard::Parts;
use std::alloc::Global;
use std::sync::Wait;
use std::test::Fail;
use zs_num::{Entry, NoMemory, Request};

/// How many accesses a core can make.
const ROOM: u32 = 2001;

/// A core at rest, and places for when it works.
#[derive(Drop)]
pub(crate) struct Resting {
    pub(crate) seat: CoreSeat,
    pub(crate) places: Places,
}

/// The homes and L1s of a machine of two cores and one bank.
fn new_parts(alloc: Global) -> Result<Parts, Fail>
    ensures { IfOk result IsOneShard }
{
    let machine = machine(alloc, 2, 1)?;
    let image = image_of(alloc, &machine, &ECALL)?;
    let parts = Parts::new(alloc, &machine, &image)?;
    Ok(parts)
}

/// Room for the keys of both cores.
fn new_blocks(alloc: Global) -> Result<Vec<Blocks>, NoMemory>
    ensures count { IfOk result (λ blocks. length blocks.items ≡ 2) }
    ensures room { IfOk result (λ blocks. All (λ b. b.room ≡ 2001) blocks.items) }
{
    let mut blocks = Vec::new(alloc);
    blocks.push(Blocks::with_room(alloc, ROOM)?)?;
    blocks.push(Blocks::with_room(alloc, ROOM)?)?;
    Ok(blocks)
}

/// The two seats of a list.
fn both(mut seats: Vec<CoreSeat>) -> (CoreSeat, CoreSeat)
    requires { length seats.items ≡ 2 }
    ensures { seats.items ≡ result.0 ∷ result.1 ∷ [] }
{
    let first = seats.remove(0);
    let second = seats.remove(0);
    (first, second)
}

/// A new table.
fn new_table(alloc: Global) -> Result<(PartsTable, Vec<CoreSeat>), Fail>
    ensures table { IfOk result (λ made. IsPartsTested made.0) }
    ensures seats { IfOk result (λ made. AreNewSeats made.0 made.1.items) }
{
    let parts = new_parts(alloc)?;
    let blocks = new_blocks(alloc)?;
    match PartsTable::make(alloc, parts, ROOM, blocks) {
        Ok(made) => Ok(made),
        Err(_) => Err(NoMemory.into()),
    }
}

/// A new table, and core 0 and core 1.
pub(crate) fn fresh(alloc: Global) -> Result<(PartsTable, Resting, Resting), Fail>
    ensures table { IfOk result (λ made. IsPartsTested made.0) }
    ensures first { IfOk result (λ made. IsResting 0 0 made.0 made.1.seat made.1.places) }
    ensures second { IfOk result (λ made. IsResting 1 0 made.0 made.2.seat made.2.places) }
{
    let (table, seats) = new_table(alloc)?;
    let (first, second) = both(seats);
    let first = Resting {
        seat: first,
        places: Places::new(alloc, 2)?,
    };
    let second = Resting {
        seat: second,
        places: Places::new(alloc, 2)?,
    };
    Ok((table, first, second))
}

/// The entry of an access of a core.
pub(crate) fn asks<R: Wait>(
    rt: &R,
    table: &PartsTable,
    core: Resting,
    request: Request,
) -> (Resting, Entry)
    requires table { IsPartsTested table.now }
    requires core { IsResting core.seat.core (length core.seat.made) table.now core.seat core.places }
    requires room { length core.seat.made < 2001 }
    requires can { IsServable 65536 1048576 false request }
    ensures { IsResting core.seat.core (length core.seat.made + 1) table.now result.0.seat result.0.places }
{
    table.may_ask();
    let mut turn = core.seat.begin(rt, table, core.places);
    let entry = turn.serve(rt, table, 0, request);
    let (seat, places) = turn.end(table);
    (Resting { seat, places }, entry)
}

/// The entry of an access that the core's own L1 serves alone, if that can.
pub(crate) fn asks_its_own<R: Wait>(
    rt: &R,
    table: &PartsTable,
    core: Resting,
    request: Request,
) -> (Resting, Option<Entry>)
    requires table { IsPartsTested table.now }
    requires core { IsResting core.seat.core (length core.seat.made) table.now core.seat core.places }
    requires room { length core.seat.made < 2001 }
    requires can { IsServable 65536 1048576 false request }
    ensures some { IfSome result.1 (λ e. IsResting core.seat.core (length core.seat.made + 1) table.now result.0.seat result.0.places) }
    ensures none { IfNone result.1 (IsResting core.seat.core (length core.seat.made) table.now result.0.seat result.0.places) }
{
    table.may_ask();
    let mut turn = core.seat.begin(rt, table, core.places);
    let entry = turn.serve_alone::<Resting>(0, request);
    let (seat, places) = turn.end(table);
    (Resting { seat, places }, entry)
}

/// The homes and L1s that are left, and the keys of what each core made.
pub(crate) fn close(
    alloc: Global,
    table: PartsTable,
    first: Resting,
    second: Resting,
) -> Result<(Parts, Vec<Blocks>), NoMemory>
    requires table { IsPartsTested table }
    requires first { IsResting 0 (length first.seat.made) table first.seat first.places }
    requires second { IsResting 1 (length second.seat.made) table second.seat second.places }
    ensures cores { IfOk result (λ left. length left.1.items ≡ 2) }
    ensures number { IfOk result (λ left. number_of_keys left.1.items ≡ length first.seat.made + length second.seat.made) }
{
    let mut seats = Vec::new(alloc);
    seats.push(first.seat)?;
    seats.push(second.seat)?;
    Ok(table.close(seats))
}
