//! A table with the seats of its two cores.
ghost use Rattle.std.specs.Prelude.{◌≡◌, ◌<◌, ◌≤◌, ◌%◌, [], ◌∷◌, length, IfOk, false};
ghost use Rattle.machine_desc.specs.Machine.{IsMachine};
ghost use Rattle.zs_num.specs.Servable.{IsServable};
ghost use Rattle.shard_table.specs.Access.{IsSameSeat, IsSeatOf};
ghost use Rattle.table_tests.specs.Tested.{AreOf, CanBeAsked, IsAt, IsOf, IsTested};

use crate::given::{ECALL, image_of, machine};
use access_log::CoreLog;
use elf_load::Image;
use machine_desc::Machine;
use shard::Shard;
use shard_table::{CoreSeat, ShardTable};
use std::alloc::Global;
use std::process::Abort;
use std::test::Fail;
use zs_num::{Entry, NoMemory, Request};

/// How many accesses a core can make.
pub(crate) const ROOM: u32 = 1000;

/// One shard of a machine of two cores.
fn shard_of(alloc: Global, machine: &Machine, number: u16, image: &Image) -> Result<Shard, NoMemory>
    requires machine { IsMachine machine.now }
    requires cores { machine.now.cores ≡ 2 }
    requires number { number < machine.now.l2.banks }
    requires base { (machine.now.memory.base ≡ 65536) × (image.now.base ≡ 65536) }
    requires size { (machine.now.memory.size ≡ 1048576) × (image.now.size ≡ 1048576) }
    ensures { IfOk result (IsOf machine.now.l2.banks number) }
{
    let shard = Shard::new(alloc, machine, number, image)?;
    Ok(shard)
}

/// All of them, in order.
fn shards_of(alloc: Global, machine: &Machine, image: &Image) -> Result<Vec<Shard>, NoMemory>
    requires machine { IsMachine machine.now }
    requires cores { machine.now.cores ≡ 2 }
    requires base { (machine.now.memory.base ≡ 65536) × (image.now.base ≡ 65536) }
    requires size { (machine.now.memory.size ≡ 1048576) × (image.now.size ≡ 1048576) }
    ensures count { IfOk result (λ shards. length shards.items ≡ machine.now.l2.banks) }
    ensures each { IfOk result (λ shards. AreOf machine.now.l2.banks shards.items) }
{
    let mut shards = Vec::new(alloc);
    for number in 0..machine.l2.banks {
        shards.push(shard_of(alloc, machine, number, image)?)?;
    }
    Ok(shards)
}

/// The shards of a machine of two cores, which has so many of them.
fn tested_shards(alloc: Global, banks: u16) -> Result<Vec<Shard>, Fail>
    requires some { 0 < banks }
    requires few { banks ≤ 64 }
    requires l1 { 2 % banks ≡ 0 }
    requires l2 { 4 % banks ≡ 0 }
    ensures count { IfOk result (λ shards. length shards.items ≡ banks) }
    ensures each { IfOk result (λ shards. AreOf banks shards.items) }
{
    let machine = machine(alloc, 2, banks)?;
    let image = image_of(alloc, &machine, &ECALL)?;
    let shards = shards_of(alloc, &machine, &image)?;
    Ok(shards)
}

/// The two seats of a list.
fn both(mut seats: Vec<CoreSeat>) -> (CoreSeat, CoreSeat)
    requires { length seats.items ≡ 2 }
    ensures { seats.items ≡ result.0 ∷ result.1 ∷ [] }
{
    let first = seats.remove(0);
    let second = seats.remove(0);
    (first, second)
}

/// The entry of an access that the core of a seat makes.
fn ask<R: Abort>(
    rt: &R,
    table: &ShardTable,
    seat: &mut CoreSeat,
    banks: u16,
    request: Request,
) -> Result<Entry, Fail>
    requires table { (0 < banks) × IsTested banks table.now }
    requires seat { IsSeatOf table.now seat.old × (seat.old.core < 2) }
    requires can { IsServable 65536 1048576 false request }
    ensures same { IsSameSeat seat.old seat.new }
{
    assert!(rt; seat.entries().len() < ROOM as usize);
    Ok(table.try_access(seat, 0, request)?)
}

/// A table, and the seats of both cores.
#[derive(Drop)]
pub(crate) struct Tested {
    pub(crate) table: ShardTable,
    pub(crate) first: CoreSeat,
    pub(crate) second: CoreSeat,
    pub(crate) banks: u16,
    ghost some: { 0 < banks },
    ghost is: { IsTested banks table },
    ghost first_is: { IsAt 0 table first },
    ghost second_is: { IsAt 1 table second },
}

impl Tested {
    /// A new table.
    pub(crate) fn fresh(alloc: Global, banks: u16) -> Result<Self, Fail>
        requires some { 0 < banks }
        requires few { banks ≤ 64 }
        requires l1 { 2 % banks ≡ 0 }
        requires l2 { 4 % banks ≡ 0 }
        ensures banks { IfOk result (λ t. t.banks ≡ banks) }
        ensures empty { IfOk result (λ t. (t.first.entries ≡ []) × (t.second.entries ≡ [])) }
    {
        let shards = tested_shards(alloc, banks)?;
        let Ok((table, seats)) = ShardTable::make(alloc, shards, 2, ROOM) else {
            return Err(NoMemory.into());
        };
        let (first, second) = both(seats);
        Ok(Tested {
            table,
            first,
            second,
            banks,
        })
    }

    /// The entry of an access of core 0.
    pub(crate) fn first_asks<R: Abort>(&mut self, rt: &R, request: Request) -> Result<Entry, Fail>
        requires { IsServable 65536 1048576 false request }
    {
        ask(rt, &self.table, &mut self.first, self.banks, request)
    }

    /// The entry of an access of core 1.
    pub(crate) fn second_asks<R: Abort>(&mut self, rt: &R, request: Request) -> Result<Entry, Fail>
        requires { IsServable 65536 1048576 false request }
    {
        ask(rt, &self.table, &mut self.second, self.banks, request)
    }

    /// The shards, and the logs of core 0 and core 1.
    pub(crate) fn close(self, alloc: Global) -> Result<(Vec<Shard>, Vec<CoreLog>), NoMemory>
        ensures { IfOk result (λ closed. CanBeAsked self.banks closed.0.items) }
    {
        access_log::laws::each_has_its_own::<Shard>();
        shard::laws::still_serves();
        let Tested {
            table,
            first,
            second,
            ..
        } = self;
        let mut seats = Vec::new(alloc);
        seats.push(first)?;
        seats.push(second)?;
        Ok(table.close(seats))
    }
}
