//! Two threads that add to one doubleword, each core at its own L1 between.
ghost use Rattle.std.specs.Prelude.{◌≡◌, false, length};
ghost use Rattle.parts_table.specs.NextKeys.{number_of_keys};
ghost use Rattle.table_tests.specs.PartsTested.{IsPartsTested, IsResting};
ghost use Rattle.zs_num.specs.Servable.{IsServable};
ghost use Rattle.zs_num.specs.declared.request.Request.{Request};

use super::resting::{Resting, asks, close, fresh};
use crate::requests::{load_of, one_more_at};
use parts_table::{Blocks, Merge, PartsTable};
use std::alloc::Global;
use std::process::Abort;
use std::sync::Wait;
use std::test::Fail;
use std::thread;
use std::thread::Threads;
use zs_num::NoMemory;

/// The doubleword of both cores, and two of lines for one core each.
const WORD: u64 = 0x11000;

const FIRST_OWN: u64 = 0x11040;

const SECOND_OWN: u64 = 0x110C0;

/// Adds 1 to the doubleword a thousand times, and each time loads what is at its own address.
fn adds<R: Wait>(rt: &R, table: &PartsTable, core: Resting, own: u64) -> Resting
    requires table { IsPartsTested table.now }
    requires core { IsResting core.seat.core 0 table.now core.seat core.places }
    requires own { IsServable 65536 1048576 false (Request.Load 8 own) }
    ensures { IsResting core.seat.core 2000 table.now result.seat result.places }
{
    table.may_ask();
    let mut turn = core.seat.begin(rt, table, core.places);
    for _ in 0..1000u32 {
        turn.give_way(rt, table);
        let _ = turn.serve(rt, table, 0, one_more_at(WORD));
        let _ = turn.serve(rt, table, 0, load_of(own));
    }
    let (seat, places) = turn.end(table);
    Resting { seat, places }
}

/// The keys of both cores, and how many turns there are of each.
fn count_turns(alloc: Global, blocks: &mut [Blocks]) -> Result<(u32, u32), NoMemory>
    requires cores { length blocks.old ≡ 2 }
    requires room { number_of_keys blocks.old ≡ 4001 }
{
    let mut turns = Vec::with_capacity(alloc, 4001)?;
    Merge::new(alloc, 2)?.put_in_order(blocks, &mut turns);
    let mut first = 0u32;
    let mut second = 0u32;
    for &core in &turns {
        if core == 0 {
            first = first.wrapping_add(1);
        } else {
            second = second.wrapping_add(1);
        }
    }
    Ok((first, second))
}

/// Both cores add, each in a thread of its own.
fn both_add<R: Threads + Wait + Sync>(
    rt: &R,
    table: &PartsTable,
    first: Resting,
    second: Resting,
) -> (Resting, Resting)
    requires table { IsPartsTested table.now }
    requires first { IsResting 0 0 table.now first.seat first.places }
    requires second { IsResting 1 0 table.now second.seat second.places }
    ensures first { IsResting 0 2000 table.now result.0.seat result.0.places }
    ensures second { IsResting 1 2000 table.now result.1.seat result.1.places }
{
    thread::join(
        rt,
        move || adds(rt, table, first, FIRST_OWN),
        move || adds(rt, table, second, SECOND_OWN),
    )
}

/// Checks the sum, and how many turns each core has.
fn lose_nothing<R: Abort + AllocGlobal + Threads + Wait + Sync>(rt: &R) -> Result<(), Fail> {
    let (table, first, second) = fresh(rt.alloc())?;
    let (first, second) = both_add(rt, &table, first, second);
    let (first, sum) = asks(rt, &table, first, load_of(WORD));
    assert_eq!(rt; sum.reply, 2000);
    let (_, mut blocks) = close(rt.alloc(), table, first, second)?;
    assert!(rt; count_turns(rt.alloc(), &mut blocks)? == (2001, 2000));
    Ok(())
}

#[test]
fn two_threads_at_their_l1s_lose_nothing(rt: HostRuntime) -> Result<(), Fail> {
    lose_nothing(&rt)
}
