//! Worked accesses: stamps, replies and logs, and two threads that add to one doubleword.
ghost use Rattle.std.specs.Prelude.{◌≡◌, ◌<◌, [], false};
ghost use Rattle.zs_num.specs.Servable.{IsServable};
ghost use Rattle.shard.specs.Served.{CanServe};
ghost use Rattle.shard_table.specs.Access.{IsSameSeat, IsSeatOf};
ghost use Rattle.table_tests.specs.Tested.{IsTested};

use crate::requests::{load_of, one_more_at, store_of};
use crate::tested::Tested;
use shard::Shard;
use shard_table::{CoreSeat, ShardTable};
use std::alloc::Global;
use std::process::Abort;
use std::sync::Wait;
use std::test::Fail;
use std::thread;
use std::thread::Threads;
use zs_num::{Entry, NoMemory, Request, Stamp};

/// Two words of lines next to each other: of two shards, the first is in shard 0 and the other in
/// shard 1.
const EVEN: u64 = 0x11000;

const ODD: u64 = 0x11040;

/// Checks that core 0 loads what it stored, and has the entries of both accesses.
fn stores_and_loads<R: Abort>(rt: &R, tested: &mut Tested) -> Result<(), Fail> {
    let stored = tested.first_asks(rt, store_of(EVEN, 5))?;
    let loaded = tested.first_asks(rt, load_of(EVEN))?;
    assert_eq!(rt; (stored.reply, loaded.reply), (0, 5));
    are_entries(rt, tested.first.entries(), &[stored, loaded]);
    are_entries(rt, tested.second.entries(), &[]);
    Ok(())
}

/// Checks entries.
fn are_entries(rt: &impl Abort, found: &[Entry], wanted: &[Entry]) {
    assert!(rt; found == wanted);
}

#[test]
fn a_core_loads_what_it_stored(rt: HostRuntime) -> Result<(), Fail> {
    stores_and_loads(&rt, &mut Tested::fresh(rt.alloc(), 1)?)
}

/// Whether core 0 makes an access and not core 1, whether it stores, and whether to the even line;
/// and the stamp that it gets.
static FIRST_STEPS: [(bool, bool, bool, Stamp); 3] = [
    (true, true, true, 1),
    (true, false, true, 2),
    (false, true, false, 1),
];

static LATER_STEPS: [(bool, bool, bool, Stamp); 2] = [
    (false, false, true, 3),
    (false, false, false, 4),
];

/// Checks the stamp of each row's access.
fn get_stamps<R: Abort>(
    rt: &R,
    tested: &mut Tested,
    rows: &[(bool, bool, bool, Stamp)],
) -> Result<(), Fail> {
    for &(is_first, stores, is_even, stamp) in rows {
        let found = stamp_of(rt, tested, is_first, request_of(stores, is_even))?;
        assert_eq!(rt; found, stamp);
    }
    Ok(())
}

/// Checks the stamps and the cores of the accesses in recorded order.
fn is_schedule(
    rt: &(impl Abort + AllocGlobal),
    tested: &Tested,
    wanted: &[(Stamp, u16)],
) -> Result<(), Fail> {
    let found = schedule(rt.alloc(), tested)?;
    assert!(rt; found.as_slice() == wanted);
    Ok(())
}

/// Checks the stamps of the first steps, their recorded order, and the stamps of the later steps.
fn pass_each_other(rt: &(impl Abort + AllocGlobal), tested: &mut Tested) -> Result<(), Fail> {
    get_stamps(rt, tested, &FIRST_STEPS)?;
    is_schedule(rt, tested, &[(1, 0), (1, 1), (2, 0)])?;
    get_stamps(rt, tested, &LATER_STEPS)
}

#[test]
fn stamps_pass_those_of_the_shard_and_of_the_core(rt: HostRuntime) -> Result<(), Fail> {
    pass_each_other(&rt, &mut Tested::fresh(rt.alloc(), 2)?)
}

/// A store or a load of the even or the odd line.
fn request_of(stores: bool, is_even: bool) -> Request
    ensures { IsServable 65536 1048576 false result }
{
    let addr = if is_even { EVEN } else { ODD };
    if stores {
        store_of(addr, 5)
    } else {
        load_of(addr)
    }
}

/// The stamp of an access of core 0 or core 1.
fn stamp_of<R: Abort>(
    rt: &R,
    tested: &mut Tested,
    is_first: bool,
    request: Request,
) -> Result<Stamp, Fail>
    requires { IsServable 65536 1048576 false request }
{
    let entry = if is_first {
        tested.first_asks(rt, request)?
    } else {
        tested.second_asks(rt, request)?
    };
    Ok(entry.stamp)
}

/// Appends the stamp and the core of each access.
fn push_keys(keys: &mut Vec<(Stamp, u16)>, entries: &[Entry]) -> Result<(), NoMemory> {
    for entry in entries {
        keys.push((entry.stamp, entry.core))?;
    }
    Ok(())
}

/// The stamps and the cores of the accesses in recorded order: by stamps, and at a tie by cores.
fn schedule(alloc: Global, tested: &Tested) -> Result<Vec<(Stamp, u16)>, NoMemory> {
    let mut keys = Vec::new(alloc);
    push_keys(&mut keys, tested.first.entries())?;
    push_keys(&mut keys, tested.second.entries())?;
    keys.sort()?;
    Ok(keys)
}

/// Adds 1 to a doubleword a thousand times.
fn adds<R: Wait>(rt: &R, table: &ShardTable, mut seat: CoreSeat, banks: u16) -> CoreSeat
    requires table { (0 < banks) × IsTested banks table.now }
    requires seat { IsSeatOf table.now seat × (seat.core < 2) }
    requires empty { seat.entries ≡ [] }
    ensures { IsSameSeat seat result }
{
    for _ in 0..1000u32 {
        let _ = table.access(rt, &mut seat, 0, one_more_at(EVEN));
    }
    seat
}

/// Both cores add, each in a thread of its own.
fn both_add<R: Threads + Wait + Sync>(rt: &R, tested: Tested) -> Tested
    requires { (tested.first.entries ≡ []) × (tested.second.entries ≡ []) }
    ensures { result.banks ≡ tested.banks }
{
    let Tested {
        table,
        first,
        second,
        banks,
        ..
    } = tested;
    let shared = &table;
    let (first, second) = thread::join(
        rt,
        move || adds(rt, shared, first, banks),
        move || adds(rt, shared, second, banks),
    );
    Tested {
        table,
        first,
        second,
        banks,
    }
}

/// The doubleword to which both add.
#[tactic(auto, unfolding(shard::specs::Served::CanServe))]
fn doubleword(shard: &Shard) -> [u8; 8]
    requires { CanServe shard.now (Request.Load 8 EVEN) }
{
    let mut bytes = [0; 8];
    for place in 0..8 {
        bytes[place] = shard.byte(EVEN + place as u64);
    }
    bytes
}

/// Appends the reply to each access.
fn push_replies(replies: &mut Vec<u64>, entries: &[Entry]) -> Result<(), NoMemory> {
    for entry in entries {
        replies.push(entry.reply)?;
    }
    Ok(())
}

/// The replies to both cores, in ascending order.
fn replies(alloc: Global, tested: &Tested) -> Result<Vec<u64>, NoMemory> {
    let mut replies = Vec::new(alloc);
    push_replies(&mut replies, tested.first.entries())?;
    push_replies(&mut replies, tested.second.entries())?;
    replies.sort()?;
    Ok(replies)
}

/// Checks that the additions found each number below 2,000 once.
fn find_each_other(rt: &(impl Abort + AllocGlobal), tested: &Tested) -> Result<(), Fail> {
    let mut wanted = 0u64;
    for &reply in &replies(rt.alloc(), tested)? {
        assert_eq!(rt; reply, wanted);
        wanted = wanted.wrapping_add(1);
    }
    assert_eq!(rt; wanted, 2000);
    Ok(())
}

/// Closes a table of one shard, and checks how many entries each core has, and the doubleword.
fn closes<R: Abort>(rt: &R, alloc: Global, tested: Tested) -> Result<(), Fail>
    requires { tested.banks ≡ 1 }
{
    let (shards, logs) = tested.close(alloc)?;
    assert!(rt; shards.len() == 1 && logs.len() == 2);
    assert!(rt; doubleword(&shards[0]) == [0xd0, 0x07, 0, 0, 0, 0, 0, 0]);
    assert!(rt; logs[0].entries().len() == 1000);
    assert!(rt; logs[1].entries().len() == 1000);
    Ok(())
}

#[test]
fn two_threads_that_add_lose_nothing(rt: HostRuntime) -> Result<(), Fail> {
    let t = both_add(&rt, Tested::fresh(rt.alloc(), 1)?);
    find_each_other(&rt, &t)?;
    closes(&rt, rt.alloc(), t)
}
