//! Logs of two cores, merged, and their schedule.
ghost use Rattle.std.specs.Prelude.{◌≡◌, ◌<◌, [], ◌∷◌, All, IfOk};

use crate::checks::{has_counts, has_turns, is_number};
use access_log::{CoreLog, Schedule, merge};
use std::alloc::Global;
use std::process::Abort;
use std::test::Fail;
use zs_num::{Entries, Entry, NoMemory, Outcome, Request, Stamp};

/// A load of a core with a stamp.
fn load(core: u16, stamp: Stamp) -> Entry
    ensures core { result.core ≡ core }
    ensures stamp { result.stamp ≡ stamp }
{
    Entry {
        core,
        stamp,
        start: 0,
        request: Request::Load {
            addr: 0x11000,
            width: 8,
        },
        reply: 0,
        outcome: Outcome::Hit,
    }
}

/// The log of a core with these two entries.
fn log(alloc: Global, first: Entry, second: Entry) -> Result<CoreLog, NoMemory>
    ensures { IfOk result (λ log. log ≡ record { entries = first ∷ second ∷ []; room = 3 }) }
{
    let mut log = CoreLog::with_room(alloc, 3)?;
    log.push(first);
    log.push(second);
    Ok(log)
}

/// Checks entries.
fn are_entries(rt: &impl Abort, found: &[Entry], wanted: &[Entry]) {
    assert!(rt; found == wanted);
}

#[test]
fn a_log_keeps_its_entries_in_order(rt: HostRuntime) -> Result<(), Fail> {
    let mut log = log(rt.alloc(), load(0, 1), load(0, 3))?;
    are_entries(&rt, log.entries(), &[load(0, 1), load(0, 3)]);
    is_number(&rt, log.spare().into(), 1);
    log.clear();
    are_entries(&rt, log.entries(), &[]);
    is_number(&rt, log.spare().into(), 3);
    Ok(())
}

/// The loads of two cores, merged.
fn merged(alloc: Global) -> Result<Entries, NoMemory> {
    let first = log(alloc, load(0, 1), load(0, 3))?;
    let second = log(alloc, load(1, 1), load(1, 2))?;
    merge(alloc, &[first, second])
}

#[test]
fn logs_are_merged_by_stamp_and_then_by_core(rt: HostRuntime) -> Result<(), Fail> {
    let entries = merged(rt.alloc())?;
    let wanted = [load(0, 1), load(1, 1), load(1, 2), load(0, 3)];
    are_entries(&rt, entries.as_slice(), &wanted);
    Ok(())
}

/// Loads of cores 0 and 1, with stamps.
fn loads(rt: &(impl Abort + AllocGlobal), rows: &[(u16, Stamp)]) -> Result<Entries, NoMemory>
    ensures { IfOk result (All (λ e. e.core < 2)) }
{
    let mut list = Vec::new(rt.alloc());
    for &(core, stamp) in rows {
        assert!(rt; core < 2);
        list.push(load(core, stamp))?;
    }
    Ok(Entries::of(list))
}

/// Adds the turns of such loads to a schedule of two cores.
fn add(
    rt: &(impl Abort + AllocGlobal),
    schedule: &mut Schedule,
    rows: &[(u16, Stamp)],
) -> Result<(), NoMemory>
    requires { schedule.old.cores ≡ 2 }
    ensures { schedule.new.cores ≡ 2 }
{
    let entries = loads(rt, rows)?;
    assert!(rt; entries.as_slice().len() == rows.len() && rows.len() < 1000);
    assert!(rt; schedule.intervals() < 1000);
    schedule.add(rt.alloc(), &entries)
}

#[test]
fn a_schedule_has_the_cores_of_the_accesses(rt: HostRuntime) -> Result<(), Fail> {
    let mut schedule = Schedule::new(rt.alloc(), 2);
    add(&rt, &mut schedule, &[(1, 1), (0, 2), (1, 3)])?;
    add(&rt, &mut schedule, &[])?;
    has_counts(&rt, &schedule, 2, 2);
    has_turns(&rt, &schedule, 0, &[1, 0, 1]);
    has_turns(&rt, &schedule, 1, &[]);
    Ok(())
}
