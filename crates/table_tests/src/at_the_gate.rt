//! Who passes the gate before which access, by several workers.
ghost use Rattle.std.specs.Prelude.{◌<◌, ◌≤◌};
ghost use Rattle.machine_desc.specs.Machine.{IsMachine};

use crate::first_interval::first_interval;
use crate::gates::{CountingGate, TurnsGate};
use crate::given::{RACE, fetching_machine, machine};
use machine_desc::Machine;
use std::alloc::Global;
use std::process::Abort;
use std::sync::Wait;
use std::test::Fail;
use std::thread::Threads;
use zs_num::Entry;

/// Checks that each of five cores passed so often, by the worker whose it is: worker w of W has the
/// cores whose number is w modulo W.
fn have_passed(rt: &impl Abort, gate: &CountingGate, workers: u16, times: u64)
    requires { 0 < workers }
{
    for worker in 0..workers {
        for core in 0..5u16 {
            let wanted = if core % workers == worker { times } else { 0 };
            assert!(rt; gate.passes(worker, core) == wanted);
        }
    }
}

/// Each of five cores makes so many accesses, by so many workers.
fn count_passes<R: Abort + Threads + Wait + Sync>(
    rt: &R,
    alloc: Global,
    machine: &Machine,
    workers: u16,
    times: u64,
) -> Result<(), Fail>
    requires machine { IsMachine machine.now }
    requires workers { (0 < workers) × (workers ≤ 5) }
{
    let gate = CountingGate::new(alloc, workers, 5)?;
    let _bounded = first_interval(rt, alloc, machine, &RACE, workers, &gate)?;
    have_passed(rt, &gate, workers, times);
    Ok(())
}

#[test]
fn the_worker_of_a_core_passes_once_for_each_access(rt: HostRuntime) -> Result<(), Fail> {
    let machine = machine(rt.alloc(), 5, 1)?;
    count_passes(&rt, rt.alloc(), &machine, 1, 100)?;
    count_passes(&rt, rt.alloc(), &machine, 3, 100)?;
    count_passes(&rt, rt.alloc(), &machine, 5, 100)
}

/// All instructions lie in one line, so each core fetches once.
#[test]
fn a_worker_passes_for_a_fetch_too(rt: HostRuntime) -> Result<(), Fail> {
    let machine = fetching_machine(rt.alloc(), 5, 1)?;
    count_passes(&rt, rt.alloc(), &machine, 1, 101)?;
    count_passes(&rt, rt.alloc(), &machine, 3, 101)
}

/// Checks the cores of the first three accesses.
fn begin_in_turns(rt: &impl Abort, entries: &[Entry]) {
    assert!(rt; entries.len() == 200);
    assert!(rt; entries[0].core == 1);
    assert!(rt; entries[1].core == 1);
    assert!(rt; entries[2].core == 0);
}

/// The gate lets core 1 make two accesses and then core 0 one. Whoever made an access and passed
/// the gate after it would not have been held up: core 0 makes its first one before core 1 gets to
/// its second.
#[test]
fn a_core_held_up_at_the_gate_has_not_made_its_access(rt: HostRuntime) -> Result<(), Fail> {
    let machine = machine(rt.alloc(), 2, 1)?;
    let gate = TurnsGate::new();
    let bounded = first_interval(&rt, rt.alloc(), &machine, &RACE, 2, &gate)?;
    begin_in_turns(&rt, bounded.entries.as_slice());
    Ok(())
}
