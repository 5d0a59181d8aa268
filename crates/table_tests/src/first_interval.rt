//! The bound phase of the first interval, by several workers.
ghost use Rattle.std.specs.Prelude.{◌≡◌, ◌<◌, ◌≤◌, ℕ, All, IfOk, Some, length, slice_get};
ghost use Rattle.machine_desc.specs.InstructionCaches.{has_l1i};
ghost use Rattle.machine_desc.specs.Machine.{IsMachine};
ghost use Rattle.shard.specs.StandsFor.{new_shards};
ghost use Rattle.bound_core.specs.ShardPort.{AreShardsOf, l1i_in};
ghost use Rattle.bound_core.specs.NumberedCores.{NumberedCore};
ghost use Rattle.bound_phase.specs.Bounds.{IsBeforeInterval};

use crate::given::{ONE_LOAD, RACE, image_of, machine};
use bound_core::BoundCore;
use bound_phase::{Bounded, bound};
use elf_load::Image;
use event_graph::Plain;
use machine_desc::Machine;
use rv_blocks::DecodedProgram;
use rv_core::Why;
use shard::Shard;
use std::alloc::Global;
use std::process::Abort;
use std::sync::Wait;
use std::test::Fail;
use std::thread::Threads;
use zs_host::{Gate, MeetingGate, OpenGate, Passes};
use zs_num::{Cycle, Entry, NoMemory, Request, Stamp};

/// The cores of a machine before its first interval.
fn first_cores(alloc: Global, machine: &Machine, image: &Image) -> Result<Vec<BoundCore>, NoMemory>
    requires { IsMachine machine.now }
    ensures count { IfOk result (λ cores. length cores.items ≡ machine.now.cores) }
    ensures numbers { IfOk result (λ cores. (number : ℕ) (c : NumberedCore) → slice_get cores.items number ≡ Some c → c.number ≡ number) }
    ensures at_start { IfOk result (λ cores. All (IsBeforeInterval machine.now machine.now.interval) cores.items) }
    ensures fetching { IfOk result (λ cores. All (λ c. c.timed.core.fetching ≡ has_l1i machine.now) cores.items) }
{
    let mut cores = Vec::new(alloc);
    for number in 0..machine.cores {
        cores.push(BoundCore::new(alloc, machine, image, number)?)?;
    }
    Ok(cores)
}

/// The shards of a machine before its first interval.
fn first_shards(alloc: Global, machine: &Machine, image: &Image) -> Result<Vec<Shard>, NoMemory>
    requires machine { IsMachine machine.now }
    requires base { image.now.base ≡ machine.now.memory.base }
    requires size { image.now.size ≡ machine.now.memory.size }
    ensures are { IfOk result (λ shards. AreShardsOf machine.now.cores shards.items machine.now.memory.base machine.now.memory.size) }
    ensures count { IfOk result (λ shards. length shards.items ≡ machine.now.l2.banks) }
    ensures l1i { IfOk result (λ shards. l1i_in shards.items ≡ has_l1i machine.now) }
{
    let shards = shards_of(alloc, machine, image)?;
    Ok(shards)
}

fn shards_of(alloc: Global, machine: &Machine, image: &Image) -> Result<Vec<Shard>, NoMemory>
    requires machine { IsMachine machine.now }
    requires base { image.now.base ≡ machine.now.memory.base }
    requires size { image.now.size ≡ machine.now.memory.size }
    ensures { IfOk result (λ shards. shards.items ≡ new_shards machine.now image.now) }
{
    let mut shards = Vec::new(alloc);
    for number in 0..machine.l2.banks {
        shards.push(Shard::new(alloc, machine, number, image)?)?;
    }
    Ok(shards)
}

/// The first interval of eight words on a machine. No clause says how it ends: the tests look at
/// the end itself.
pub(crate) fn first_interval<R: Threads + Wait + Sync, G: Gate>(
    rt: &R,
    alloc: Global,
    machine: &Machine,
    words: &[u32; 8],
    workers: u16,
    gate: &G,
) -> Result<Bounded, Fail>
    requires machine { IsMachine machine.now }
    requires workers { (0 < workers) × (workers ≤ 64) }
{
    let image = image_of(alloc, machine, words)?;
    let program = DecodedProgram::of(alloc, &image)?;
    let cores = first_cores(alloc, machine, &image)?;
    let shards = first_shards(alloc, machine, &image)?;
    let plain = Plain::of(machine);
    let end = machine.interval;
    match bound(
        rt, alloc, machine, &program, &plain, cores, shards, end, workers, gate,
    ) {
        Ok(bounded) => Ok(bounded),
        Err((NoMemory, _as_they_were)) => Err(NoMemory.into()),
    }
}

/// Checks the instructions and the clock of a core.
fn is_at(rt: &impl Abort, core: &BoundCore, instructions: u64, clock: Cycle) {
    assert!(rt; core.instructions() == instructions);
    assert!(rt; core.clock() == clock);
}

/// Checks the core, the stamp and the start of an access.
fn is_turn(rt: &impl Abort, entry: &Entry, core: u16, stamp: Stamp, start: Cycle) {
    assert!(rt; entry.core == core);
    assert!(rt; entry.stamp == stamp);
    assert!(rt; entry.start == start);
}

/// Checks that both cores made one access, at the same time.
fn are_turns(rt: &impl Abort, entries: &[Entry]) {
    assert!(rt; entries.len() == 2);
    is_turn(rt, &entries[0], 0, 1, 1);
    is_turn(rt, &entries[1], 1, 1, 1);
}

/// Checks how many cores came to the gate, each for the first time, and how many met.
fn have_met(rt: &impl Abort, gate: &MeetingGate, met: u64) {
    let passes = Passes {
        first: 1,
        second: 1,
        met,
    };
    assert!(rt; gate.cores() == passes);
}

/// Checks the end of the interval in which each of two cores loads once.
fn have_loaded(rt: &impl Abort, bounded: &Bounded) {
    assert!(rt; bounded.shards.len() == 2 && bounded.cores.len() == 2);
    is_at(rt, &bounded.cores[0], 3, 116);
    is_at(rt, &bounded.cores[1], 3, 116);
    are_turns(rt, bounded.entries.as_slice());
}

/// Two cores load once each, by so many workers, and so many cores meet at the gate. The cores'
/// stacks end in lines of different banks.
fn load_and_meet<R: Abort + Threads + Wait + Sync>(
    rt: &R,
    alloc: Global,
    workers: u16,
    met: u64,
) -> Result<(), Fail>
    requires { (0 < workers) × (workers ≤ 64) }
{
    let machine = machine(alloc, 2, 2)?;
    let gate = MeetingGate::new();
    let bounded = first_interval(rt, alloc, &machine, &ONE_LOAD, workers, &gate)?;
    have_met(rt, &gate, met);
    have_loaded(rt, &bounded);
    Ok(())
}

/// Both cores come to their first access before either makes it, so two workers run them beside
/// each other. One worker runs them one after the other: then the first core waits in vain.
#[test]
fn two_workers_run_two_cores_beside_each_other(rt: HostRuntime) -> Result<(), Fail> {
    load_and_meet(&rt, rt.alloc(), 2, 2)?;
    load_and_meet(&rt, rt.alloc(), 1, 1)
}

/// Whether an access adds to the doubleword at 0x11000.
fn is_addition(entry: &Entry) -> bool {
    matches!(entry.request, Request::Amo { addr: 0x1_1000, .. })
}

/// Checks that each access adds to the doubleword, and finds 4 for each before it.
fn have_added(rt: &impl Abort, entries: &[Entry]) {
    assert!(rt; entries.len() == 400);
    let mut before = 0u64;
    for entry in entries {
        assert!(rt; is_addition(entry));
        assert!(rt; entry.reply == before.wrapping_mul(4));
        before = before.wrapping_add(1);
        assert!(rt; entry.stamp == before);
    }
}

/// The greatest number with which a core exited.
fn last_exit(cores: &[BoundCore]) -> u64 {
    let mut last = 0;
    for core in cores {
        if let Some(Why::Exit(found)) = core.halted() {
            last = last.max(found);
        }
    }
    last
}

/// Checks the end of the interval in which four cores add.
fn have_raced(rt: &impl Abort, bounded: &Bounded) {
    have_added(rt, bounded.entries.as_slice());
    assert_eq!(rt; last_exit(&bounded.cores), 1596);
}

/// Each of four cores adds 4 a hundred times to one number. Whoever runs them, the additions in
/// recorded order find 0, 4, 8 and so on, and the core that came last found 1,596.
#[test]
fn additions_find_each_other_in_recorded_order(rt: HostRuntime) -> Result<(), Fail> {
    let machine = machine(rt.alloc(), 4, 1)?;
    for workers in [1, 2, 3, 4, 64] {
        let bounded = first_interval(&rt, rt.alloc(), &machine, &RACE, workers, &OpenGate)?;
        have_raced(&rt, &bounded);
    }
    Ok(())
}
