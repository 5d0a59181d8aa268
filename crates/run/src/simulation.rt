//! A run between two intervals.
ghost use Rattle.std.specs.Prelude.{◌≡◌, ◌≤◌, ◌^◌, All, IfOk, length, map};
ghost use Rattle.std.specs.List.{range_with_len};
ghost use Rattle.machine_desc.specs.declared.machine.Machine.{Machine};
ghost use Rattle.machine_desc.specs.Machine.{IsMachine};
ghost use Rattle.bound_core.specs.TimedCore.{first_core};
ghost use Rattle.bound_core.specs.NumberedCores.{timed_of};
ghost use Rattle.reference.specs.ReferenceRun.{RunState, all_delayed, has_ended_at, run_results};
ghost use Rattle.bound_records.specs.CoreRuns.{AreNumbered};
ghost use Rattle.run.specs.Simulation.{IsAtStart, StandsFor, cores_of};

use crate::Final;
use crate::ending::has_ended;
use bound_core::BoundCore;
use bound_records::Recorder;
use component::{Comp, Comps, components};
use elf_load::Image;
use machine_desc::Machine;
use stats::Counters;
use std::alloc::Global;
use zs_num::NoMemory;

/// A run between two intervals: its cores in order of their numbers, caches and memory with what is
/// kept of the accesses of an interval, its components, and what was counted so far.
#[derive(Drop)]
pub struct Simulation {
    pub cores: Vec<BoundCore>,
    pub recorder: Recorder,
    pub comps: Comps<Comp>,
    pub counters: Counters,
}

impl Simulation {
    /// A run before its first interval, of a machine into which the executable was loaded.
    pub fn new(alloc: Global, machine: &Machine, image: &Image) -> Result<Self, NoMemory>
        requires machine { IsMachine machine.now }
        requires base { image.now.base ≡ machine.now.memory.base }
        requires size { image.now.size ≡ machine.now.memory.size }
        ensures { IfOk result (IsAtStart machine.now image.now) }
    {
        stats::laws::nothing_is_counted_first();
        bound_core::laws::intervals_begin();
        // The address of the first instruction is a multiple of 4, as that of every image.
        let _sound = image.base();
        Ok(Simulation {
            cores: first_cores(alloc, machine, image)?,
            recorder: Recorder::new(alloc, machine, image)?,
            comps: components(alloc, machine)?,
            counters: Counters::new(alloc, machine)?,
        })
    }

    /// Whether the run has ended before this interval: every core has halted, or a limit is
    /// reached.
    pub fn has_ended(&self, machine: &Machine, interval: u32) -> bool
        requires machine { IsMachine machine.now }
        requires accesses { self.now.counters.accesses ≤ 2 ^ 26 }
        ensures { result ≡ has_ended_at machine.now interval self.now.counters.accesses (cores_of self.now) self.now.comps }
    {
        has_ended(
            machine,
            interval,
            &self.cores,
            self.comps.as_slice(),
            &self.counters,
        )
    }

    /// What the run gives if it ends before this interval.
    pub fn results(self, interval: u32) -> Final
        ensures results { (machine : Machine) (s : RunState) → StandsFor machine s self → length s.intervals ≡ interval → result ≡ run_results machine s }
        ensures cores { result.cores ≡ cores_of self }
        ensures numbers { result.numbers ≡ map (λ c. c.number) self.cores.items }
        ensures counts { result.counts ≡ self.counters }
    {
        Final::of(self.cores, self.counters, interval)
    }
}

/// The cores of a machine before their first instruction, in order of their numbers.
pub fn first_cores(
    alloc: Global,
    machine: &Machine,
    image: &Image,
) -> Result<Vec<BoundCore>, NoMemory>
    requires machine { IsMachine machine.now }
    ensures timed { IfOk result (λ cores. timed_of cores.items ≡ map (first_core machine.now image.now) (range_with_len 0 machine.now.cores)) }
    ensures numbered { IfOk result (λ cores. map (λ c. c.number) cores.items ≡ range_with_len 0 machine.now.cores) }
{
    let mut cores = Vec::new(alloc);
    for number in 0..machine.cores {
        cores.push(BoundCore::new(alloc, machine, image, number)?)?;
    }
    Ok(cores)
}

/// Adds to the clock of each core the delay that stands at its number.
pub fn delay_all(cores: &mut [BoundCore], delays: &[u64])
    requires count { length delays.now ≡ length cores.old }
    requires clocks { All (λ c. c.timed.clock ≤ 2 ^ 57) cores.old }
    requires delays { All (λ d. d ≤ 2 ^ 62) delays.now }
    ensures timed { timed_of cores.new ≡ all_delayed delays.now (timed_of cores.old) }
    ensures numbered { AreNumbered cores.old → AreNumbered cores.new }
{
    for (number, core) in cores.iter_mut().enumerate() {
        core.delay(delays[number]);
    }
}
