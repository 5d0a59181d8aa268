//! A run between two intervals that is traced.
ghost use Rattle.std.specs.Prelude.{◌≡◌, ◌≤◌, ◌^◌, IfOk, length, map};
ghost use Rattle.machine_desc.specs.declared.machine.Machine.{Machine};
ghost use Rattle.machine_desc.specs.Machine.{IsMachine};
ghost use Rattle.bound_core.specs.NumberedCores.{timed_of};
ghost use Rattle.reference.specs.ReferenceRun.{RunState, has_ended_at, run_results};
ghost use Rattle.run.specs.Simulation.{IsAtStart, StandsFor};
ghost use Rattle.trace.specs.TracedRun.{as_run};

use crate::logged_port::LoggedPort;
use bound_core::BoundCore;
use component::{Comp, Comps, components};
use elf_load::Image;
use machine_desc::Machine;
use run::{Final, first_cores, has_ended};
use rv_core::Leg;
use stats::Counters;
use std::alloc::Global;
use zs_num::NoMemory;

/// The legs of a core's way for which there is room.
const LEGS: usize = 1024;

/// A run between two intervals: its cores in order of their numbers, caches and memory with the
/// accesses of an interval, its components, what was counted so far, and room for the way of a core.
#[derive(Drop)]
pub struct TracedRun {
    pub cores: Vec<BoundCore>,
    pub port: LoggedPort,
    pub comps: Comps<Comp>,
    pub counters: Counters,
    pub way: Vec<Leg>,
}

impl TracedRun {
    /// A run before its first interval, of a machine into which the executable was loaded.
    pub fn new(alloc: Global, machine: &Machine, image: &Image) -> Result<Self, NoMemory>
        requires machine { IsMachine machine.now }
        requires base { image.now.base ≡ machine.now.memory.base }
        requires size { image.now.size ≡ machine.now.memory.size }
        ensures { IfOk result (λ run. IsAtStart machine.now image.now (as_run machine.now run)) }
    {
        stats::laws::nothing_is_counted_first();
        bound_core::laws::intervals_begin();
        // The address of the first instruction is a multiple of 4, as that of every image.
        let _sound = image.base();
        Ok(TracedRun {
            cores: first_cores(alloc, machine, image)?,
            port: LoggedPort::new(alloc, machine, image)?,
            comps: components(alloc, machine)?,
            counters: Counters::new(alloc, machine)?,
            way: Vec::with_capacity(alloc, LEGS)?,
        })
    }

    /// Whether the run has ended before this interval.
    pub fn has_ended(&self, machine: &Machine, interval: u32) -> bool
        requires machine { IsMachine machine.now }
        requires accesses { self.now.counters.accesses ≤ 2 ^ 26 }
        ensures { result ≡ has_ended_at machine.now interval self.now.counters.accesses (timed_of self.now.cores.items) self.now.comps }
    {
        has_ended(
            machine,
            interval,
            &self.cores,
            self.comps.as_slice(),
            &self.counters,
        )
    }

    /// What the run gives if it ends before this interval.
    pub fn results(self, interval: u32) -> Final
        ensures results { (machine : Machine) (s : RunState) → StandsFor machine s (as_run machine self) → length s.intervals ≡ interval → result ≡ run_results machine s }
        ensures cores { result.cores ≡ timed_of self.cores.items }
        ensures numbers { result.numbers ≡ map (λ c. c.number) self.cores.items }
        ensures counts { result.counts ≡ self.counters }
    {
        Final::of(self.cores, self.counters, interval)
    }
}
