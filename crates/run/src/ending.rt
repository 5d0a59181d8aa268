//! Whether a run has ended.
ghost use Rattle.std.specs.Prelude.{◌≡◌, ◌≤◌, ◌^◌, is_some, nat_lt};
ghost use Rattle.std.specs.List.{list_all, list_any};
ghost use Rattle.machine_desc.specs.Machine.{IsMachine};
ghost use Rattle.component.specs.ComponentStep.{free_of};
ghost use Rattle.bound_core.specs.NumberedCores.{timed_of};
ghost use Rattle.reference.specs.ReferenceRun.{access_room, at_limit, has_ended_at, have_halted};
ghost use Rattle.reference.specs.Limits.{cycle_limit};

use crate::limits::{ACCESS_LIMIT, CYCLE_LIMIT};
use bound_core::{BESIDE_CYCLES, BoundCore};
use component::Comp;
use machine_desc::Machine;
use stats::Counters;

/// Whether a run has ended before this interval: every core has halted, or a limit is reached.
pub fn has_ended(
    machine: &Machine,
    interval: u32,
    cores: &[BoundCore],
    comps: &[Comp],
    counters: &Counters,
) -> bool
    requires machine { IsMachine machine.now }
    requires accesses { counters.now.accesses ≤ 2 ^ 26 }
    ensures { result ≡ has_ended_at machine.now interval counters.now.accesses (timed_of cores.now) comps.now }
{
    have_halted(cores) || is_at_limit(machine, interval, cores, comps, counters)
}

/// Whether every core has halted.
#[tactic(auto, using(crate::proofs::Cores::halted_each))]
pub(crate) fn have_halted(cores: &[BoundCore]) -> bool
    ensures { result ≡ have_halted (timed_of cores.now) }
{
    are_halted(cores)
}

/// Whether each of them has halted.
fn are_halted(cores: &[BoundCore]) -> bool
    ensures { result ≡ list_all (λ c. is_some c.timed.core.halted) cores.now }
{
    cores.iter().all(|c| c.halted().is_some())
}

/// Whether a limit is reached before this interval.
#[tactic(auto, using(crate::proofs::Cores::late_each), unfolding(reference::specs::ReferenceRun::at_limit))]
fn is_at_limit(
    machine: &Machine,
    interval: u32,
    cores: &[BoundCore],
    comps: &[Comp],
    counters: &Counters,
) -> bool
    requires machine { IsMachine machine.now }
    requires accesses { counters.now.accesses ≤ 2 ^ 26 }
    ensures { result ≡ at_limit machine.now interval counters.now.accesses (timed_of cores.now) comps.now }
{
    interval == machine.intervals
        || counters.accesses() + access_room(machine) > ACCESS_LIMIT
        || is_one_clock_late(cores)
        || is_one_late(comps)
}

/// Whether the clock of a core is too late for another interval.
fn is_one_clock_late(cores: &[BoundCore]) -> bool
    ensures { result ≡ list_any (λ c. nat_lt cycle_limit c.timed.clock) cores.now }
{
    cores.iter().any(|c| c.clock() > CYCLE_LIMIT)
}

/// Whether a component is busy until too late a cycle for another interval.
fn is_one_late(comps: &[Comp]) -> bool
    ensures { result ≡ list_any (λ c. nat_lt cycle_limit (free_of c)) comps.now }
{
    comps.iter().any(|c| c.free() > CYCLE_LIMIT)
}

/// How many accesses all cores together can make in an interval, for which room is taken.
pub fn access_room(machine: &Machine) -> u64
    requires { IsMachine machine.now }
    ensures value { result ≡ access_room machine.now }
    ensures small { result ≤ 2 ^ 22 }
{
    u64::from(machine.cores) * (machine.interval + BESIDE_CYCLES)
}
