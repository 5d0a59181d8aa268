//! What a run gives: its cores, what was counted, and whether a limit ended it.
ghost use Rattle.std.specs.Prelude.{◌≡◌, map, not};
ghost use Rattle.bound_core.specs.NumberedCores.{timed_of};
ghost use Rattle.reference.specs.ReferenceRun.{have_halted};

use crate::ending::have_halted;
use bound_core::BoundCore;
use stats::Counters;
use std::marker::Model;

/// What a run gives.
#[derive(Drop)]
pub struct Final {
    /// The cores at its end, in order of their numbers.
    pub cores: Vec<BoundCore>,
    /// What was counted in all intervals.
    pub counters: Counters,
    /// How many intervals were run.
    pub intervals: u32,
    /// Whether it ended by a limit, with a core that has not halted.
    pub limit: bool,
}

impl Model for Final {
    ghost use Rattle.std.specs.Prelude.{map};
    ghost use Rattle.reference.specs.Results.{Results};

    ghost Value = { Results };

    ghost view = { λ r. record { cores = map (λ c. c.timed) r.cores.items; numbers = map (λ c. c.number) r.cores.items; counts = r.counters; intervals = r.intervals; limit = r.limit } };
}

impl Final {
    /// What a run gives that ended before this interval.
    pub fn of(cores: Vec<BoundCore>, counters: Counters, interval: u32) -> Self
        ensures { result ≡ record { cores = timed_of cores.items; numbers = map (λ c. c.number) cores.items; counts = counters; intervals = interval; limit = not (have_halted (timed_of cores.items)) } }
    {
        let limit = !have_halted(&cores);
        Final {
            cores,
            counters,
            intervals: interval,
            limit,
        }
    }
}
