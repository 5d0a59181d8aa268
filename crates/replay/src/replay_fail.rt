//! Why a replay gives no results.
ghost use Rattle.std.specs.Prelude.{◌≡◌};
ghost use Rattle.replay.specs.declared.replay_fail.ReplayFail.TheVariants as fail;

use thiserror::Error;
use zs_num::NoMemory;

/// Why a replay gives no results.
#[derive(Clone, Copy, Debug, Error)]
pub enum ReplayFail {
    /// The first place of the schedule that is not legal for the run: the number of an interval,
    /// from 0 on, and a place in its list. The place is the list's length where a core still has an
    /// access after the last place. It is 0 where the schedule ends and the run goes on with this
    /// interval, and where the run has ended before this interval and the schedule goes on.
    #[error("place {place} of interval {interval} is not legal")]
    Illegal { interval: u32, place: u32 },
    #[error("out of memory")]
    NoMemory,
}

impl From<NoMemory> for ReplayFail {
    ghost from_gives = { λ _ e. e ≡ fail.NoMemory };

    fn from(_: NoMemory) -> Self {
        ReplayFail::NoMemory
    }
}
