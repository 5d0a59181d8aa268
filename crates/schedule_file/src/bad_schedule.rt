//! Why a file is not a schedule.
ghost use Rattle.std.specs.Prelude.{◌≡◌};
ghost use Rattle.schedule_file.specs.declared.bad_schedule.ScheduleReadFail.TheVariants as fail;

use thiserror::Error;
use zs_num::NoMemory;

/// The first thing that is wrong with a schedule file, which is read from front to back.
#[derive(Clone, Copy, Debug, PartialEq, Eq, Error)]
pub enum BadSchedule {
    /// The field that begins at this byte does not lie wholly in the file.
    #[error("the file ends within the field at byte {at}")]
    Short { at: u64 },
    #[error("the file does not begin with the magic of a schedule")]
    Magic,
    #[error("the version is {found}")]
    Version { found: u32 },
    #[error("the schedule is for {found} cores")]
    Cores { found: u32 },
    /// The first place of an interval's list that names no core.
    #[error("place {place} of interval {interval} names no core")]
    Core { interval: u32, place: u32 },
    /// The byte after the last list is not the end of the file.
    #[error("the file goes on at byte {at}")]
    After { at: u64 },
}

/// Why a schedule was not read.
#[derive(Clone, Copy, Debug, Error)]
pub enum ScheduleReadFail {
    #[error(transparent)]
    Bad(BadSchedule),
    #[error("out of memory")]
    NoMemory,
}

impl From<NoMemory> for ScheduleReadFail {
    ghost from_gives = { λ _ e. e ≡ fail.NoMemory };

    fn from(_: NoMemory) -> Self {
        ScheduleReadFail::NoMemory
    }
}

impl From<BadSchedule> for ScheduleReadFail {
    ghost from_gives = { λ bad e. e ≡ fail.Bad bad };

    fn from(bad: BadSchedule) -> Self {
        ScheduleReadFail::Bad(bad)
    }
}
