//! Why a file is no events file.
ghost use Rattle.std.specs.Prelude.{◌≡◌};
ghost use Rattle.certify.specs.declared.bad_events.CheckFail.TheVariants as fail;

use thiserror::Error;
use zs_num::NoMemory;

/// The first thing that is wrong with an events file, which is read from front to back.
#[derive(Clone, Copy, Debug, PartialEq, Eq, Error)]
pub enum BadEvents {
    /// The field that begins at this byte does not lie wholly in the file.
    #[error("the file ends within the field at byte {at}")]
    Short { at: u64 },
    #[error("the file does not begin with the magic of an events file")]
    Magic,
    #[error("the version is {found}")]
    Version { found: u32 },
    #[error("the events are for {found} components")]
    Components { found: u32 },
    /// The first event whose record has a number without a meaning.
    #[error("event {place} of interval {interval} has no meaning")]
    Field { interval: u32, place: u32 },
    /// The byte after the last event is not the end of the file.
    #[error("the file goes on at byte {at}")]
    After { at: u64 },
}

/// Why a file was not checked.
#[derive(Clone, Copy, Debug, Error)]
pub enum CheckFail {
    #[error(transparent)]
    Bad(BadEvents),
    #[error("out of memory")]
    NoMemory,
}

impl From<NoMemory> for CheckFail {
    ghost from_gives = { λ _ e. e ≡ fail.NoMemory };

    fn from(_: NoMemory) -> Self {
        CheckFail::NoMemory
    }
}

impl From<BadEvents> for CheckFail {
    ghost from_gives = { λ bad e. e ≡ fail.Bad bad };

    fn from(bad: BadEvents) -> Self {
        CheckFail::Bad(bad)
    }
}
