//! Why a text is no machine description.
use crate::KeyName;
use std::alloc::{AllocError, AllocFailed};
use thiserror::Error;

/// The first check of a description that fails. A key of a table is named as `table.key`.
#[derive(Debug, Drop, Error)]
pub enum BadMachine {
    /// The text is not UTF-8, or not TOML.
    #[error("the description is no TOML document")]
    Text,
    /// A key is not there.
    #[error("the key {key} is missing")]
    Missing { key: KeyName },
    /// A value is not of its kind: a table, an integer, or an array of integers.
    #[error("the value of {key} is of another kind")]
    Kind { key: KeyName },
    /// An integer is out of its range, or an array has another length than it has to have. The
    /// value is the integer, or the array's length.
    #[error("the value {value} of {key} is out of range")]
    Range { key: KeyName, value: i64 },
    /// A key is none that a description has.
    #[error("the key {key} is unknown")]
    Unknown { key: KeyName },
    /// The sets of a cache are no multiple of the banks.
    #[error("the value of {key} is no multiple of the number of banks")]
    Ratio { key: KeyName },
    /// The domain of a component is not there.
    #[error("component {component} is in a domain that is not there")]
    Domain { component: u16 },
}

/// Why a description was not read.
#[derive(Debug, Drop, Error)]
pub enum MachineFail {
    #[error(transparent)]
    Bad(BadMachine),
    #[error("out of memory")]
    NoMemory,
}

impl From<AllocError> for MachineFail {
    ghost use Rattle.std.specs.Prelude.{◌≡◌};
    ghost use Rattle.machine_desc.specs.declared.errors.MachineFail.TheVariants.{NoMemory};

    ghost from_gives = { λ _ e. e ≡ NoMemory };

    fn from(_: AllocError) -> Self {
        MachineFail::NoMemory
    }
}

impl<T: Drop> From<AllocFailed<T>> for MachineFail {
    ghost use Rattle.std.specs.Prelude.{◌≡◌};
    ghost use Rattle.machine_desc.specs.declared.errors.MachineFail.TheVariants.{NoMemory};

    ghost from_gives = { λ _ e. e ≡ NoMemory };

    fn from(_: AllocFailed<T>) -> Self {
        MachineFail::NoMemory
    }
}
