//! Stamps that accesses get after they were made.
ghost use Rattle.std.specs.Prelude.{◌≡◌};

use crate::bank_log::BankLog;
use std::snapshot::Snapshot;

/// Of which accesses the stamps are, and in the order of which turns they follow. Only contracts
/// see that: it has no bytes but the number of banks.
#[derive(Drop)]
pub struct Stamped {
    pub(crate) banks: u16,
    pub(crate) turns: Snapshot<Vec<u16>>,
    pub(crate) logs: Snapshot<Vec<BankLog>>,
}

impl Stamped {
    /// The accesses of the logs, where there are so many banks, in the order of the turns.
    pub fn of(banks: u16, turns: &Vec<u16>, logs: &Vec<BankLog>) -> Self
        ensures banks { result.banks ≡ banks }
        ensures turns { result.turns.value ≡ turns.now }
        ensures logs { result.logs.value ≡ logs.now }
    {
        Stamped {
            banks,
            turns: Snapshot::of(turns),
            logs: Snapshot::of(logs),
        }
    }
}
