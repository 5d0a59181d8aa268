//! The accesses of an interval whose recorded order is still to be told.
ghost use Rattle.std.specs.Prelude.{◌≡◌, IfOk};
ghost use Rattle.access_record.specs.Unordered.{CanBeOrdered, order_of};

use crate::bank_log::BankLog;
use crate::buffers::OrderBuffers;
use crate::order::recorded_cores;
use crate::turns::Turns;
use std::alloc::Global;
use std::marker::Model;
use zs_num::NoMemory;

/// The accesses of an interval, with the turns by which they were made, while the recorded order is
/// still to be told.
#[derive(Drop)]
pub struct Unordered {
    banks: u16,
    // In order of the numbers of the cores.
    logs: Vec<BankLog>,
    // The core of each access, in the order in which they were made.
    turns: Vec<u16>,
}

impl Model for Unordered {
    ghost use Rattle.access_record.specs.Unordered.{CanBeOrdered, UnorderedState};

    ghost Value = { UnorderedState };

    ghost view = { λ u. record { logs = u.logs.items; turns = u.turns.items } };

    ghost invariant = { λ u. CanBeOrdered u.banks u.logs.items u.turns.items };
}

impl Unordered {
    /// The accesses of these logs, which are those of all cores in order of their numbers, where
    /// there are so many banks, and where these are the cores of the turns.
    pub fn of(logs: Vec<BankLog>, turns: Vec<u16>, banks: u16) -> Self
        requires { CanBeOrdered banks logs.items turns.items }
        ensures { result ≡ record { logs = logs.items; turns = turns.items } }
    {
        Unordered { banks, logs, turns }
    }

    /// The cores of the accesses, in recorded order.
    pub fn cores(&self, alloc: Global, buffers: &mut OrderBuffers) -> Result<Vec<u16>, NoMemory>
        ensures { IfOk result (λ list. list.items ≡ order_of self.now) }
    {
        recorded_cores(
            alloc,
            &self.logs,
            Turns::Listed(&self.turns),
            self.banks,
            buffers,
        )
    }

    /// The memory of the logs and of the turns.
    pub fn end(self) -> (Vec<BankLog>, Vec<u16>) {
        (self.logs, self.turns)
    }
}
