//! The faults of an object that reads and writes files: how many there were, and the latest.
ghost use Rattle.std.specs.Prelude.{◌≡◌, ◌↔◌, ℕ};
ghost use Rattle.std.specs.IoError.{error_kind};
ghost use Rattle.zs_host.specs.Counting.{one_more};
ghost use Rattle.zs_host.specs.Faults.{Rose, FileFaults};

use crate::{Fault, FileFail, Operation};
use std::io;
use std::io::ErrorKind;
use zs_num::Bytes;

/// How many calls failed, up to 2^64 - 1, and the latest of them.
#[derive(Drop)]
pub(crate) struct FaultLog {
    pub(crate) count: u64,
    pub(crate) latest: Option<Fault>,
}

impl FaultLog {
    /// No call failed so far.
    pub(crate) fn new() -> Self
        ensures { result ≡ record { count = 0; latest = None } }
    {
        FaultLog {
            count: 0,
            latest: None,
        }
    }

    /// Counts a call that failed, and keeps it as the latest.
    pub(crate) fn add(&mut self, operation: Operation, name: Bytes)
        ensures rose { Rose self.old.count self.new.count }
        ensures count { self.new.count ≡ one_more self.old.count }
        ensures latest { self.new.latest ≡ Some (record { operation = operation; name = name }) }
    {
        self.count = self.count.saturating_add(1);
        self.latest = Some(Fault { operation, name });
    }

    /// The answer to a call of the system that did not succeed. It is a fault, unless memory ran
    /// out.
    pub(crate) fn answer(&mut self, error: io::Error, operation: Operation, name: Bytes) -> FileFail
        ensures memory { (result ≡ FileFail.NoMemory) ↔ (error_kind error ≡ ErrorKind.OutOfMemory) }
        ensures faults { FileFaults {T = ℕ} (Err result) self.old.count self.new.count self.old.latest self.new.latest (record { operation = operation; name = name }) }
    {
        if error.kind() == ErrorKind::OutOfMemory {
            return FileFail::NoMemory;
        }
        self.add(operation, name);
        FileFail::Failed
    }
}
