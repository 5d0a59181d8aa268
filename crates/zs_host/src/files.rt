//! Files by name, as a run sees them: which bytes a name holds, and which calls failed.
ghost use Rattle.std.specs.Prelude.{◌≡◌, ◌≢◌, ◌≤◌, ℕ, Bool, List, Option, Some, Ok, length, take, IsTrue, IfOk, OnOk, OnErr};
ghost use Rattle.std.specs.Option.{option_map};
ghost use Rattle.zs_host.specs.declared.fault.Fault.{Fault};
ghost use Rattle.zs_host.specs.declared.fault.Operation.TheVariants.{Read, Write};
ghost use Rattle.zs_host.specs.Faults.{FileFaults};
ghost use Rattle.zs_host.specs.Files.{HoldsOrCut};

use std::alloc::Global;
use zs_num::Bytes;

/// Why a call on files did not do what it was to do.
#[derive(Clone, Copy, PartialEq, Eq)]
pub enum FileFail {
    /// The file could not be read or written. It is counted, and kept as the latest fault.
    Failed,
    NoMemory,
}

/// Files by name.
pub trait Files {
    /// Whether contracts see which bytes its names hold. Where they do not, `contents` says
    /// nothing.
    ghost is_seen: { Bool };

    /// The bytes that a name holds, or None where there is no such name.
    ghost contents: { Self → List ℕ → Option (List ℕ) };

    /// How many calls failed, up to 2^64 - 1. It never falls.
    ghost faults: { Self → ℕ };

    /// The latest call that failed, or None before the first.
    ghost latest: { Self → Option Fault };

    /// The first `most` bytes of a name, or all where there are fewer. A name that is not there is
    /// a fault. Nothing changes but the count of faults and the latest fault.
    fn read(&mut self, alloc: Global, name: &str, most: usize) -> Result<Bytes, FileFail>
        ensures bound { IfOk result (λ bytes. length bytes ≤ most) }
        ensures bytes { IfOk result (λ bytes. IsTrue is_seen → option_map (take most) (contents self.old name.now) ≡ Some bytes) }
        ensures names { IsTrue is_seen → (n : List ℕ) → contents self.new n ≡ contents self.old n }
        ensures faults { FileFaults result (faults self.old) (faults self.new) (latest self.old) (latest self.new) (record { operation = Read; name = name.now }) };

    /// Makes a name hold these bytes. After an answer that is not Ok the name holds what it held,
    /// or a prefix of the bytes.
    fn write(&mut self, alloc: Global, name: &str, bytes: &[u8]) -> Result<(), FileFail>
        ensures written { OnOk result (IsTrue is_seen → contents self.new name.now ≡ Some bytes.now) }
        ensures cut { OnErr result (IsTrue is_seen → HoldsOrCut (contents self.old name.now) bytes.now (contents self.new name.now)) }
        ensures others { IsTrue is_seen → (n : List ℕ) → n ≢ name.now → contents self.new n ≡ contents self.old n }
        ensures faults { FileFaults result (faults self.old) (faults self.new) (latest self.old) (latest self.new) (record { operation = Write; name = name.now }) };
}
