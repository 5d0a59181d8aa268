//! Files in memory, some of whose calls fail: for tests.
ghost use Rattle.std.specs.Prelude.{◌≡◌, ◌≢◌, ◌≤◌, ◌⊎◌, ℕ, List, true, length, take, IsTrue, IfOk, OnOk, OnErr, IsErrOf};
ghost use Rattle.std.specs.Option.{option_map, option_copied};
ghost use Rattle.zs_host.specs.declared.fault.Operation.TheVariants.{Read, Write};
ghost use Rattle.zs_host.specs.Counting.{one_more};
ghost use Rattle.zs_host.specs.Faults.{FileFaults, Rose};
ghost use Rattle.zs_host.specs.Files.{HoldsOrCut};
ghost use Rattle.zs_host.specs.MemFiles.{held_by, failing_calls, call_count, calls_after, fault_count, latest_fault, next_fails};

use crate::fault_log::FaultLog;
use crate::{Fault, FileFail, Files, Operation};
use std::alloc::Global;
use std::collections::BTreeMap;
use zs_num::{Bytes, NoMemory};

/// Files in memory. Reads and writes are counted together from 0, but for those that find no
/// memory, and those whose number is one of `fail` are Failed and leave what the names hold.
#[derive(Drop)]
pub struct MemFiles {
    held: BTreeMap<String, Bytes>,
    fail: Vec<u64>,
    calls: u64,
    faults: FaultLog,
}

impl MemFiles {
    /// Files that hold no names. The calls of these numbers will fail.
    pub fn new(alloc: Global, fail: &[u64]) -> Result<Self, NoMemory>
        ensures names { IfOk result (λ f. (n : List ℕ) → held_by f n ≡ None) }
        ensures failing { IfOk result (λ f. failing_calls f ≡ fail.now) }
        ensures calls { IfOk result (λ f. call_count f ≡ 0) }
        ensures faults { IfOk result (λ f. fault_count f ≡ 0) }
        ensures latest { IfOk result (λ f. latest_fault f ≡ None) }
    {
        Ok(MemFiles {
            held: BTreeMap::new(alloc),
            fail: Vec::from_slice(alloc, fail)?,
            calls: 0,
            faults: FaultLog::new(),
        })
    }

    /// What a name holds, or None where there is no such name. It is no call that counts.
    pub fn get(&self, name: &str) -> Option<&[u8]>
        ensures { option_copied result ≡ held_by self.now name.now }
    {
        match self.held.get(name) {
            Some(bytes) => Some(bytes.as_slice()),
            None => None,
        }
    }

    /// Makes a name hold these bytes. It is no call that counts. Where there is no memory nothing
    /// changes.
    pub fn set(&mut self, alloc: Global, name: &str, bytes: &[u8]) -> Result<(), NoMemory>
        ensures holds { OnOk result (held_by self.new name.now ≡ Some bytes.now) }
        ensures others { (n : List ℕ) → n ≢ name.now → held_by self.new n ≡ held_by self.old n }
        ensures unchanged { OnErr result (held_by self.new name.now ≡ held_by self.old name.now) }
        ensures failing { failing_calls self.new ≡ failing_calls self.old }
        ensures calls { call_count self.new ≡ call_count self.old }
        ensures faults { fault_count self.new ≡ fault_count self.old }
        ensures latest { latest_fault self.new ≡ latest_fault self.old }
    {
        let name = String::from_str(alloc, name)?;
        let bytes = Bytes::from_slice(alloc, bytes)?;
        self.held.insert(name, bytes)?;
        Ok(())
    }

    /// How many calls failed.
    pub fn fault_count(&self) -> u64
        ensures { result ≡ fault_count self.now }
    {
        self.faults.count
    }

    /// The latest call that failed, or None before the first.
    pub fn latest_fault(&self) -> Option<&Fault>
        ensures { option_copied result ≡ latest_fault self.now }
    {
        self.faults.latest.as_ref()
    }

    /// Whether the next call is one that fails.
    fn next_fails(&self) -> bool
        ensures { result ≡ next_fails self.now }
    {
        self.fail.contains(&self.calls)
    }

    /// Counts a call.
    fn count(&mut self)
        ensures names { (n : List ℕ) → held_by self.new n ≡ held_by self.old n }
        ensures failing { failing_calls self.new ≡ failing_calls self.old }
        ensures calls { call_count self.new ≡ one_more (call_count self.old) }
        ensures faults { fault_count self.new ≡ fault_count self.old }
        ensures latest { latest_fault self.new ≡ latest_fault self.old }
    {
        self.calls = self.calls.saturating_add(1);
    }

    /// Counts a call that fails. The name was copied before.
    fn fail(&mut self, operation: Operation, name: Bytes) -> FileFail
        ensures answer { result ≡ FileFail.Failed }
        ensures names { (n : List ℕ) → held_by self.new n ≡ held_by self.old n }
        ensures failing { failing_calls self.new ≡ failing_calls self.old }
        ensures calls { call_count self.new ≡ one_more (call_count self.old) }
        ensures rose { Rose (fault_count self.old) (fault_count self.new) }
        ensures raised { fault_count self.new ≡ one_more (fault_count self.old) }
        ensures latest { latest_fault self.new ≡ Some (record { operation = operation; name = name }) }
    {
        self.count();
        self.faults.add(operation, name);
        FileFail::Failed
    }
}

impl Files for MemFiles {
    ghost is_seen = { true };

    ghost contents = { λ f n. held_by f n };

    ghost faults = { λ f. fault_count f };

    ghost latest = { λ f. latest_fault f };

    fn read(&mut self, alloc: Global, name: &str, most: usize) -> Result<Bytes, FileFail>
        ensures bound { IfOk result (λ bytes. length bytes ≤ most) }
        ensures bytes { IfOk result (λ bytes. option_map (take most) (held_by self.old name.now) ≡ Some bytes) }
        ensures names { (n : List ℕ) → held_by self.new n ≡ held_by self.old n }
        ensures faults { FileFaults result (fault_count self.old) (fault_count self.new) (latest_fault self.old) (latest_fault self.new) (record { operation = Read; name = name.now }) }

        ensures raised { IsErrOf result FileFail.Failed → fault_count self.new ≡ one_more (fault_count self.old) }
        ensures fails { IsTrue (next_fails self.old) → IsErrOf result FileFail.Failed ⊎ IsErrOf result FileFail.NoMemory }
        ensures failed { IsErrOf result FileFail.Failed → IsTrue (next_fails self.old) ⊎ (held_by self.old name.now ≡ None) }
        ensures counted { call_count self.new ≡ calls_after result (call_count self.old) }
        ensures failing { failing_calls self.new ≡ failing_calls self.old }
    {
        let copy = Bytes::from_slice(alloc, name.as_bytes())?;
        let held = if self.next_fails() {
            None
        } else {
            self.get(name)
        };
        let Some(bytes) = held else {
            return Err(self.fail(Operation::Read, copy));
        };
        let first = first_bytes(alloc, bytes, most)?;
        self.count();
        Ok(first)
    }

    fn write(&mut self, alloc: Global, name: &str, bytes: &[u8]) -> Result<(), FileFail>
        ensures written { OnOk result (held_by self.new name.now ≡ Some bytes.now) }
        ensures cut { OnErr result (HoldsOrCut (held_by self.old name.now) bytes.now (held_by self.new name.now)) }
        ensures others { (n : List ℕ) → n ≢ name.now → held_by self.new n ≡ held_by self.old n }
        ensures faults { FileFaults result (fault_count self.old) (fault_count self.new) (latest_fault self.old) (latest_fault self.new) (record { operation = Write; name = name.now }) }

        ensures unchanged { OnErr result (held_by self.new name.now ≡ held_by self.old name.now) }
        ensures raised { IsErrOf result FileFail.Failed → fault_count self.new ≡ one_more (fault_count self.old) }
        ensures fails { IsTrue (next_fails self.old) → IsErrOf result FileFail.Failed ⊎ IsErrOf result FileFail.NoMemory }
        ensures failed { IsErrOf result FileFail.Failed → IsTrue (next_fails self.old) }
        ensures counted { call_count self.new ≡ calls_after result (call_count self.old) }
        ensures failing { failing_calls self.new ≡ failing_calls self.old }
    {
        let copy = Bytes::from_slice(alloc, name.as_bytes())?;
        if self.next_fails() {
            return Err(self.fail(Operation::Write, copy));
        }
        self.set(alloc, name, bytes)?;
        self.count();
        Ok(())
    }
}

/// The first `most` bytes, or all where there are fewer.
fn first_bytes(alloc: Global, bytes: &[u8], most: usize) -> Result<Bytes, NoMemory>
    ensures { IfOk result (λ first. first ≡ take most bytes.now) }
{
    Bytes::from_slice(alloc, &bytes[..most.min(bytes.len())])
}
