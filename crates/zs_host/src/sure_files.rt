//! Files in memory that never fail: for tests.
ghost use Rattle.std.specs.Prelude.{◌≡◌, ◌≢◌, ◌≤◌, ℕ, List, [], true, length, take, Some, None, IfOk, OnOk, OnErr, IsErrOf};
ghost use Rattle.zs_host.specs.declared.fault.Operation.TheVariants.{Read, Write};
ghost use Rattle.zs_host.specs.Faults.{FileFaults};
ghost use Rattle.zs_host.specs.Sure.{bytes_held};

use crate::{FileFail, Files};
use std::alloc::Global;
use std::collections::BTreeMap;
use zs_num::{Bytes, NoMemory};

/// Files in memory whose calls never fail. A name that was never written holds no bytes, so no name
/// is missing.
#[derive(Drop)]
pub struct SureFiles {
    held: BTreeMap<String, Bytes>,
}

impl SureFiles {
    /// Files in which every name holds no bytes.
    pub fn new(alloc: Global) -> Self
        ensures { (n : List ℕ) → bytes_held result n ≡ [] }
    {
        SureFiles {
            held: BTreeMap::new(alloc),
        }
    }

    /// What a name holds.
    pub fn get(&self, name: &str) -> &[u8]
        ensures { result.now ≡ bytes_held self.now name.now }
    {
        match self.held.get(name) {
            Some(bytes) => bytes.as_slice(),
            None => &[],
        }
    }

    /// Makes a name hold these bytes. Where there is no memory nothing changes.
    pub fn set(&mut self, alloc: Global, name: &str, bytes: &[u8]) -> Result<(), NoMemory>
        ensures holds { OnOk result (bytes_held self.new name.now ≡ bytes.now) }
        ensures others { (n : List ℕ) → n ≢ name.now → bytes_held self.new n ≡ bytes_held self.old n }
        ensures unchanged { OnErr result (bytes_held self.new name.now ≡ bytes_held self.old name.now) }
    {
        let name = String::from_str(alloc, name)?;
        let bytes = Bytes::from_slice(alloc, bytes)?;
        self.held.insert(name, bytes)?;
        Ok(())
    }
}

impl Files for SureFiles {
    ghost is_seen = { true };

    ghost contents = { λ f n. Some (bytes_held f n) };

    ghost faults = { λ _. 0 };

    ghost latest = { λ _. None };

    fn read(&mut self, alloc: Global, name: &str, most: usize) -> Result<Bytes, FileFail>
        ensures bound { IfOk result (λ bytes. length bytes ≤ most) }
        ensures bytes { IfOk result (λ bytes. bytes ≡ take most (bytes_held self.old name.now)) }
        ensures names { (n : List ℕ) → bytes_held self.new n ≡ bytes_held self.old n }
        ensures faults { FileFaults result 0 0 None None (record { operation = Read; name = name.now }) }

        ensures sure { ¬ IsErrOf result FileFail.Failed }
    {
        let bytes = self.get(name);
        Ok(Bytes::from_slice(alloc, &bytes[..most.min(bytes.len())])?)
    }

    fn write(&mut self, alloc: Global, name: &str, bytes: &[u8]) -> Result<(), FileFail>
        ensures written { OnOk result (bytes_held self.new name.now ≡ bytes.now) }
        ensures others { (n : List ℕ) → n ≢ name.now → bytes_held self.new n ≡ bytes_held self.old n }
        ensures faults { FileFaults result 0 0 None None (record { operation = Write; name = name.now }) }

        ensures unchanged { OnErr result (bytes_held self.new name.now ≡ bytes_held self.old name.now) }
        ensures sure { ¬ IsErrOf result FileFail.Failed }
    {
        Ok(self.set(alloc, name, bytes)?)
    }
}
