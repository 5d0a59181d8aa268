//! A list of bytes as one value.
ghost use Rattle.std.specs.Prelude.{◌≡◌, IfOk};

use crate::NoMemory;
use std::alloc::Global;
use std::marker::Model;

/// A list of bytes, which contracts see as a list.
#[derive(Drop)]
pub struct Bytes {
    list: Vec<u8>,
}

impl Model for Bytes {
    ghost use Rattle.std.specs.Prelude.{List, ℕ};

    ghost Value = { List ℕ };

    ghost view = { λ b. b.list.items };
}

impl Bytes {
    /// The bytes of a list, which it takes over.
    pub fn of(list: Vec<u8>) -> Self
        ensures { result ≡ list.items }
    {
        Bytes { list }
    }

    /// A copy of the bytes.
    pub fn from_slice(alloc: Global, bytes: &[u8]) -> Result<Self, NoMemory>
        ensures { IfOk result (λ b. b ≡ bytes.now) }
    {
        Ok(Bytes {
            list: Vec::from_slice(alloc, bytes)?,
        })
    }

    /// The bytes, in place.
    pub fn as_slice(&self) -> &[u8]
        ensures { result.now ≡ self.now }
    {
        &self.list
    }

    /// The list of the bytes.
    pub fn into_list(self) -> Vec<u8>
        ensures { result.items ≡ self }
    {
        self.list
    }
}
