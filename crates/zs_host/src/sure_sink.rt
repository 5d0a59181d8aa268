//! A sink in memory that never fails: for tests.
ghost use Rattle.std.specs.Prelude.{◌≡◌, ◌<◌, ◌≤◌, ◌++◌, [], true, length, take, Ok, IfOk, OnErr, IsErrOf};
ghost use Rattle.zs_host.specs.Faults.{SinkFaults};
ghost use Rattle.zs_host.specs.Sure.{bytes_put};

use crate::{Sink, SinkFail};
use std::alloc::Global;

/// A sink in memory that takes each piece whole, and whose puts never fail.
#[derive(Drop)]
pub struct SureSink {
    taken: Vec<u8>,
}

impl SureSink {
    /// An empty sink.
    pub fn new(alloc: Global) -> Self
        ensures { bytes_put result ≡ [] }
    {
        SureSink {
            taken: Vec::new(alloc),
        }
    }

    /// The bytes so far.
    pub fn bytes(&self) -> &[u8]
        ensures { result.now ≡ bytes_put self.now }
    {
        &self.taken
    }
}

impl Sink for SureSink {
    ghost is_seen = { true };

    ghost bytes = { λ s. bytes_put s };

    ghost faults = { λ _. 0 };

    fn put(&mut self, _alloc: Global, piece: &[u8]) -> Result<usize, SinkFail>
        ensures within { IfOk result (λ n. n ≤ length piece.now) }
        ensures progress { IfOk result (λ n. 0 < length piece.now → 0 < n) }
        ensures empty { length piece.now ≡ 0 → result ≡ Ok 0 }
        ensures appended { IfOk result (λ n. bytes_put self.new ≡ bytes_put self.old ++ take n piece.now) }
        ensures unchanged { OnErr result (bytes_put self.new ≡ bytes_put self.old) }
        ensures faults { SinkFaults result 0 0 }

        ensures whole { IfOk result (λ n. n ≡ length piece.now) }
        ensures sure { ¬ IsErrOf result SinkFail.Failed }
    {
        if piece.is_empty() {
            return Ok(0);
        }
        self.taken.extend_from_slice(piece)?;
        Ok(piece.len())
    }
}
