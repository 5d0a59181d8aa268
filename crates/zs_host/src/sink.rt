//! Where a run puts bytes: what was appended, and how often it failed.
ghost use Rattle.std.specs.Prelude.{◌≡◌, ◌<◌, ◌≤◌, ◌++◌, ℕ, Bool, List, Ok, length, take, IsTrue, IfOk, OnErr};
ghost use Rattle.zs_host.specs.Faults.{SinkFaults};

use std::alloc::Global;

/// Why a sink took nothing.
#[derive(Clone, Copy, PartialEq, Eq)]
pub enum SinkFail {
    /// The bytes could not be put. It is counted.
    Failed,
    NoMemory,
}

/// A stream that takes bytes.
pub trait Sink {
    /// Whether contracts see which bytes it took. Where they do not, `bytes` says nothing.
    ghost is_seen: { Bool };

    /// The bytes so far.
    ghost bytes: { Self → List ℕ };

    /// How many calls failed, up to 2^64 - 1. It never falls.
    ghost faults: { Self → ℕ };

    /// Appends the first bytes of a piece, and answers how many: one at least, unless the piece is
    /// empty. After an answer that is not Ok nothing was appended.
    fn put(&mut self, alloc: Global, piece: &[u8]) -> Result<usize, SinkFail>
        ensures within { IfOk result (λ n. n ≤ length piece.now) }
        ensures progress { IfOk result (λ n. 0 < length piece.now → 0 < n) }
        ensures empty { length piece.now ≡ 0 → result ≡ Ok 0 }
        ensures appended { IfOk result (λ n. IsTrue is_seen → bytes self.new ≡ bytes self.old ++ take n piece.now) }
        ensures unchanged { OnErr result (IsTrue is_seen → bytes self.new ≡ bytes self.old) }
        ensures faults { SinkFaults result (faults self.old) (faults self.new) };
}
