//! A sink in memory that takes a few bytes at a time, and some of whose calls fail: for tests.
ghost use Rattle.std.specs.Prelude.{◌≡◌, ◌≤◌, ◌<◌, ◌++◌, [], min, max, true, length, take, IsTrue, IfOk, OnErr, IsErrOf};
ghost use Rattle.zs_host.specs.Counting.{one_more};
ghost use Rattle.zs_host.specs.Faults.{SinkFaults};
ghost use Rattle.zs_host.specs.MemSink.{bytes_taken, most_a_put, failing_puts, put_count, sink_fault_count, next_put_fails};

use crate::{Sink, SinkFail};
use std::alloc::Global;
use zs_num::NoMemory;

/// A sink in memory. Its puts are counted from 0, those of an empty piece too, and those whose
/// number is one of `fail` fail, unless the piece is empty.
#[derive(Drop)]
pub struct MemSink {
    taken: Vec<u8>,
    most: usize,
    fail: Vec<u64>,
    puts: u64,
    faults: u64,
}

impl MemSink {
    /// An empty sink that takes at most `most` bytes a put, and at least one. The puts of these
    /// numbers will fail.
    pub fn new(alloc: Global, most: usize, fail: &[u64]) -> Result<Self, NoMemory>
        ensures bytes { IfOk result (λ s. bytes_taken s ≡ []) }
        ensures most { IfOk result (λ s. most_a_put s ≡ max most 1) }
        ensures failing { IfOk result (λ s. failing_puts s ≡ fail.now) }
        ensures puts { IfOk result (λ s. put_count s ≡ 0) }
        ensures faults { IfOk result (λ s. sink_fault_count s ≡ 0) }
    {
        Ok(MemSink {
            taken: Vec::new(alloc),
            most,
            fail: Vec::from_slice(alloc, fail)?,
            puts: 0,
            faults: 0,
        })
    }

    /// The bytes so far.
    pub fn bytes(&self) -> &[u8]
        ensures { result.now ≡ bytes_taken self.now }
    {
        &self.taken
    }

    /// How many puts failed.
    pub fn fault_count(&self) -> u64
        ensures { result ≡ sink_fault_count self.now }
    {
        self.faults
    }
}

impl Sink for MemSink {
    ghost is_seen = { true };

    ghost bytes = { λ s. bytes_taken s };

    ghost faults = { λ s. sink_fault_count s };

    fn put(&mut self, _alloc: Global, piece: &[u8]) -> Result<usize, SinkFail>
        ensures within { IfOk result (λ n. n ≤ length piece.now) }
        ensures progress { IfOk result (λ n. 0 < length piece.now → 0 < n) }
        ensures empty { length piece.now ≡ 0 → result ≡ Ok 0 }
        ensures appended { IfOk result (λ n. bytes_taken self.new ≡ bytes_taken self.old ++ take n piece.now) }
        ensures unchanged { OnErr result (bytes_taken self.new ≡ bytes_taken self.old) }
        ensures faults { SinkFaults result (sink_fault_count self.old) (sink_fault_count self.new) }

        ensures taken { IfOk result (λ n. n ≡ min (length piece.now) (most_a_put self.old)) }
        ensures raised { IsErrOf result SinkFail.Failed → sink_fault_count self.new ≡ one_more (sink_fault_count self.old) }
        ensures fails { IsTrue (next_put_fails self.old) → 0 < length piece.now → IsErrOf result SinkFail.Failed }
        ensures failed { IsErrOf result SinkFail.Failed → IsTrue (next_put_fails self.old) }
        ensures counted { put_count self.new ≡ one_more (put_count self.old) }
        ensures most { most_a_put self.new ≡ most_a_put self.old }
        ensures failing { failing_puts self.new ≡ failing_puts self.old }
    {
        let fails = self.fail.contains(&self.puts);
        self.puts = self.puts.saturating_add(1);
        if piece.is_empty() {
            return Ok(0);
        }
        if fails {
            self.faults = self.faults.saturating_add(1);
            return Err(SinkFail::Failed);
        }
        let count = piece.len().min(self.most.max(1));
        self.taken.extend_from_slice(&piece[..count])?;
        Ok(count)
    }
}
