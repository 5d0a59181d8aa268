//! Standard output and standard error, as sinks.
ghost use Rattle.std.specs.Prelude.{◌≡◌, ◌≤◌, [], false, length, IfOk};
ghost use Rattle.zs_host.specs.Faults.{Rose};
ghost use Rattle.zs_host.specs.RealSink.{failed_puts};

use crate::{Sink, SinkFail};
use std::alloc::Global;
use std::io;
use std::io::{ErrorKind, Print, Stderr, Stdout};

/// A stream of the system, whose bytes are not seen. A put is one write of the system, without a
/// buffer, that is tried again where a signal interrupts it. An empty piece is not written.
#[derive(Drop)]
pub struct RealSink<P> {
    stream: P,
    faults: u64,
}

/// Standard output, made of `rt.stdout()`.
pub type RealOut = RealSink<Stdout>;

/// Standard error, made of `rt.stderr()`.
pub type RealErr = RealSink<Stderr>;

impl<P: Print> RealSink<P> {
    /// A stream of which no put failed so far.
    pub fn new(stream: P) -> Self
        ensures { failed_puts result ≡ 0 }
    {
        RealSink { stream, faults: 0 }
    }

    /// How many puts failed.
    pub fn fault_count(&self) -> u64
        ensures { result ≡ failed_puts self.now }
    {
        self.faults
    }

    /// Counts a put that failed.
    fn fault(&mut self) -> SinkFail
        ensures answer { result ≡ SinkFail.Failed }
        ensures rose { Rose (failed_puts self.old) (failed_puts self.new) }
    {
        self.faults = self.faults.saturating_add(1);
        SinkFail::Failed
    }
}

impl<P: Print> Sink for RealSink<P> {
    ghost is_seen = { false };

    ghost bytes = { λ _. [] };

    ghost faults = { λ s. failed_puts s };

    fn put(&mut self, _alloc: Global, piece: &[u8]) -> Result<usize, SinkFail> {
        if piece.is_empty() {
            return Ok(0);
        }
        match write_some(&self.stream, piece) {
            Ok(0) => Err(self.fault()),
            Ok(count) => Ok(count),
            Err(error) if error.kind() == ErrorKind::OutOfMemory => Err(SinkFail::NoMemory),
            Err(_) => Err(self.fault()),
        }
    }
}

/// Writes the first bytes of a piece, and answers how many.
fn write_some<P: Print>(stream: &P, piece: &[u8]) -> io::Result<usize>
    ensures { IfOk result (λ n. n ≤ length piece.now) }
{
    for _ in 0..u64::MAX {
        match stream.write_some(piece) {
            Err(error) if error.kind() == ErrorKind::Interrupted => {}
            done => return done,
        }
    }
    Err(io::Error::from(ErrorKind::Interrupted))
}
