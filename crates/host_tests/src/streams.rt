//! The streams of the system, and one whose writes fail.
ghost use Rattle.std.specs.Prelude.{◌≤◌, length, IfOk};

use crate::calls::{PutRow, are_bytes, puts};
use std::alloc::Global;
use std::cell::{Cell, RefCell};
use std::fmt::Display;
use std::io;
use std::io::{Error, ErrorKind, Print};
use std::process::Abort;
use zs_host::{RealErr, RealOut, RealSink, SinkFail};

static TO_OUT: [PutRow; 2] = [("to out\n", Ok(7)), ("", Ok(0))];

static TO_ERR: [PutRow; 1] = [("to err\n", Ok(7))];

#[test]
fn standard_output_takes_a_piece(rt: HostRuntime) {
    let mut out = RealOut::new(rt.stdout());
    puts(&rt, rt.alloc(), &mut out, &TO_OUT);
    assert!(rt; out.fault_count() == 0);
}

#[test]
fn standard_error_takes_a_piece(rt: HostRuntime) {
    let mut err = RealErr::new(rt.stderr());
    puts(&rt, rt.alloc(), &mut err, &TO_ERR);
    assert!(rt; err.fault_count() == 0);
}

/// A stream that keeps what it takes. Its first write is interrupted, its second takes half, its
/// third takes none, its fourth finds no reader, its fifth no memory, and the others take all.
#[derive(Drop)]
struct Flaky {
    writes: Cell<u32>,
    taken: RefCell<Vec<u8>>,
}

impl Flaky {
    fn new(alloc: Global) -> Self {
        Flaky {
            writes: Cell::new(0),
            taken: RefCell::new(Vec::new(alloc)),
        }
    }

    /// Takes the first bytes, and answers how many.
    fn take(&self, bytes: &[u8], count: usize) -> io::Result<usize>
        ensures { IfOk result (λ n. n ≤ length bytes.now) }
    {
        let count = count.min(bytes.len());
        match self.taken.try_borrow_mut() {
            Ok(mut taken) => taken.extend_from_slice(&bytes[..count])?,
            Err(_) => return Err(Error::from(ErrorKind::Other)),
        }
        Ok(count)
    }

    /// It took these bytes, in this order, and no others.
    fn took<R: Abort>(&self, rt: &R, want: &str) {
        match self.taken.try_borrow() {
            Ok(taken) => are_bytes(rt, taken.as_slice(), Some(want)),
            Err(_) => panic!(rt; "the bytes are held"),
        }
    }
}

impl Print for Flaky {
    fn print<D: Display + Drop>(&self, _value: D) -> io::Result<()> {
        Err(Error::from(ErrorKind::Unsupported))
    }

    fn println<D: Display + Drop>(&self, _value: D) -> io::Result<()> {
        Err(Error::from(ErrorKind::Unsupported))
    }

    fn write_all(&self, _bytes: &[u8]) -> io::Result<()> {
        Err(Error::from(ErrorKind::Unsupported))
    }

    fn write_some(&self, bytes: &[u8]) -> io::Result<usize> {
        let number = self.writes.get();
        self.writes.set(number.saturating_add(1));
        match number {
            0 => Err(Error::from(ErrorKind::Interrupted)),
            1 => self.take(bytes, bytes.len() / 2),
            2 => Ok(0),
            3 => Err(Error::from(ErrorKind::BrokenPipe)),
            4 => Err(Error::from(ErrorKind::OutOfMemory)),
            _ => self.take(bytes, bytes.len()),
        }
    }
}

/// A put, the bytes that the stream then has, and how many puts failed.
type StreamRow = (PutRow, &'static str, u64);

static PUTS: [StreamRow; 6] = [
    (("abcdef", Ok(3)), "abc", 0),
    (("def", Err(SinkFail::Failed)), "abc", 1),
    (("def", Err(SinkFail::Failed)), "abc", 2),
    (("def", Err(SinkFail::NoMemory)), "abc", 2),
    (("def", Ok(3)), "abcdef", 2),
    (("", Ok(0)), "abcdef", 2),
];

/// Puts each row, and checks the stream's bytes and the sink's faults then.
fn takes<R: Abort>(
    rt: &R,
    alloc: Global,
    stream: &Flaky,
    sink: &mut RealSink<&Flaky>,
    rows: &[StreamRow],
) {
    for &(row, bytes, faults) in rows {
        puts(rt, alloc, sink, &[row]);
        stream.took(rt, bytes);
        assert!(rt; sink.fault_count() == faults);
    }
}

#[test]
fn a_stream_is_tried_again_only_after_an_interruption(rt: HostRuntime) {
    let stream = Flaky::new(rt.alloc());
    let mut sink = RealSink::new(&stream);
    takes(&rt, rt.alloc(), &stream, &mut sink, &PUTS);
}
