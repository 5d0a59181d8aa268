//! Sinks in memory: how much they take of a piece.
use crate::calls::{PutRow, are_bytes, puts};
use std::alloc::Global;
use std::process::Abort;
use zs_host::{MemSink, SinkFail, SureSink};

/// A put, the bytes that the sink then has, and how many puts failed.
type SinkRow = (PutRow, &'static str, u64);

/// A sink that takes so many bytes a put, and of whose puts these fail.
fn sink(rt: &(impl Abort + AllocGlobal), most: usize, fails: &[u64]) -> MemSink {
    MemSink::new(rt.alloc(), most, fails).expect(rt, "memory")
}

/// Puts each row, and checks the sink's bytes and faults then.
fn takes<R: Abort>(rt: &R, alloc: Global, sink: &mut MemSink, rows: &[SinkRow]) {
    for &(row, bytes, faults) in rows {
        puts(rt, alloc, sink, &[row]);
        are_bytes(rt, sink.bytes(), Some(bytes));
        assert!(rt; sink.fault_count() == faults);
    }
}

static TWO_A_PUT: [SinkRow; 4] = [
    (("abc", Ok(2)), "ab", 0),
    (("", Ok(0)), "ab", 0),
    (("xyz", Err(SinkFail::Failed)), "ab", 1),
    (("c", Ok(1)), "abc", 1),
];

#[test]
fn a_sink_in_memory_takes_two_bytes_a_put(rt: HostRuntime) {
    takes(&rt, rt.alloc(), &mut sink(&rt, 2, &[2]), &TWO_A_PUT);
}

static ONE: [SinkRow; 1] = [(("abc", Ok(1)), "a", 0)];

#[test]
fn a_sink_in_memory_takes_a_byte_at_least(rt: HostRuntime) {
    takes(&rt, rt.alloc(), &mut sink(&rt, 0, &[]), &ONE);
}

static WHOLE: [PutRow; 3] = [("abc", Ok(3)), ("", Ok(0)), ("xy", Ok(2))];

/// Puts each row, and checks the bytes that the sink then has.
fn takes_whole<R: Abort>(rt: &R, alloc: Global, sink: &mut SureSink) {
    puts(rt, alloc, sink, &WHOLE);
    are_bytes(rt, sink.bytes(), Some("abcxy"));
}

#[test]
fn a_sure_sink_takes_each_piece_whole(rt: HostRuntime) {
    let mut sink = SureSink::new(rt.alloc());
    takes_whole(&rt, rt.alloc(), &mut sink);
}
