//! Tables of calls, with what each has to answer.
use std::alloc::Global;
use std::process::Abort;
use zs_host::{Fault, FileFail, Files, Operation, Sink, SinkFail};
use zs_num::Bytes;

/// A name, how many bytes are read at most, and the bytes; None where the read fails.
pub(crate) type ReadRow = (&'static str, usize, Option<&'static str>);

/// A name, what is written to it, and the answer.
pub(crate) type WriteRow = (&'static str, &'static str, Result<(), FileFail>);

/// A piece, and the answer to it.
pub(crate) type PutRow = (&'static str, Result<usize, SinkFail>);

/// Whether these are the bytes of a text.
pub(crate) fn are_of(bytes: &[u8], text: &str) -> bool {
    bytes == text.as_bytes()
}

/// Checks bytes; None where there are to be none.
pub(crate) fn are_bytes<R: Abort>(rt: &R, bytes: &[u8], want: Option<&str>) {
    match want {
        Some(text) => assert!(rt; are_of(bytes, text)),
        None => panic!(rt; "bytes where there were to be none"),
    }
}

/// The first bytes of a name.
pub(crate) fn first<F: Files>(
    alloc: Global,
    files: &mut F,
    name: &str,
    most: usize,
) -> Result<Bytes, FileFail> {
    files.read(alloc, name, most)
}

/// Whether a call failed, and memory did not run out.
fn is_failed(fail: &FileFail) -> bool {
    *fail == FileFail::Failed
}

/// The answer to a read is these bytes, or that it failed.
fn is_read<R: Abort>(rt: &R, answer: &Result<Bytes, FileFail>, want: Option<&str>) {
    match answer {
        Ok(bytes) => are_bytes(rt, bytes.as_slice(), want),
        Err(fail) => assert!(rt; want.is_none() && is_failed(fail)),
    }
}

/// Reads each row.
pub(crate) fn reads<R: Abort, F: Files>(rt: &R, alloc: Global, files: &mut F, rows: &[ReadRow]) {
    for &(name, most, want) in rows {
        let answer = first(alloc, files, name, most);
        is_read(rt, &answer, want);
    }
}

/// The answer to a write.
fn written<F: Files>(alloc: Global, files: &mut F, name: &str, text: &str) -> Result<(), FileFail> {
    files.write(alloc, name, text.as_bytes())
}

/// Whether two answers to a write are the same.
fn are_same_written(one: &Result<(), FileFail>, other: &Result<(), FileFail>) -> bool {
    one == other
}

/// Writes each row.
pub(crate) fn writes<R: Abort, F: Files>(rt: &R, alloc: Global, files: &mut F, rows: &[WriteRow]) {
    for (name, text, answer) in rows {
        assert!(rt; are_same_written(&written(alloc, files, *name, *text), answer));
    }
}

/// The answer to a piece.
fn put<S: Sink>(alloc: Global, sink: &mut S, piece: &str) -> Result<usize, SinkFail> {
    sink.put(alloc, piece.as_bytes())
}

/// Whether two answers to a piece are the same.
fn are_same_put(one: &Result<usize, SinkFail>, other: &Result<usize, SinkFail>) -> bool {
    one == other
}

/// Puts each row.
pub(crate) fn puts<R: Abort, S: Sink>(rt: &R, alloc: Global, sink: &mut S, rows: &[PutRow]) {
    for (piece, answer) in rows {
        assert!(rt; are_same_put(&put(alloc, sink, *piece), answer));
    }
}

/// Whether two operations are the same.
fn are_same_operations(one: &Operation, other: &Operation) -> bool {
    *one == *other
}

/// So many calls failed, and the latest was of this operation and name.
pub(crate) fn assert_faults<R: Abort>(
    rt: &R,
    count: u64,
    latest: Option<&Fault>,
    want: (u64, Operation, &str),
) {
    let Some(fault) = latest else {
        panic!(rt; "no fault is kept");
    };
    assert!(rt; count == want.0);
    assert!(rt; are_same_operations(&fault.operation, &want.1));
    assert!(rt; are_of(fault.name.as_slice(), want.2));
}
