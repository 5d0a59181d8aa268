//! The files of the system.
use crate::calls::{ReadRow, WriteRow, assert_faults, first, reads, writes};
use std::alloc::Global;
use std::fs;
use std::process::Abort;
use std::rt::Files as System;
use zs_host::{FileFail, Files, Operation, RealFiles};
use zs_num::Bytes;

const NAME: &str = "written_and_read_again.tmp";

static WRITTEN: [WriteRow; 2] = [
    (NAME, "a longer text than the next", Ok(())),
    (NAME, "cycles 3\n", Ok(())),
];

static READ_AGAIN: [ReadRow; 3] = [
    (NAME, 100, Some("cycles 3\n")),
    (NAME, 9, Some("cycles 3\n")),
    (NAME, 6, Some("cycles")),
];

/// Removes a file.
fn remove(rt: &(impl Abort + System), name: &str) {
    fs::remove_file(rt, name).expect(rt, "the file");
}

/// So many calls failed, and the latest was of this operation and name.
fn failed<R: Abort, S: System>(rt: &R, files: &RealFiles<S>, want: (u64, Operation, &str)) {
    assert_faults(rt, files.fault_count(), files.latest_fault(), want);
}

/// The file is written and read again.
fn calls_succeed<R: Abort, F: Files>(rt: &R, alloc: Global, files: &mut F) {
    writes(rt, alloc, files, &WRITTEN);
    reads(rt, alloc, files, &READ_AGAIN);
}

/// No call failed.
fn none_failed<R: Abort, S: System>(rt: &R, files: &RealFiles<S>) {
    assert!(rt; files.fault_count() == 0);
}

static GONE: [ReadRow; 1] = [(NAME, 6, None)];

static NO_FILE_WRITTEN: [WriteRow; 1] = [(".", "no file", Err(FileFail::Failed))];

static NO_FILE_READ: [ReadRow; 1] = [(".", 6, None)];

/// The file is gone, and `.` is no file: each call fails, and is kept as the latest.
fn calls_fail<R: Abort, S: System>(rt: &R, alloc: Global, files: &mut RealFiles<S>) {
    reads(rt, alloc, files, &GONE);
    failed(rt, files, (1, Operation::Read, NAME));
    writes(rt, alloc, files, &NO_FILE_WRITTEN);
    failed(rt, files, (2, Operation::Write, "."));
    reads(rt, alloc, files, &NO_FILE_READ);
    failed(rt, files, (3, Operation::Read, "."));
}

#[test]
fn a_file_of_the_system_is_written_and_read_again(rt: HostRuntime) {
    let mut files = RealFiles::new(rt);
    calls_succeed(&rt, rt.alloc(), &mut files);
    none_failed(&rt, &files);
    remove(&rt, NAME);
    calls_fail(&rt, rt.alloc(), &mut files);
}

/// How many bytes are read of a file.
fn read_count<F: Files>(alloc: Global, files: &mut F, name: &str, most: usize) -> Option<usize> {
    match first(alloc, files, name, most) {
        Ok(bytes) => Some(bytes.as_slice().len()),
        Err(_) => None,
    }
}

#[test]
fn a_device_without_end_is_read_to_the_limit(rt: HostRuntime) {
    let mut files = RealFiles::new(rt);
    assert!(rt; read_count(rt.alloc(), &mut files, "/dev/zero", 20000) == Some(20000));
}

/// So many bytes. Byte k is k modulo 251, so that no chunk begins as another.
fn pattern(rt: &(impl Abort + AllocGlobal), count: u32) -> Vec<u8> {
    let mut bytes = Vec::new(rt.alloc());
    for number in 0..count {
        bytes.push((number % 251) as u8).expect(rt, "memory");
    }
    bytes
}

/// Writes bytes to a file.
fn write<R: Abort, F: Files>(rt: &R, alloc: Global, files: &mut F, name: &str, bytes: &[u8]) {
    assert!(rt; files.write(alloc, name, bytes).is_ok());
}

/// Whether bytes are these.
fn are_these(bytes: &[u8], want: Option<&[u8]>) -> bool {
    Some(bytes) == want
}

/// Checks that a file was read and gave these bytes.
fn is_read<R: Abort>(rt: &R, bytes: Result<Bytes, FileFail>, want: Option<&[u8]>) {
    match bytes {
        Ok(bytes) => assert!(rt; are_these(bytes.as_slice(), want)),
        Err(_) => panic!(rt; "no bytes"),
    }
}

const CHUNKS: &str = "several_chunks.tmp";

/// The bytes are written, and read whole and in part.
fn chunks_are_read<R: Abort, F: Files>(rt: &R, alloc: Global, files: &mut F, bytes: &[u8]) {
    write(rt, alloc, files, CHUNKS, bytes);
    is_read(rt, first(alloc, files, CHUNKS, 20_001), Some(bytes));
    is_read(rt, first(alloc, files, CHUNKS, 10_000), bytes.get(..10_000));
}

#[test]
fn a_file_of_several_chunks_is_written_and_read_again(rt: HostRuntime) {
    let mut files = RealFiles::new(rt);
    chunks_are_read(&rt, rt.alloc(), &mut files, &pattern(&rt, 20_000));
    none_failed(&rt, &files);
    remove(&rt, CHUNKS);
}
