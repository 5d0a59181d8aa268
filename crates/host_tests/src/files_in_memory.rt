//! Files in memory: what they hold, and which calls fail.
use crate::calls::{ReadRow, WriteRow, are_bytes, assert_faults, reads, writes};
use std::alloc::Global;
use std::process::Abort;
use zs_host::{FileFail, MemFiles, Operation, SureFiles};

/// A step of a test.
enum Step {
    /// A name, and the bytes that it is made to hold.
    Set(&'static str, &'static str),
    Write(WriteRow),
    Read(ReadRow),
    /// A name, and the bytes that it holds; None where it is not there.
    Get(&'static str, Option<&'static str>),
}

/// Files of which these calls fail.
fn files(rt: &(impl Abort + AllocGlobal), fails: &[u64]) -> MemFiles {
    MemFiles::new(rt.alloc(), fails).expect(rt, "memory")
}

/// Makes a name hold a text. Answers whether there was memory for it.
fn set(alloc: Global, files: &mut MemFiles, name: &str, text: &str) -> bool {
    files.set(alloc, name, text.as_bytes()).is_ok()
}

/// Checks what a name holds: a text, or `None` where it is not there.
fn holds<R: Abort>(rt: &R, bytes: Option<&[u8]>, want: Option<&str>) {
    match bytes {
        Some(bytes) => are_bytes(rt, bytes, want),
        None => assert!(rt; want.is_none()),
    }
}

/// Takes each step.
fn take<R: Abort>(rt: &R, alloc: Global, files: &mut MemFiles, steps: &[Step]) {
    for step in steps {
        match *step {
            Step::Set(name, text) => assert!(rt; set(alloc, files, name, text)),
            Step::Write(row) => writes(rt, alloc, files, &[row]),
            Step::Read(row) => reads(rt, alloc, files, &[row]),
            Step::Get(name, want) => holds(rt, files.get(name), want),
        }
    }
}

static HELD: [Step; 11] = [
    Step::Set("machine", "cores = 1"),
    Step::Write(("report", "cycles 3", Ok(()))),
    Step::Read(("machine", 100, Some("cores = 1"))),
    Step::Read(("machine", 9, Some("cores = 1"))),
    Step::Read(("machine", 5, Some("cores"))),
    Step::Read(("machine", 0, Some(""))),
    Step::Read(("report", 100, Some("cycles 3"))),
    Step::Write(("report", "", Ok(()))),
    Step::Get("report", Some("")),
    Step::Get("machine", Some("cores = 1")),
    Step::Get("missing", None),
];

#[test]
fn files_in_memory_hold_what_was_set_and_written(rt: HostRuntime) {
    take(&rt, rt.alloc(), &mut files(&rt, &[]), &HELD);
}

/// Three calls failed, of which the latest was the read of `c`.
fn failed<R: Abort>(rt: &R, files: &MemFiles) {
    let want = (3, Operation::Read, "c");
    assert_faults(rt, files.fault_count(), files.latest_fault(), want);
}

static FAILING: [Step; 10] = [
    Step::Set("a", "old"),
    Step::Set("b", "stays"),
    Step::Read(("a", 3, Some("old"))),
    Step::Read(("a", 3, None)),
    Step::Write(("a", "new", Err(FileFail::Failed))),
    Step::Get("a", Some("old")),
    Step::Write(("a", "new", Ok(()))),
    Step::Get("a", Some("new")),
    Step::Get("b", Some("stays")),
    Step::Read(("c", 3, None)),
];

#[test]
fn calls_on_files_in_memory_fail_by_number_and_where_a_name_is_missing(rt: HostRuntime) {
    let mut files = files(&rt, &[1, 2]);
    take(&rt, rt.alloc(), &mut files, &FAILING);
    failed(&rt, &files);
}

static MISSING: [ReadRow; 1] = [("missing", 9, Some(""))];

static WRITTEN: [WriteRow; 1] = [("report", "cycles 3", Ok(()))];

static SURE: [ReadRow; 4] = [
    ("machine", 100, Some("cores = 1")),
    ("machine", 5, Some("cores")),
    ("report", 100, Some("cycles 3")),
    ("missing", 100, Some("")),
];

/// Reads a name before any call, makes two hold bytes, and reads them.
fn read_and_write<R: Abort>(rt: &R, alloc: Global, files: &mut SureFiles) {
    reads(rt, alloc, files, &MISSING);
    assert!(rt; files.set(alloc, "machine", b"cores = 1").is_ok());
    writes(rt, alloc, files, &WRITTEN);
    reads(rt, alloc, files, &SURE);
    are_bytes(rt, files.get("machine"), Some("cores = 1"));
}

#[test]
fn a_name_that_was_never_written_holds_no_bytes(rt: HostRuntime) {
    let mut files = SureFiles::new(rt.alloc());
    read_and_write(&rt, rt.alloc(), &mut files);
}
