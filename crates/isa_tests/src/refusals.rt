//! Files that are no executables for this machine, and the check that refuses each.
use crate::changes::{
    CLASS, Change, DATA, E_ENTRY, E_FLAGS, E_MACHINE, E_PHENTSIZE, E_PHNUM, E_PHOFF, E_TYPE,
    P_FILESZ, P_FLAGS, P_MEMSZ, P_OFFSET, P_TYPE, P_VADDR, changed, with_headers,
};
use crate::executables::{BASE, SIZE};
use crate::files::SEVEN;
use elf_load::{BadElf, LoadFail, load};
use std::process::Abort;

/// Why a file is not loaded.
fn refusal_of(rt: &(impl Abort + AllocGlobal), file: &[u8]) -> LoadFail {
    load(rt.alloc(), file, BASE, SIZE)
        .err()
        .expect(rt, "not refused")
}

/// Checks which check refused a file.
fn is_by(rt: &impl Abort, found: &LoadFail, wanted: &BadElf) {
    match found {
        LoadFail::Bad(found) => assert!(rt; *found == *wanted),
        LoadFail::NoMemory => panic!(rt; "out of memory"),
    }
}

/// Checks that this check refuses a file.
fn is_refused(rt: &(impl Abort + AllocGlobal), file: &[u8], refusal: BadElf) {
    is_by(rt, &refusal_of(rt, file), &refusal);
}

/// Checks that SEVEN with these changes is refused so.
fn is_refused_with(rt: &(impl Abort + AllocGlobal), changes: &[Change], refusal: BadElf) {
    is_refused(rt, &changed(rt, &SEVEN, changes), refusal);
}

#[test]
fn each_field_out_of_order_is_refused_by_its_check(rt: HostRuntime) {
    for &(at, width, value, refusal) in &FIELDS {
        is_refused_with(&rt, &[(at, width, value)], refusal);
    }
    for &(size, refusal) in &SIZES {
        is_refused_with(&rt, &[(P_FILESZ, 8, size), (P_MEMSZ, 8, size)], refusal);
    }
}

/// A field of SEVEN's headers, another number in it, and the refusal.
static FIELDS: [(usize, usize, u64, BadElf); 22] = [
    (3, 1, 0x47, BadElf::Magic),
    (CLASS, 1, 1, BadElf::ClassOrData),
    (DATA, 1, 2, BadElf::ClassOrData),
    (E_TYPE, 2, 3, BadElf::Type_),
    (E_MACHINE, 2, 62, BadElf::Machine),
    (E_FLAGS, 4, 1, BadElf::Flags),
    (E_FLAGS, 4, 4, BadElf::Flags),
    (E_PHOFF, 8, u64::MAX, BadElf::Headers),
    (E_PHNUM, 2, 129, BadElf::Headers),
    (E_PHENTSIZE, 2, 55, BadElf::Headers),
    (P_TYPE, 4, 2, BadElf::Dynamic),
    (P_TYPE, 4, 3, BadElf::Dynamic),
    (P_OFFSET, 8, u64::MAX, BadElf::SegmentPastFile { index: 0 }),
    (
        P_VADDR,
        8,
        u64::MAX - 3,
        BadElf::SegmentPastMemory { index: 0 },
    ),
    (P_MEMSZ, 8, u64::MAX, BadElf::SegmentPastMemory { index: 0 }),
    (P_MEMSZ, 8, 11, BadElf::SegmentPastMemory { index: 0 }),
    (E_ENTRY, 8, 0x10002, BadElf::Entry),
    (E_ENTRY, 8, 0x1000C, BadElf::Entry),
    (E_ENTRY, 8, u64::MAX - 3, BadElf::Entry),
    (P_FLAGS, 4, 6, BadElf::Entry),
    (E_PHNUM, 2, 0, BadElf::Entry),
    (P_TYPE, 4, 4, BadElf::Entry),
];

/// How many bytes SEVEN's segment has, of the file and in memory, and the refusal: more than the
/// file, and none.
static SIZES: [(u64, BadElf); 2] = [
    (13, BadElf::SegmentPastFile { index: 0 }),
    (0, BadElf::Entry),
];

#[test]
fn short_and_empty_files_are_refused(rt: HostRuntime) {
    for &(len, refusal) in &LENGTHS {
        is_refused(&rt, SEVEN.get(..len).unwrap_or(&[]), refusal);
    }
    is_refused(&rt, &[0; 64], BadElf::Magic);
}

/// How many bytes of SEVEN a file has, and the refusal.
static LENGTHS: [(usize, BadElf); 3] = [
    (0, BadElf::Short),
    (63, BadElf::Short),
    (131, BadElf::SegmentPastFile { index: 0 }),
];

/// Checks that SEVEN with these changes in its header and in one more is refused so.
fn are_refused(
    rt: &(impl Abort + AllocGlobal),
    first: [Change; 2],
    second: [Change; 2],
    refusal: BadElf,
) {
    is_refused(rt, &with_headers(rt, &[first, second]), refusal);
}

#[test]
fn a_check_is_made_of_all_headers_before_the_next_check(rt: HostRuntime) {
    are_refused(&rt, PAST_FILE, DYNAMIC, BadElf::Dynamic);
    are_refused(
        &rt,
        PAST_MEMORY,
        PAST_FILE,
        BadElf::SegmentPastFile { index: 1 },
    );
    are_refused(
        &rt,
        LOADED,
        PAST_MEMORY,
        BadElf::SegmentPastMemory { index: 1 },
    );
    are_refused(
        &rt,
        LOADED,
        LOADED,
        BadElf::Overlap {
            first: 0,
            second: 1,
        },
    );
}

const LOADED: [Change; 2] = [(P_OFFSET, 8, 176), (P_FLAGS, 4, 7)];

const PAST_FILE: [Change; 2] = [(P_OFFSET, 8, 177), (P_VADDR, 8, BASE)];

const PAST_MEMORY: [Change; 2] = [(P_OFFSET, 8, 176), (P_VADDR, 8, 0)];

const DYNAMIC: [Change; 2] = [(P_OFFSET, 8, 176), (P_TYPE, 4, 2)];
