//! Executables like SEVEN with other numbers in their headers.
use crate::files::SEVEN;
use crate::lists::{add, copy_of};
use std::process::Abort;

/// A number to write into a file: its place, how many bytes it takes there, and the number.
pub(crate) type Change = (usize, usize, u64);

// The fields of SEVEN's headers.
pub(crate) const CLASS: usize = 4;

pub(crate) const DATA: usize = 5;

pub(crate) const E_TYPE: usize = 16;

pub(crate) const E_MACHINE: usize = 18;

pub(crate) const E_ENTRY: usize = 24;

pub(crate) const E_PHOFF: usize = 32;

pub(crate) const E_FLAGS: usize = 48;

pub(crate) const E_PHENTSIZE: usize = 54;

pub(crate) const E_PHNUM: usize = 56;

pub(crate) const P_TYPE: usize = 64;

pub(crate) const P_FLAGS: usize = 68;

pub(crate) const P_OFFSET: usize = 72;

pub(crate) const P_VADDR: usize = 80;

pub(crate) const P_FILESZ: usize = 96;

pub(crate) const P_MEMSZ: usize = 104;

/// Writes a number at its place, little-endian.
fn put(file: &mut [u8], change: Change) {
    let (at, width, value) = change;
    for (i, byte) in value.to_le_bytes().iter().enumerate() {
        if i < width {
            if let Some(target) = file.get_mut(at.wrapping_add(i)) {
                *target = *byte;
            }
        }
    }
}

/// A copy of these bytes with the changes made.
pub(crate) fn changed(
    rt: &(impl Abort + AllocGlobal),
    bytes: &[u8],
    changes: &[Change],
) -> Vec<u8> {
    let mut file = copy_of(rt, bytes);
    for change in changes {
        put(&mut file, *change);
    }
    file
}

/// Adds the header of SEVEN's segment with these changes, each at its place in SEVEN.
fn add_header(rt: &(impl Abort + AllocGlobal), file: &mut Vec<u8>, changes: &[Change]) {
    let header = changed(rt, &SEVEN[..120], changes);
    add(rt, file, header.get(64..).unwrap_or(&[]));
}

/// The headers of SEVEN's segment with changes of their own, each at its place in SEVEN, and the
/// bytes of the segment.
pub(crate) fn with_headers(rt: &(impl Abort + AllocGlobal), headers: &[[Change; 2]]) -> Vec<u8> {
    let mut file = changed(rt, &SEVEN[..64], &[(E_PHNUM, 2, headers.len() as u64)]);
    for changes in headers {
        add_header(rt, &mut file, changes);
    }
    add(rt, &mut file, &SEVEN[120..]);
    file
}
