//! What many tests check. An assertion costs seconds to prove where large values live, and one with
//! a message some more, so these stand here once.
use std::process::Abort;

/// Checks a number, with what tells the row of its table: an address, a word or an operand.
pub(crate) fn is_number(rt: &impl Abort, at: u64, found: u64, wanted: u64) {
    assert_eq!(rt; found, wanted, "at {at:#x}");
}

/// Checks how many there are.
pub(crate) fn are_so_many(rt: &impl Abort, found: usize, wanted: usize) {
    assert!(rt; found == wanted);
}

/// Checks bytes.
pub(crate) fn are_bytes(rt: &impl Abort, found: &[u8], wanted: &[u8]) {
    assert!(rt; found == wanted);
}
