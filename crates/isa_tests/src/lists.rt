//! Lists of bytes that tests put together.
use std::process::Abort;

/// A copy of these bytes.
pub(crate) fn copy_of(rt: &(impl Abort + AllocGlobal), bytes: &[u8]) -> Vec<u8> {
    Vec::from_slice(rt.alloc(), bytes).expect(rt, "memory")
}

/// Adds bytes at the end.
pub(crate) fn add(rt: &impl Abort, list: &mut Vec<u8>, bytes: &[u8]) {
    list.extend_from_slice(bytes).expect(rt, "memory");
}

/// Adds the bytes of a word, little-endian.
pub(crate) fn add_word(rt: &impl Abort, list: &mut Vec<u8>, word: u32) {
    add(rt, list, &word.to_le_bytes());
}

/// Adds the bytes of a number, little-endian.
pub(crate) fn add_number(rt: &impl Abort, list: &mut Vec<u8>, number: u64) {
    add(rt, list, &number.to_le_bytes());
}
