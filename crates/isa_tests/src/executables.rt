//! Executables of one segment.
ghost use Rattle.std.specs.Prelude.{◌≡◌, ◌+◌, ◌≤◌, ◌^◌};

use crate::lists::{add_number, add_word, copy_of};
use elf_load::{Image, load};
use std::process::Abort;

/// The first address of memory.
pub(crate) const BASE: u64 = 0x1_0000;

/// The size of memory in bytes.
pub(crate) const SIZE: u64 = 0x10_0000;

/// An ELF header and the header of one segment that may be executed, without its lengths: the
/// file's bytes from 120 on are at 0x10000.
static HEADERS: [u8; 88] = [
    0x7f, 0x45, 0x4c, 0x46, 0x02, 0x01, 0x01, 0x00, 0x00, 0x00, 0x00, 0x00, 0x00, 0x00, 0x00, 0x00,
    0x02, 0x00, 0xf3, 0x00, 0x01, 0x00, 0x00, 0x00, 0x00, 0x00, 0x01, 0x00, 0x00, 0x00, 0x00, 0x00,
    0x40, 0x00, 0x00, 0x00, 0x00, 0x00, 0x00, 0x00, 0x00, 0x00, 0x00, 0x00, 0x00, 0x00, 0x00, 0x00,
    0x00, 0x00, 0x00, 0x00, 0x40, 0x00, 0x38, 0x00, 0x01, 0x00, 0x00, 0x00, 0x00, 0x00, 0x00, 0x00,
    0x01, 0x00, 0x00, 0x00, 0x05, 0x00, 0x00, 0x00, 0x78, 0x00, 0x00, 0x00, 0x00, 0x00, 0x00, 0x00,
    0x00, 0x00, 0x01, 0x00, 0x00, 0x00, 0x00, 0x00,
];

/// The file of a program of these words.
pub(crate) fn file_of(rt: &(impl Abort + AllocGlobal), words: &[u32]) -> Vec<u8> {
    let bytes = 4 * words.len() as u64;
    let mut file = copy_of(rt, &HEADERS);
    for number in [BASE, bytes, bytes, 1] {
        add_number(rt, &mut file, number);
    }
    for word in words {
        add_word(rt, &mut file, *word);
    }
    file
}

/// The image of a program of these words in a memory of `size` bytes from `base` on.
pub(crate) fn loaded(rt: &(impl Abort + AllocGlobal), words: &[u32], base: u64, size: u64) -> Image
    requires { base + size ≤ 2 ^ 48 }
    ensures base { result.base ≡ base }
    ensures size { result.size ≡ size }
{
    load(rt.alloc(), &file_of(rt, words), base, size).expect(rt, "an image")
}
