//! Images of files, and what is wanted of them.
ghost use Rattle.std.specs.Prelude.{◌≡◌};

use crate::checks::{are_bytes, are_so_many, is_number};
use crate::executables::{BASE, SIZE};
use elf_load::{Image, Segment, load};
use rv_blocks::DecodedProgram;
use std::process::Abort;

/// The image of a file in a memory of `SIZE` bytes from `BASE` on.
pub(crate) fn read(rt: &(impl Abort + AllocGlobal), file: &[u8]) -> Image {
    load(rt.alloc(), file, BASE, SIZE).expect(rt, "an image")
}

/// The program of an image, decoded once.
pub(crate) fn decoded<'a>(rt: &(impl Abort + AllocGlobal), image: &'a Image) -> DecodedProgram<'a> {
    DecodedProgram::of(rt.alloc(), image).expect(rt, "memory")
}

/// The address of the first byte of memory.
fn base_of(image: &Image) -> u64
    ensures { result ≡ image.now.base }
{
    image.base()
}

/// Checks the first address of memory, its size, and where the program begins.
pub(crate) fn lies_at(rt: &impl Abort, image: &Image, base: u64, size: u64, entry: u64) {
    is_number(rt, base, image.base(), base);
    is_number(rt, base, image.size(), size);
    is_number(rt, base, image.entry(), entry);
}

/// Checks the word at an address.
fn is_word(rt: &impl Abort, found: Option<u32>, wanted: Option<u32>) {
    assert!(rt; found == wanted);
}

/// Checks the words at these addresses, with and without a place to look at first.
pub(crate) fn has_words(
    rt: &impl Abort,
    image: &Image,
    near: usize,
    words: &[(u64, Option<u32>)],
) -> usize {
    let mut near = near;
    for &(pc, word) in words {
        is_word(rt, image.word(pc), word);
        is_word(rt, image.word_near(&mut near, pc), word);
    }
    near
}

/// The byte at an address, where it is in memory.
fn byte_of(image: &Image, addr: u64) -> Option<u8> {
    let (base, size) = (base_of(image), image.size());
    if base <= addr && addr - base < size {
        Some(image.byte(addr))
    } else {
        None
    }
}

/// Checks the bytes at these addresses.
pub(crate) fn has_bytes(rt: &impl Abort, image: &Image, bytes: &[(u64, u8)]) {
    for &(addr, byte) in bytes {
        assert!(rt; byte_of(image, addr) == Some(byte));
    }
}

/// Copies the bytes from an address on, where all are in memory.
fn copy(image: &Image, addr: u64, out: &mut [u8]) -> bool {
    let (base, size) = (base_of(image), image.size());
    let is_there = base <= addr && addr - base <= size && out.len() as u64 <= size - (addr - base);
    if is_there {
        image.copy_to(addr, out);
    }
    is_there
}

/// Checks the six bytes from an address on.
pub(crate) fn has_copied(rt: &impl Abort, image: &Image, addr: u64, bytes: [u8; 6]) {
    let mut copied = [0xff; 6];
    assert!(rt; copy(image, addr, &mut copied));
    are_bytes(rt, &copied, &bytes);
}

/// A segment: its address, how many bytes the file has of it and how many it takes of memory, and
/// whether it may be executed.
pub(crate) type Shape = (u64, usize, u64, bool);

/// Checks a segment.
fn is_segment(rt: &impl Abort, segment: &Segment, wanted: Shape) {
    let (vaddr, length, memsz, exec) = wanted;
    is_number(rt, vaddr, segment.vaddr, vaddr);
    are_so_many(rt, segment.bytes.as_slice().len(), length);
    is_number(rt, vaddr, segment.memsz, memsz);
    assert!(rt; segment.exec == exec);
}

/// Checks the segments.
pub(crate) fn has_segments(rt: &impl Abort, image: &Image, wanted: &[Shape]) {
    let segments = image.segments();
    are_so_many(rt, segments.len(), wanted.len());
    for (segment, shape) in segments.iter().zip(wanted) {
        is_segment(rt, segment, *shape);
    }
}
