//! What memory holds of executables: files that linkers made, and files at the limits.
ghost use Rattle.std.specs.Prelude.{◌≡◌, [], ◌∷◌, true};

use crate::changes::{Change, P_MEMSZ, P_OFFSET, P_VADDR, changed, with_headers};
use crate::checks::are_so_many;
use crate::executables::{BASE, SIZE};
use crate::files::{GREETING, LINKED_APART, LINKED_AS_ONE, SEVEN};
use crate::images::{Shape, has_bytes, has_copied, has_segments, has_words, lies_at, read};
use elf_load::{Image, Segment};
use std::process::Abort;
use zs_num::Bytes;

/// Changes of so many headers of a segment of 12 bytes each, 16 bytes apart.
fn apart(rt: &(impl Abort + AllocGlobal)) -> Vec<[Change; 2]> {
    let mut headers = Vec::new(rt.alloc());
    for i in 0..128 {
        let changes = [(P_OFFSET, 8, 64 + 56 * 128), (P_VADDR, 8, BASE + 16 * i)];
        headers.push(changes).expect(rt, "memory");
    }
    headers
}

/// An executable of as many program headers as may be.
fn most_headers(rt: &(impl Abort + AllocGlobal)) -> Vec<u8> {
    with_headers(rt, &apart(rt))
}

/// Checks an image: where it lies and begins, its segments, and the words and bytes at addresses;
/// the words by looking first at its first segment, and at the one behind it.
fn holds(
    rt: &impl Abort,
    image: &Image,
    entry: u64,
    segments: &[Shape],
    words: &[(u64, Option<u32>)],
    bytes: &[(u64, u8)],
) {
    lies_at(rt, image, BASE, SIZE, entry);
    has_segments(rt, image, segments);
    has_words(rt, image, 0, words);
    has_words(rt, image, 1, words);
    has_bytes(rt, image, bytes);
}

#[test]
fn as_many_program_headers_as_may_be_are_loaded(rt: HostRuntime) {
    let file = most_headers(&rt);
    let image = read(&rt, &file);
    are_so_many(&rt, image.segments().len(), 128);
    has_words(&rt, &image, 0, &[(0x107f8, Some(0x73)), (0x107fc, None)]);
}

#[test]
fn a_segment_may_fill_memory(rt: HostRuntime) {
    let file = changed(&rt, &SEVEN, &[(P_MEMSZ, 8, SIZE)]);
    let image = read(&rt, &file);
    holds(
        &rt,
        &image,
        0x10000,
        &FULL_SEGMENTS,
        &FULL_WORDS,
        &FULL_BYTES,
    );
}

static FULL_SEGMENTS: [Shape; 1] = [(0x10000, 12, SIZE, true)];

static FULL_WORDS: [(u64, Option<u32>); 3] = [
    (0x10008, Some(0x73)),
    (0x10_FFFC, Some(0)),
    (0x10_FFFE, None),
];

static FULL_BYTES: [(u64, u8); 1] = [(0x10_FFFF, 0)];

#[test]
fn headers_of_other_types_are_skipped(rt: HostRuntime) {
    let image = read(&rt, &GREETING);
    holds(
        &rt,
        &image,
        0x10000,
        &GREETING_SEGMENTS,
        &GREETING_WORDS,
        &GREETING_BYTES,
    );
    has_copied(&rt, &image, 0x10023, [0, b'h', b'i', b'\n', 0, 0]);
}

static GREETING_SEGMENTS: [Shape; 1] = [(0x10000, 39, 39, true)];

static GREETING_WORDS: [(u64, Option<u32>); 1] = [(0x10000, Some(0x597))];

static GREETING_BYTES: [(u64, u8); 2] = [(0x10024, b'h'), (0x10027, 0)];

/// The addresses, lengths and words are those that readelf and objdump tell.
#[test]
fn a_linked_executable_begins_with_its_header(rt: HostRuntime) {
    let image = read(&rt, &LINKED_AS_ONE);
    holds(
        &rt,
        &image,
        0x100fc,
        &AS_ONE_SEGMENTS,
        &AS_ONE_WORDS,
        &AS_ONE_BYTES,
    );
    are_so_many(&rt, has_words(&rt, &image, 7, &AS_ONE_WORDS), 0);
}

static AS_ONE_SEGMENTS: [Shape; 1] = [(0x10000, 0x180, 0x180, true)];

static AS_ONE_WORDS: [(u64, Option<u32>); 2] = [
    (0x100fc, Some(0xff01_0113)),
    (0x100e8, Some(0x797)),
];

static AS_ONE_BYTES: [(u64, u8); 2] = [(0x10000, 0x7f), (0x10158, b'h')];

#[test]
fn a_linked_executable_has_gaps_between_segments(rt: HostRuntime) {
    let image = read(&rt, &LINKED_APART);
    holds(
        &rt,
        &image,
        0x10014,
        &APART_SEGMENTS,
        &APART_WORDS,
        &APART_BYTES,
    );
    has_copied(&rt, &image, 0x11fff, [0, b'h', b'i', b'\n', 0, 0]);
    has_copied(&rt, &image, 0x13fff, [0, 5, 0, 0, 0, 0]);
}

static APART_SEGMENTS: [Shape; 3] = [
    (0x10000, 0x68, 0x68, true),
    (0x12000, 4, 4, false),
    (0x14000, 8, 0x28, false),
];

static APART_WORDS: [(u64, Option<u32>); 4] = [
    (0x10014, Some(0xff01_0113)),
    (0x10064, Some(0x73)),
    (0x10068, None),
    (0x12000, None),
];

static APART_BYTES: [(u64, u8); 5] = [
    (0x11000, 0),
    (0x12000, b'h'),
    (0x14000, 5),
    (0x14008, 0),
    (0x14028, 0),
];

/// One executable segment of eight bytes, of which the file has none.
fn alone(rt: &(impl Abort + AllocGlobal)) -> Vec<Segment>
    ensures { result.items ≡ record { vaddr = BASE; bytes = []; memsz = 8; exec = true } ∷ [] }
{
    let mut segments = Vec::new(rt.alloc());
    let segment = Segment {
        vaddr: BASE,
        bytes: Bytes::of(Vec::new(rt.alloc())),
        memsz: 8,
        exec: true,
    };
    segments.push(segment).expect(rt, "memory");
    segments
}

/// An image of that segment, entered at its second word.
fn made(rt: &(impl Abort + AllocGlobal)) -> Image {
    let segments = alone(rt);
    Image::make(BASE, SIZE, BASE + 4, segments)
}

#[test]
fn an_image_of_segments(rt: HostRuntime) {
    let image = made(&rt);
    lies_at(&rt, &image, 0x10000, 0x10_0000, 0x10004);
    has_words(&rt, &image, 0, &[(0x10004, Some(0)), (0x10008, None)]);
}
