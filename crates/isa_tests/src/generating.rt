//! Generated programs against the words of the assembler of GNU binutils 2.40, and loaded.
use crate::checks::are_so_many;
use crate::executables::{BASE, SIZE};
use crate::images::{Shape, has_segments, lies_at, read};
use crate::lists::{add_number, add_word};
use elf_load::{BadElf, LoadFail, load};
use gen_prog::generate;
use std::alloc::Global;
use std::process::Abort;
use zs_num::Bytes;

/// The words of the program of a table of 16 doublewords. Word 13 has the mask.
static WORDS: [u32; 28] = [
    0x0000_1297,
    0x0002_b303,
    0x0082_b383,
    0x00a3_0333,
    0x0013_6313,
    0x0010_0493,
    0x00d3_1413,
    0x0083_4333,
    0x0073_5413,
    0x0083_4333,
    0x0113_1413,
    0x0083_4333,
    0x0083_5413,
    0x0784_7413,
    0x0054_0433,
    0x0404_0413,
    0x0033_7593,
    0x0005_8863,
    0x0095_9a63,
    0x0094_362f,
    0x0100_006f,
    0x0064_3023,
    0x0080_006f,
    0x0004_3603,
    0xfff3_8393,
    0xfa03_9ae3,
    0x05d0_0893,
    0x0000_0073,
];

/// Numbers, each with its word 13 and how many iterations it gives.
static NUMBERS: [(u64, u32, u64); 5] = [
    (5, 0x0784_7413, 105),
    (7, 0x1f84_7413, 107),
    (9_899, 0x7f84_7413, 9_999),
    (9_901, 0x0f84_7413, 100),
    (u64::MAX, 0x0784_7413, 3_939),
];

/// The program of a number, for a memory from `BASE` on.
fn generated(rt: &(impl Abort + AllocGlobal), number: u64) -> Bytes {
    generate(rt.alloc(), number, BASE).expect(rt, "memory")
}

/// The end of the file of the program of a number: its words, of which word 13 has the mask, the
/// number, and its iterations.
fn end_of(rt: &(impl Abort + AllocGlobal), number: u64, masked: u32, iterations: u64) -> Vec<u8> {
    let mut bytes = Vec::new(rt.alloc());
    for (place, &word) in WORDS.iter().enumerate() {
        add_word(rt, &mut bytes, if place == 13 { masked } else { word });
    }
    add_number(rt, &mut bytes, number);
    add_number(rt, &mut bytes, iterations);
    bytes
}

/// Checks the length of a file, and its end.
fn ends_with(rt: &impl Abort, file: &[u8], length: usize, end: &[u8]) {
    are_so_many(rt, file.len(), length);
    assert!(rt; file.ends_with(end));
}

#[test]
fn programs_are_those_of_another_assembler(rt: HostRuntime) {
    for &(n, masked, iterations) in &NUMBERS {
        let wanted = end_of(&rt, n, masked, iterations);
        ends_with(&rt, generated(&rt, n).as_slice(), 304, &wanted);
    }
}

/// Whether a file is refused in a memory of a page, since its second segment lies past it.
fn is_past_a_page(alloc: Global, file: &[u8]) -> bool {
    let refused = load(alloc, file, BASE, 4096);
    matches!(
        refused,
        Err(LoadFail::Bad(BadElf::SegmentPastMemory { index: 1 }))
    )
}

#[test]
fn a_program_is_loaded_where_it_lies_in_memory(rt: HostRuntime) {
    let file = generated(&rt, 7);
    let image = read(&rt, file.as_slice());
    lies_at(&rt, &image, BASE, SIZE, BASE);
    has_segments(&rt, &image, &SEGMENTS);
    assert!(rt; is_past_a_page(rt.alloc(), file.as_slice()));
}

static SEGMENTS: [Shape; 2] = [(BASE, 112, 112, true), (BASE + 4096, 16, 2112, false)];
