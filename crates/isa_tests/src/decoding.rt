//! Assembled words against what was written, encoded again, and words that are no instruction.
use crate::checks::is_number;
use crate::words::{Row, WORDS};
use rv_decode::{Name, decode};
use rv_encode::encode;
use std::process::Abort;

/// Words that are no instruction: two word shifts with bit 25 set, FENCE.I, a CSR instruction, a
/// load-reserved with an rs2, MRET, a compressed instruction's bits, all zeros and all ones.
const ILLEGAL: [u32; 9] = [
    0x0200_101b,
    0x0200_501b,
    0x0000_100f,
    0x3400_2573,
    0x1010_a02f,
    0x3020_0073,
    0x0000_4501,
    0,
    0xffff_ffff,
];

/// Checks that a word is decoded as the instruction that it was made from, which is encoded as it.
fn is_word_of(rt: &impl Abort, row: Row) {
    let (word, name, rd, rs1, rs2, imm) = row;
    let inst = decode(word).expect(rt, "an instruction");
    let at = u64::from(word);
    assert!(rt; inst.name == name && inst.imm == imm);
    is_number(rt, at, u64::from(inst.rd), u64::from(rd));
    is_number(rt, at, u64::from(inst.rs1), u64::from(rs1));
    is_number(rt, at, u64::from(inst.rs2), u64::from(rs2));
    is_number(rt, at, u64::from(encode(inst)), at);
}

#[test]
fn words_are_what_was_written_and_are_encoded_again(rt: HostRuntime) {
    for row in &WORDS {
        is_word_of(&rt, *row);
    }
    for row in &BY_HAND {
        is_word_of(&rt, *row);
    }
}

#[test]
fn other_words_are_no_instruction(rt: HostRuntime) {
    for word in ILLEGAL {
        assert!(rt; decode(word).is_none());
    }
}

/// Words that were put together by hand.
static BY_HAND: [Row; 4] = [
    // slliw x0, x0, 0
    (0x0000_101b, Name::Slliw, 0, 0, 0, 0),
    // fence iorw, iorw
    (0x0ff0_000f, Name::Fence, 0, 0, 0, 255),
    // addi x10, x0, 7
    (0x0070_0513, Name::Addi, 10, 0, 0, 7),
    // bne x7, x0, -76
    (0xfa03_9ae3, Name::Bne, 0, 7, 0, -76),
];
