//! The executables of the tests, laid out by the ELF-64 object file format.

/// `addi x10, x0, 7`; `addi x17, x0, 93`; `ecall`.
pub const SEVEN: &str = "00700513 05D00893 00000073";

/// The file up to the sizes of its one segment: both headers of an executable whose code begins at
/// 0x10000, at byte 120 of the file.
const FRONT: [u8; 96] = [
    0x7f, 0x45, 0x4c, 0x46, 0x02, 0x01, 0x01, 0x00, 0x00, 0x00, 0x00, 0x00, 0x00, 0x00, 0x00, 0x00,
    0x02, 0x00, 0xf3, 0x00, 0x01, 0x00, 0x00, 0x00, 0x00, 0x00, 0x01, 0x00, 0x00, 0x00, 0x00, 0x00,
    0x40, 0x00, 0x00, 0x00, 0x00, 0x00, 0x00, 0x00, 0x00, 0x00, 0x00, 0x00, 0x00, 0x00, 0x00, 0x00,
    0x00, 0x00, 0x00, 0x00, 0x40, 0x00, 0x38, 0x00, 0x01, 0x00, 0x00, 0x00, 0x00, 0x00, 0x00, 0x00,
    0x01, 0x00, 0x00, 0x00, 0x07, 0x00, 0x00, 0x00, 0x78, 0x00, 0x00, 0x00, 0x00, 0x00, 0x00, 0x00,
    0x00, 0x00, 0x01, 0x00, 0x00, 0x00, 0x00, 0x00, 0x00, 0x00, 0x01, 0x00, 0x00, 0x00, 0x00, 0x00,
];

/// Puts an executable of these words, each in hexadecimal digits: 120 bytes, and four for each
/// word.
pub fn put_executable(code: &str, file: &mut Vec<u8>) -> Option<()> {
    file.extend_from_slice(&FRONT[..64]).ok()?;
    put_header(file, size_of(code))?;
    put_code(code, file)
}

/// Puts an executable of so many instructions `addi x0, x0, 0`, and behind them these words.
pub fn put_long(text: &str, file: &mut Vec<u8>) -> Option<()> {
    let (count, code) = text.split_once(' ')?;
    let count = count.parse::<u32>().ok()?;
    file.extend_from_slice(&FRONT[..64]).ok()?;
    put_header(file, size_of(code).saturating_add(4 * u64::from(count)))?;
    for _ in 0..count {
        put_word(0x13, file)?;
    }
    put_code(code, file)
}

/// How many bytes the words take.
fn size_of(code: &str) -> u64 {
    let mut size = 0u64;
    for _word in code.split_whitespace() {
        size = size.saturating_add(4);
    }
    size
}

fn put_code(code: &str, file: &mut Vec<u8>) -> Option<()> {
    for word in code.split_whitespace() {
        put_word(u32::from_str_radix(word, 16).ok()?, file)?;
    }
    Some(())
}

fn put_word(word: u32, file: &mut Vec<u8>) -> Option<()> {
    file.extend_from_slice(&word.to_le_bytes()).ok()
}

/// Puts an executable of 128 program headers, the most that there may be: two of the same segment,
/// behind others of none.
pub fn put_overlapping(file: &mut Vec<u8>) -> Option<()> {
    file.extend_from_slice(&FRONT[..56]).ok()?;
    file.extend_from_slice(&128u16.to_le_bytes()).ok()?;
    file.extend_from_slice(&FRONT[58..64]).ok()?;
    file.extend_from_slice(&[0; 56 * 126]).ok()?;
    put_header(file, 4)?;
    put_header(file, 4)
}

/// Puts the header of the one segment, of this size.
fn put_header(file: &mut Vec<u8>, size: u64) -> Option<()> {
    file.extend_from_slice(&FRONT[64..]).ok()?;
    for number in [size, size, 1] {
        file.extend_from_slice(&number.to_le_bytes()).ok()?;
    }
    Some(())
}

/// Puts the executable that exits with seven, with other bytes. The last two digits of a number are
/// what the byte at the index of the digits before them becomes.
pub fn put_spoiled(numbers: &str, file: &mut Vec<u8>) -> Option<()> {
    put_executable(SEVEN, file)?;
    for word in numbers.split_whitespace() {
        spoil(file, u32::from_str_radix(word, 16).ok()?)?;
    }
    Some(())
}

fn spoil(file: &mut [u8], number: u32) -> Option<()> {
    *file.get_mut((number / 256) as usize)? = (number % 256) as u8;
    Some(())
}
