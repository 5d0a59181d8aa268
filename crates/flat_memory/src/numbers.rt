//! Numbers in a list of bytes, little-endian.
ghost use Rattle.std.specs.Prelude.{◌≡◌, ◌+◌, ◌≤◌, ◌++◌, length, take, drop};
ghost use Rattle.flat_memory.specs.FlatMemory.{number_in, with_number};

use byteorder::{ByteOrder, LittleEndian};

/// The number in so many bytes from a place on.
#[tactic(auto, unfolding(crate::specs::FlatMemory::number_in))]
#[inline(always)]
pub fn read(bytes: &[u8], place: usize, width: u8) -> u64
    requires some { 1 ≤ width }
    requires few { width ≤ 8 }
    requires within { place + width ≤ length bytes.now }
    ensures { result ≡ number_in bytes.now place width }
{
    let from = &bytes[place..];
    match width {
        8 => LittleEndian::read_u64(from),
        4 => u64::from(LittleEndian::read_u32(from)),
        2 => u64::from(LittleEndian::read_u16(from)),
        1 => u64::from(from[0]),
        _ => LittleEndian::read_uint(from, usize::from(width)),
    }
}

/// Puts the low bytes of a number into so many bytes from a place on.
#[tactic(auto, unfolding(crate::specs::FlatMemory::with_number))]
#[inline(always)]
pub fn write(bytes: &mut [u8], place: usize, width: u8, value: u64)
    requires few { width ≤ 8 }
    requires within { place + width ≤ length bytes.old }
    ensures value { bytes.new ≡ with_number bytes.old place width value }
    ensures size { length bytes.new ≡ length bytes.old }
{
    let number = value.to_le_bytes();
    match width {
        8 => put(bytes, place, &number),
        4 => put(bytes, place, &number[..4]),
        2 => put(bytes, place, &number[..2]),
        1 => put(bytes, place, &number[..1]),
        _ => put(bytes, place, &number[..usize::from(width)]),
    }
}

/// Puts bytes over those from a place on.
#[inline(always)]
fn put(bytes: &mut [u8], place: usize, others: &[u8])
    requires { place + length others.now ≤ length bytes.old }
    ensures value { bytes.new ≡ take place bytes.old ++ (others.now ++ drop (place + length others.now) bytes.old) }
    ensures size { length bytes.new ≡ length bytes.old }
{
    bytes[place..place + others.len()].copy_from_slice(others);
}
