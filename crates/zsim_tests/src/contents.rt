//! What a name holds, as a line says it.
use crate::executables::{put_executable, put_long, put_overlapping, put_spoiled};
use crate::machines::{put_changed, put_long_key};
use crate::words::put_bytes;
use std::alloc::Global;
use zs_host::Files;

/// The most bytes of a file beside this one.
pub const MOST: usize = 1 << 20;

/// Puts contents: the built-in machine with changes, or an unknown key of so many letters in front
/// of it; the executable of instructions, of these behind so many that do nothing, one whose last
/// two segments overlap, or one with other bytes; a text; bytes; a byte and how often it stands
/// there; or a file beside this one.
pub fn put_contents<F: Files>(
    alloc: Global,
    kind: &str,
    rest: &str,
    beside: &mut F,
    bytes: &mut Vec<u8>,
) -> Option<()> {
    match kind {
        "machine" => put_changed(rest, bytes),
        "key" => put_long_key(rest.parse::<usize>().ok()?, bytes),
        "code" => put_executable(rest, bytes),
        "long" => put_long(rest, bytes),
        "overlapping" => put_overlapping(bytes),
        "spoil" => put_spoiled(rest, bytes),
        "text" => bytes.extend_from_slice(rest.as_bytes()).ok(),
        "bytes" => put_bytes(rest, bytes),
        "repeat" => put_repeated(rest, bytes),
        "file" => put_file(alloc, rest, beside, bytes),
        _ => None,
    }
}

/// Puts a byte, in hexadecimal digits, as often as the number behind it says.
fn put_repeated(text: &str, bytes: &mut Vec<u8>) -> Option<()> {
    let (byte, count) = text.split_once(' ')?;
    let byte = u8::from_str_radix(byte, 16).ok()?;
    bytes.resize(count.parse::<usize>().ok()?, byte).ok()
}

/// Puts the bytes of a file beside this one.
fn put_file<F: Files>(
    alloc: Global,
    name: &str,
    beside: &mut F,
    bytes: &mut Vec<u8>,
) -> Option<()> {
    let held = beside.read(alloc, name, MOST).ok()?;
    bytes.extend_from_slice(held.as_slice()).ok()
}
