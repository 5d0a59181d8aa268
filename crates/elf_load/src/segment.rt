//! A segment of an executable.
use zs_num::Bytes;

/// A range of memory that the executable fills: its first bytes are those of the file, the rest are
/// 0.
#[derive(Drop)]
pub struct Segment {
    /// The address of its first byte.
    pub vaddr: u64,
    /// The bytes of the file, at most `memsz`.
    pub bytes: Bytes,
    /// How many bytes of memory it takes.
    pub memsz: u64,
    /// Whether instructions may be fetched from it.
    pub exec: bool,
}
