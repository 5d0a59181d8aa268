//! What memory holds when an executable was loaded.
ghost use Rattle.std.specs.Prelude.{◌≡◌, ◌≤◌, ◌<◌, ◌+◌, ◌&&◌, ℕ, length, slice_index, IsTrue};
ghost use Rattle.elf_load.specs.Copying.{byte_over};
ghost use Rattle.elf_load.specs.MemoryImage.{byte_at, bytes_from, covers, fetched_word, word_in};
ghost use Rattle.elf_load.specs.SoundImage.{IsSoundImage};

use crate::Segment;
use crate::range::is_within;
use byteorder::{ByteOrder, LittleEndian};
use std::marker::Model;

/// An executable in memory: the range of memory, the entry, and the segments in the order of the
/// file.
#[derive(Drop)]
pub struct Image {
    base: u64,
    size: u64,
    entry: u64,
    segments: Vec<Segment>,
}

impl Model for Image {
    ghost use Rattle.elf_load.specs.MemoryImage.{MemoryImage};
    ghost use Rattle.elf_load.specs.SoundImage.{IsSoundImage};

    ghost Value = { MemoryImage };

    ghost view = { λ i.
        record { base = i.base; size = i.size; entry = i.entry; segments = i.segments.items } };

    ghost invariant = { λ i.
        IsSoundImage (record { base = i.base; size = i.size; entry = i.entry; segments = i.segments.items }) };
}

impl Image {
    /// An image of these segments, which it takes over.
    pub fn make(base: u64, size: u64, entry: u64, segments: Vec<Segment>) -> Self
        requires { IsSoundImage (record {
          base = base;
          size = size;
          entry = entry;
          segments = segments.items;
        }) }
        ensures { result ≡ record {
          base = base;
          size = size;
          entry = entry;
          segments = segments.items;
        } }
    {
        Image {
            base,
            size,
            entry,
            segments,
        }
    }

    /// The address of the first byte of memory.
    pub fn base(&self) -> u64
        ensures value { result ≡ self.now.base }
        ensures sound { IsSoundImage self.now }
    {
        self.base
    }

    /// How many bytes of memory there are.
    pub fn size(&self) -> u64
        ensures { result ≡ self.now.size }
    {
        self.size
    }

    /// The address of the first instruction.
    pub fn entry(&self) -> u64
        ensures { result ≡ self.now.entry }
    {
        self.entry
    }

    /// The segments, in the order of the file.
    pub fn segments(&self) -> &[Segment]
        ensures { result.now ≡ self.now.segments }
    {
        &self.segments
    }

    /// The byte at an address of memory: 0 outside the segments and past the bytes that the file
    /// has of a segment.
    pub fn byte(&self, addr: u64) -> u8
        requires begins { self.now.base ≤ addr }
        requires ends { addr < self.now.base + self.now.size }
        ensures { result ≡ byte_at self.now.segments addr }
    {
        for segment in &self.segments {
            if is_within(addr, 1, segment.vaddr, segment.memsz) {
                return byte_at(segment.bytes.as_slice(), (addr - segment.vaddr) as usize);
            }
        }
        0
    }

    /// Copies the bytes of memory from an address on into `out`, each as `byte` gives it.
    pub fn copy_to(&self, addr: u64, out: &mut [u8])
        requires begins { self.now.base ≤ addr }
        requires ends { addr + length out.old ≤ self.now.base + self.now.size }
        ensures { out.new ≡ bytes_from self.now.segments addr (length out.old) }
    {
        out.fill(0);
        for segment in &self.segments {
            copy_segment(segment, addr, out);
        }
    }

    /// The word at an address, or None where its four bytes are not in one executable segment.
    pub fn word(&self, pc: u64) -> Option<u32>
        ensures { result ≡ fetched_word self.now.segments pc }
    {
        for segment in &self.segments {
            if has_word(segment, pc) {
                return Some(word_in(segment, pc));
            }
        }
        None
    }

    /// The word at an address, as `word` gives it. `near` is the place of the segment that answered
    /// last, or any other number, and is looked at first.
    pub fn word_near(&self, near: &mut usize, pc: u64) -> Option<u32>
        ensures { result ≡ fetched_word self.now.segments pc }
    {
        if let Some(segment) = self.segments.get(*near) {
            if has_word(segment, pc) {
                return Some(word_in(segment, pc));
            }
        }
        for (place, segment) in self.segments.iter().enumerate() {
            if has_word(segment, pc) {
                *near = place;
                return Some(word_in(segment, pc));
            }
        }
        None
    }
}

/// Whether instructions may be fetched from the four bytes from `pc` on.
fn has_word(segment: &Segment, pc: u64) -> bool
    ensures { result ≡ (segment.now.exec && covers segment.now pc 4) }
{
    segment.exec && is_within(pc, 4, segment.vaddr, segment.memsz)
}

/// The four bytes from `pc` on, which lie in the segment.
fn word_in(segment: &Segment, pc: u64) -> u32
    requires { IsTrue (covers segment.now pc 4) }
    ensures { result ≡ word_in segment.now pc }
{
    let bytes = segment.bytes.as_slice();
    let offset = (pc - segment.vaddr) as usize;
    if offset + 4 <= bytes.len() {
        LittleEndian::read_u32(&bytes[offset..])
    } else {
        LittleEndian::read_u32(&[
            byte_at(bytes, offset),
            byte_at(bytes, offset + 1),
            byte_at(bytes, offset + 2),
            byte_at(bytes, offset + 3),
        ])
    }
}

/// Copies the bytes that the file has of a segment to their places in `out`, which begins at
/// `addr`.
fn copy_segment(segment: &Segment, addr: u64, out: &mut [u8])
    ensures { (i : ℕ) → i < length out.old
        → slice_index out.new i ≡ byte_over segment.now (addr + i) (slice_index out.old i) }
{
    let bytes = segment.bytes.as_slice();
    let before = addr.saturating_sub(segment.vaddr) as usize;
    let start = segment.vaddr.saturating_sub(addr) as usize;
    if before < bytes.len() && start < out.len() {
        let count = (bytes.len() - before).min(out.len() - start);
        out[start..start + count].copy_from_slice(&bytes[before..before + count]);
    }
}

/// A byte of a segment, which is 0 past those of the file.
fn byte_at(bytes: &[u8], offset: usize) -> u8
    ensures { result ≡ slice_index bytes.now offset }
{
    bytes.get(offset).copied().unwrap_or(0)
}
