//! The checks of an executable, each over all program headers. `load` makes them in their order.
ghost use Rattle.std.specs.Prelude.{◌≡◌, ◌≤◌, ◌<◌, ◌+◌, length, position, IfNone, IfSome, IsTrue};
ghost use Rattle.std.specs.List.{list_any};
ghost use Rattle.elf_load.specs.Checks.{file_refusal, has_table, header_refusal, is_dynamic, is_entered, is_executable, is_loaded, is_past_file, is_past_memory, memory_refusal, overlap_refusal, overlaps, segment_refusal};

use crate::BadElf;
use crate::constants::{
    EF_RISCV_FLOAT_ABI, EF_RISCV_RVC, ELF_MAGIC, ELFCLASS64, ELFDATA2LSB, EM_RISCV, ET_EXEC,
    MOST_HEADERS, PF_X, PROGRAM_HEADER_LEN, PT_DYNAMIC, PT_INTERP, PT_LOAD,
};
use crate::header::{Header, ProgramHeader};
use crate::range::{is_within, ranges_overlap};

/// The first check of the ELF header that fails, in a file of `len` bytes.
#[tactic(auto, unfolding(crate::specs::Checks::header_refusal))]
pub fn header_refusal(header: &Header, len: usize) -> Option<BadElf>
    ensures value { result ≡ header_refusal header.now len }
    ensures table { IfNone result (IsTrue (has_table header.now len)) }
{
    if header.magic != ELF_MAGIC {
        return Some(BadElf::Magic);
    }
    if header.class != ELFCLASS64 || header.encoding != ELFDATA2LSB {
        return Some(BadElf::ClassOrData);
    }
    if header.type_ != ET_EXEC {
        return Some(BadElf::Type_);
    }
    if header.machine != EM_RISCV {
        return Some(BadElf::Machine);
    }
    if header.flags & (EF_RISCV_RVC | EF_RISCV_FLOAT_ABI) != 0 {
        return Some(BadElf::Flags);
    }
    if !has_table(header, len) {
        return Some(BadElf::Headers);
    }
    None
}

#[tactic(auto, unfolding(crate::specs::Checks::has_table))]
fn has_table(header: &Header, len: usize) -> bool
    ensures { result ≡ has_table header.now len }
{
    let count = header.phnum as usize;
    count <= MOST_HEADERS
        && (count == 0
            || (header.phentsize as usize == PROGRAM_HEADER_LEN
                && header.phoff <= len as u64
                && PROGRAM_HEADER_LEN * count <= len - header.phoff as usize))
}

/// The first check of the program headers that fails, in a file of `len` bytes and a memory of
/// `size` bytes from `base` on.
#[tactic(auto, unfolding(crate::specs::Checks::segment_refusal))]
pub fn segment_refusal(
    headers: &[ProgramHeader],
    entry: u64,
    len: usize,
    base: u64,
    size: u64,
) -> Option<BadElf>
    requires { length headers.now ≤ MOST_HEADERS }
    ensures { result ≡ segment_refusal headers.now entry len base size }
{
    if is_any_dynamic(headers) {
        return Some(BadElf::Dynamic);
    }
    if let Some(refusal) = file_refusal(headers, len) {
        return Some(refusal);
    }
    if let Some(refusal) = memory_refusal(headers, base, size) {
        return Some(refusal);
    }
    if let Some(refusal) = overlap_refusal(headers) {
        return Some(refusal);
    }
    if entry % 4 != 0 || !is_entered_by(headers, entry) {
        return Some(BadElf::Entry);
    }
    None
}

fn is_any_dynamic(headers: &[ProgramHeader]) -> bool
    ensures { result ≡ list_any is_dynamic headers.now }
{
    headers.iter().any(is_dynamic)
}

#[tactic(auto, unfolding(crate::specs::Checks::file_refusal))]
fn file_refusal(headers: &[ProgramHeader], len: usize) -> Option<BadElf>
    requires { length headers.now ≤ MOST_HEADERS }
    ensures { result ≡ file_refusal headers.now len }
{
    let index = first_past_file(headers, len)?;
    Some(BadElf::SegmentPastFile {
        index: index as u16,
    })
}

fn first_past_file(headers: &[ProgramHeader], len: usize) -> Option<usize>
    ensures value { result ≡ position (is_past_file len) headers.now }
    ensures bound { IfSome result (λ index. index < length headers.now) }
{
    headers.iter().position(|p| is_past_file(p, len))
}

#[tactic(auto, unfolding(crate::specs::Checks::memory_refusal))]
fn memory_refusal(headers: &[ProgramHeader], base: u64, size: u64) -> Option<BadElf>
    requires { length headers.now ≤ MOST_HEADERS }
    ensures { result ≡ memory_refusal headers.now base size }
{
    let index = first_past_memory(headers, base, size)?;
    Some(BadElf::SegmentPastMemory {
        index: index as u16,
    })
}

fn first_past_memory(headers: &[ProgramHeader], base: u64, size: u64) -> Option<usize>
    ensures value { result ≡ position (is_past_memory base size) headers.now }
    ensures bound { IfSome result (λ index. index < length headers.now) }
{
    headers.iter().position(|p| is_past_memory(p, base, size))
}

/// The least pair of segments that have an address in common.
#[tactic(auto, unfolding(crate::specs::Checks::overlap_refusal))]
fn overlap_refusal(headers: &[ProgramHeader]) -> Option<BadElf>
    requires { length headers.now ≤ MOST_HEADERS }
    ensures { result ≡ overlap_refusal headers.now }
{
    for (first, header) in headers.iter().enumerate() {
        if let Some(after) = first_overlap(header, &headers[first + 1..]) {
            return Some(BadElf::Overlap {
                first: first as u16,
                second: (first + 1 + after) as u16,
            });
        }
    }
    None
}

/// The first of these segments that has an address in common with another one.
fn first_overlap(header: &ProgramHeader, others: &[ProgramHeader]) -> Option<usize>
    ensures value { result ≡ position (overlaps header.now) others.now }
    ensures bound { IfSome result (λ index. index < length others.now) }
{
    others.iter().position(|other| overlaps(header, other))
}

fn is_entered_by(headers: &[ProgramHeader], entry: u64) -> bool
    ensures { result ≡ list_any (is_entered entry) headers.now }
{
    headers.iter().any(|p| is_entered(p, entry))
}

#[tactic(auto, unfolding(crate::specs::Checks::is_dynamic))]
fn is_dynamic(header: &ProgramHeader) -> bool
    ensures { result ≡ is_dynamic header.now }
{
    header.type_ == PT_DYNAMIC || header.type_ == PT_INTERP
}

/// Whether it is for a segment to load that is not empty.
#[tactic(auto, unfolding(crate::specs::Checks::is_loaded))]
pub fn is_loaded(header: &ProgramHeader) -> bool
    ensures { result ≡ is_loaded header.now }
{
    header.type_ == PT_LOAD && !(header.filesz == 0 && header.memsz == 0)
}

/// Whether it gives the permission to execute.
#[tactic(auto, unfolding(crate::specs::Checks::is_executable))]
pub fn is_executable(header: &ProgramHeader) -> bool
    ensures { result ≡ is_executable header.now }
{
    header.flags & PF_X != 0
}

#[tactic(auto, unfolding(crate::specs::Checks::is_past_file))]
fn is_past_file(header: &ProgramHeader, len: usize) -> bool
    ensures { result ≡ is_past_file len header.now }
{
    is_loaded(header) && !is_within(header.offset, header.filesz, 0, len as u64)
}

#[tactic(auto, unfolding(crate::specs::Checks::is_past_memory))]
fn is_past_memory(header: &ProgramHeader, base: u64, size: u64) -> bool
    ensures { result ≡ is_past_memory base size header.now }
{
    is_loaded(header)
        && !(header.filesz <= header.memsz && is_within(header.vaddr, header.memsz, base, size))
}

#[tactic(auto, unfolding(crate::specs::Checks::overlaps))]
fn overlaps(header: &ProgramHeader, other: &ProgramHeader) -> bool
    ensures { result ≡ overlaps header.now other.now }
{
    is_loaded(header)
        && is_loaded(other)
        && ranges_overlap(header.vaddr, header.memsz, other.vaddr, other.memsz)
}

#[tactic(auto, unfolding(crate::specs::Checks::is_entered))]
fn is_entered(header: &ProgramHeader, entry: u64) -> bool
    ensures { result ≡ is_entered entry header.now }
{
    is_loaded(header) && is_executable(header) && is_within(entry, 4, header.vaddr, header.memsz)
}
