//! Reads an executable: the checks in their order, and the image.
ghost use Rattle.std.specs.Prelude.{◌≡◌, ◌≤◌, ◌+◌, ◌^◌, length, false, IfOk};
ghost use Rattle.std.specs.List.{list_any};
ghost use Rattle.elf_load.specs.Checks.{is_past_file};
ghost use Rattle.elf_load.specs.Image.{image_of, segment_of, segments_of};
ghost use Rattle.elf_load.specs.Answers.{AnswersImage};

use crate::checks::{header_refusal, is_executable, is_loaded, segment_refusal};
use crate::constants::HEADER_LEN;
use crate::header::{Header, ProgramHeader, program_headers};
use crate::{BadElf, Image, LoadFail, Segment};
use std::alloc::Global;
use zs_num::{Bytes, NoMemory};

/// Reads an executable for a memory of `size` bytes from `base` on, or names the first check that
/// it fails.
pub fn load(alloc: Global, file: &[u8], base: u64, size: u64) -> Result<Image, LoadFail>
    requires { base + size ≤ 2 ^ 48 }
    ensures answer { AnswersImage result (image_of file.now base size) }
    ensures memory { IfOk result (λ image. (image.base ≡ base) × (image.size ≡ size)) }
{
    if file.len() < HEADER_LEN {
        return Err(LoadFail::Bad(BadElf::Short));
    }
    let header = Header::read(file);
    if let Some(refusal) = header_refusal(&header, file.len()) {
        return Err(LoadFail::Bad(refusal));
    }
    let headers = program_headers(alloc, file, &header)?;
    if let Some(refusal) = segment_refusal(&headers, header.entry, file.len(), base, size) {
        return Err(LoadFail::Bad(refusal));
    }
    let segments = segments(alloc, file, &headers)?;
    Ok(Image::make(base, size, header.entry, segments))
}

/// The segments to load, in the order of their headers.
fn segments(alloc: Global, file: &[u8], headers: &[ProgramHeader]) -> Result<Vec<Segment>, NoMemory>
    requires { list_any (is_past_file (length file.now)) headers.now ≡ false }
    ensures { IfOk result (λ s. s.items ≡ segments_of file.now headers.now) }
{
    let mut segments = Vec::new(alloc);
    for header in headers {
        if is_loaded(header) {
            segments.push(segment(alloc, file, header)?)?;
        }
    }
    Ok(segments)
}

#[tactic(auto, unfolding(crate::specs::Image::segment_of))]
fn segment(alloc: Global, file: &[u8], header: &ProgramHeader) -> Result<Segment, NoMemory>
    requires { header.now.offset + header.now.filesz ≤ length file.now }
    ensures { IfOk result (λ s. s ≡ segment_of file.now header.now) }
{
    let start = header.offset as usize;
    let end = start + header.filesz as usize;
    Ok(Segment {
        vaddr: header.vaddr,
        bytes: Bytes::from_slice(alloc, &file[start..end])?,
        memsz: header.memsz,
        exec: is_executable(header),
    })
}
