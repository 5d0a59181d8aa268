//! Writes the file of an image: the headers, and then the bytes of the segments without gaps.
ghost use Rattle.std.specs.Prelude.{◌≡◌, ◌≤◌, ◌+◌, ◌*◌, ◌^◌, ◌++◌, length, All, Ok, IfOk, OnOk};
ghost use Rattle.elf_load.specs.Image.{image_of};
ghost use Rattle.elf_write.specs.File.{contents, executable_of, fields_bytes, header_fields, table_bytes};

use crate::field::write_fields;
use crate::headers::{header_fields, program_header_fields};
use elf_load::constants::{HEADER_LEN, PROGRAM_HEADER_LEN};
use elf_load::{Image, Segment};
use std::alloc::Global;
use zs_num::{Bytes, NoMemory};

/// The executable that is loaded as this image.
pub fn write(alloc: Global, image: &Image) -> Result<Bytes, NoMemory>
    ensures layout { IfOk result (λ bytes. bytes ≡ executable_of image.now) }
    ensures read_again { IfOk result (λ bytes.
        image_of bytes image.now.base image.now.size ≡ Ok image.now) }
{
    // What an image keeps bounds the numbers below.
    let _ = image.base();
    let segments = image.segments();
    let mut out = Vec::new(alloc);
    write_header(&mut out, image.entry(), segments.len())?;
    write_table(&mut out, segments)?;
    write_contents(&mut out, segments)?;
    Ok(Bytes::of(out))
}

fn write_header(out: &mut Vec<u8>, entry: u64, phnum: usize) -> Result<(), NoMemory>
    requires { phnum ≤ 128 }
    ensures { OnOk result (out.new.items ≡ out.old.items
        ++ fields_bytes (header_fields entry phnum)) }
{
    write_fields(out, &header_fields(entry, phnum))
}

fn write_table(out: &mut Vec<u8>, segments: &[Segment]) -> Result<(), NoMemory>
    requires few { length segments.now ≤ 128 }
    requires short { All (λ s. length s.bytes ≤ 2 ^ 48) segments.now }
    ensures { OnOk result (out.new.items ≡ out.old.items
        ++ table_bytes segments.now (HEADER_LEN + PROGRAM_HEADER_LEN * length segments.now)) }
{
    let mut offset = (HEADER_LEN + PROGRAM_HEADER_LEN * segments.len()) as u64;
    for segment in segments {
        write_fields(out, &program_header_fields(segment, offset))?;
        offset += segment.bytes.as_slice().len() as u64;
    }
    Ok(())
}

fn write_contents(out: &mut Vec<u8>, segments: &[Segment]) -> Result<(), NoMemory>
    ensures { OnOk result (out.new.items ≡ out.old.items ++ contents segments.now) }
{
    for segment in segments {
        out.extend_from_slice(segment.bytes.as_slice())?;
    }
    Ok(())
}
