//! The executable of the program of a number.
ghost use Rattle.std.specs.Prelude.{◌≡◌, ◌≤◌, ℕ, ◌+◌, ◌%◌, ◌^◌, ◌++◌, All, IfOk, OnOk};
ghost use Rattle.elf_load.specs.Image.{image_of};
ghost use Rattle.elf_write.specs.File.{executable_of};
ghost use Rattle.gen_prog.specs.Assembly.{assembled, encoded};
ghost use Rattle.gen_prog.specs.Encodable.{IsEncodable};
ghost use Rattle.gen_prog.specs.Generated.{data_of, generated_image, instructions};
ghost use Rattle.gen_prog.specs.Loaded.{loaded_in};

use crate::laws;
use crate::program::{iterations, mask, program};
use elf_load::{Image, Segment};
use rv_decode::Inst;
use rv_encode::encode;
use std::alloc::Global;
use zs_num::{Bytes, NoMemory};

/// How many bytes of memory the image is made for: a page of code and one of data.
const SIZE: u64 = 8192;

/// How many bytes of memory the code takes: 28 words.
const CODE_SIZE: u64 = 112;

/// How many the data takes: 64, and the 256 doublewords of the largest table.
const DATA_SIZE: u64 = 2112;

/// The executable of the program of a number, for a memory that begins at `base`: a multiple of
/// 4096 up to 2^40.
pub fn generate(alloc: Global, number: u64, base: u64) -> Result<Bytes, NoMemory>
    requires page { base % 4096 ≡ 0 }
    requires low { base ≤ 2 ^ 40 }
    ensures file { IfOk result (λ bytes. bytes ≡ executable_of (generated_image number base)) }
    ensures load { IfOk result (λ bytes. (size : ℕ)
        → image_of bytes base size ≡ loaded_in number base size) }
{
    laws::programs_load();
    let image = image(alloc, number, base)?;
    elf_write::write(alloc, &image)
}

/// The image of the program.
fn image(alloc: Global, number: u64, base: u64) -> Result<Image, NoMemory>
    requires page { base % 4096 ≡ 0 }
    requires low { base ≤ 2 ^ 40 }
    ensures { IfOk result (λ image. image ≡ generated_image number base) }
{
    let mut segments = Vec::new(alloc);
    segments.push(Segment {
        vaddr: base,
        bytes: code(alloc, number)?,
        memsz: CODE_SIZE,
        exec: true,
    })?;
    segments.push(Segment {
        vaddr: base + 4096,
        bytes: data(alloc, number)?,
        memsz: DATA_SIZE,
        exec: false,
    })?;
    Ok(Image::make(base, SIZE, base, segments))
}

/// The bytes of the instructions.
fn code(alloc: Global, number: u64) -> Result<Bytes, NoMemory>
    ensures { IfOk result (λ bytes. bytes ≡ assembled (instructions number)) }
{
    let mut bytes = Vec::new(alloc);
    assemble(&mut bytes, &program(mask(number)))?;
    Ok(Bytes::of(bytes))
}

/// Appends the words of instructions.
fn assemble(bytes: &mut Vec<u8>, instructions: &[Inst]) -> Result<(), NoMemory>
    requires { All IsEncodable instructions.now }
    ensures { OnOk result (bytes.new.items ≡ bytes.old.items ++ assembled instructions.now) }
{
    for instruction in instructions {
        bytes.extend_from_slice(&word(*instruction).to_le_bytes())?;
    }
    Ok(())
}

/// The word of an instruction.
fn word(instruction: Inst) -> u32
    requires { IsEncodable instruction }
    ensures { result ≡ encoded instruction }
{
    rv_decode::laws::fields_are_in_range();
    encode(instruction)
}

/// The bytes of the data that the program reads.
fn data(alloc: Global, number: u64) -> Result<Bytes, NoMemory>
    ensures { IfOk result (λ bytes. bytes ≡ data_of number) }
{
    let mut bytes = Vec::new(alloc);
    bytes.extend_from_slice(&number.to_le_bytes())?;
    bytes.extend_from_slice(&iterations(number).to_le_bytes())?;
    Ok(Bytes::of(bytes))
}
