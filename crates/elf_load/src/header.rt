//! The two kinds of header, read field by field (ELF-64 object file format, sections "ELF header"
//! and "Program header table").
ghost use Rattle.std.specs.Prelude.{◌≡◌, ◌≤◌, ◌+◌, length, IsTrue, IfOk};
ghost use Rattle.elf_load.specs.Checks.{has_table};
ghost use Rattle.elf_load.specs.Header.{header_of, read_field, program_header_at, program_headers};

use crate::constants::{HEADER_LEN, PROGRAM_HEADER_LEN};
use byteorder::{ByteOrder, LittleEndian};
use std::alloc::Global;
use zs_num::NoMemory;

/// The fields of the ELF header that decide.
#[derive(Clone, Copy)]
pub struct Header {
    /// The first four bytes.
    pub magic: u32,
    pub class: u8,
    /// The encoding of the file's numbers.
    pub encoding: u8,
    pub type_: u16,
    pub machine: u16,
    /// The address of the first instruction.
    pub entry: u64,
    /// Where the program headers begin in the file.
    pub phoff: u64,
    pub flags: u32,
    /// The length of a program header.
    pub phentsize: u16,
    /// How many program headers there are.
    pub phnum: u16,
}

impl Header {
    /// Reads the header with which a file begins.
    #[tactic(auto, unfolding(crate::specs::Header::header_of))]
    pub fn read(file: &[u8]) -> Self
        requires { HEADER_LEN ≤ length file.now }
        ensures { result ≡ header_of file.now }
    {
        Header {
            magic: u32_at(file, 0),
            class: file[4],
            encoding: file[5],
            type_: u16_at(file, 16),
            machine: u16_at(file, 18),
            entry: u64_at(file, 24),
            phoff: u64_at(file, 32),
            flags: u32_at(file, 48),
            phentsize: u16_at(file, 54),
            phnum: u16_at(file, 56),
        }
    }
}

/// The fields of a program header that decide.
#[derive(Clone, Copy)]
pub struct ProgramHeader {
    pub type_: u32,
    pub flags: u32,
    /// Where the segment begins in the file.
    pub offset: u64,
    /// The address of its first byte.
    pub vaddr: u64,
    /// How many bytes of the file it has.
    pub filesz: u64,
    /// How many bytes of memory it takes.
    pub memsz: u64,
}

impl ProgramHeader {
    /// Reads the program header at this place of a file.
    #[tactic(auto, unfolding(crate::specs::Header::program_header_at))]
    pub fn read(file: &[u8], at: usize) -> Self
        requires { at + PROGRAM_HEADER_LEN ≤ length file.now }
        ensures { result ≡ program_header_at file.now at }
    {
        ProgramHeader {
            type_: u32_at(file, at),
            flags: u32_at(file, at + 4),
            offset: u64_at(file, at + 8),
            vaddr: u64_at(file, at + 16),
            filesz: u64_at(file, at + 32),
            memsz: u64_at(file, at + 40),
        }
    }
}

/// Reads the table of program headers, which lies in the file.
pub fn program_headers(
    alloc: Global,
    file: &[u8],
    header: &Header,
) -> Result<Vec<ProgramHeader>, NoMemory>
    requires { IsTrue (has_table header.now (length file.now)) }
    ensures { IfOk result (λ headers. headers.items ≡ program_headers file.now header.now) }
{
    let mut headers = Vec::new(alloc);
    for i in 0..header.phnum as usize {
        let at = header.phoff as usize + PROGRAM_HEADER_LEN * i;
        headers.push(ProgramHeader::read(file, at))?;
    }
    Ok(headers)
}

fn u16_at(file: &[u8], at: usize) -> u16
    requires { at + 2 ≤ length file.now }
    ensures { result ≡ read_field file.now at 2 }
{
    LittleEndian::read_u16(&file[at..])
}

fn u32_at(file: &[u8], at: usize) -> u32
    requires { at + 4 ≤ length file.now }
    ensures { result ≡ read_field file.now at 4 }
{
    LittleEndian::read_u32(&file[at..])
}

fn u64_at(file: &[u8], at: usize) -> u64
    requires { at + 8 ≤ length file.now }
    ensures { result ≡ read_field file.now at 8 }
{
    LittleEndian::read_u64(&file[at..])
}
