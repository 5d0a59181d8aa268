//! The two kinds of header as tables of fields (ELF-64 object file format, "ELF header" and
//! "Program header table").
ghost use Rattle.std.specs.Prelude.{◌≡◌};
ghost use Rattle.elf_write.specs.File.{header_fields, program_header_fields};

use crate::field::Field;
use elf_load::Segment;
use elf_load::constants::{
    ELF_MAGIC, ELFCLASS64, ELFDATA2LSB, EM_RISCV, ET_EXEC, EV_CURRENT, HEADER_LEN, PF_R, PF_W,
    PF_X, PROGRAM_HEADER_LEN, PT_LOAD,
};

/// The fields of the ELF header of an executable with `phnum` program headers.
pub fn header_fields(entry: u64, phnum: usize) -> [Field; 19]
    ensures { result ≡ header_fields entry phnum }
{
    [
        Field::new(4, u64::from(ELF_MAGIC)),
        Field::new(1, u64::from(ELFCLASS64)),
        Field::new(1, u64::from(ELFDATA2LSB)),
        Field::new(1, u64::from(EV_CURRENT)),
        // The OS ABI, the ABI version and padding.
        Field::new(1, 0),
        Field::new(8, 0),
        Field::new(2, u64::from(ET_EXEC)),
        Field::new(2, u64::from(EM_RISCV)),
        Field::new(4, u64::from(EV_CURRENT)),
        Field::new(8, entry),
        // The offsets of the program headers and of the section headers, and the flags.
        Field::new(8, HEADER_LEN as u64),
        Field::new(8, 0),
        Field::new(4, 0),
        Field::new(2, HEADER_LEN as u64),
        Field::new(2, PROGRAM_HEADER_LEN as u64),
        Field::new(2, phnum as u64),
        // The length and number of section headers, and the section of names.
        Field::new(2, 0),
        Field::new(2, 0),
        Field::new(2, 0),
    ]
}

/// The fields of the program header of a segment whose bytes stand at this offset of the file.
pub fn program_header_fields(segment: &Segment, offset: u64) -> [Field; 8]
    ensures { result ≡ program_header_fields segment.now offset }
{
    let flags = PF_R + PF_W + if segment.exec { PF_X } else { 0 };
    [
        Field::new(4, u64::from(PT_LOAD)),
        Field::new(4, u64::from(flags)),
        Field::new(8, offset),
        Field::new(8, segment.vaddr),
        // The physical address.
        Field::new(8, segment.vaddr),
        Field::new(8, segment.bytes.as_slice().len() as u64),
        Field::new(8, segment.memsz),
        // The alignment.
        Field::new(8, 1),
    ]
}
