//! Why a file is not an executable that can be run here.
ghost use Rattle.std.specs.Prelude.{◌≡◌};
ghost use Rattle.elf_load.specs.declared.bad_elf.LoadFail.TheVariants as fail;

use thiserror::Error;
use zs_num::NoMemory;

/// The first check that an executable fails.
#[derive(Clone, Copy, Debug, PartialEq, Eq, Error)]
pub enum BadElf {
    #[error("the file is shorter than an ELF header")]
    Short,
    #[error("the file does not begin with the ELF magic")]
    Magic,
    #[error("the file is not 64-bit and little-endian")]
    ClassOrData,
    #[error("the file is not an executable")]
    Type_,
    #[error("the executable is not for RISC-V")]
    Machine,
    #[error("the executable needs an extension or ABI that is not here")]
    Flags,
    #[error("the program headers are not as they have to be")]
    Headers,
    #[error("the executable is dynamic")]
    Dynamic,
    #[error("segment {index} lies past the end of the file")]
    SegmentPastFile { index: u16 },
    #[error("segment {index} lies outside memory")]
    SegmentPastMemory { index: u16 },
    #[error("segments {first} and {second} overlap")]
    Overlap { first: u16, second: u16 },
    #[error("the entry is not in an executable segment")]
    Entry,
}

/// Why an executable was not loaded.
#[derive(Clone, Copy, Debug, Error)]
pub enum LoadFail {
    #[error(transparent)]
    Bad(BadElf),
    #[error("out of memory")]
    NoMemory,
}

impl From<NoMemory> for LoadFail {
    ghost from_gives = { λ _ e. e ≡ fail.NoMemory };

    fn from(_: NoMemory) -> Self {
        LoadFail::NoMemory
    }
}
