//! The constants of executables, by their names in the ELF-64 object file format and in the RISC-V
//! ELF psABI specification.

/// The first four bytes, as a number: 0x7F and "ELF".
pub const ELF_MAGIC: u32 = 0x464C_457F;

pub const ELFCLASS64: u8 = 2;

/// Little-endian.
pub const ELFDATA2LSB: u8 = 1;

pub const EV_CURRENT: u8 = 1;

pub const ET_EXEC: u16 = 2;

pub const EM_RISCV: u16 = 243;

/// Set where an executable needs compressed instructions.
pub const EF_RISCV_RVC: u32 = 1;

/// The two bits of the floating-point ABI.
pub const EF_RISCV_FLOAT_ABI: u32 = 6;

pub const PT_LOAD: u32 = 1;

pub const PT_DYNAMIC: u32 = 2;

pub const PT_INTERP: u32 = 3;

/// The permission to execute.
pub const PF_X: u32 = 1;

/// The permission to write.
pub const PF_W: u32 = 2;

/// The permission to read.
pub const PF_R: u32 = 4;

/// The length of the ELF header, in bytes.
pub const HEADER_LEN: usize = 64;

/// The length of a program header, in bytes.
pub const PROGRAM_HEADER_LEN: usize = 56;

/// How many program headers an executable may have here.
pub const MOST_HEADERS: usize = 128;
