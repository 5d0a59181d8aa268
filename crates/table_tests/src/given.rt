//! What the tests run: machines of small stacks with the caches and the memory of the built-in one,
//! and executables of eight words.
ghost use Rattle.std.specs.Prelude.{◌≡◌, ◌<◌, ◌≤◌, ◌%◌, All, IfOk, length};
ghost use Rattle.machine_desc.specs.Machine.{IsMachine};

use elf_load::{Image, load};
use machine_desc::{Controllers, Domains, L1, L2, Machine, Memory, Places};
use std::alloc::{AllocError, Global};
use std::test::Fail;
use zs_num::NoMemory;

/// ld x5, -8(x2); addi x17, x0, 93; ecall
pub(crate) const ONE_LOAD: [u32; 8] = [0xFF81_3283, 0x05D0_0893, 0x0000_0073, 0, 0, 0, 0, 0];

/// ecall
pub(crate) const ECALL: [u32; 8] = [0x0000_0073, 0, 0, 0, 0, 0, 0, 0];

/// lui x5, 17; addi x6, x0, 100; amoadd.d x10, x11, (x5); addi x6, x6, -1; bne x6, x0, -8;
/// addi x17, x0, 93; ecall: adds 4 a hundred times to one number.
pub(crate) const RACE: [u32; 8] = [
    0x0001_12B7,
    0x0640_0313,
    0x00B2_B52F,
    0xFFF3_0313,
    0xFE03_1CE3,
    0x05D0_0893,
    0x0000_0073,
    0,
];

/// An executable of eight words, by the ELF-64 object file format, up to its code at byte 120.
static FRONT: [u8; 120] = [
    0x7f, 0x45, 0x4c, 0x46, 0x02, 0x01, 0x01, 0x00, 0x00, 0x00, 0x00, 0x00, 0x00, 0x00, 0x00, 0x00,
    0x02, 0x00, 0xf3, 0x00, 0x01, 0x00, 0x00, 0x00, 0x00, 0x00, 0x01, 0x00, 0x00, 0x00, 0x00, 0x00,
    0x40, 0x00, 0x00, 0x00, 0x00, 0x00, 0x00, 0x00, 0x00, 0x00, 0x00, 0x00, 0x00, 0x00, 0x00, 0x00,
    0x00, 0x00, 0x00, 0x00, 0x40, 0x00, 0x38, 0x00, 0x01, 0x00, 0x00, 0x00, 0x00, 0x00, 0x00, 0x00,
    0x01, 0x00, 0x00, 0x00, 0x07, 0x00, 0x00, 0x00, 0x78, 0x00, 0x00, 0x00, 0x00, 0x00, 0x00, 0x00,
    0x00, 0x00, 0x01, 0x00, 0x00, 0x00, 0x00, 0x00, 0x00, 0x00, 0x01, 0x00, 0x00, 0x00, 0x00, 0x00,
    0x20, 0x00, 0x00, 0x00, 0x00, 0x00, 0x00, 0x00, 0x20, 0x00, 0x00, 0x00, 0x00, 0x00, 0x00, 0x00,
    0x01, 0x00, 0x00, 0x00, 0x00, 0x00, 0x00, 0x00,
];

/// So many places in domain 0.
fn places(alloc: Global, count: u16) -> Result<Places, NoMemory>
    ensures count { IfOk result (λ places. length places ≡ count) }
    ensures first { IfOk result (All (λ domain. domain < 1)) }
{
    Ok(Places::of(vec![in alloc; 0; usize::from(count)]?))
}

/// A machine of so many cores and banks. The stack of each core is a line.
pub(crate) fn machine(alloc: Global, cores: u16, banks: u16) -> Result<Machine, NoMemory>
    requires some_cores { 1 ≤ cores }
    requires few_cores { cores ≤ 64 }
    requires some_banks { 1 ≤ banks }
    requires few_banks { banks ≤ 64 }
    requires l1 { 2 % banks ≡ 0 }
    requires l2 { 4 % banks ≡ 0 }
    ensures machine { IfOk result IsMachine }
    ensures version { IfOk result (λ m. m.version ≡ 1) }
    ensures cores { IfOk result (λ m. m.cores ≡ cores) }
    ensures banks { IfOk result (λ m. m.l2.banks ≡ banks) }
    ensures base { IfOk result (λ m. m.memory.base ≡ 65536) }
    ensures size { IfOk result (λ m. m.memory.size ≡ 1048576) }
{
    Ok(Machine {
        version: 1,
        cores,
        interval: 10_000,
        intervals: 100_000,
        memory: Memory {
            base: 0x1_0000,
            size: 0x10_0000,
            stack: 64,
        },
        l1: L1 {
            sets: 2,
            ways: 1,
            latency: 1,
        },
        l1i: None,
        l2: L2 {
            banks,
            sets: 4,
            ways: 2,
            latency: 10,
            remote: 5,
            fill: 2,
            occupancy: 4,
        },
        controllers: Controllers {
            count: 1,
            read: 100,
            write: 40,
            occupancy: 20,
        },
        domains: Domains {
            count: 1,
            banks: places(alloc, banks)?,
            controllers: places(alloc, 1)?,
        },
        mesh: None,
        dram: None,
        pipe: None,
    })
}

/// Such a machine whose cores fetch, through instruction caches that are as the L1s.
pub(crate) fn fetching_machine(alloc: Global, cores: u16, banks: u16) -> Result<Machine, NoMemory>
    requires some_cores { 1 ≤ cores }
    requires few_cores { cores ≤ 64 }
    requires some_banks { 1 ≤ banks }
    requires few_banks { banks ≤ 64 }
    requires l1 { 2 % banks ≡ 0 }
    requires l2 { 4 % banks ≡ 0 }
    ensures { IfOk result IsMachine }
{
    let mut machine = machine(alloc, cores, banks)?;
    machine.version = 2;
    machine.l1i = Some(machine.l1);
    Ok(machine)
}

/// The image of eight words in the machine's memory.
pub(crate) fn image_of(alloc: Global, machine: &Machine, words: &[u32; 8]) -> Result<Image, Fail>
    requires { IsMachine machine.now }
    ensures base { IfOk result (λ image. image.base ≡ machine.now.memory.base) }
    ensures size { IfOk result (λ image. image.size ≡ machine.now.memory.size) }
{
    let file = file_of(alloc, words)?;
    Ok(load(alloc, &file, machine.memory.base, machine.memory.size)?)
}

/// The file of eight words.
fn file_of(alloc: Global, words: &[u32; 8]) -> Result<Vec<u8>, AllocError> {
    let mut file = Vec::from_slice(alloc, &FRONT)?;
    for word in words {
        file.extend_from_slice(&word.to_le_bytes())?;
    }
    Ok(file)
}
