//! New homes and L1s of a machine.
ghost use Rattle.std.specs.Prelude.{◌≡◌, ◌⊎◌, ◌/◌, ◌<◌, ◌≤◌, map, option_map, replicate, IfOk};
ghost use Rattle.std.specs.List.{range_with_len};
ghost use Rattle.machine_desc.specs.Machine.{IsMachine};
ghost use Rattle.shard.specs.NewParts.{home_of_bank, l1_of_core};

use elf_load::Image;
use home::Home;
use l1_cache::L1;
use machine_desc::Machine;
use std::alloc::Global;
use zs_num::NoMemory;

/// The homes of all banks, in order.
pub(crate) fn new_homes(
    alloc: Global,
    machine: &Machine,
    image: &Image,
) -> Result<Vec<Home>, NoMemory>
    requires machine { IsMachine machine.now }
    requires base { image.now.base ≡ machine.now.memory.base }
    requires size { image.now.size ≡ machine.now.memory.size }
    ensures { IfOk result (λ homes. homes.items ≡ map (λ number. home_of_bank machine.now number image.now) (range_with_len 0 machine.now.l2.banks)) }
{
    let mut homes = Vec::new(alloc);
    for number in 0..machine.l2.banks {
        homes.push(new_home(alloc, machine, number, image)?)?;
    }
    Ok(homes)
}

/// The home of one bank.
pub(crate) fn new_home(
    alloc: Global,
    machine: &Machine,
    number: u16,
    image: &Image,
) -> Result<Home, NoMemory>
    requires machine { IsMachine machine.now }
    requires number { number < machine.now.l2.banks }
    requires base { image.now.base ≡ machine.now.memory.base }
    requires size { image.now.size ≡ machine.now.memory.size }
    ensures { IfOk result (λ home. home ≡ home_of_bank machine.now number image.now) }
{
    let banks = machine.l2.banks;
    let sets = machine.l2.sets / u32::from(banks);
    Home::new(
        alloc,
        number,
        banks,
        sets,
        machine.l2.ways,
        machine.cores,
        image,
    )
}

/// The L1s of all cores, in order: whole ones where there is one part, or what they have of the
/// lines of one bank where there are as many parts as banks. `near` is how many lines each finds by
/// one comparison.
pub(crate) fn new_l1s(
    alloc: Global,
    machine: &Machine,
    parts: u16,
    near: u32,
) -> Result<Vec<L1>, NoMemory>
    requires machine { IsMachine machine.now }
    requires parts { (parts ≡ 1) ⊎ (parts ≡ machine.now.l2.banks) }
    requires near { 1 ≤ near }
    ensures { IfOk result (λ l1s. l1s.items ≡ replicate machine.now.cores (l1_of_core machine.now parts)) }
{
    let mut l1s = Vec::new(alloc);
    for _core in 0..machine.cores {
        l1s.push(new_l1(alloc, machine, parts, near)?)?;
    }
    Ok(l1s)
}

/// The L1 of one core.
fn new_l1(alloc: Global, machine: &Machine, parts: u16, near: u32) -> Result<L1, NoMemory>
    requires machine { IsMachine machine.now }
    requires parts { (parts ≡ 1) ⊎ (parts ≡ machine.now.l2.banks) }
    requires near { 1 ≤ near }
    ensures { IfOk result (λ l1. l1 ≡ l1_of_core machine.now parts) }
{
    let sets = machine.l1.sets / u32::from(parts);
    L1::new(
        alloc,
        parts,
        sets,
        machine.l1.ways,
        l1i_of(machine, parts),
        near,
    )
}

/// How many sets and ways the instruction cache of a core has, where it has one: all of it, or what
/// is there for the lines of one bank.
fn l1i_of(machine: &Machine, parts: u16) -> Option<(u32, u16)>
    requires { 1 ≤ parts }
    ensures { result ≡ option_map (λ cache. (cache.sets / parts, cache.ways)) machine.now.l1i }
{
    let cache = machine.l1i?;
    Some((cache.sets / u32::from(parts), cache.ways))
}
