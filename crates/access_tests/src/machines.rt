//! The machines of the tests.
ghost use Rattle.std.specs.Prelude.{◌≡◌, ◌<◌, ◌≤◌, ◌%◌, All, IfOk, IfSome, length};
ghost use Rattle.machine_desc.specs.Machine.{IsL1, IsMachine};

use machine_desc::{Controllers, Domains, L1, L2, Machine, Memory, Places};
use std::alloc::Global;
use zs_num::NoMemory;

/// So many places in domain 0.
fn places(alloc: Global, count: u16) -> Result<Places, NoMemory>
    ensures count { IfOk result (λ places. length places ≡ count) }
    ensures first { IfOk result (All (λ domain. domain < 1)) }
{
    Ok(Places::of(vec![in alloc; 0; usize::from(count)]?))
}

/// A machine of two cores and so many banks in one domain, with the caches and the memory of the
/// built-in one, and with instruction caches if they are given.
pub(crate) fn two_cores(alloc: Global, banks: u16, l1i: Option<L1>) -> Result<Machine, NoMemory>
    requires some { 1 ≤ banks }
    requires few { banks ≤ 64 }
    requires l1 { 2 % banks ≡ 0 }
    requires l2 { 4 % banks ≡ 0 }
    requires l1i { IfSome l1i (IsL1 banks) }
    ensures machine { IfOk result IsMachine }
    ensures cores { IfOk result (λ m. m.cores ≡ 2) }
    ensures l1i { IfOk result (λ m. m.l1i ≡ l1i) }
    ensures banks { IfOk result (λ m. m.l2.banks ≡ banks) }
    ensures base { IfOk result (λ m. m.memory.base ≡ 65536) }
    ensures size { IfOk result (λ m. m.memory.size ≡ 1048576) }
{
    Ok(Machine {
        version: if l1i.is_some() { 2 } else { 1 },
        cores: 2,
        interval: 10_000,
        intervals: 100_000,
        memory: Memory {
            base: 0x1_0000,
            size: 0x10_0000,
            stack: 4096,
        },
        l1: L1 {
            sets: 2,
            ways: 1,
            latency: 1,
        },
        l1i,
        l2: L2 {
            banks,
            sets: 4,
            ways: 2,
            latency: 10,
            remote: 5,
            fill: 2,
            occupancy: 4,
        },
        controllers: Controllers {
            count: 1,
            read: 100,
            write: 40,
            occupancy: 20,
        },
        domains: Domains {
            count: 1,
            banks: places(alloc, banks)?,
            controllers: places(alloc, 1)?,
        },
        mesh: None,
        dram: None,
        pipe: None,
    })
}
