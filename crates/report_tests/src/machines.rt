//! The machines of the tests.
ghost use Rattle.std.specs.Prelude.{◌≡◌, ◌<◌, ◌≤◌, All, None, length};
ghost use Rattle.machine_desc.specs.Components.{component_count};
ghost use Rattle.machine_desc.specs.Machine.{IsMachine};

use machine_desc::{Controllers, Domains, L1, L2, Machine, Memory, Places};
use stats::Counters;
use std::process::Abort;

/// So many places in domain 0.
fn places(rt: &(impl Abort + AllocGlobal), count: u16) -> Places
    ensures count { length result ≡ count }
    ensures first { All (λ domain. domain < 1) result }
{
    Places::of(vec![in rt.alloc(); 0; usize::from(count)].expect(rt, "memory"))
}

/// A machine of so many cores, banks and controllers, with one set of each L1 and of the L2 to a
/// bank, and as many intervals as there can be.
pub(crate) fn machine(
    rt: &(impl Abort + AllocGlobal),
    cores: u16,
    banks: u16,
    controllers: u16,
) -> Machine
    requires some_cores { 1 ≤ cores }
    requires few_cores { cores ≤ 256 }
    requires some_banks { 1 ≤ banks }
    requires few_banks { banks ≤ 64 }
    requires some_controllers { 1 ≤ controllers }
    requires few_controllers { controllers ≤ 16 }
    ensures machine { IsMachine result }
    ensures cores { result.cores ≡ cores }
    ensures banks { result.l2.banks ≡ banks }
    ensures controllers { result.controllers.count ≡ controllers }
    ensures mesh { result.mesh ≡ None }
{
    Machine {
        version: 1,
        cores,
        interval: 10_000,
        intervals: 1 << 20,
        memory: Memory {
            base: 0x1_0000,
            size: 0x10_0000,
            stack: 4096,
        },
        l1: L1 {
            sets: u32::from(banks),
            ways: 1,
            latency: 1,
        },
        l1i: None,
        l2: L2 {
            banks,
            sets: u32::from(banks),
            ways: 2,
            latency: 10,
            remote: 5,
            fill: 2,
            occupancy: 4,
        },
        controllers: Controllers {
            count: controllers,
            read: 100,
            write: 40,
            occupancy: 20,
        },
        domains: Domains {
            count: 1,
            banks: places(rt, banks),
            controllers: places(rt, controllers),
        },
        mesh: None,
        dram: None,
        pipe: None,
    }
}

/// The counters of a machine before the first interval.
pub(crate) fn no_counters(rt: &(impl Abort + AllocGlobal), machine: &Machine) -> Counters
    requires { IsMachine machine.now }
    ensures cores { length result.core_counts ≡ machine.now.cores }
    ensures comps { length result.comp_counts ≡ component_count machine.now }
{
    Counters::new(rt.alloc(), machine).expect(rt, "memory")
}
