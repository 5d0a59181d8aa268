//! The built-in description with some words changed, and a small machine.
ghost use Rattle.std.specs.Prelude.{◌≡◌, ◌≤◌, [], ◌∷◌, None};
ghost use Rattle.machine_desc.specs.Components.{component_count};
ghost use Rattle.machine_desc.specs.Machine.{IsMachine};

use machine_desc::{Controllers, Domains, L1, L2, Machine, Memory, PLAIN, Places, read};
use std::process::Abort;

/// A text with the first `old` in it replaced.
fn replaced(rt: &(impl Abort + AllocGlobal), text: &str, old: &str, new: &str) -> String {
    text.replacen(rt.alloc(), old, new, 1).expect(rt, "memory")
}

/// A copy of a text.
fn copy_of(rt: &(impl Abort + AllocGlobal), text: &str) -> String {
    String::from_str(rt.alloc(), text).expect(rt, "memory")
}

/// The built-in text with each first word of a pair replaced by the second.
pub(crate) fn edited(rt: &(impl Abort + AllocGlobal), edits: &[(&str, &str)]) -> String {
    let mut text = copy_of(rt, PLAIN);
    for (old, new) in edits {
        text = replaced(rt, &text, *old, *new);
    }
    text
}

/// What a text reads as.
pub(crate) fn machine_of(rt: &(impl Abort + AllocGlobal), text: &[u8]) -> Machine
    ensures { IsMachine result }
{
    read(rt.alloc(), text).expect(rt, "a machine")
}

/// A list of one domain.
fn place(rt: &(impl Abort + AllocGlobal), domain: u16) -> Places
    ensures { result ≡ domain ∷ [] }
{
    Places::of(vec![in rt.alloc(); domain].expect(rt, "memory"))
}

/// One core or two, one bank in domain 0 and one controller in domain 1, with the numbers of the
/// built-in text.
pub(crate) fn small(rt: &(impl Abort + AllocGlobal), cores: u16) -> Machine
    requires some { 1 ≤ cores }
    requires few { cores ≤ 2 }
    ensures machine { IsMachine result }
    ensures components { component_count result ≡ 2 }
    ensures domains { result.domains.count ≡ 2 }
    ensures closed { result.dram ≡ None }
{
    Machine {
        version: 1,
        cores,
        interval: 10_000,
        intervals: 100_000,
        memory: Memory {
            base: 65_536,
            size: 1_048_576,
            stack: 4_096,
        },
        l1: L1 {
            sets: 2,
            ways: 1,
            latency: 1,
        },
        l1i: None,
        l2: L2 {
            banks: 1,
            sets: 4,
            ways: 2,
            latency: 10,
            remote: 5,
            fill: 2,
            occupancy: 4,
        },
        controllers: Controllers {
            count: 1,
            read: 100,
            write: 40,
            occupancy: 20,
        },
        domains: Domains {
            count: 2,
            banks: place(rt, 0),
            controllers: place(rt, 1),
        },
        mesh: None,
        dram: None,
        pipe: None,
    }
}
