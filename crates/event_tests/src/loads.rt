//! Loads as a log has them, and their graph on a small machine.
ghost use Rattle.std.specs.Prelude.{◌≡◌, ◌<◌, ◌^◌, All, IsTrue, length, sum_by};
ghost use Rattle.event_graph.specs.PlainTiming.{pieces_of};
ghost use Rattle.event_tests.specs.TwoMisses.{load_of};

use crate::machines::small;
use event_graph::{Graph, Plain, build, laws};
use std::process::Abort;
use zs_num::{Cycle, Entries, Entry, Outcome, Request};

/// A miss whose victim is clean.
pub(crate) const MISS: Outcome = Outcome::Miss {
    dirty_victim: false,
};

/// A core, the cycle at which its load starts, and the outcome.
pub(crate) type Load = (u16, Cycle, Outcome);

/// The entry of a load.
pub(crate) fn entry(load: &Load) -> Entry
    ensures { result ≡ load_of load.now.0 load.now.1 load.now.2 }
{
    Entry {
        core: load.0,
        stamp: 1,
        start: load.1,
        request: Request::Load {
            addr: 0x11000,
            width: 8,
        },
        reply: 0,
        outcome: load.2,
    }
}

/// Whether all these are entries of two cores, at cycles of a run.
pub(crate) fn are_of_two_cores(entries: &[Entry]) -> bool
    ensures cores { IsTrue result → All (λ e. e.core < 2) entries.now }
    ensures starts { IsTrue result → All (λ e. e.start < 2 ^ 62) entries.now }
{
    let cores = entries.iter().all(|entry| entry.core < 2);
    let starts = entries.iter().all(|entry| entry.start < 1 << 62);
    cores && starts
}

/// Whether these entries have fewer events than there are numbers for.
fn are_few(plain: &Plain, entries: &[Entry]) -> bool
    ensures { IsTrue result → sum_by (λ e. length (pieces_of plain.now.path e)) entries.now < 2 ^ 32 }
{
    laws::plain_accesses_have_few_events();
    let _plain = plain;
    entries.len() <= 1 << 20
}

/// The entries of loads.
pub(crate) fn entries_of(rt: &(impl Abort + AllocGlobal), loads: &[Load]) -> Entries {
    let mut entries = Vec::new(rt.alloc());
    for load in loads {
        entries.push(entry(load)).expect(rt, "memory");
    }
    Entries::of(entries)
}

/// The expansion of the machine of two cores.
pub(crate) fn plain(rt: &(impl Abort + AllocGlobal)) -> Plain {
    Plain::of(&small(rt, 2))
}

/// The graph of entries of two cores.
fn built(rt: &(impl Abort + AllocGlobal), plain: &Plain, entries: &Entries) -> Graph {
    assert!(rt; are_of_two_cores(entries.as_slice()));
    assert!(rt; are_few(plain, entries.as_slice()));
    build(rt.alloc(), plain, entries, 2).expect(rt, "memory")
}

/// The graph that loads make on the machine of two cores.
pub(crate) fn graph_of(rt: &(impl Abort + AllocGlobal), loads: &[Load]) -> Graph {
    built(rt, &plain(rt), &entries_of(rt, loads))
}
