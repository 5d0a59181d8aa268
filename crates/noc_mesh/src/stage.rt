//! What an access asks of its components.
ghost use Rattle.std.specs.Prelude.{◌≡◌};
ghost use Rattle.event_graph.specs.PathInRange.{IsAccessPath};
ghost use Rattle.event_graph.specs.Timing.{look_up_time as the_look_up_time};
ghost use Rattle.noc_mesh.specs.NetTiming as timing;

use component::Kind;
use division::{quotient, remainder};
use event_graph::AccessPath;
use zs_num::Entry;

/// What an access asks of one component.
#[derive(Clone, Copy)]
pub(crate) struct Stage {
    pub(crate) component: u16,
    pub(crate) kind: Kind,
    /// How long it takes where nothing else runs, in cycles.
    pub(crate) time: u64,
}

/// The time of a look-up; `others`: another core has to change its copy.
pub(crate) fn look_up_time(path: &AccessPath, others: bool) -> u64
    ensures { result ≡ the_look_up_time path.now.l2 others }
{
    let latency = u64::from(path.l2.latency);
    if others {
        latency + u64::from(path.l2.remote)
    } else {
        latency
    }
}

/// The look-up in the bank that has the line.
pub(crate) fn looks_up(path: &AccessPath, entry: &Entry, others: bool) -> Stage
    requires { IsAccessPath path.now }
    ensures { result ≡ timing.looks_up path.now entry.now others }
{
    Stage {
        component: path.bank(entry),
        kind: if others { Kind::Remote } else { Kind::Lookup },
        time: look_up_time(path, others),
    }
}

/// The read of the line: with open rows, of its row in its bank of the memory.
pub(crate) fn reads(path: &AccessPath, entry: &Entry) -> Stage
    requires { IsAccessPath path.now }
    ensures { result ≡ timing.reads path.now entry.now }
{
    match &path.dram {
        None => Stage {
            component: path.controller(entry),
            kind: Kind::Read,
            time: u64::from(path.controllers.read),
        },
        Some(dram) => {
            let group = quotient(entry.request.line(), u64::from(dram.row_lines));
            let banks = u64::from(dram.banks);
            Stage {
                component: path.controller(entry),
                kind: Kind::RowRead {
                    bank: remainder(group, banks) as u16,
                    row: quotient(group, banks),
                },
                time: u64::from(dram.hit),
            }
        }
    }
}

/// The write of the line that leaves the shared cache.
pub(crate) fn writes(path: &AccessPath, entry: &Entry) -> Stage
    requires { IsAccessPath path.now }
    ensures { result ≡ timing.writes path.now entry.now }
{
    Stage {
        component: path.controller(entry),
        kind: Kind::Write,
        time: u64::from(path.controllers.write),
    }
}

/// The fill of the bank with the line that was read.
pub(crate) fn fills(path: &AccessPath, entry: &Entry) -> Stage
    requires { IsAccessPath path.now }
    ensures { result ≡ timing.fills path.now entry.now }
{
    Stage {
        component: path.bank(entry),
        kind: Kind::Fill,
        time: u64::from(path.l2.fill),
    }
}
