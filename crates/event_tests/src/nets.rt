//! Accesses that cross a mesh: the events of worked ones.
ghost use Rattle.std.specs.Prelude.{◌≡◌, ◌<◌, ◌^◌, All, IfSome, IsTrue, length, sum_by};
ghost use Rattle.machine_desc.specs.Machine.{IsDram};
ghost use Rattle.noc_mesh.specs.NetTiming.{net_pieces};

use crate::graphs::{Row, are_events};
use crate::loads::{Load, MISS, are_of_two_cores, entries_of, entry};
use component::Kind;
use event_graph::{AccessPath, Expand, Graph, Piece, build};
use machine_desc::{Controllers, Dram, L1, L2, Mesh};
use noc_mesh::{Net, laws};
use std::process::Abort;
use zs_num::{Entries, Entry, Outcome};

/// The small machine on two nodes side by side: the bank is at the first, and the controller at the
/// second.
fn pair() -> Net {
    net_with(None)
}

/// The same with a memory whose banks keep rows open.
fn pair_with_rows() -> Net {
    net_with(Some(Dram {
        banks: 2,
        row_lines: 5,
        hit: 90,
        closed: 120,
        conflict: 150,
    }))
}

/// The small machine on two nodes, with open rows or without.
fn net_with(dram: Option<Dram>) -> Net
    requires { IfSome dram IsDram }
{
    Net {
        path: AccessPath {
            l1: L1 {
                sets: 2,
                ways: 1,
                latency: 1,
            },
            l1i: None,
            l2: L2 {
                banks: 1,
                sets: 4,
                ways: 2,
                latency: 10,
                remote: 5,
                fill: 2,
                occupancy: 4,
            },
            controllers: Controllers {
                count: 1,
                read: 100,
                write: 40,
                occupancy: 20,
            },
            mesh: Some(Mesh {
                width: 2,
                height: 1,
                hop: 3,
                occupancy: 2,
            }),
            dram,
        },
    }
}

/// Whether these entries have fewer events than there are numbers for.
fn are_few(net: &Net, entries: &[Entry]) -> bool
    ensures { IsTrue result → sum_by (λ e. length (net_pieces net.now.path e)) entries.now < 2 ^ 32 }
{
    laws::net_accesses_have_few_events();
    let _net = net;
    entries.len() <= 1 << 20
}

/// The graph of entries of two cores on the two nodes.
fn built(rt: &(impl Abort + AllocGlobal), net: &Net, entries: &Entries) -> Graph {
    assert!(rt; are_of_two_cores(entries.as_slice()));
    assert!(rt; are_few(net, entries.as_slice()));
    build(rt.alloc(), net, entries, 2).expect(rt, "memory")
}

/// The graph that loads make there.
fn graph_of(rt: &(impl Abort + AllocGlobal), loads: &[Load]) -> Graph {
    built(rt, &pair(), &entries_of(rt, loads))
}

static TWO_AT_ONCE: [Load; 2] = [(0, 1, MISS), (1, 1, MISS)];

static TWELVE_EVENTS: [Row; 12] = [
    (0, 0, Kind::Lookup, 2, 12, None, false),
    (0, 2, Kind::Hop, 12, 15, Some(0), false),
    (0, 1, Kind::Read, 15, 115, Some(1), false),
    (0, 7, Kind::Hop, 115, 118, Some(2), false),
    (0, 0, Kind::Fill, 118, 120, Some(3), true),
    (1, 7, Kind::Hop, 2, 5, None, false),
    (1, 0, Kind::Lookup, 5, 15, Some(5), false),
    (1, 2, Kind::Hop, 15, 18, Some(6), false),
    (1, 1, Kind::Read, 18, 118, Some(7), false),
    (1, 7, Kind::Hop, 118, 121, Some(8), false),
    (1, 0, Kind::Fill, 121, 123, Some(9), false),
    (1, 2, Kind::Hop, 123, 126, Some(10), true),
];

#[test]
fn a_core_at_the_other_node_has_hops_to_the_bank_and_back(rt: HostRuntime) {
    are_events(&rt, graph_of(&rt, &TWO_AT_ONCE).events(), &TWELVE_EVENTS);
}

/// A component, a kind, an offset, a time, and the places of the parents.
type PieceRow = (u16, Kind, u64, u64, Option<u16>, Option<u16>);

static WRITTEN_BACK: [PieceRow; 6] = [
    (0, Kind::Lookup, 1, 10, None, None),
    (2, Kind::Hop, 11, 3, Some(0), None),
    (1, Kind::Read, 14, 100, Some(1), None),
    (1, Kind::Write, 14, 40, Some(1), None),
    (7, Kind::Hop, 114, 3, Some(2), None),
    (0, Kind::Fill, 117, 2, Some(4), Some(3)),
];

/// The row of an event.
fn row_of(piece: &Piece) -> PieceRow {
    (
        piece.component,
        piece.kind,
        piece.offset,
        piece.time,
        piece.first,
        piece.second,
    )
}

/// Checks an event.
fn is_piece(rt: &impl Abort, found: &Piece, wanted: &PieceRow) {
    assert!(rt; row_of(found) == *wanted);
}

/// Checks the events of an access.
fn are_pieces(rt: &impl Abort, net: &Net, entry: &Entry, rows: &[PieceRow]) {
    let count = net.count(entry);
    assert!(rt; usize::from(count) == rows.len());
    for place in 0..count {
        is_piece(rt, &net.piece(entry, place), &rows[usize::from(place)]);
    }
}

#[test]
fn the_hops_back_wait_for_the_read_and_the_fill_for_the_write_too(rt: HostRuntime) {
    let outcome = Outcome::Miss { dirty_victim: true };
    are_pieces(&rt, &pair(), &entry(&(0, 1, outcome)), &WRITTEN_BACK);
}

/// Line 1088 is in group 217 of five lines, so in row 108 of bank 1.
static READ_OF_A_ROW: [PieceRow; 6] = [
    (0, Kind::Lookup, 1, 10, None, None),
    (2, Kind::Hop, 11, 3, Some(0), None),
    (
        1,
        Kind::RowRead { bank: 1, row: 108 },
        14,
        90,
        Some(1),
        None,
    ),
    (1, Kind::Write, 14, 40, Some(1), None),
    (7, Kind::Hop, 104, 3, Some(2), None),
    (0, Kind::Fill, 107, 2, Some(4), Some(3)),
];

#[test]
fn a_read_is_of_the_row_of_its_line(rt: HostRuntime) {
    let outcome = Outcome::Miss { dirty_victim: true };
    let entry = entry(&(0, 1, outcome));
    are_pieces(&rt, &pair_with_rows(), &entry, &READ_OF_A_ROW);
}

/// Checks how long a load takes at zero load.
fn takes(rt: &impl Abort, net: &Net, load: &Load, time: u64) {
    assert!(rt; net.time(&entry(load)) == time);
}

#[test]
fn an_access_takes_as_long_as_its_way(rt: HostRuntime) {
    takes(&rt, &pair(), &(0, 1, MISS), 119);
    takes(&rt, &pair(), &(1, 1, MISS), 125);
    takes(&rt, &pair(), &(1, 1, Outcome::L2 { others: true }), 22);
    takes(&rt, &pair(), &(1, 1, Outcome::Hit), 1);
    takes(&rt, &pair_with_rows(), &(1, 1, MISS), 115);
}
