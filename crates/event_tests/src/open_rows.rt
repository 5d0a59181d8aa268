//! A controller with open rows: worked cycles.
ghost use Rattle.std.specs.Prelude.{◌≡◌, ◌+◌, ◌<◌, ◌≤◌, max};

use component::{Component, Kind};
use dram_rows::Rows;
use std::process::Abort;

/// Serves a read of a controller whose numbers are small.
#[tactic(auto, using(crate::proofs::ReadTimes::read_time_at_most))]
fn read(rows: &mut Rows, bank: u16, row: u64, start: u64) -> u64
    requires bank { bank < rows.old.numbers.banks }
    requires start { start ≤ 1000 }
    requires free { rows.old.free ≤ 1000 }
    requires occupancy { rows.old.numbers.occupancy ≤ 1000 }
    requires conflict { rows.old.numbers.conflict ≤ 1000 }
    ensures numbers { rows.new.numbers ≡ rows.old.numbers }
    ensures free { rows.new.free ≡ max start rows.old.free + rows.old.numbers.occupancy }
{
    rows.read(bank, row, start)
}

/// Checks the finishes of three requests.
fn are_finishes(rt: &impl Abort, found: [u64; 3], wanted: [u64; 3]) {
    assert!(rt; found == wanted);
}

#[test]
fn a_row_is_opened_then_hit_and_then_in_conflict(rt: HostRuntime) {
    let mut rows = Rows::new(2, 100, 120, 150, 40, 20);
    let closed = read(&mut rows, 0, 5, 0);
    let hit = read(&mut rows, 0, 5, 200);
    let conflict = read(&mut rows, 0, 6, 210);
    are_finishes(&rt, [closed, hit, conflict], [120, 300, 370]);
    assert!(&rt; rows.free() == 240);
    assert!(&rt; rows.open_row(0) == Some(6));
    assert!(&rt; rows.open_row(1).is_none());
}

#[test]
fn a_write_leaves_the_rows_open(rt: HostRuntime) {
    let mut rows = Rows::new(2, 100, 120, 150, 40, 20);
    let closed = read(&mut rows, 1, 5, 0);
    let written = rows.write(10);
    let hit = read(&mut rows, 1, 5, 200);
    are_finishes(&rt, [closed, written, hit], [120, 60, 300]);
}

/// Serves the same read as a component of the machine.
#[tactic(auto, using(crate::proofs::ReadTimes::read_time_at_most))]
fn step(rows: &mut Rows, bank: u16, row: u64, start: u64) -> u64
    requires bank { bank < rows.old.numbers.banks }
    requires start { start ≤ 1000 }
    requires free { rows.old.free ≤ 1000 }
    requires occupancy { rows.old.numbers.occupancy ≤ 1000 }
    requires conflict { rows.old.numbers.conflict ≤ 1000 }
    ensures numbers { rows.new.numbers ≡ rows.old.numbers }
    ensures free { rows.new.free ≡ max start rows.old.free + rows.old.numbers.occupancy }
{
    rows.step(Kind::RowRead { bank, row }, start)
}

#[test]
fn a_component_serves_reads_by_the_open_row_of_their_bank(rt: HostRuntime) {
    let mut rows = Rows::new(2, 100, 120, 150, 40, 20);
    let closed = step(&mut rows, 0, 5, 0);
    let hit = step(&mut rows, 0, 5, 200);
    let conflict = step(&mut rows, 0, 6, 210);
    are_finishes(&rt, [closed, hit, conflict], [120, 300, 370]);
    let other = step(&mut rows, 1, 6, 300);
    let written = rows.step(Kind::Write, 310);
    let again = step(&mut rows, 0, 6, 400);
    are_finishes(&rt, [other, written, again], [420, 360, 500]);
}

/// A kind, and the least time of an event of it, where it is served.
type FloorRow = (Kind, Option<u64>);

/// What a controller of two banks serves: writes, and the reads of rows of its banks.
static FLOORS: [FloorRow; 5] = [
    (Kind::RowRead { bank: 1, row: 9 }, Some(100)),
    (Kind::RowRead { bank: 2, row: 9 }, None),
    (Kind::Write, Some(40)),
    (Kind::Read, None),
    (Kind::Fill, None),
];

/// The least time of an event, where it is served.
fn floor(rows: &Rows, kind: Kind) -> Option<u64> {
    rows.serves(kind).then(|| rows.floor(kind))
}

/// Checks each row of a table.
fn has_floors(rt: &impl Abort, rows: &Rows, table: &[FloorRow]) {
    for &(kind, wanted) in table {
        assert!(rt; floor(rows, kind) == wanted);
    }
}

#[test]
fn a_read_takes_a_hit_at_least(rt: HostRuntime) {
    let rows = Rows::new(2, 100, 120, 150, 40, 20);
    has_floors(&rt, &rows, &FLOORS);
}
