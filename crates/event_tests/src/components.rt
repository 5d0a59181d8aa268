//! Components: worked cycles, and that the calls succeed, at the largest machine too.
use crate::machines::{edited, machine_of};
use component::{Bank, Comp, Component, Comps, Controller, Kind, components};
use std::process::Abort;
use zs_num::Cycle;

/// Checks the finishes of two events, and when their component is free again.
fn are_times(rt: &impl Abort, found: [Cycle; 3], wanted: [Cycle; 3]) {
    assert!(rt; found == wanted);
}

#[test]
fn two_misses_at_once_wait_for_bank_and_controller(rt: HostRuntime) {
    let mut bank = Bank {
        lookup: 10,
        remote: 15,
        fill: 2,
        occupancy: 4,
        free: 0,
    };
    let mut controller = Controller {
        read: 100,
        write: 40,
        occupancy: 20,
        free: 0,
    };
    let first = bank.step(Kind::Lookup, 2);
    let second = bank.step(Kind::Lookup, 2);
    are_times(&rt, [first, second, bank.free], [12, 16, 10]);
    let first = controller.step(Kind::Read, 12);
    let second = controller.step(Kind::Read, 16);
    are_times(&rt, [first, second, controller.free], [112, 132, 52]);
    let first = bank.step(Kind::Fill, 112);
    let second = bank.step(Kind::Fill, 132);
    are_times(&rt, [first, second, bank.free], [114, 134, 136]);
}

/// The components of the machine of the edited text.
fn comps_of(rt: &(impl Abort + AllocGlobal), edits: &[(&str, &str)]) -> Comps<Comp> {
    let machine = machine_of(rt, edited(rt, edits).as_bytes());
    components(rt.alloc(), &machine).expect(rt, "memory")
}

/// A component, a kind, and the least time of an event, where it is served.
type FloorRow = (usize, Kind, Option<u64>);

static FLOORS: [FloorRow; 7] = [
    (0, Kind::Lookup, Some(10)),
    (0, Kind::Remote, Some(15)),
    (0, Kind::Fill, Some(2)),
    (0, Kind::Read, None),
    (1, Kind::Read, Some(100)),
    (1, Kind::Write, Some(40)),
    (1, Kind::Fill, None),
];

/// The least time of an event of a kind on a component that serves it and is free.
fn floor(comps: &[Comp], number: usize, kind: Kind) -> Option<u64> {
    let comp = comps.get(number)?;
    (comp.serves(kind) && comp.free() == 0).then(|| comp.floor(kind))
}

/// Checks each row.
fn has_floors(rt: &impl Abort, comps: &[Comp], rows: &[FloorRow]) {
    for &(number, kind, wanted) in rows {
        assert!(rt; floor(comps, number, kind) == wanted);
    }
}

/// Checks how many components there are, as they are lent for their steps, and as they are taken
/// apart and put together again.
fn are_so_many(rt: &impl Abort, mut comps: Comps<Comp>, count: usize) {
    assert!(rt; comps.as_mut_slice().len() == count);
    assert!(rt; Comps::of(comps.into_list()).as_slice().len() == count);
}

#[test]
fn the_plain_machine_has_a_bank_and_then_a_controller(rt: HostRuntime) {
    let comps = comps_of(&rt, &[]);
    has_floors(&rt, comps.as_slice(), &FLOORS);
    are_so_many(&rt, comps, 2);
}

/// 64 banks and 16 controllers.
static MOST_COMPONENTS: [(&str, &str); 6] = [
    ("sets = 2", "sets = 64"),
    ("banks = 1", "banks = 64"),
    ("sets = 4", "sets = 64"),
    ("count = 1", "count = 16"),
    (
        "banks = [0]",
        "banks = [
            0, 0, 0, 0, 0, 0, 0, 0, 0, 0, 0, 0, 0, 0, 0, 0,
            0, 0, 0, 0, 0, 0, 0, 0, 0, 0, 0, 0, 0, 0, 0, 0,
            0, 0, 0, 0, 0, 0, 0, 0, 0, 0, 0, 0, 0, 0, 0, 0,
            0, 0, 0, 0, 0, 0, 0, 0, 0, 0, 0, 0, 0, 0, 0, 0,
        ]",
    ),
    (
        "controllers = [1]",
        "controllers = [1, 1, 1, 1, 1, 1, 1, 1, 1, 1, 1, 1, 1, 1, 1, 1]",
    ),
];

/// Whether the component of a number is a bank.
fn is_bank(comps: &[Comp], number: usize) -> bool {
    matches!(comps.get(number), Some(Comp::Bank(_)))
}

/// Checks of each number whether its component is a bank.
fn has_banks(rt: &impl Abort, comps: &[Comp], rows: &[(usize, bool)]) {
    for &(number, wanted) in rows {
        assert!(rt; is_bank(comps, number) == wanted);
    }
}

/// The first and the last bank, and the first and the last controller.
static ENDS: [(usize, bool); 4] = [(0, true), (63, true), (64, false), (79, false)];

#[test]
fn the_largest_machine_has_80_components(rt: HostRuntime) {
    let comps = comps_of(&rt, &MOST_COMPONENTS);
    has_banks(&rt, comps.as_slice(), &ENDS);
    are_so_many(&rt, comps, 80);
}
