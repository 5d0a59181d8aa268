//! Numbers at both ends, walks, and values of several numbers.
use sparse_table::SparseTable;
use std::process::Abort;
use std::test::Fail;
use zs_num::NoMemory;

/// What a profile keeps of a line.
#[derive(Clone, Copy)]
struct Counts {
    loads: u64,
    stores: u64,
    hits: u64,
    misses: u64,
    upgrades: u64,
    evictions: u64,
    invalidations: u64,
    downgrades: u64,
    writebacks: u64,
    cycles: u64,
}

static NO_COUNTS: Counts = Counts {
    loads: 0,
    stores: 0,
    hits: 0,
    misses: 0,
    upgrades: 0,
    evictions: 0,
    invalidations: 0,
    downgrades: 0,
    writebacks: 0,
    cycles: 0,
};

/// Sets the numbers of a list, each to its place in it.
fn set_all(table: &mut SparseTable<u64>, numbers: &[u64]) -> Result<(), NoMemory> {
    for (place, number) in numbers.iter().enumerate() {
        table.set(*number, place as u64)?;
    }
    Ok(())
}

/// Checks that a walk visits these numbers, and that each is followed by the next.
fn walks(rt: &impl Abort, table: &SparseTable<u64>, numbers: &[u64]) {
    let mut from = 0;
    for number in numbers {
        assert!(rt; table.next(from) == Some(*number));
        from = number.saturating_add(1);
    }
}

/// Numbers at both ends of 64 bits and at both ends of chunks, in no order; and in order.
static APART: [u64; 7] = [u64::MAX, 64, 0, 1 << 40, 63, 127, 1 << 63];

static IN_ORDER: [u64; 7] = [0, 63, 64, 127, 1 << 40, 1 << 63, u64::MAX];

#[test]
fn numbers_far_apart_keep_their_values(rt: HostRuntime) -> Result<(), Fail> {
    let mut table = SparseTable::new(rt.alloc(), 99);
    set_all(&mut table, &APART)?;
    for (place, number) in APART.iter().enumerate() {
        assert!(&rt; table.get(*number) == place as u64);
    }
    assert!(&rt; table.get(1) == 99);
    assert!(&rt; table.get(1 << 41) == 99);
    assert!(&rt; table.count() == 7);
    Ok(())
}

#[test]
fn a_walk_visits_them_in_order(rt: HostRuntime) -> Result<(), Fail> {
    let mut table = SparseTable::new(rt.alloc(), 99);
    assert!(&rt; table.next(0).is_none());
    set_all(&mut table, &APART)?;
    walks(&rt, &table, &IN_ORDER);
    Ok(())
}

#[test]
fn a_value_of_several_numbers_is_replaced(rt: HostRuntime) -> Result<(), Fail> {
    let mut table = SparseTable::new(rt.alloc(), NO_COUNTS);
    for line in 1000..1100 {
        let counts = table.get(line % 7);
        table.set(
            line % 7,
            Counts {
                cycles: line,
                ..counts
            },
        )?;
    }
    assert!(&rt; table.get(1099 % 7).cycles == 1099);
    assert!(&rt; table.get(8).cycles == 0);
    assert!(&rt; table.count() == 7);
    Ok(())
}
