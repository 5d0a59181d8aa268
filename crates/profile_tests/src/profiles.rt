//! What the instructions and the lines of small programs add up to, by hand from the rules: a miss
//! takes 1 + 10 + 100 + 2 cycles, an access that the L2 answers 1 + 10, and 5 more where another
//! core has to change its copy.
use crate::given::{fetching, machine, plain, profile_in, profile_of, two_cores};
use profile::Profile;
use profile_rows::{AddressRow, NONE, SeriesRow, Tally};
use std::process::Abort;

/// What a load counts that misses for the first time.
const MISS: Tally = Tally {
    loads: 1,
    misses: 1,
    cold: 1,
    cycles: 113,
    missing: 113,
    ..NONE
};

/// The numbers of a tally.
fn numbers(tally: &Tally) -> [u128; 20] {
    [
        u128::from(tally.loads),
        u128::from(tally.stores),
        u128::from(tally.atomics),
        u128::from(tally.fetches),
        u128::from(tally.hits),
        u128::from(tally.upgrades),
        u128::from(tally.l2hits),
        u128::from(tally.misses),
        u128::from(tally.cold),
        u128::from(tally.coherence),
        u128::from(tally.inclusion),
        u128::from(tally.eviction),
        u128::from(tally.invalidating),
        u128::from(tally.invalidated),
        u128::from(tally.downgrades),
        u128::from(tally.lost),
        u128::from(tally.lowered),
        u128::from(tally.cycles),
        u128::from(tally.missing),
        tally.waited,
    ]
}

/// Checks what was counted.
fn is_tally(rt: &impl Abort, found: &Tally, wanted: &Tally) {
    assert!(rt; numbers(found) == numbers(wanted));
}

/// Checks how often a core executed the instruction at an address, and what its accesses count.
fn is_at(rt: &impl Abort, profile: &Profile, core: u16, pc: u64, count: u64, wanted: &Tally) {
    assert!(rt; profile.instructions(core, pc) == count);
    is_tally(rt, &profile.accesses(core, pc), wanted);
}

/// Checks the lines to which something was added of a core, in order, and what was counted of each.
fn are_lines(rt: &impl Abort, profile: &Profile, core: u16, lines: &[(u64, Tally)]) {
    let mut from = 0u64;
    for (line, wanted) in lines {
        assert!(rt; profile.next_line(core, from) == Some(*line));
        is_tally(rt, &profile.line(core, *line), wanted);
        from = line.saturating_add(1);
    }
    assert!(rt; profile.next_line(core, from).is_none());
}

/// Checks the addresses of a core that have something, in order.
fn are_addresses(rt: &impl Abort, profile: &Profile, core: u16, pcs: &[u64]) {
    let mut from = 0u64;
    for pc in pcs {
        assert!(rt; profile.next_address(core, from) == Some(*pc));
        from = pc.saturating_add(1);
    }
    assert!(rt; profile.next_address(core, from).is_none());
}

/// What is wanted of a row of intervals: the number of the first one, how many they are, their
/// instructions, loads and events, and what the bank and the controller waited.
type Intervals = (u64, u64, u64, u64, u64, [u128; 2]);

/// Checks a row of intervals.
fn is_row(rt: &impl Abort, row: &SeriesRow, wanted: &Intervals) {
    let (first, intervals, instructions, loads, events, waits) = *wanted;
    assert!(rt; row.first == first && row.intervals == intervals);
    assert!(rt;
        row.instructions == instructions && row.tally.loads == loads && row.events == events
    );
    assert!(rt; row.waits.as_slice() == waits.as_slice());
}

/// Checks the rows of the intervals that ended.
fn are_intervals(rt: &impl Abort, profile: &Profile, rows: &[Intervals]) {
    let series = profile.series();
    assert!(rt; series.len() == rows.len());
    for (row, wanted) in series.iter().zip(rows) {
        is_row(rt, row, wanted);
    }
}

/// lui x5, 17; ld x6, 60(x5); addi x17, x0, 93; ecall
static ACROSS: [u32; 4] = [0x0001_12B7, 0x03C2_B303, 0x05D0_0893, 0x0000_0073];

/// The second access looks up at 116, and the fill of the first keeps the bank until 117.
static BOTH_LINES: [(u64, Tally); 2] = [(0x440, MISS), (0x441, Tally { waited: 1, ..MISS })];

static TWO_MISSES: Tally = Tally {
    loads: 2,
    misses: 2,
    cold: 2,
    cycles: 226,
    missing: 226,
    waited: 1,
    ..NONE
};

#[test]
fn a_load_across_lines_is_two_accesses_of_one_instruction(rt: HostRuntime) {
    let profile = profile_of(&rt, &plain(&rt), &ACROSS, &[0, 0], 2);
    is_at(&rt, &profile, 0, 0x1_0004, 1, &TWO_MISSES);
    is_at(&rt, &profile, 0, 0x1_0008, 1, &NONE);
    are_lines(&rt, &profile, 0, &BOTH_LINES);
}

/// lui x5, 17; addi x7, x0, 2; ld x6, 0(x5); ld x6, 256(x5); addi x7, x7, -1; bne x7, x0, -12;
/// addi x17, x0, 93; ecall: two lines of one set of the L1 in turn.
static IN_TURN: [u32; 8] = [
    0x0001_12B7,
    0x0020_0393,
    0x0002_B303,
    0x1002_B303,
    0xFFF3_8393,
    0xFE03_9AE3,
    0x05D0_0893,
    0x0000_0073,
];

const EVICTED: Tally = Tally {
    loads: 2,
    l2hits: 1,
    misses: 1,
    cold: 1,
    eviction: 1,
    cycles: 124,
    missing: 124,
    ..NONE
};

static TWO_EVICTED: [(u64, Tally); 2] = [(0x440, EVICTED), (0x444, EVICTED)];

/// The first turn of the loop is at 230 past its loads, in the second interval.
#[test]
fn lines_of_one_set_evict_each_other(rt: HostRuntime) {
    let profile = profile_of(&rt, &machine(&rt, 1, 200, None), &IN_TURN, &[0; 4], 2);
    is_at(&rt, &profile, 0, 0x1_0008, 2, &EVICTED);
    is_at(&rt, &profile, 0, 0x1_000C, 2, &EVICTED);
    is_at(&rt, &profile, 0, 0x1_0014, 2, &NONE);
    are_lines(&rt, &profile, 0, &TWO_EVICTED);
    are_intervals(&rt, &profile, &TWO_INTERVALS);
}

/// Four instructions begin before cycle 200, and eight later: two misses, each of three events, and
/// then two accesses that the L2 answers.
static TWO_INTERVALS: [Intervals; 2] = [(0, 1, 4, 2, 6, [0, 0]), (1, 1, 8, 2, 2, [0, 0])];

static BOTH_INTERVALS: [Intervals; 1] = [(0, 2, 12, 4, 8, [0, 0])];

#[test]
fn intervals_are_of_rows(rt: HostRuntime) {
    let machine = machine(&rt, 1, 200, None);
    let profile = profile_in(&rt, &machine, &IN_TURN, &[0; 4], 2, 2);
    are_intervals(&rt, &profile, &BOTH_INTERVALS);
    let profile = profile_in(&rt, &machine, &IN_TURN, &[0; 4], 2, 3);
    are_intervals(&rt, &profile, &BOTH_INTERVALS);
}

/// auipc x11, 0; addi x11, x11, 36; addi x10, x0, 1; addi x12, x0, 3; addi x17, x0, 64; ecall;
/// addi x10, x0, 0; addi x17, x0, 93; ecall; and then "hi\n"
static WRITE: [u32; 10] = [
    0x0000_0597,
    0x0245_8593,
    0x0010_0513,
    0x0030_0613,
    0x0400_0893,
    0x0000_0073,
    0x0000_0513,
    0x05D0_0893,
    0x0000_0073,
    0x000A_6968,
];

const THREE_BYTES: Tally = Tally {
    loads: 3,
    hits: 2,
    misses: 1,
    cold: 1,
    cycles: 115,
    missing: 113,
    ..NONE
};

static LINE_OF_BYTES: [(u64, Tally); 1] = [(0x400, THREE_BYTES)];

#[test]
fn a_write_call_loads_byte_by_byte(rt: HostRuntime) {
    let profile = profile_of(&rt, &plain(&rt), &WRITE, &[0; 3], 3);
    is_at(&rt, &profile, 0, 0x1_0014, 1, &THREE_BYTES);
    is_at(&rt, &profile, 0, 0x1_0020, 1, &NONE);
    are_lines(&rt, &profile, 0, &LINE_OF_BYTES);
}

/// lui x5, 17; beq x10, x0, 12; sd x0, 0(x5); jal x0, 12; ld x6, 0(x5); ld x6, 0(x5);
/// addi x17, x0, 93; ecall: core 0 loads twice, and core 1 stores.
static SHARED: [u32; 8] = [
    0x0001_12B7,
    0x0005_0663,
    0x0002_B023,
    0x00C0_006F,
    0x0002_B303,
    0x0002_B303,
    0x05D0_0893,
    0x0000_0073,
];

/// The store looks up at 3, as the first load does, which keeps the bank until 7.
static STORED: Tally = Tally {
    stores: 1,
    l2hits: 1,
    cold: 1,
    invalidating: 1,
    invalidated: 1,
    cycles: 16,
    missing: 16,
    waited: 4,
    ..NONE
};

static LOADED_AGAIN: Tally = Tally {
    loads: 1,
    l2hits: 1,
    coherence: 1,
    downgrades: 1,
    cycles: 16,
    missing: 16,
    ..NONE
};

/// The store took the copy of core 0 away, and the second load had that of core 1 downgraded.
static LOADED_LINE: [(u64, Tally); 1] = [(
    0x440,
    Tally {
        loads: 2,
        l2hits: 1,
        misses: 1,
        cold: 1,
        coherence: 1,
        downgrades: 1,
        lost: 1,
        cycles: 129,
        missing: 129,
        ..NONE
    },
)];

static STORED_LINE: [(u64, Tally); 1] = [(
    0x440,
    Tally {
        lowered: 1,
        ..STORED
    },
)];

static LOADED_AT: [u64; 6] = [0x1_0000, 0x1_0004, 0x1_0010, 0x1_0014, 0x1_0018, 0x1_001C];

static STORED_AT: [u64; 6] = [0x1_0000, 0x1_0004, 0x1_0008, 0x1_000C, 0x1_0018, 0x1_001C];

#[test]
fn a_store_takes_the_copy_of_another_core(rt: HostRuntime) {
    let profile = profile_of(&rt, &two_cores(&rt), &SHARED, &[0, 1, 0], 3);
    is_at(&rt, &profile, 0, 0x1_0010, 1, &MISS);
    is_at(&rt, &profile, 0, 0x1_0014, 1, &LOADED_AGAIN);
    is_at(&rt, &profile, 1, 0x1_0008, 1, &STORED);
    is_at(&rt, &profile, 0, 0x1_0008, 0, &NONE);
    is_at(&rt, &profile, 1, 0x1_0018, 1, &NONE);
    are_lines(&rt, &profile, 0, &LOADED_LINE);
    are_lines(&rt, &profile, 1, &STORED_LINE);
    are_addresses(&rt, &profile, 0, &LOADED_AT);
    are_addresses(&rt, &profile, 1, &STORED_AT);
}

/// Checks a row by address: its core, its address, and how often it was executed.
fn is_address(rt: &impl Abort, row: &AddressRow, wanted: (Option<u16>, u64, u64)) {
    assert!(rt; (row.core, row.pc, row.instructions) == wanted);
}

#[test]
fn rows_are_listed(rt: HostRuntime) {
    let profile = profile_of(&rt, &two_cores(&rt), &SHARED, &[0, 1, 0], 3);
    let rows = profile.address_rows(rt.alloc(), true).expect(&rt, "memory");
    assert!(&rt; rows.len() == 12);
    is_address(&rt, &rows[3], (Some(0), 0x1_0014, 1));
    is_address(&rt, &rows[8], (Some(1), 0x1_0008, 1));
    is_tally(&rt, &rows[8].tally, &STORED);
    let sums = profile
        .address_rows(rt.alloc(), false)
        .expect(&rt, "memory");
    assert!(&rt; sums.len() == 8);
    is_address(&rt, &sums[0], (None, 0x1_0000, 2));
    is_address(&rt, &sums[2], (None, 0x1_0008, 1));
    is_tally(&rt, &sums[2].tally, &STORED);
    let lines = profile.line_tallies(rt.alloc()).expect(&rt, "memory");
    assert!(&rt; lines.len() == 2);
    assert!(&rt; lines[1].line == 0x440 && lines[1].core == 1);
    is_tally(&rt, &lines[1].tally, &STORED_LINE[0].1);
}

/// lui x5, 17; beq x10, x0, 16; ld x6, 0(x5); ld x6, 0(x5); jal x0, 12; ld x6, 256(x5);
/// ld x6, 512(x5); addi x17, x0, 93; ecall: the lines are of one set of the L2, which has two.
static CROWDED: [u32; 9] = [
    0x0001_12B7,
    0x0005_0863,
    0x0002_B303,
    0x0002_B303,
    0x00C0_006F,
    0x1002_B303,
    0x2002_B303,
    0x05D0_0893,
    0x0000_0073,
];

static TAKEN_AWAY: Tally = Tally {
    loads: 1,
    misses: 1,
    inclusion: 1,
    cycles: 113,
    missing: 113,
    ..NONE
};

static TAKEN_LINE: [(u64, Tally); 1] = [(
    0x440,
    Tally {
        loads: 2,
        misses: 2,
        cold: 1,
        inclusion: 1,
        cycles: 226,
        missing: 226,
        ..NONE
    },
)];

/// The first load of core 0 waits for the bank until 7, and for the controller from 17 to 33.
static CROWDED_LINES: [(u64, Tally); 2] = [(0x444, Tally { waited: 20, ..MISS }), (0x448, MISS)];

#[test]
fn a_line_that_leaves_the_l2_leaves_each_core(rt: HostRuntime) {
    let profile = profile_of(&rt, &two_cores(&rt), &CROWDED, &[1, 0, 0, 1], 4);
    is_at(&rt, &profile, 1, 0x1_0008, 1, &MISS);
    is_at(&rt, &profile, 1, 0x1_000C, 1, &TAKEN_AWAY);
    are_lines(&rt, &profile, 0, &CROWDED_LINES);
    are_lines(&rt, &profile, 1, &TAKEN_LINE);
}

/// ld x5, -8(x2); addi x17, x0, 93; ecall
static ON_STACK: [u32; 3] = [0xFF81_3283, 0x05D0_0893, 0x0000_0073];

static FIRST: Tally = MISS;

/// It waits for the bank for 4 cycles, and for the controller for 16.
static BEHIND: Tally = Tally { waited: 20, ..MISS };

static ALL_WAIT: [Intervals; 1] = [(0, 1, 6, 2, 6, [4, 16])];

/// Checks the profile of two cores that both miss at 1, on one bank and one controller.
fn both_miss(rt: &(impl Abort + AllocGlobal), turns: &[u16], core_0: &Tally, core_1: &Tally) {
    let profile = profile_of(rt, &two_cores(rt), &ON_STACK, turns, 2);
    are_lines(rt, &profile, 0, &[(0x43FF, *core_0)]);
    are_lines(rt, &profile, 1, &[(0x43BF, *core_1)]);
    are_intervals(rt, &profile, &ALL_WAIT);
}

#[test]
fn the_later_of_two_accesses_waits(rt: HostRuntime) {
    both_miss(&rt, &[0, 1], &FIRST, &BEHIND);
    both_miss(&rt, &[1, 0], &BEHIND, &FIRST);
}

/// auipc x5, 0; ld x6, 0(x5); addi x17, x0, 93; ecall: a load of the line of the instructions.
static OWN_LINE: [u32; 4] = [0x0000_0297, 0x0002_B303, 0x05D0_0893, 0x0000_0073];

static FETCHED: Tally = Tally {
    fetches: 1,
    misses: 1,
    cold: 1,
    cycles: 113,
    missing: 113,
    ..NONE
};

static LOADED_FROM_L2: Tally = Tally {
    loads: 1,
    l2hits: 1,
    cold: 1,
    cycles: 11,
    missing: 11,
    ..NONE
};

static FETCHED_LINE: [(u64, Tally); 1] = [(
    0x400,
    Tally {
        loads: 1,
        fetches: 1,
        l2hits: 1,
        misses: 1,
        cold: 2,
        cycles: 124,
        missing: 124,
        ..NONE
    },
)];

#[test]
fn a_fetch_leaves_no_copy_for_loads(rt: HostRuntime) {
    let profile = profile_of(&rt, &fetching(&rt), &OWN_LINE, &[0, 0], 2);
    is_at(&rt, &profile, 0, 0x1_0000, 1, &FETCHED);
    is_at(&rt, &profile, 0, 0x1_0004, 1, &LOADED_FROM_L2);
    are_lines(&rt, &profile, 0, &FETCHED_LINE);
}
