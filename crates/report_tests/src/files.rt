//! The files of profiles, with texts made by hand.
ghost use Rattle.std.specs.Prelude.{◌≡◌, All, IfSome, length};
ghost use Rattle.machine_desc.specs.Components.{component_count};
ghost use Rattle.machine_desc.specs.Machine.{IsMesh};

use crate::machines::machine;
use machine_desc::{Machine, Mesh};
use profile_files::{callgrind, halts, lines, series};
use profile_rows::{AddressRow, HaltRow, Jump, LineRow, NONE, SeriesRow, Tally};
use rv_core::Why;
use std::process::Abort;
use zs_num::{Bytes, NoMemory};

/// Counts of which no two are the same.
const DIFFERENT: Tally = Tally {
    loads: 3,
    stores: 4,
    atomics: 5,
    fetches: 6,
    hits: 7,
    upgrades: 8,
    l2hits: 9,
    misses: 10,
    cold: 11,
    coherence: 12,
    inclusion: 13,
    eviction: 14,
    invalidating: 15,
    invalidated: 16,
    downgrades: 17,
    lost: 18,
    lowered: 19,
    cycles: 20,
    missing: 21,
    waited: 22,
};

/// The greatest counts.
const GREATEST: Tally = Tally {
    loads: u64::MAX,
    stores: u64::MAX,
    atomics: u64::MAX,
    fetches: u64::MAX,
    hits: u64::MAX,
    upgrades: u64::MAX,
    l2hits: u64::MAX,
    misses: u64::MAX,
    cold: u64::MAX,
    coherence: u64::MAX,
    inclusion: u64::MAX,
    eviction: u64::MAX,
    invalidating: u64::MAX,
    invalidated: u64::MAX,
    downgrades: u64::MAX,
    lost: u64::MAX,
    lowered: u64::MAX,
    cycles: u64::MAX,
    missing: u64::MAX,
    waited: u128::MAX,
};

/// Checks a file.
fn is_text(rt: &impl Abort, file: Result<Bytes, NoMemory>, wanted: &str) {
    let file = file.expect(rt, "memory");
    assert!(rt; file.as_slice() == wanted.as_bytes());
}

/// Checks the file of these instructions.
fn is_callgrind(rt: &(impl Abort + AllocGlobal), rows: &[AddressRow], wanted: &str) {
    is_text(rt, callgrind(rt.alloc(), rows), wanted);
}

/// The instructions of a core have their heading once, also those of the last core, of which there
/// is one; the sums are of all cores, and pass 64 bits, but not 128.
#[test]
fn instructions_stand_by_core(rt: HostRuntime) {
    is_callgrind(&rt, &BY_CORE, BY_CORE_TEXT);
}

static BY_CORE: [AddressRow; 3] = [
    AddressRow {
        core: Some(0),
        pc: 0x8000_0000,
        instructions: 2,
        tally: DIFFERENT,
    },
    AddressRow {
        core: Some(0),
        pc: 0x8000_0004,
        instructions: u64::MAX,
        tally: GREATEST,
    },
    AddressRow {
        core: Some(7),
        pc: 0x10,
        instructions: 1,
        tally: DIFFERENT,
    },
];

const BY_CORE_TEXT: &str =
    "# callgrind format\nversion: 1\ncreator: zprof\npositions: instr\nevents: Ir Loads Stores Atomics Fetches Hits Upgrades L2hits Misses Cycles Waited\n\nob=core 0\nfl=???\nfn=???\n0x80000000 2 3 4 5 6 7 8 9 10 20 22\n0x80000004 18446744073709551615 18446744073709551615 18446744073709551615 18446744073709551615 18446744073709551615 18446744073709551615 18446744073709551615 18446744073709551615 18446744073709551615 18446744073709551615 340282366920938463463374607431768211455\nob=core 7\nfl=???\nfn=???\n0x10 1 3 4 5 6 7 8 9 10 20 22\ntotals: 18446744073709551618 18446744073709551621 18446744073709551623 18446744073709551625 18446744073709551627 18446744073709551629 18446744073709551631 18446744073709551633 18446744073709551635 18446744073709551655 340282366920938463463374607431768211455\n";

/// Where all cores are summed, there is one heading; where nothing was executed, none.
#[test]
fn instructions_of_all_cores_have_one_heading(rt: HostRuntime) {
    is_callgrind(&rt, &SUMMED, SUMMED_TEXT);
    is_callgrind(&rt, &[], NO_INSTRUCTIONS);
}

static SUMMED: [AddressRow; 2] = [
    AddressRow {
        core: None,
        pc: 0x8000_0000,
        instructions: 2,
        tally: DIFFERENT,
    },
    AddressRow {
        core: None,
        pc: 0x8000_000c,
        instructions: 1,
        tally: NONE,
    },
];

const SUMMED_TEXT: &str =
    "# callgrind format\nversion: 1\ncreator: zprof\npositions: instr\nevents: Ir Loads Stores Atomics Fetches Hits Upgrades L2hits Misses Cycles Waited\n\nob=cores\nfl=???\nfn=???\n0x80000000 2 3 4 5 6 7 8 9 10 20 22\n0x8000000c 1 0 0 0 0 0 0 0 0 0 0\ntotals: 3 3 4 5 6 7 8 9 10 20 22\n";

const NO_INSTRUCTIONS: &str =
    "# callgrind format\nversion: 1\ncreator: zprof\npositions: instr\nevents: Ir Loads Stores Atomics Fetches Hits Upgrades L2hits Misses Cycles Waited\n\ntotals: 0 0 0 0 0 0 0 0 0 0 0\n";

/// Checks the file of these lines.
fn is_lines(rt: &(impl Abort + AllocGlobal), rows: &[LineRow], wanted: &str) {
    is_text(rt, lines(rt.alloc(), rows), wanted);
}

/// Two rows of a line that cost 7 together stand before the one of a greater line that costs 7, and
/// behind the lines that cost more.
#[test]
fn lines_stand_by_cost(rt: HostRuntime) {
    is_lines(&rt, &BY_COST, BY_COST_TEXT);
    is_lines(&rt, &[], LINES_HEAD);
}

static BY_COST: [LineRow; 6] = [
    LineRow {
        line: 0x200_0001,
        core: 0,
        tally: Tally {
            missing: 2,
            waited: 1,
            ..NONE
        },
        read: 0xff,
        written: 0x0,
    },
    LineRow {
        line: 0x200_0001,
        core: 1,
        tally: Tally { waited: 4, ..NONE },
        read: 0x0,
        written: 0xff00,
    },
    LineRow {
        line: 0x200_0002,
        core: 0,
        tally: DIFFERENT,
        read: 0xff,
        written: 1 << 63,
    },
    LineRow {
        line: 0x200_0003,
        core: 3,
        tally: Tally { missing: 7, ..NONE },
        read: 0x1,
        written: 0x1,
    },
    LineRow {
        line: 0x200_0004,
        core: 2,
        tally: GREATEST,
        read: u64::MAX,
        written: u64::MAX,
    },
    LineRow {
        line: u64::MAX,
        core: 255,
        tally: NONE,
        read: 0x0,
        written: 0x0,
    },
];

const LINES_HEAD: &str =
    "line,core,loads,stores,atomics,fetches,hits,upgrades,l2hits,misses,cold,coherence,inclusion,eviction,invalidating,invalidated,downgrading,lost,lowered,cycles,missing,waited,cost,read,written\n";

const BY_COST_TEXT: &str =
    "line,core,loads,stores,atomics,fetches,hits,upgrades,l2hits,misses,cold,coherence,inclusion,eviction,invalidating,invalidated,downgrading,lost,lowered,cycles,missing,waited,cost,read,written\n0x80000100,2,18446744073709551615,18446744073709551615,18446744073709551615,18446744073709551615,18446744073709551615,18446744073709551615,18446744073709551615,18446744073709551615,18446744073709551615,18446744073709551615,18446744073709551615,18446744073709551615,18446744073709551615,18446744073709551615,18446744073709551615,18446744073709551615,18446744073709551615,18446744073709551615,18446744073709551615,340282366920938463463374607431768211455,340282366920938463463374607431768211455,0xffffffffffffffff,0xffffffffffffffff\n0x80000080,0,3,4,5,6,7,8,9,10,11,12,13,14,15,16,17,18,19,20,21,22,43,0x00000000000000ff,0x8000000000000000\n0x80000040,0,0,0,0,0,0,0,0,0,0,0,0,0,0,0,0,0,0,0,2,1,3,0x00000000000000ff,0x0000000000000000\n0x80000040,1,0,0,0,0,0,0,0,0,0,0,0,0,0,0,0,0,0,0,0,4,4,0x0000000000000000,0x000000000000ff00\n0x800000c0,3,0,0,0,0,0,0,0,0,0,0,0,0,0,0,0,0,0,0,7,0,7,0x0000000000000001,0x0000000000000001\n0xffffffffffffffff,255,0,0,0,0,0,0,0,0,0,0,0,0,0,0,0,0,0,0,0,0,0,0x0000000000000000,0x0000000000000000\n";

/// A machine of one node with two banks and one controller. Four links lead out of a node.
fn meshed(rt: &(impl Abort + AllocGlobal)) -> Machine
    ensures mesh { IfSome result.mesh IsMesh }
    ensures components { component_count result ≡ 7 }
{
    let mut machine = machine(rt, 1, 2, 1);
    machine.mesh = Some(Mesh {
        width: 1,
        height: 1,
        hop: 1,
        occupancy: 1,
    });
    machine
}

/// What was counted of so many intervals from the first one on, with the waiting at each component.
fn intervals(
    rt: &(impl Abort + AllocGlobal),
    first: u64,
    intervals: u64,
    tally: Tally,
    waits: [u128; 7],
) -> SeriesRow
    ensures { length result.waits.items ≡ 7 }
{
    SeriesRow {
        first,
        intervals,
        instructions: 1000,
        tally,
        events: 30,
        waits: Vec::from_array(rt.alloc(), waits).expect(rt, "memory"),
    }
}

/// Checks the file of these intervals.
fn is_series(rt: &(impl Abort + AllocGlobal), machine: &Machine, rows: &[SeriesRow], wanted: &str)
    requires mesh { IfSome machine.now.mesh IsMesh }
    requires waits { All (λ row. length row.waits.items ≡ component_count machine.now) rows.now }
{
    is_text(rt, series(rt.alloc(), machine, rows), wanted);
}

/// The last row is of fewer intervals; the waiting at all components stands before that at each.
#[test]
fn intervals_stand_in_their_order(rt: HostRuntime) {
    let rows = [
        intervals(&rt, 0, 2, DIFFERENT, [1, 0, 2, 0, 0, 0, 3]),
        intervals(&rt, 2, 1, NONE, [u128::MAX, 1, 0, 0, 0, 0, 0]),
    ];
    let machine = meshed(&rt);
    is_series(&rt, &machine, &rows, INTERVALS);
    is_series(&rt, &machine, &[], SERIES_HEAD);
}

const SERIES_HEAD: &str =
    "interval,intervals,instructions,loads,stores,atomics,fetches,hits,upgrades,l2hits,misses,events,waited,bank0,bank1,controller0,link0,link1,link2,link3\n";

const INTERVALS: &str =
    "interval,intervals,instructions,loads,stores,atomics,fetches,hits,upgrades,l2hits,misses,events,waited,bank0,bank1,controller0,link0,link1,link2,link3\n0,2,1000,3,4,5,6,7,8,9,10,30,6,1,0,2,0,0,0,3\n2,1,1000,0,0,0,0,0,0,0,0,30,340282366920938463463374607431768211455,340282366920938463463374607431768211455,1,0,0,0,0,0\n";

/// Where a core is that has these registers.
fn halt(
    rt: &(impl Abort + AllocGlobal),
    core: u16,
    halted: Option<Why>,
    registers: [u64; 32],
    jumps: &[Jump],
) -> HaltRow {
    HaltRow {
        core,
        halted,
        pc: 0x8000_0010,
        registers: Vec::from_array(rt.alloc(), registers).expect(rt, "memory"),
        jumps: Vec::from_slice(rt.alloc(), jumps).expect(rt, "memory"),
    }
}

/// Checks the file of these cores.
fn is_halts(rt: &(impl Abort + AllocGlobal), rows: &[HaltRow], wanted: &str) {
    is_text(rt, halts(rt.alloc(), rows), wanted);
}

/// One core has jumped twice and ended, and another one runs and has not jumped.
#[test]
fn cores_stand_with_registers_and_jumps(rt: HostRuntime) {
    let rows = [
        halt(&rt, 0, Some(Why::Exit(7)), REGISTERS, &JUMPS),
        halt(&rt, 1, None, [0; 32], &[]),
    ];
    is_halts(&rt, &rows, ENDS);
    is_halts(&rt, &[], "");
}

const REGISTERS: [u64; 32] = [
    0,
    0x8000_0024,
    0x8fff_fff0,
    0,
    0,
    0,
    0,
    0,
    0,
    0,
    7,
    0,
    0,
    0,
    0,
    0,
    0,
    0,
    0,
    0,
    0,
    0,
    0,
    0,
    0,
    0,
    0,
    0,
    0,
    0,
    0,
    u64::MAX,
];

static JUMPS: [Jump; 2] = [
    Jump {
        from: 0x8000_0000,
        to: 0x8000_0040,
    },
    Jump {
        from: 0x8000_0044,
        to: 0,
    },
];

const ENDS: &str =
    "core 0\nhalt exit 7\npc 0x80000010\nx0 0x0\nx1 0x80000024\nx2 0x8ffffff0\nx3 0x0\nx4 0x0\nx5 0x0\nx6 0x0\nx7 0x0\nx8 0x0\nx9 0x0\nx10 0x7\nx11 0x0\nx12 0x0\nx13 0x0\nx14 0x0\nx15 0x0\nx16 0x0\nx17 0x0\nx18 0x0\nx19 0x0\nx20 0x0\nx21 0x0\nx22 0x0\nx23 0x0\nx24 0x0\nx25 0x0\nx26 0x0\nx27 0x0\nx28 0x0\nx29 0x0\nx30 0x0\nx31 0xffffffffffffffff\njump 0x80000000 0x80000040\njump 0x80000044 0x0\ncore 1\nhalt running\npc 0x80000010\nx0 0x0\nx1 0x0\nx2 0x0\nx3 0x0\nx4 0x0\nx5 0x0\nx6 0x0\nx7 0x0\nx8 0x0\nx9 0x0\nx10 0x0\nx11 0x0\nx12 0x0\nx13 0x0\nx14 0x0\nx15 0x0\nx16 0x0\nx17 0x0\nx18 0x0\nx19 0x0\nx20 0x0\nx21 0x0\nx22 0x0\nx23 0x0\nx24 0x0\nx25 0x0\nx26 0x0\nx27 0x0\nx28 0x0\nx29 0x0\nx30 0x0\nx31 0x0\n";
