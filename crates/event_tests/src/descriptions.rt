//! Descriptions and what they read as. The texts are the built-in one with some words changed.
ghost use Rattle.machine_desc.specs.Machine.{IsMachine};

use crate::machines::{edited, machine_of, small};
use machine_desc::{
    BadMachine, Domains, Dram, Machine, MachineFail, Mesh, PLAIN, Pipe, component_count, domain_of,
    read,
};
use std::process::Abort;

/// Why a text is not read.
fn refusal(rt: &(impl Abort + AllocGlobal), text: &[u8]) -> MachineFail {
    read(rt.alloc(), text).err().expect(rt, "not refused")
}

/// The number of a refusal, its key, and its value or component.
fn answer_of(bad: &BadMachine) -> (u8, &[u8], i64) {
    match bad {
        BadMachine::Text => (1, b"", 0),
        BadMachine::Missing { key } => (2, key.as_slice(), 0),
        BadMachine::Kind { key } => (3, key.as_slice(), 0),
        BadMachine::Range { key, value } => (4, key.as_slice(), *value),
        BadMachine::Unknown { key } => (5, key.as_slice(), 0),
        BadMachine::Ratio { key } => (6, key.as_slice(), 0),
        BadMachine::Domain { component } => (7, b"", i64::from(*component)),
    }
}

/// Checks the number, the key and the value of a refusal.
fn is_bad(rt: &impl Abort, bad: &BadMachine, number: u8, key: &[u8], value: i64) {
    let found = answer_of(bad);
    assert!(rt; found.0 == number && found.2 == value);
    assert!(rt; found.1 == key);
}

/// Checks that a text is refused with this number, key and value.
fn is_refused(rt: &(impl Abort + AllocGlobal), text: &[u8], number: u8, key: &[u8], value: i64) {
    match refusal(rt, text) {
        MachineFail::Bad(bad) => is_bad(rt, &bad, number, key, value),
        MachineFail::NoMemory => panic!(rt; "out of memory"),
    }
}

/// Edits of the built-in text, and the number, the key and the value of the refusal.
type Case = (
    &'static [(&'static str, &'static str)],
    u8,
    &'static str,
    i64,
);

static MISSING: [Case; 4] = [
    (&[("cores = 1\n", "")], 2, "cores", 0),
    (&[("[memory]", "[other]")], 2, "memory", 0),
    (&[("stack = 4096\n", "")], 2, "memory.stack", 0),
    (
        &[("controllers = [1]\n", ""), ("count = 2", "count = 65")],
        4,
        "domains.count",
        65,
    ),
];

static KINDS: [Case; 9] = [
    (&[("cores = 1", "cores = \"2\"")], 3, "cores", 0),
    (
        &[("interval = 10000", "interval = 10000.0")],
        3,
        "interval",
        0,
    ),
    (&[("interval = 10000", "interval = true")], 3, "interval", 0),
    (
        &[("interval = 10000", "interval = 1979-05-27")],
        3,
        "interval",
        0,
    ),
    (
        &[("latency = 10\n", "latency = [10]\n")],
        3,
        "l2.latency",
        0,
    ),
    (&[("[l1]\nsets = 2", "[[l1]]\nsets = 2")], 3, "l1", 0),
    (&[("banks = [0]", "banks = 0")], 3, "domains.banks", 0),
    (&[("banks = [0]", "banks = [0.0]")], 3, "domains.banks", 0),
    (
        &[
            ("cores = 1", "cores = 1.5"),
            ("interval = 10000", "interval = 0"),
        ],
        3,
        "cores",
        0,
    ),
];

/// The line with which the table of the L2 begins, behind an instruction cache.
const L1I: (&str, &str) = ("[l2]", "[l1i]\nsets = 2\nways = 1\nlatency = 1\n\n[l2]");

static OF_VERSION_2: [Case; 9] = [
    (&[L1I], 5, "l1i", 0),
    (&[("version = 1", "version = 2")], 2, "l1i", 0),
    (
        &[("version = 1", "version = 2"), ("[l2]", "[l1i]\n[l2]")],
        2,
        "l1i.sets",
        0,
    ),
    (
        &[
            ("version = 1", "version = 2"),
            ("[l2]", "[l1i]\nsets = 4097\n[l2]"),
        ],
        4,
        "l1i.sets",
        4097,
    ),
    (
        &[
            ("version = 1", "version = 2"),
            ("[l2]", "[l1i]\nsets = 2\nways = 17\n[l2]"),
        ],
        4,
        "l1i.ways",
        17,
    ),
    (
        &[
            ("version = 1", "version = 2"),
            ("[l2]", "[l1i]\nsets = 2\nways = 1\nlatency = 0\n[l2]"),
        ],
        4,
        "l1i.latency",
        0,
    ),
    (
        &[
            ("version = 1", "version = 2"),
            ("intervals = 100000", "intervals = 100000\nl1i = 2"),
        ],
        3,
        "l1i",
        0,
    ),
    (
        &[
            ("version = 1", "version = 2"),
            (
                "[l2]",
                "[l1i]\nsets = 2\nways = 1\nlatency = 1\ncolour = 1\n[l2]",
            ),
        ],
        5,
        "l1i.colour",
        0,
    ),
    (
        &[
            ("version = 1", "version = 2"),
            ("banks = 1\nsets = 4", "banks = 2\nsets = 4"),
            ("banks = [0]", "banks = [0, 1]"),
            ("[l2]", "[l1i]\nsets = 3\nways = 1\nlatency = 1\n[l2]"),
        ],
        6,
        "l1i.sets",
        0,
    ),
];

/// What a description of version 3 begins with, and the lines of a pipeline at its end.
const VERSION_3: (&str, &str) = ("version = 1", "version = 3");

const PIPE: (&str, &str) = (
    "controllers = [1]",
    "controllers = [1]\n\n[pipe]\nmul = 3\ndiv = 20\nentries = 16\npenalty = 4",
);

static OF_VERSION_3: [Case; 12] = [
    (&[PIPE], 5, "pipe", 0),
    (&[("version = 1", "version = 2"), L1I, PIPE], 5, "pipe", 0),
    (&[VERSION_3, ("100000", "100000\npipe = 1")], 3, "pipe", 0),
    (&[VERSION_3, PIPE, ("div = 20\n", "")], 2, "pipe.div", 0),
    (
        &[VERSION_3, PIPE, ("mul = 3", "mul = 65")],
        4,
        "pipe.mul",
        65,
    ),
    (
        &[VERSION_3, PIPE, ("div = 20", "div = 129")],
        4,
        "pipe.div",
        129,
    ),
    (
        &[VERSION_3, PIPE, ("entries = 16", "entries = 0")],
        4,
        "pipe.entries",
        0,
    ),
    (
        &[VERSION_3, PIPE, ("penalty = 4", "penalty = 65")],
        4,
        "pipe.penalty",
        65,
    ),
    (
        &[VERSION_3, PIPE, ("mul = 3", "colour = 1\nmul = 3")],
        5,
        "pipe.colour",
        0,
    ),
    (
        &[
            VERSION_3,
            PIPE,
            ("mul = 3", "mul = 0"),
            ("count = 2", "count = 65"),
        ],
        4,
        "domains.count",
        65,
    ),
    (
        &[VERSION_3, L1I, ("[l1i]\nsets = 2", "[l1i]\nsets = 0")],
        4,
        "l1i.sets",
        0,
    ),
    (&[VERSION_3, ("100000", "100000\nl1i = 2")], 3, "l1i", 0),
];

/// The lines of a mesh behind the domains.
const MESH: (&str, &str) = (
    "controllers = [1]",
    "controllers = [1]\n\n[mesh]\nwidth = 2\nheight = 1\nhop = 3\noccupancy = 2",
);

static OF_A_MESH: [Case; 15] = [
    (&[MESH], 5, "mesh", 0),
    (&[("version = 1", "version = 2"), L1I, MESH], 5, "mesh", 0),
    (&[VERSION_3, ("100000", "100000\nmesh = 1")], 3, "mesh", 0),
    (&[VERSION_3, MESH, ("width = 2\n", "")], 2, "mesh.width", 0),
    (
        &[VERSION_3, MESH, ("hop = 3", "hop = 3.0")],
        3,
        "mesh.hop",
        0,
    ),
    (
        &[VERSION_3, MESH, ("width = 2", "width = 0")],
        4,
        "mesh.width",
        0,
    ),
    (
        &[VERSION_3, MESH, ("width = 2", "width = 9")],
        4,
        "mesh.width",
        9,
    ),
    (
        &[VERSION_3, MESH, ("height = 1", "height = 9")],
        4,
        "mesh.height",
        9,
    ),
    (
        &[VERSION_3, MESH, ("hop = 3", "hop = 257")],
        4,
        "mesh.hop",
        257,
    ),
    (
        &[VERSION_3, MESH, ("3\noccupancy = 2", "3\noccupancy = 0")],
        4,
        "mesh.occupancy",
        0,
    ),
    (
        &[VERSION_3, MESH, ("3\noccupancy = 2", "3\noccupancy = 257")],
        4,
        "mesh.occupancy",
        257,
    ),
    (
        &[VERSION_3, MESH, ("hop = 3", "hop = 3\ncolour = 1")],
        5,
        "mesh.colour",
        0,
    ),
    (
        &[
            VERSION_3,
            MESH,
            ("hop = 3", "hop = 0"),
            ("count = 2", "count = 65"),
        ],
        4,
        "domains.count",
        65,
    ),
    (
        &[
            VERSION_3,
            PIPE,
            MESH,
            ("mul = 3", "mul = 0"),
            ("hop = 3", "hop = 0"),
        ],
        4,
        "mesh.hop",
        0,
    ),
    (
        &[
            VERSION_3,
            PIPE,
            MESH,
            ("mul = 3", "mul = 3\na = 1"),
            ("hop = 3", "hop = 3\nz = 1"),
        ],
        5,
        "mesh.z",
        0,
    ),
];

/// The lines of open rows behind the domains.
const DRAM: (&str, &str) = (
    "controllers = [1]",
    "controllers = [1]\n\n[dram]\nbanks = 2\nrow_lines = 4\nhit = 100\nclosed = 120\nconflict = 150",
);

static OF_OPEN_ROWS: [Case; 19] = [
    (&[DRAM], 5, "dram", 0),
    (&[("version = 1", "version = 2"), L1I, DRAM], 5, "dram", 0),
    (&[VERSION_3, ("100000", "100000\ndram = 1")], 3, "dram", 0),
    (&[VERSION_3, DRAM, ("hit = 100\n", "")], 2, "dram.hit", 0),
    (
        &[VERSION_3, DRAM, ("hit = 100", "hit = 100.0")],
        3,
        "dram.hit",
        0,
    ),
    (
        &[VERSION_3, DRAM, ("banks = 2", "banks = 0")],
        4,
        "dram.banks",
        0,
    ),
    (
        &[VERSION_3, DRAM, ("banks = 2", "banks = 17")],
        4,
        "dram.banks",
        17,
    ),
    (
        &[VERSION_3, DRAM, ("row_lines = 4", "row_lines = 0")],
        4,
        "dram.row_lines",
        0,
    ),
    (
        &[VERSION_3, DRAM, ("row_lines = 4", "row_lines = 4097")],
        4,
        "dram.row_lines",
        4097,
    ),
    (
        &[VERSION_3, DRAM, ("hit = 100", "hit = 0")],
        4,
        "dram.hit",
        0,
    ),
    (
        &[VERSION_3, DRAM, ("hit = 100", "hit = 65537")],
        4,
        "dram.hit",
        65537,
    ),
    (
        &[VERSION_3, DRAM, ("closed = 120", "closed = 99")],
        4,
        "dram.closed",
        99,
    ),
    (
        &[VERSION_3, DRAM, ("closed = 120", "closed = 65537")],
        4,
        "dram.closed",
        65537,
    ),
    (
        &[VERSION_3, DRAM, ("conflict = 150", "conflict = 119")],
        4,
        "dram.conflict",
        119,
    ),
    (
        &[VERSION_3, DRAM, ("conflict = 150", "conflict = 65537")],
        4,
        "dram.conflict",
        65537,
    ),
    (
        &[VERSION_3, DRAM, ("hit = 100", "hit = 100\ncolour = 1")],
        5,
        "dram.colour",
        0,
    ),
    (
        &[
            VERSION_3,
            DRAM,
            MESH,
            ("banks = 2", "banks = 0"),
            ("hop = 3", "hop = 0"),
        ],
        4,
        "mesh.hop",
        0,
    ),
    (
        &[
            VERSION_3,
            PIPE,
            DRAM,
            ("mul = 3", "mul = 0"),
            ("banks = 2", "banks = 0"),
        ],
        4,
        "dram.banks",
        0,
    ),
    (
        &[VERSION_3, DRAM, ("read = 100\n", "")],
        2,
        "controllers.read",
        0,
    ),
];

static RANGES: [Case; 18] = [
    (&[("version = 1", "version = 4")], 4, "version", 4),
    (&[("cores = 1", "cores = 257")], 4, "cores", 257),
    (&[("interval = 10000", "interval = 0")], 4, "interval", 0),
    (
        &[("interval = 10000", "interval = 10001")],
        4,
        "interval",
        10001,
    ),
    (&[("interval = 10000", "interval = -1")], 4, "interval", -1),
    (
        &[("intervals = 100000", "intervals = 0x7fffffffffffffff")],
        4,
        "intervals",
        i64::MAX,
    ),
    (&[("base = 65536", "base = 1")], 4, "memory.base", 1),
    (
        &[("base = 65536", "base = 1099511631872")],
        4,
        "memory.base",
        1099511631872,
    ),
    (&[("size = 1048576", "size = 0")], 4, "memory.size", 0),
    (&[("stack = 4096", "stack = 4100")], 4, "memory.stack", 4100),
    (
        &[
            ("cores = 1", "cores = 17"),
            ("stack = 4096", "stack = 65536"),
        ],
        4,
        "memory.stack",
        65536,
    ),
    (&[("ways = 1", "ways = 0")], 4, "l1.ways", 0),
    (
        &[("latency = 1\n", "latency = 65537\n")],
        4,
        "l1.latency",
        65537,
    ),
    (&[("ways = 2", "ways = 33")], 4, "l2.ways", 33),
    (&[("remote = 5", "remote = 65537")], 4, "l2.remote", 65537),
    (&[("count = 1", "count = 17")], 4, "controllers.count", 17),
    (&[("banks = [0]", "banks = [0, 0]")], 4, "domains.banks", 2),
    (
        &[("controllers = [1]", "controllers = []")],
        4,
        "domains.controllers",
        0,
    ),
];

static NAMES: [Case; 7] = [
    (&[("100000", "100000\ncolour = 1")], 5, "colour", 0),
    (&[("100000", "100000\nzebra = 1\napple = 2")], 5, "apple", 0),
    (
        &[
            ("base = 65536", "base = 65536\napple = 1"),
            ("100000", "100000\nzebra = 1"),
        ],
        5,
        "zebra",
        0,
    ),
    (
        &[("base = 65536", "base = 65536\nsets = 1")],
        5,
        "memory.sets",
        0,
    ),
    (
        &[
            ("count = 2", "count = 2\na = 1"),
            ("sets = 2", "sets = 2\nb = 1"),
        ],
        5,
        "l1.b",
        0,
    ),
    (&[("[domains]", "[l1i]\n[domains]")], 5, "l1i", 0),
    (&[("100000", "100000\n\"l1.sets\" = 1")], 5, "l1.sets", 0),
];

/// A machine with two banks.
static RATIOS: [Case; 4] = [
    (
        &[
            ("cores = 1", "cores = 2"),
            ("banks = 1", "banks = 2"),
            ("banks = [0]", "banks = [0, 1]"),
            ("sets = 2", "sets = 3"),
        ],
        6,
        "l1.sets",
        0,
    ),
    (
        &[
            ("banks = 1", "banks = 2"),
            ("banks = [0]", "banks = [0, 1]"),
            ("sets = 4", "sets = 5"),
        ],
        6,
        "l2.sets",
        0,
    ),
    (
        &[
            ("banks = 1", "banks = 2"),
            ("banks = [0]", "banks = [0, 9]"),
            ("sets = 2", "sets = 3"),
            ("sets = 4", "sets = 5"),
        ],
        6,
        "l1.sets",
        0,
    ),
    (
        &[
            ("banks = 1", "banks = 2"),
            ("banks = [0]", "banks = [0, 1]"),
            ("sets = 2", "sets = 3\ncolour = 1"),
        ],
        5,
        "l1.colour",
        0,
    ),
];

static DOMAINS: [Case; 4] = [
    (&[("controllers = [1]", "controllers = [2]")], 7, "", 1),
    (&[("banks = [0]", "banks = [-1]")], 7, "", 0),
    (
        &[
            ("banks = [0]", "banks = [2]"),
            ("controllers = [1]", "controllers = [2]"),
        ],
        7,
        "",
        0,
    ),
    (&[("count = 2", "count = 1")], 7, "", 1),
];

/// Checks that each edited text is refused as its row says.
fn refuse(rt: &(impl Abort + AllocGlobal), cases: &[Case]) {
    for &(edits, number, key, value) in cases {
        let text = edited(rt, edits);
        is_refused(rt, text.as_bytes(), number, key.as_bytes(), value);
    }
}

#[test]
fn the_first_check_that_fails_is_told(rt: HostRuntime) {
    refuse(&rt, &MISSING);
    refuse(&rt, &KINDS);
    refuse(&rt, &RANGES);
    refuse(&rt, &OF_VERSION_2);
    refuse(&rt, &OF_VERSION_3);
    refuse(&rt, &OF_A_MESH);
    refuse(&rt, &OF_OPEN_ROWS);
    refuse(&rt, &NAMES);
    refuse(&rt, &RATIOS);
    refuse(&rt, &DOMAINS);
}

static NOT_TOML: [&[u8]; 4] = [b"cores =", b"\xff", b"cores = 1\ncores = 1\n", b"# \xc3\n"];

/// Checks that each text is refused as no TOML.
fn are_not_toml(rt: &(impl Abort + AllocGlobal), texts: &[&[u8]]) {
    for &text in texts {
        is_refused(rt, text, 1, b"", 0);
    }
}

#[test]
fn text_that_is_not_toml_is_refused(rt: HostRuntime) {
    are_not_toml(&rt, &NOT_TOML);
}

/// Whether two have the same domains.
fn are_same_domains(one: &Domains, other: &Domains) -> bool {
    one.count == other.count
        && one.banks.as_slice() == other.banks.as_slice()
        && one.controllers.as_slice() == other.controllers.as_slice()
}

/// Whether two have the same caches, controllers and memory.
fn are_same_parts(one: &Machine, other: &Machine) -> bool {
    one.memory == other.memory
        && one.l1 == other.l1
        && one.l1i == other.l1i
        && one.l2 == other.l2
        && one.controllers == other.controllers
}

/// Checks that two are the same machine.
fn is_same(rt: &impl Abort, one: &Machine, other: &Machine) {
    assert!(rt; one.version == other.version && one.cores == other.cores);
    assert!(rt; one.interval == other.interval && one.intervals == other.intervals);
    assert!(rt; are_same_parts(one, other));
    assert!(rt; are_same_domains(&one.domains, &other.domains));
}

/// The built-in machine with an instruction cache for its core.
fn fetching(rt: &(impl Abort + AllocGlobal)) -> Machine {
    let text = edited(rt, &[("version = 1", "version = 2"), L1I]);
    machine_of(rt, text.as_bytes())
}

#[test]
fn version_2_has_an_instruction_cache(rt: HostRuntime) {
    let machine = fetching(&rt);
    assert!(rt; machine.version == 2);
    assert!(rt; machine.l1i == Some(machine.l1));
}

/// The built-in machine as version 3, with a pipeline for its core.
fn pipelined(rt: &(impl Abort + AllocGlobal)) -> Machine {
    let text = edited(rt, &[VERSION_3, PIPE]);
    machine_of(rt, text.as_bytes())
}

#[test]
fn version_3_may_have_a_pipeline(rt: HostRuntime) {
    let machine = pipelined(&rt);
    let pipe = Pipe {
        mul: 3,
        div: 20,
        entries: 16,
        penalty: 4,
    };
    assert!(rt; machine.version == 3);
    assert!(rt; machine.pipe == Some(pipe));
    assert!(rt; machine.l1i == None);
}

/// The same with an instruction cache, and without a pipeline.
fn fetching_in_version_3(rt: &(impl Abort + AllocGlobal)) -> Machine {
    let text = edited(rt, &[VERSION_3, L1I]);
    machine_of(rt, text.as_bytes())
}

#[test]
fn version_3_may_have_an_instruction_cache(rt: HostRuntime) {
    let machine = fetching_in_version_3(&rt);
    assert!(rt; machine.l1i == Some(machine.l1));
    assert!(rt; machine.pipe == None);
}

/// The same with a mesh of three nodes and with two banks, the first of them in domain 1.
fn meshed(rt: &(impl Abort + AllocGlobal)) -> Machine
    ensures { IsMachine result }
{
    let two_banks = ("banks = 1", "banks = 2");
    let places = ("banks = [0]", "banks = [1, 0]");
    let three_nodes = ("width = 2", "width = 3");
    let text = edited(rt, &[VERSION_3, MESH, two_banks, places, three_nodes]);
    machine_of(rt, text.as_bytes())
}

/// Components of that machine, and their domains: the banks, the controller, and links of each
/// node. The link of the third node is in the domain of the first bank.
static MESHED_DOMAINS: [(u16, u16); 7] = [(0, 1), (1, 0), (2, 1), (3, 1), (7, 0), (11, 1), (14, 1)];

#[test]
fn version_3_may_have_a_mesh(rt: HostRuntime) {
    let machine = meshed(&rt);
    let mesh = Mesh {
        width: 3,
        height: 1,
        hop: 3,
        occupancy: 2,
    };
    assert!(rt; machine.mesh == Some(mesh));
    assert!(rt; machine.l1i == None && machine.pipe == None);
    has_domains(&rt, &machine, 15, &MESHED_DOMAINS);
}

/// The built-in machine as version 3, with open rows.
fn with_open_rows(rt: &(impl Abort + AllocGlobal)) -> Machine {
    let text = edited(rt, &[VERSION_3, DRAM]);
    machine_of(rt, text.as_bytes())
}

#[test]
fn version_3_may_have_open_rows(rt: HostRuntime) {
    let machine = with_open_rows(&rt);
    let dram = Dram {
        banks: 2,
        row_lines: 4,
        hit: 100,
        closed: 120,
        conflict: 150,
    };
    assert!(rt; machine.dram == Some(dram));
    assert!(rt; machine.mesh == None && machine.pipe == None);
}

#[test]
fn the_built_in_text_reads_as_its_machine(rt: HostRuntime) {
    is_same(&rt, &machine_of(&rt, PLAIN.as_bytes()), &small(&rt, 1));
}

/// The greatest machine: each number at the upper end of its range.
const GREATEST: &str = "version = 1
cores = 256
interval = 10000
intervals = 1048576
memory = { base = 1099511627776, size = 268435456, stack = 1048576 }
l1 = { sets = 4096, ways = 16, latency = 65536 }
l2.banks = 64
l2.sets = 65536
l2.ways = 32
l2.latency = 65536
l2.remote = 65536
l2.fill = 65536
l2.occupancy = 65536
controllers = { count = 16, read = 65536, write = 65536, occupancy = 65536 }
domains.count = 64
domains.banks = [
    0, 1, 2, 3, 4, 5, 6, 7, 8, 9, 10, 11, 12, 13, 14, 15, 16, 17, 18, 19, 20, 21,
    22, 23, 24, 25, 26, 27, 28, 29, 30, 31, 32, 33, 34, 35, 36, 37, 38, 39, 40, 41, 42,
    43, 44, 45, 46, 47, 48, 49, 50, 51, 52, 53, 54, 55, 56, 57, 58, 59, 60, 61, 62, 63,
]
domains.controllers = [63, 62, 61, 60, 59, 58, 57, 56, 55, 54, 53, 52, 51, 50, 49, 48]
";

/// Components of the greatest machine, and their domains.
static GREATEST_DOMAINS: [(u16, u16); 4] = [(0, 0), (63, 63), (64, 63), (79, 48)];

/// Checks numbers of the greatest machine.
fn has_greatest_numbers(rt: &impl Abort, machine: &Machine) {
    assert!(rt; machine.memory.base == 0x100_0000_0000);
    assert!(rt; machine.l1.sets == 4096 && machine.l2.remote == 65536);
}

/// Checks how many components there are, and the domain of each component of the rows.
fn has_domains(rt: &impl Abort, machine: &Machine, count: u16, rows: &[(u16, u16)])
    requires { IsMachine machine.now }
{
    assert!(rt; component_count(machine) == count);
    for &(component, domain) in rows {
        assert!(rt; component < component_count(machine));
        assert!(rt; domain_of(machine, component) == domain);
    }
}

#[test]
fn the_greatest_machine_is_read(rt: HostRuntime) {
    let machine = machine_of(&rt, GREATEST.as_bytes());
    has_greatest_numbers(&rt, &machine);
    has_domains(&rt, &machine, 80, &GREATEST_DOMAINS);
}

/// A word so many times.
fn repeated(rt: &(impl Abort + AllocGlobal), word: &str, count: usize) -> String {
    word.repeat(rt.alloc(), count).expect(rt, "memory")
}

/// Adds a text.
fn add(rt: &impl Abort, text: &mut String, more: &str) {
    text.push_str(more).expect(rt, "memory");
}

/// The built-in text with a key of this name.
fn with_key(rt: &(impl Abort + AllocGlobal), name: &str) -> String {
    let mut line = repeated(rt, "100000\n", 1);
    add(rt, &mut line, name);
    add(rt, &mut line, " = 1");
    edited(rt, &[("100000", line.as_str())])
}

#[test]
fn a_long_name_is_told(rt: HostRuntime) {
    let name = repeated(&rt, "colour", 200);
    let text = with_key(&rt, &name);
    is_refused(&rt, text.as_bytes(), 5, name.as_bytes(), 0);
}

#[test]
fn a_long_text_is_read(rt: HostRuntime) {
    let mut text = repeated(&rt, "# a line of a comment\n", 40_000);
    add(&rt, &mut text, PLAIN);
    assert!(rt; machine_of(&rt, text.as_bytes()).interval == 10000);
}

/// Edits of the built-in text, and the words of the refusal.
type Words = (&'static [(&'static str, &'static str)], &'static str);

static WORDS: [Words; 7] = [
    (
        &[("cores = 1", "cores =")],
        "the description is no TOML document",
    ),
    (&[("cores = 1\n", "")], "the key cores is missing"),
    (
        &[("banks = [0]", "banks = 0")],
        "the value of domains.banks is of another kind",
    ),
    (
        &[("ways = 1", "ways = 0")],
        "the value 0 of l1.ways is out of range",
    ),
    (
        &[("100000", "100000\nzebra = 1")],
        "the key zebra is unknown",
    ),
    (
        &[
            ("banks = 1", "banks = 2"),
            ("banks = [0]", "banks = [0, 1]"),
            ("sets = 2", "sets = 3"),
        ],
        "the value of l1.sets is no multiple of the number of banks",
    ),
    (
        &[("count = 2", "count = 1")],
        "component 1 is in a domain that is not there",
    ),
];

/// The words of a refusal.
fn words_of(rt: &(impl Abort + AllocGlobal), fail: &MachineFail) -> String {
    format!(in rt.alloc(); "{fail}").expect(rt, "memory")
}

/// Checks the words with which a text is refused.
fn is_refused_in_words(rt: &(impl Abort + AllocGlobal), text: &[u8], wanted: &str) {
    let words = words_of(rt, &refusal(rt, text));
    assert!(rt; words.as_str() == wanted);
}

/// Checks the words of each refusal.
fn refuse_in_words(rt: &(impl Abort + AllocGlobal), cases: &[Words]) {
    for &(edits, wanted) in cases {
        let text = edited(rt, edits);
        is_refused_in_words(rt, text.as_bytes(), wanted);
    }
}

#[test]
fn a_refusal_is_told_in_words(rt: HostRuntime) {
    refuse_in_words(&rt, &WORDS);
}
