//! The numbers of a machine.
use crate::Places;

/// The memory of a machine, in bytes.
#[derive(Clone, Copy, PartialEq, Eq)]
pub struct Memory {
    /// The first address, a multiple of 4096 up to 2^40.
    pub base: u64,
    /// The size, a multiple of 4096 from 4096 to 2^28.
    pub size: u64,
    /// The stack of each core, at the end of memory: a multiple of 16 from 16 to 2^20.
    pub stack: u64,
}

/// A cache of a core's own: its data cache, or its instruction cache.
#[derive(Clone, Copy, PartialEq, Eq)]
pub struct L1 {
    /// How many sets it has: 1 to 4096, a multiple of the number of banks.
    pub sets: u32,
    /// How many lines a set holds: 1 to 16.
    pub ways: u16,
    /// The time of a hit, in cycles: 1 to 65536.
    pub latency: u32,
}

/// The shared cache. Times are in cycles.
#[derive(Clone, Copy, PartialEq, Eq)]
pub struct L2 {
    /// How many banks it has: 1 to 64.
    pub banks: u16,
    /// How many sets all banks have together: 1 to 65536, a multiple of the number of banks.
    pub sets: u32,
    /// How many lines a set holds: 1 to 32.
    pub ways: u16,
    /// The time of a look-up: 1 to 65536.
    pub latency: u32,
    /// What a look-up takes longer where another core has to change its copy: 0 to 65536.
    pub remote: u32,
    /// The time to take in a line from memory: 1 to 65536.
    pub fill: u32,
    /// For how long an event keeps a bank busy: 1 to 65536.
    pub occupancy: u32,
}

/// The memory controllers. Times are in cycles.
#[derive(Clone, Copy, PartialEq, Eq)]
pub struct Controllers {
    /// How many there are: 1 to 16.
    pub count: u16,
    /// The time of a read: 1 to 65536.
    pub read: u32,
    /// The time of a write: 1 to 65536.
    pub write: u32,
    /// For how long an event keeps a controller busy: 1 to 65536.
    pub occupancy: u32,
}

/// Which domain of the weave each component belongs to.
#[derive(Drop)]
pub struct Domains {
    /// How many domains there are: 1 to 64.
    pub count: u16,
    /// The domain of each bank, below the count.
    pub banks: Places,
    /// The domain of each controller, below the count.
    pub controllers: Places,
}

/// A mesh of nodes, on which the cores, the banks and the controllers are. From each node a link
/// leads in each of four directions.
#[derive(Clone, Copy, PartialEq, Eq)]
pub struct Mesh {
    /// How many nodes it has along x: 1 to 8.
    pub width: u16,
    /// How many nodes it has along y: 1 to 8.
    pub height: u16,
    /// The time from a node to the next, in cycles: 1 to 256.
    pub hop: u32,
    /// For how long an event keeps a link busy, in cycles: 1 to 256.
    pub occupancy: u32,
}

/// The banks of memory behind each controller, each of which keeps a row open. Times are in cycles.
#[derive(Clone, Copy, PartialEq, Eq)]
pub struct Dram {
    /// How many banks there are behind a controller: 1 to 16.
    pub banks: u16,
    /// How many lines a row has: 1 to 4096.
    pub row_lines: u32,
    /// The time to read a line of the open row: 1 to 65536.
    pub hit: u32,
    /// The time to read a line where the bank has no open row: `hit` to 65536.
    pub closed: u32,
    /// The time to read a line where another row is open: `closed` to 65536.
    pub conflict: u32,
}

/// The pipeline of each core. Times are in cycles.
#[derive(Clone, Copy, PartialEq, Eq)]
pub struct Pipe {
    /// The time until a product is ready: 1 to 64.
    pub mul: u32,
    /// The time until a quotient or a remainder is ready: 1 to 128.
    pub div: u32,
    /// How many counters predict the branches: 1 to 4096.
    pub entries: u32,
    /// What a wrong prediction costs, and each JALR: 0 to 64.
    pub penalty: u32,
}

/// A machine.
#[derive(Drop)]
pub struct Machine {
    /// The version of the description: 1 to 3.
    pub version: u32,
    /// How many cores it has: 1 to 256.
    pub cores: u16,
    /// The length of an interval, in cycles: 1 to 10000.
    pub interval: u64,
    /// After how many intervals a run stops: 1 to 2^20.
    pub intervals: u32,
    pub memory: Memory,
    /// Each core's data cache.
    pub l1: L1,
    /// Each core's instruction cache, if the cores have one: those of version 1 have none, those of
    /// version 2 have one, and those of version 3 may.
    pub l1i: Option<L1>,
    pub l2: L2,
    pub controllers: Controllers,
    pub domains: Domains,
    /// The mesh that accesses cross, if there is one, which that of version 3 may have.
    pub mesh: Option<Mesh>,
    /// The banks of memory behind each controller, if they keep rows open, as those of version 3 may.
    pub dram: Option<Dram>,
    /// The pipeline of each core, if the cores have one, which those of version 3 may.
    pub pipe: Option<Pipe>,
}
