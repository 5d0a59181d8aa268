//! How far an instruction with accesses has come.
use zs_num::Request;

/// A register that gets what an instruction's accesses reply.
#[derive(Clone, Copy)]
pub struct Destination {
    /// The number of the register, 0 to 31. A write to register 0 is dropped. It has two bytes so
    /// that all three have four, which the processor moves at once.
    pub rd: u16,
    /// How many bytes the number has, 1 to 8.
    pub width: u8,
    /// Whether the number is sign-extended.
    pub signed: bool,
}

/// A reply to an access: a number of so many bytes.
#[derive(Clone, Copy)]
pub struct Reply {
    pub width: u8,
    pub number: u64,
}

/// The accesses that are left of an instruction, and what was replied so far.
#[derive(Clone, Copy)]
pub enum Progress {
    /// No instruction is in progress.
    Idle,
    /// An instruction was fetched, and is to be executed.
    Fetched,
    /// An instruction has its fetch next, at this address, and then its execution.
    Fetch {
        addr: u64,
    },
    /// A load or a store has an access to the lower line next, and then one to the upper line.
    Lower {
        next: Request,
        upper: Request,
        destination: Option<Destination>,
    },
    /// A load, a store or an atomic has its last access next. A load that crosses a line has had
    /// the reply from the lower line.
    Last {
        next: Request,
        lower: Option<Reply>,
        destination: Option<Destination>,
    },
    /// A write call has a load of the byte at `addr` next, and so many later. It writes `count`
    /// bytes in all.
    Write {
        addr: u64,
        later: u64,
        count: u64,
    },
}
