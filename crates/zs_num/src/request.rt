//! What a core asks of memory.
ghost use Rattle.std.specs.Prelude.{◌≡◌};

/// How many bytes a cache line has.
pub const LINE: u64 = 64;

/// How many bytes an instruction has.
const INSTRUCTION: u8 = 4;

/// The operation of an atomic read-modify-write (RISC-V Unprivileged ISA manual, "A" extension).
#[derive(Clone, Copy, PartialEq, Eq)]
pub enum AmoOp {
    Swap,
    Add,
    Xor,
    And,
    Or,
    /// The lesser, compared as signed numbers.
    Min,
    /// The greater, compared as signed numbers.
    Max,
    /// The lesser, compared as unsigned numbers.
    Minu,
    /// The greater, compared as unsigned numbers.
    Maxu,
}

/// What a core asks of memory. It lies in one line. Widths are in bytes: 1 to 8 for a
/// load or a store, 4 for a fetch, 4 or 8 for the others. Of a `value` the low `width` bytes count.
///
/// Fields of one byte come first, beside the variant's own, so that few bytes between fields mean nothing: where
/// a request is handed on, these are copied too.
#[derive(Clone, Copy, PartialEq, Eq)]
pub enum Request {
    Load {
        width: u8,
        addr: u64,
    },
    Store {
        width: u8,
        addr: u64,
        value: u64,
    },
    /// Load-reserved.
    Lr {
        width: u8,
        addr: u64,
    },
    /// Store-conditional. `paired` tells that the core's latest load-reserved was at this address
    /// and width, and that no store-conditional came since.
    Sc {
        width: u8,
        paired: bool,
        addr: u64,
        value: u64,
    },
    /// An atomic read-modify-write.
    Amo {
        width: u8,
        op: AmoOp,
        addr: u64,
        value: u64,
    },
    /// The fetch of an instruction through the core's instruction cache. It reads no byte of
    /// memory: instructions are those of the executable as it was loaded.
    Fetch {
        addr: u64,
    },
}

impl Request {
    ghost use Rattle.zs_num.specs.Request.{addr_of, is_fetch, line_of, width_of};

    /// The address of its lowest byte.
    pub fn addr(&self) -> u64
        ensures { result ≡ addr_of self.now }
    {
        match *self {
            Request::Load { addr, .. }
            | Request::Store { addr, .. }
            | Request::Lr { addr, .. }
            | Request::Sc { addr, .. }
            | Request::Amo { addr, .. }
            | Request::Fetch { addr } => addr,
        }
    }

    /// How many bytes it reads or writes: of a fetch, those of the instruction.
    pub fn width(&self) -> u8
        ensures { result ≡ width_of self.now }
    {
        match *self {
            Request::Load { width, .. }
            | Request::Store { width, .. }
            | Request::Lr { width, .. }
            | Request::Sc { width, .. }
            | Request::Amo { width, .. } => width,
            Request::Fetch { .. } => INSTRUCTION,
        }
    }

    /// Whether it is the fetch of an instruction.
    #[inline(always)]
    pub fn is_fetch(&self) -> bool
        ensures { result ≡ is_fetch self.now }
    {
        matches!(self, Request::Fetch { .. })
    }

    /// The number of the line in which it lies.
    pub fn line(&self) -> u64
        ensures { result ≡ line_of self.now }
    {
        self.addr() / LINE
    }
}
