//! How long a core may go on by itself, and how far it came.
ghost use Rattle.std.specs.Prelude.{◌≡◌, None};

use crate::Single;
use zs_num::Cycle;

/// How long a core may go on by itself.
#[derive(Clone, Copy)]
pub struct Stint {
    /// Its clock at the beginning.
    pub clock: Cycle,
    /// The cycle before which its instructions begin, and by which its accesses have ended.
    pub end: Cycle,
    /// How many cycles a load or a store takes that is a hit.
    pub hit: u64,
    /// How many a fetch takes that is a hit.
    pub fetch_hit: u64,
    /// How many accesses it may make.
    pub accesses: u64,
}

/// How far a core came by itself.
#[derive(Clone, Copy)]
pub struct Came {
    /// The address of the next instruction.
    pub pc: u64,
    /// The line of its latest fetch, if it fetches.
    pub line: Option<u64>,
    /// Its clock.
    pub clock: Cycle,
    /// How many instructions it executed.
    pub count: u64,
    /// How many accesses it made.
    pub accesses: u64,
    /// The access of the next instruction, if it came to one that the port did not serve at once.
    pub met: Option<Single>,
}

impl Came {
    /// It executed nothing.
    #[inline(always)]
    pub fn nowhere(pc: u64, line: Option<u64>, clock: Cycle) -> Self
        ensures pc { result.pc ≡ pc }
        ensures line { result.line ≡ line }
        ensures clock { result.clock ≡ clock }
        ensures count { result.count ≡ 0 }
        ensures accesses { result.accesses ≡ 0 }
        ensures met { result.met ≡ None }
    {
        Came {
            pc,
            line,
            clock,
            count: 0,
            accesses: 0,
            met: None,
        }
    }
}
