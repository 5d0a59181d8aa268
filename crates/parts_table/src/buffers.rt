//! All memory that a table takes, before the first access.
ghost use Rattle.std.specs.Prelude.{◌≡◌, ◌+◌, ◌*◌, ◌≤◌, ◌<◌, ◌^◌, [], replicate, vec_capacity, IfOk};

use crate::hold::APART;
use crate::part::TimedPart;
use crate::seat::CoreSeat;
use std::alloc::Global;
use zs_num::NoMemory;

/// All memory that a table takes.
pub(crate) struct Buffers {
    /// The words, with no part held and no L1 wanted.
    pub words: Vec<u64>,
    /// Room for the parts.
    pub slots: Vec<Option<TimedPart>>,
    /// Room for a seat of each core.
    pub seats: Vec<CoreSeat>,
}

impl Buffers {
    /// All memory for so many cores and banks.
    pub(crate) fn new(alloc: Global, cores: usize, banks: usize) -> Result<Self, NoMemory>
        requires { (cores ≤ 256) × (banks < 2 ^ 16) }
        ensures words { IfOk result (λ m. m.words.items ≡ replicate (16 * (cores + banks + cores)) 0) }
        ensures slots { IfOk result (λ m. (m.slots.items ≡ []) × (cores + banks ≤ vec_capacity m.slots)) }
        ensures seats { IfOk result (λ m. (m.seats.items ≡ []) × (cores ≤ vec_capacity m.seats)) }
    {
        Ok(Buffers {
            words: vec![in alloc; 0; APART * (cores + banks + cores)]?,
            slots: Vec::with_capacity(alloc, cores + banks)?,
            seats: Vec::with_capacity(alloc, cores)?,
        })
    }
}
