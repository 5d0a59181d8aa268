//! What a turn of a core gives.
use zs_num::Entry;

/// What a turn gives.
#[derive(Clone, Copy)]
pub enum Turned {
    /// The core made an access, which has this entry.
    Took(Entry),
    /// The core halted, or its clock reached the interval's end with no instruction in progress.
    Ended,
}
