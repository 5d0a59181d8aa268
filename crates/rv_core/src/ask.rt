//! What a core asks for.
use crate::Why;
use zs_num::Request;

/// What a core did or asks for when it was asked for its next step.
#[derive(Clone, Copy, PartialEq, Eq)]
pub enum Ask {
    /// One whole instruction was executed, with no access.
    Local,
    /// The instruction in progress needs this access next.
    Access(Request),
    /// The core has halted.
    Halted(Why),
}
