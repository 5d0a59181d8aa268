//! What a check of events says.

/// Whether all events of a file start and finish as the weave has them; if not, the first that does
/// not.
#[derive(Clone, Copy, PartialEq, Eq)]
pub enum Verdict {
    /// They do: so many intervals, and so many events together.
    Yes { intervals: u32, events: u32 },
    /// This event of this interval starts at another cycle than its parents let it.
    Start { interval: u32, number: u32 },
    /// It starts when it may, and finishes at another cycle than its component finishes it.
    Finish { interval: u32, number: u32 },
}
