//! What an event asks of its component.

/// What an event asks of its component.
#[derive(Clone, Copy, PartialEq, Eq)]
pub enum Kind {
    /// A bank looks up a line.
    Lookup,
    /// A bank looks up a line of which another core has to change its copy.
    Remote,
    /// A bank takes in a line from memory.
    Fill,
    /// A controller reads a line.
    Read,
    /// A controller writes a line back.
    Write,
    /// A link carries an access from a node to the next.
    Hop,
    /// A controller that keeps rows open reads a line of this row of one of its banks.
    RowRead { bank: u16, row: u64 },
}
