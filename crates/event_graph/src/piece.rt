//! One of the events of an access, before it has a number.
use component::Kind;

/// One of the events of an access, by its place in the access. Times are in cycles.
#[derive(Clone, Copy)]
pub struct Piece {
    /// The component that serves it.
    pub component: u16,
    pub kind: Kind,
    /// Its start at zero load, after the start of the access.
    pub offset: u64,
    /// The time from its start to its finish at zero load.
    pub time: u64,
    /// The places of the events in the same access that have to finish before it starts.
    pub first: Option<u16>,
    pub second: Option<u16>,
}
