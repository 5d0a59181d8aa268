//! What a directory keeps of one line.
use crate::core_set::CoreSet;

/// The cores that have a line, and the one that may write it.
#[derive(Clone, Copy)]
pub struct DirectoryRow {
    pub sharers: CoreSet,
    pub owner: Option<u16>,
}

impl DirectoryRow {
    /// No core has the line.
    pub const NOBODY: DirectoryRow = DirectoryRow {
        sharers: CoreSet::EMPTY,
        owner: None,
    };
}
