//! What a seat at the table knows. These types are what proofs say of a seat, and nothing is kept of
//! them. An array of length 0 stands for a list of any length.
use crate::part::TimedPart;
use zs_num::Entry;

/// An access that was made. Its stamp is not yet known, and is 0.
#[derive(Clone, Copy)]
pub struct Made {
    pub entry: Entry,
    /// That of the core's L1 where the access is private. Else it is past those of all parts that
    /// the access touches, which all get it.
    pub time: u64,
    /// Whether it touched more than the core's own L1.
    pub shared: bool,
}

/// The accesses of a core, in its order, as far as they are published.
pub struct CoreAccesses {
    pub core: u64,
    pub list: [Made; 0],
}

/// A part that a seat has taken, as it was when accesses were last published.
pub struct Hold {
    pub part: u64,
    pub value: TimedPart,
}

/// What a seat knows.
pub struct View {
    /// The parts before the first access: the L1s in order of the cores, then the homes in order of
    /// the banks.
    pub opening: [Option<TimedPart>; 0],
    pub cores: u64,
    pub banks: u64,
    /// How many accesses a core can make.
    pub room: u64,
    /// How many seats were made, where it is the first.
    pub made: u64,
    /// The accesses of the cores whose seat it is.
    pub logs: [CoreAccesses; 0],
    /// The parts that it holds, the one taken last first.
    pub holds: [Hold; 0],
}
