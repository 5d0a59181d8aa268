//! What a seat at the table knows. No value of these types is made: they are what proofs say of a
//! seat. An array of length 0 stands for a list of any length.
use shard::Shard;
use zs_num::Entry;

/// The accesses of a core, in its order.
pub struct CoreAccesses {
    pub core: u64,
    pub list: [Entry; 0],
}

/// The accesses to a shard, in the order in which it served them.
pub struct ShardAccesses {
    pub shard: u64,
    pub list: [Entry; 0],
}

/// The latest word that a seat found to be of another core, and how many it found so far.
pub struct Found {
    pub shard: u64,
    pub word: u64,
    pub count: u64,
}

/// What a seat knows.
pub struct View {
    /// The shards before the first access.
    pub shards: [Shard; 0],
    pub cores: u64,
    /// How many accesses a core can make.
    pub room: u64,
    /// How many seats were made, where it is the first.
    pub made: u64,
    /// The accesses of the cores whose seat it is.
    pub parts: [CoreAccesses; 0],
    /// The shard that it holds, with the accesses to it.
    pub hold: Option<ShardAccesses>,
    pub found: Found,
    /// For each of its accesses, the shard with the accesses to it up to that one.
    pub notes: [ShardAccesses; 0],
}
