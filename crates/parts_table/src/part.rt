//! What the table keeps: the homes and the L1s of a machine, each with a time.
use home::Home;
use l1_cache::L1;

/// A home or an L1.
#[derive(Drop)]
pub enum Part {
    Home(Home),
    L1(L1),
}

/// A part, and the time of the latest shared access that touched it: 0 before the first.
#[derive(Drop)]
pub struct TimedPart {
    pub time: u64,
    pub part: Part,
}
