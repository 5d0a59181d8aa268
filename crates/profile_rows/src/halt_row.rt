//! Where a core was at the end.
use rv_core::Why;

/// A jump: the next instruction did not stand behind this one.
#[derive(Clone, Copy)]
pub struct Jump {
    pub from: u64,
    pub to: u64,
}

/// Where a core was at the end of a run.
#[derive(Drop)]
pub struct HaltRow {
    pub core: u16,
    /// Why it halted, or None where it is running.
    pub halted: Option<Why>,
    pub pc: u64,
    /// Its registers x0 to x31.
    pub registers: Vec<u64>,
    /// Its last jumps, the latest one last, 16 at most.
    pub jumps: Vec<Jump>,
}
