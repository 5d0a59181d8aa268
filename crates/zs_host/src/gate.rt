//! Where workers can be held up from outside, between two atomic steps.

/// What a worker is about to do.
#[derive(Clone, Copy)]
pub enum Point {
    /// One access of this core. The worker holds no shard.
    Access { core: u16 },
    /// One event of this domain.
    Fire { domain: u16 },
}

/// A gate has no meaning: no answer of a run depends on it. Each worker passes it before each
/// access and before each fire, and may be held up there. An open one (`is_open`) may be left out.
pub trait Gate: Sync {
    /// Returns when `worker` may go on to `point`.
    fn pass(&self, worker: u16, point: Point);

    /// Whether it holds nobody up and keeps nothing of who passes: then it need not be passed.
    #[inline(always)]
    fn is_open(&self) -> bool {
        false
    }
}

/// A gate that holds nobody up.
#[derive(Clone, Copy)]
pub struct OpenGate;

impl Gate for OpenGate {
    fn pass(&self, _worker: u16, _point: Point) {}

    #[inline(always)]
    fn is_open(&self) -> bool {
        true
    }
}
