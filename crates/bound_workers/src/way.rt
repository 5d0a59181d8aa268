//! The gate as the cores of a worker see it.
use zs_host::{Gate, Point};

/// Where a worker can be held up. It has no meaning, as a gate has none.
pub(crate) trait Way {
    /// Returns when the worker may make an access of this core.
    fn pass(&self, worker: u16, core: u16);

    /// Whether it holds nobody up: then it need not be passed.
    fn is_open(&self) -> bool;
}

/// A gate on the way. What is proved of a worker's job may not rest on what threads share, as gates
/// do; so below a job there is but the way.
#[derive(Drop)]
pub(crate) struct Watched<'a, G: Gate> {
    pub gate: &'a G,
}

impl<'a, G: Gate> Way for Watched<'a, G> {
    fn pass(&self, worker: u16, core: u16) {
        self.gate.pass(worker, Point::Access { core });
    }

    #[inline(always)]
    fn is_open(&self) -> bool {
        self.gate.is_open()
    }
}
