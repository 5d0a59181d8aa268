//! The gate of a weave on one list.
ghost use Rattle.std.specs.Prelude.{◌<◌};

use zs_host::{Gate, Point};

/// A gate for a weave on one list, which stands for so many workers: an event passes it by the
/// worker that has its domain, the domain's number modulo the number of workers.
#[derive(Drop)]
pub struct ListGate<'a, G: Gate> {
    pub gate: &'a G,
    pub workers: u16,
    pub ghost some: { 0 < workers },
}

impl<'a, G: Gate> Gate for ListGate<'a, G> {
    #[inline(always)]
    fn pass(&self, worker: u16, point: Point) {
        match point {
            Point::Fire { domain } => self.gate.pass(domain % self.workers, point),
            Point::Access { .. } => self.gate.pass(worker, point),
        }
    }
}
