//! The gate as the domains of a worker see it.
use zs_host::{Gate, Point};

/// Where a worker can be held up. It has no meaning, as a gate has none.
pub trait DomainWay: Drop + Sized {
    /// Returns when the worker may fire an event of this domain.
    fn pass(&self, worker: u16, domain: u16);

    /// The same way for one worker more.
    fn another(&self) -> Self;
}

/// A gate on the way. What is proved of the job of a worker that lives may not rest on what threads
/// share, as gates do; so below a share there is but the way.
#[derive(Drop)]
pub struct WatchedDomains<'a, G: Gate> {
    pub(crate) gate: &'a G,
}

impl<'a, G: Gate> WatchedDomains<'a, G> {
    /// The way past this gate.
    pub fn of(gate: &'a G) -> Self {
        WatchedDomains { gate }
    }
}

impl<'a, G: Gate> DomainWay for WatchedDomains<'a, G> {
    fn pass(&self, worker: u16, domain: u16) {
        self.gate.pass(worker, Point::Fire { domain });
    }

    fn another(&self) -> Self {
        WatchedDomains { gate: self.gate }
    }
}
