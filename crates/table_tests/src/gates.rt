//! Gates at which accesses are watched, and put in order.
use std::alloc::Global;
use std::hint;
use std::sync::atomic::{AtomicU64, Ordering};
use zs_host::{Gate, Point};
use zs_num::NoMemory;

/// How often who is held up looks whether it may go on, before it goes on anyway: for a good while.
const LOOKS: u32 = 50_000_000;

/// A gate that counts how often each worker passes for each core.
#[derive(Drop)]
pub(crate) struct CountingGate {
    cores: u16,
    /// For each worker, one after the other, its passes for each core.
    passes: Vec<AtomicU64>,
}

impl CountingGate {
    /// A gate for so many workers and cores, which nobody has passed.
    pub(crate) fn new(alloc: Global, workers: u16, cores: u16) -> Result<Self, NoMemory> {
        let mut passes = Vec::new(alloc);
        for _ in 0..workers.saturating_mul(cores) {
            passes.push(AtomicU64::new(0))?;
        }
        Ok(CountingGate { cores, passes })
    }

    /// The count of a worker's passes for a core. None where the gate is not for these.
    fn count(&self, worker: u16, core: u16) -> Option<&AtomicU64> {
        if core >= self.cores {
            return None;
        }
        let first = usize::from(worker).saturating_mul(usize::from(self.cores));
        self.passes.get(first.saturating_add(usize::from(core)))
    }

    /// How often a worker passed for a core.
    pub(crate) fn passes(&self, worker: u16, core: u16) -> u64 {
        match self.count(worker, core) {
            Some(count) => count.load(Ordering::SeqCst),
            None => 0,
        }
    }
}

impl Gate for CountingGate {
    fn pass(&self, worker: u16, point: Point) {
        if let Point::Access { core } = point {
            if let Some(count) = self.count(worker, core) {
                count.fetch_add(1, Ordering::SeqCst);
            }
        }
    }
}

/// A gate that lets core 1 make two accesses, then core 0 one, and then both as they come.
#[derive(Drop)]
pub(crate) struct TurnsGate {
    /// How often core 0 came.
    first: AtomicU64,
    /// How often core 1 came.
    second: AtomicU64,
}

impl TurnsGate {
    /// A gate to which nobody has come.
    pub(crate) fn new() -> Self {
        TurnsGate {
            first: AtomicU64::new(0),
            second: AtomicU64::new(0),
        }
    }
}

/// Waits until a core has come so often.
fn wait_for(core: &AtomicU64, times: u64) {
    for _ in 0..LOOKS {
        if core.load(Ordering::SeqCst) >= times {
            return;
        }
        hint::spin_loop();
    }
}

impl Gate for TurnsGate {
    /// Core 0 is held up at its first access until core 1 has come to its third. Core 1 is held up
    /// at its first until core 0 has come, and at its third until core 0 has come to its second.
    fn pass(&self, _worker: u16, point: Point) {
        match point {
            Point::Access { core: 0 } => {
                if self.first.fetch_add(1, Ordering::SeqCst) == 0 {
                    wait_for(&self.second, 3);
                }
            }
            Point::Access { .. } => match self.second.fetch_add(1, Ordering::SeqCst) {
                0 => wait_for(&self.first, 1),
                2 => wait_for(&self.first, 2),
                _ => {}
            },
            Point::Fire { .. } => {}
        }
    }
}
