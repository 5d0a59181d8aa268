//! Gates of a weave that may begin again.
use std::sync::atomic::{AtomicU64, Ordering};
use weave_chains::ChainBuffers;
use zs_host::{Gate, Point};

/// How many domains a machine has at most.
const DOMAINS: usize = 64;

/// A gate before the events of a weave that may be the second of an interval: of each domain as
/// many as have passed before go on at once, so that in all as many of it pass as fire. Which of
/// its events these are makes no difference: the gate is told of the domain alone. No answer
/// depends on what it counts.
#[derive(Drop)]
pub struct LaterPasses<'a, G: Gate> {
    gate: &'a G,
    left: [AtomicU64; DOMAINS],
}

impl<'a, G: Gate> LaterPasses<'a, G> {
    /// The gate for a weave in order. Where a weave core by core came to a tie before (`begun`), the
    /// events that it fired have passed the gate. `places` has the domain of each component.
    pub fn behind(gate: &'a G, begun: bool, places: &[u16], buffers: &ChainBuffers) -> Self {
        let later = LaterPasses {
            gate,
            left: std::array::from_fn(|_| AtomicU64::new(0)),
        };
        if begun {
            for component in 0..places.len() {
                later.let_pass(places[component], buffers.fired(component));
            }
        }
        later
    }

    /// So many events more of a domain go on at once.
    fn let_pass(&self, domain: u16, events: u64) {
        if let Some(left) = self.left.get(usize::from(domain)) {
            // One thread alone counts, so this needs no atomic sum.
            let before = left.load(Ordering::Relaxed);
            left.store(before.wrapping_add(events), Ordering::Relaxed);
        }
    }
}

impl<'a, G: Gate> Gate for LaterPasses<'a, G> {
    #[inline(always)]
    fn pass(&self, worker: u16, point: Point) {
        if let Some(passed) = of_domain(&self.left, point) {
            let left = passed.load(Ordering::Relaxed);
            if left > 0 {
                passed.store(left - 1, Ordering::Relaxed);
                return;
            }
        }
        self.gate.pass(worker, point);
    }
}

/// What is counted of the events of a domain.
#[inline(always)]
fn of_domain(counts: &[AtomicU64; DOMAINS], point: Point) -> Option<&AtomicU64> {
    match point {
        Point::Fire { domain } => counts.get(usize::from(domain)),
        Point::Access { .. } => None,
    }
}
