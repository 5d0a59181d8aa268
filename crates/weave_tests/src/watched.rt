//! Components whose steps others can count, and a gate that notes who passes it, and when.
use component::{Component, Kind};
use std::alloc::Global;
use std::sync::atomic::{AtomicU64, Ordering};
use zs_host::{Gate, Point};
use zs_num::Cycle;

/// Serves any number of events at once, each for 10 cycles, and counts its steps.
#[derive(Clone, Copy)]
pub(crate) struct Watched<'a> {
    pub(crate) steps: &'a AtomicU64,
}

impl<'a> Component for Watched<'a> {
    ghost use Rattle.std.specs.Prelude.{◌+◌, true, refl};
    ghost use Rattle.std.proofs.Common.{arith};

    ghost serves = { λ c kind. true };

    ghost floor = { λ c kind. 10 };

    ghost stepped = { λ c kind start. (c, start + 10) };

    ghost greatest = { λ c kind start. start + 10 };

    fn serves(&self, _kind: Kind) -> bool {
        true
    }

    fn floor(&self, _kind: Kind) -> u64 {
        10
    }

    fn step(&mut self, _kind: Kind, start: Cycle) -> Cycle {
        self.steps.fetch_add(1, Ordering::SeqCst);
        start + 10
    }

    ghost floor_at_least_one = { λ c kind s. Prim.omega arith };

    ghost floor_holds = { λ c kind start s. Prim.omega arith };

    ghost serves_stays = { λ c kind start other s. refl };

    ghost floor_stays = { λ c kind start other s. refl };

    ghost finish_within_greatest = { λ c kind start s. Prim.omega arith };
}

/// So many counts, all 0. `None` where memory runs out.
fn zeros(alloc: Global, count: u16) -> Option<Vec<AtomicU64>> {
    let mut zeros = Vec::with_capacity(alloc, usize::from(count)).ok()?;
    for _ in 0..count {
        zeros.push(AtomicU64::new(0)).ok()?;
    }
    Some(zeros)
}

/// Adds one to a count that is there, and answers what it was before.
fn add_one(counts: &[AtomicU64], index: usize) -> u64 {
    match counts.get(index) {
        Some(count) => count.fetch_add(1, Ordering::SeqCst),
        None => 0,
    }
}

/// What a count is. 0 where there is none.
fn count_at(counts: &[AtomicU64], index: usize) -> u64 {
    match counts.get(index) {
        Some(count) => count.load(Ordering::SeqCst),
        None => 0,
    }
}

/// A gate that counts by whom it is passed and for which domain, and how often in time: when the
/// components of the domain had made no step but those that earlier passes were for.
#[derive(Drop)]
pub(crate) struct WatchingGate {
    domains: u16,
    /// For each domain the steps of its components.
    steps: Vec<AtomicU64>,
    /// For each worker, one after the other, its passes for each domain.
    by_worker: Vec<AtomicU64>,
    /// For each domain all passes.
    passes: Vec<AtomicU64>,
    /// For each domain the passes in time.
    in_time: Vec<AtomicU64>,
}

impl WatchingGate {
    /// A gate for so many workers and domains, which nobody has passed.
    pub(crate) fn new(alloc: Global, workers: u16, domains: u16) -> Option<Self> {
        Some(WatchingGate {
            domains,
            steps: zeros(alloc, domains)?,
            by_worker: zeros(alloc, workers.saturating_mul(domains))?,
            passes: zeros(alloc, domains)?,
            in_time: zeros(alloc, domains)?,
        })
    }

    /// A component for each of these domains. `None` where memory runs out or the gate has no such
    /// domain.
    pub(crate) fn components(&self, alloc: Global, places: &[u16]) -> Option<Vec<Watched>> {
        let mut components = Vec::with_capacity(alloc, places.len()).ok()?;
        for place in places {
            let steps = self.steps.get(usize::from(*place))?;
            components.push(Watched { steps }).ok()?;
        }
        Some(components)
    }

    /// For each domain how often a worker passed for it.
    pub(crate) fn by(&self, alloc: Global, worker: u16) -> Option<Vec<u64>> {
        let first = usize::from(worker).saturating_mul(usize::from(self.domains));
        let mut counts = Vec::new(alloc);
        for domain in 0..self.domains {
            let index = first.saturating_add(usize::from(domain));
            counts.push(count_at(&self.by_worker, index)).ok()?;
        }
        Some(counts)
    }

    /// For each domain how often it was passed in time.
    pub(crate) fn in_time(&self, alloc: Global) -> Option<Vec<u64>> {
        let mut counts = Vec::new(alloc);
        for domain in 0..self.domains {
            counts
                .push(count_at(&self.in_time, usize::from(domain)))
                .ok()?;
        }
        Some(counts)
    }

    fn note(&self, worker: u16, domain: u16) {
        let index = usize::from(domain);
        let place = usize::from(worker)
            .saturating_mul(usize::from(self.domains))
            .saturating_add(index);
        add_one(&self.by_worker, place);
        let before = add_one(&self.passes, index);
        if count_at(&self.steps, index) == before {
            add_one(&self.in_time, index);
        }
    }
}

impl Gate for WatchingGate {
    fn pass(&self, worker: u16, point: Point) {
        if let Point::Fire { domain } = point {
            self.note(worker, domain);
        }
    }
}
