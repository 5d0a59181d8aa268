//! A gate at which workers meet: for tests of what runs beside what.
use crate::{Gate, Point};
use std::hint;
use std::sync::atomic::{AtomicU64, Ordering};

/// How often who is first at a gate looks for the other one, before it goes on alone: for a good
/// while.
const LOOKS: u32 = 50_000_000;

/// How often a gate was passed.
#[derive(Clone, Copy, PartialEq, Eq)]
pub struct Passes {
    /// By core 0, or by domain 0.
    pub first: u64,
    /// By core 1, or by domain 1.
    pub second: u64,
    /// How many of the two met the other one: 0 to 2.
    pub met: u64,
}

/// Two who meet at their first passes.
#[derive(Drop)]
struct Pair {
    first: AtomicU64,
    second: AtomicU64,
    met: AtomicU64,
}

impl Pair {
    fn new() -> Self {
        Pair {
            first: AtomicU64::new(0),
            second: AtomicU64::new(0),
            met: AtomicU64::new(0),
        }
    }

    fn passes(&self) -> Passes {
        Passes {
            first: self.first.load(Ordering::SeqCst),
            second: self.second.load(Ordering::SeqCst),
            met: self.met.load(Ordering::SeqCst),
        }
    }

    /// A pass of one of the two, whose number is 0 or 1. Others go on.
    fn pass(&self, number: u16) {
        match number {
            0 => self.meet(&self.first, &self.second),
            1 => self.meet(&self.second, &self.first),
            _ => {}
        }
    }

    fn meet(&self, own: &AtomicU64, other: &AtomicU64) {
        if own.fetch_add(1, Ordering::SeqCst) > 0 {
            return;
        }
        for _ in 0..LOOKS {
            if other.load(Ordering::SeqCst) > 0 {
                self.met.fetch_add(1, Ordering::SeqCst);
                return;
            }
            hint::spin_loop();
        }
    }
}

/// A gate at which core 0 waits at its first access until core 1 has come to its own, and core 1
/// until core 0 has; and so do the domains 0 and 1 at their first events. All others, and all later
/// passes, go on at once. Where both are run by one thread, the first waits in vain, and goes on
/// alone after a good while.
#[derive(Drop)]
pub struct MeetingGate {
    cores: Pair,
    domains: Pair,
}

impl MeetingGate {
    /// A gate that nobody has passed.
    pub fn new() -> Self {
        MeetingGate {
            cores: Pair::new(),
            domains: Pair::new(),
        }
    }

    /// The passes of the cores 0 and 1.
    pub fn cores(&self) -> Passes {
        self.cores.passes()
    }

    /// The passes of the domains 0 and 1.
    pub fn domains(&self) -> Passes {
        self.domains.passes()
    }
}

impl Gate for MeetingGate {
    fn pass(&self, _worker: u16, point: Point) {
        match point {
            Point::Access { core } => self.cores.pass(core),
            Point::Fire { domain } => self.domains.pass(domain),
        }
    }
}
