//! How many workers run the cores of the next interval, by what the last intervals had.
ghost use Rattle.std.specs.Prelude.{◌≡◌, ◌≤◌};

use crate::load::{Load, SIZES, sizes};
use std::marker::Model;
use std::thread::{Threads, available_parallelism};

/// While several workers run, one is tried in each interval whose number is a multiple of this.
const AMONG_ROUND: u32 = 256;

/// While one worker runs, several are tried in an interval whose number is a multiple of this, where
/// the work of one is now dealt out more evenly to all workers than when several ran.
const ALONE_ROUND: u32 = 64;

/// How many workers run the cores of the next interval. Contracts see how many there are.
#[derive(Drop)]
pub struct Pace {
    workers: u16,
    processors: u16,
    // How many intervals were run, and what those had that one worker ran, and that several ran.
    intervals: u32,
    alone: Load,
    among: Load,
}

impl Model for Pace {
    ghost use Rattle.std.specs.Prelude.{ℕ, ◌≤◌};

    ghost Value = { ℕ };

    ghost view = { λ p. p.workers };

    ghost invariant = { λ p. (1 ≤ p.workers) × (1 ≤ p.processors) };
}

impl Pace {
    /// That of so many workers on so many processors, before the first interval.
    pub fn new(workers: u16, processors: u16) -> Self
        requires { 1 ≤ workers }
        ensures { result ≡ workers }
    {
        Pace {
            workers,
            processors: processors.clamp(1, workers),
            intervals: 0,
            alone: Load::NONE,
            among: Load::NONE,
        }
    }

    /// The same on the processors that there are, or on one for each worker where the system does
    /// not say how many.
    pub fn here<R: Threads>(rt: &R, workers: u16) -> Self
        requires { 1 ≤ workers }
        ensures { result ≡ workers }
    {
        let processors = match available_parallelism(rt) {
            Ok(count) => u16::try_from(count.get()).unwrap_or(workers),
            Err(_) => workers,
        };
        Pace::new(workers, processors)
    }

    /// How many workers there are.
    pub fn all(&self) -> u16
        ensures value { result ≡ self.now }
        ensures some { 1 ≤ result }
    {
        self.workers
    }

    /// How many of them run the next interval. What comes of the interval does not depend on it.
    pub fn workers(&self) -> u16
        ensures some { 1 ≤ result }
        ensures most { result ≤ self.now }
    {
        let best = self.best(&self.among);
        let is_worth_it = self.is_worth_it(best);
        if self.processors < 2 || is_worth_it == self.is_tried(is_worth_it) {
            return 1;
        }
        if is_worth_it {
            best.workers.clamp(1, self.workers)
        } else {
            self.tried()
        }
    }

    /// Learns what an interval had that so many workers ran.
    pub fn learn(&mut self, workers: u16, load: Load)
        ensures { self.new ≡ self.old }
    {
        // What was tried counts alone, and not what it was an earlier time.
        let is_new = self.intervals < 2 || self.is_tried(self.is_worth_it(self.best(&self.among)));
        if workers == 1 {
            self.alone = after(&self.alone, load, is_new);
        } else {
            self.among = after(&self.among, load, is_new);
        }
        self.intervals = self.intervals.saturating_add(1);
    }

    /// How many run where several are tried: all in the first interval, and later as many as would
    /// take the least time for what one had.
    fn tried(&self) -> u16
        ensures some { 1 ≤ result }
        ensures most { result ≤ self.now }
    {
        if self.intervals == 0 {
            self.workers
        } else {
            self.best(&self.alone).workers.clamp(1, self.workers)
        }
    }

    /// As how many they would take the least time for a load. The fewer where the times are the same.
    fn best(&self, load: &Load) -> Best {
        let mut best = Best {
            workers: self.workers,
            time: u64::MAX,
        };
        let sizes = sizes(self.workers);
        for size in 0..SIZES {
            let workers = sizes[size];
            let busiest = load.busiest[size];
            let time = load.time_among(workers, self.processors, busiest, &self.alone);
            if time < best.time {
                best = Best { workers, time };
            }
        }
        best
    }

    /// Whether the next interval is run by several where one is worth more, or the other way round:
    /// what several workers make of the caches shows only while they run. That is so in the first
    /// one, and in those whose number is a power of 4, so that what it costs becomes less and less;
    /// and in further ones where that is likely to be of use.
    fn is_tried(&self, is_worth_it: bool) -> bool {
        let number = self.intervals;
        if number == 0 || is_power_of_four(number) {
            return true;
        }
        if is_worth_it {
            number % AMONG_ROUND == 0
        } else {
            number % ALONE_ROUND == 0 && self.alone.is_more_even_than(&self.among)
        }
    }

    /// Whether several workers would take less than four fifths of the time of one for an
    /// instruction.
    fn is_worth_it(&self, best: Best) -> bool {
        let alone = self.alone.time_alone();
        let of_among = product(product(best.time, self.alone.instructions), 5);
        let of_alone = product(product(alone, self.among.instructions), 4);
        of_among < of_alone
    }
}

/// As how many the workers would take the least time, and which time.
#[derive(Clone, Copy)]
struct Best {
    workers: u16,
    time: u64,
}

/// Whether a number is 4, 16, 64 and so on.
fn is_power_of_four(number: u32) -> bool {
    number > 1 && number.count_ones() == 1 && number.trailing_zeros() % 2 == 0
}

/// What is known of loads when another one comes, alone or beside those before.
fn after(before: &Load, next: Load, is_new: bool) -> Load {
    if is_new { next } else { before.gone_on(&next) }
}

/// The product, or the greatest number where it is greater.
fn product(a: u64, b: u64) -> u64 {
    a.saturating_mul(b)
}
