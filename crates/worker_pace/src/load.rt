//! What intervals had, and how long they take.

/// How long a worker takes for an instruction, in tenths of a nanosecond.
const INSTRUCTION: u64 = 13;

/// And for an access that its core's own cache serves.
const ACCESS: u64 = 60;

/// How much longer one takes that this cache does not serve, where one worker has all caches.
const SHARED_ALONE: u64 = 800;

/// And where several workers share them.
const SHARED_AMONG: u64 = 2000;

/// How much longer all wait for one that is made only because cores run beside each other: it takes
/// a line from a core that would use it on.
const TAKEN_AWAY: u64 = 50_000;

/// And for one that ends what other cores may do with a line.
const UPGRADE: u64 = 5_000;

/// How long it takes to put an access in order among those of other workers.
const ORDERED: u64 = 20;

/// How long it takes to set a worker to an interval, and to wait for it.
const GATHERING: u64 = 30_000;

/// In how many sizes workers may run an interval: 2, 4, 8, 16, 32 and 64 of them, or all where these
/// are fewer.
pub const SIZES: usize = 6;

/// How many workers there are in each of these sizes, where so many are all.
pub fn sizes(all: u16) -> [u16; SIZES] {
    [
        all.min(2),
        all.min(4),
        all.min(8),
        all.min(16),
        all.min(32),
        all.min(64),
    ]
}

/// What an interval has, or a mean of some.
#[derive(Drop)]
pub struct Load {
    /// How many instructions.
    pub instructions: u64,
    /// How many accesses.
    pub accesses: u64,
    /// How many of these the cores' own caches do not serve.
    pub shared: u64,
    /// How many of them are upgrades: the core has the line, and others lose it.
    pub upgrades: u64,
    /// How many of the accesses are of the cores of that worker whose cores have most, for each size
    /// in which the workers may run.
    pub busiest: [u64; SIZES],
}

impl Load {
    /// Nothing.
    pub(crate) const NONE: Load = Load {
        instructions: 0,
        accesses: 0,
        shared: 0,
        upgrades: 0,
        busiest: [0; SIZES],
    };

    /// A mean that has gone on by an interval, which has a quarter of it.
    pub(crate) fn gone_on(&self, next: &Load) -> Load {
        Load {
            instructions: mean(self.instructions, next.instructions),
            accesses: mean(self.accesses, next.accesses),
            shared: mean(self.shared, next.shared),
            upgrades: mean(self.upgrades, next.upgrades),
            busiest: means(&self.busiest, &next.busiest),
        }
    }

    /// How long one worker takes for it.
    pub(crate) fn time_alone(&self) -> u64 {
        sum(self.own(), product(self.shared, SHARED_ALONE))
    }

    /// How long so many workers take on so many processors, the busiest of whom has so many of the
    /// accesses, where one worker had that other load.
    pub(crate) fn time_among(
        &self,
        workers: u16,
        processors: u16,
        busiest: u64,
        alone: &Load,
    ) -> u64 {
        let work = sum(self.own(), product(self.shared, SHARED_AMONG));
        let of_busiest = product(work, busiest) / self.accesses.max(1);
        let hands = workers.min(processors).max(1);
        let beside = of_busiest.max(work / u64::from(hands));
        let taken_away = product(self.shared.saturating_sub(alone.shared), TAKEN_AWAY);
        let upgrades = product(self.upgrades, UPGRADE);
        let gathering = product(u64::from(workers), GATHERING);
        let ordered = sum(product(self.accesses, ORDERED), gathering);
        sum(sum(beside, upgrades), sum(taken_away, ordered))
    }

    /// Whether it is dealt out to all workers more evenly than another one: the busiest worker has
    /// less than three quarters of its part there.
    pub(crate) fn is_more_even_than(&self, other: &Load) -> bool {
        let own = product(product(self.of_all(), other.accesses), 4);
        let of_other = product(product(other.of_all(), self.accesses), 3);
        own < of_other
    }

    /// How many of the accesses are the busiest worker's where all run.
    fn of_all(&self) -> u64 {
        self.busiest[SIZES - 1]
    }

    /// How long a worker takes for it without what is shared.
    fn own(&self) -> u64 {
        sum(
            product(self.instructions, INSTRUCTION),
            product(self.accesses, ACCESS),
        )
    }
}

/// The sum, or the greatest number where it is greater.
fn sum(a: u64, b: u64) -> u64 {
    a.saturating_add(b)
}

/// The product, or the greatest number where it is greater.
fn product(a: u64, b: u64) -> u64 {
    a.saturating_mul(b)
}

/// A mean that has gone on by a number, which has a quarter of it.
fn mean(so_far: u64, next: u64) -> u64 {
    sum(so_far - so_far / 4, next / 4)
}

/// Means that have gone on by numbers, each of which has a quarter.
fn means(so_far: &[u64; SIZES], next: &[u64; SIZES]) -> [u64; SIZES] {
    let mut means = *so_far;
    for size in 0..SIZES {
        means[size] = mean(so_far[size], next[size]);
    }
    means
}
