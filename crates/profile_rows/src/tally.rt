//! What is counted of accesses.
ghost use Rattle.std.specs.Prelude.{◌≡◌};
ghost use Rattle.profile_rows.specs.Tallies.{capped_tally, no_tally, plus};

/// Counts of accesses, and of what they cost. A number that would pass its type stays at the
/// greatest one.
#[derive(Clone, Copy)]
pub struct Tally {
    /// Accesses by kind: load-reserved, store-conditional and read-modify-write are atomics.
    pub loads: u64,
    pub stores: u64,
    pub atomics: u64,
    pub fetches: u64,
    /// And by how the caches met them.
    pub hits: u64,
    pub upgrades: u64,
    pub l2hits: u64,
    pub misses: u64,
    /// Those that found no copy in the core's own cache: the core never had one.
    pub cold: u64,
    /// Another core had written to the line.
    pub coherence: u64,
    /// The line had left the L2.
    pub inclusion: u64,
    /// It had made room in the core's own cache.
    pub eviction: u64,
    /// Writes for which other cores' copies were invalidated.
    pub invalidating: u64,
    /// How many copies that were.
    pub invalidated: u64,
    /// Reads for which another core's copy was downgraded.
    pub downgrades: u64,
    /// How many copies of the core's own writes of other cores invalidated.
    pub lost: u64,
    /// How many copies of the core's own reads of other cores downgraded.
    pub lowered: u64,
    /// Cycles that the accesses take where nothing else runs.
    pub cycles: u64,
    /// Those of them that are of accesses that did not hit.
    pub missing: u64,
    /// Cycles that their events waited.
    pub waited: u128,
}

/// Nothing was counted.
pub const NONE: Tally = Tally {
    loads: 0,
    stores: 0,
    atomics: 0,
    fetches: 0,
    hits: 0,
    upgrades: 0,
    l2hits: 0,
    misses: 0,
    cold: 0,
    coherence: 0,
    inclusion: 0,
    eviction: 0,
    invalidating: 0,
    invalidated: 0,
    downgrades: 0,
    lost: 0,
    lowered: 0,
    cycles: 0,
    missing: 0,
    waited: 0,
};

impl Tally {
    /// The two together.
    #[tactic(auto, unfolding(crate::specs::Tallies::capped_tally, crate::specs::Tallies::plus))]
    pub fn plus(&self, more: &Tally) -> Tally
        ensures { result ≡ capped_tally (plus self.now more.now) }
    {
        Tally {
            loads: self.loads.saturating_add(more.loads),
            stores: self.stores.saturating_add(more.stores),
            atomics: self.atomics.saturating_add(more.atomics),
            fetches: self.fetches.saturating_add(more.fetches),
            hits: self.hits.saturating_add(more.hits),
            upgrades: self.upgrades.saturating_add(more.upgrades),
            l2hits: self.l2hits.saturating_add(more.l2hits),
            misses: self.misses.saturating_add(more.misses),
            cold: self.cold.saturating_add(more.cold),
            coherence: self.coherence.saturating_add(more.coherence),
            inclusion: self.inclusion.saturating_add(more.inclusion),
            eviction: self.eviction.saturating_add(more.eviction),
            invalidating: self.invalidating.saturating_add(more.invalidating),
            invalidated: self.invalidated.saturating_add(more.invalidated),
            downgrades: self.downgrades.saturating_add(more.downgrades),
            lost: self.lost.saturating_add(more.lost),
            lowered: self.lowered.saturating_add(more.lowered),
            cycles: self.cycles.saturating_add(more.cycles),
            missing: self.missing.saturating_add(more.missing),
            waited: self.waited.saturating_add(more.waited),
        }
    }
}
