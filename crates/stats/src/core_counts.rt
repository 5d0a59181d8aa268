//! The counts of the cores over an interval.
ghost use Rattle.std.specs.Prelude.{◌≡◌, ◌<◌, ℕ, All, length, slice_index, slice_index_or};
ghost use Rattle.stats.specs.declared.counts.CoreCount.{CoreCount};
ghost use Rattle.stats.specs.CountsFit.{CoreFits};
ghost use Rattle.stats.specs.Passes.{with_access, with_accesses, with_counted, with_delay};

use crate::CoreCount;
use zs_num::{Entry, Outcome, Request};

/// Counts an access of the core.
#[inline(always)]
#[tactic(auto, unfolding(crate::specs::Counted::core_plus, crate::specs::Counted::entry_count))]
pub fn count_access(count: &mut CoreCount, entry: &Entry)
    requires { CoreFits (with_access count.old entry.now) }
    ensures { count.new ≡ with_access count.old entry.now }
{
    match entry.request {
        Request::Load { .. } => count.loads += 1,
        Request::Store { .. } => count.stores += 1,
        Request::Lr { .. } | Request::Sc { .. } | Request::Amo { .. } => count.atomics += 1,
        Request::Fetch { .. } => count.fetches += 1,
    }
    match entry.outcome {
        Outcome::Hit => count.hits += 1,
        Outcome::Upgrade { .. } => count.upgrades += 1,
        Outcome::L2 { .. } => count.l2hits += 1,
        Outcome::Miss { .. } => count.misses += 1,
    }
}

/// Counts each access at its core.
fn count_accesses(counts: &mut [CoreCount], entries: &[Entry])
    requires cores { All (λ e. e.core < length counts.old) entries.now }
    requires fits { (n : ℕ) (d : CoreCount) → n < length counts.old
        → CoreFits (with_accesses (slice_index_or counts.old n d) n entries.now) }
    ensures { (n : ℕ) (d : CoreCount) → n < length counts.old → slice_index_or counts.new n d
        ≡ with_accesses (slice_index_or counts.old n d) n entries.now }
{
    for entry in entries {
        count_access(&mut counts[usize::from(entry.core)], entry);
    }
}

/// Counts a delay of the core.
#[tactic(auto, unfolding(crate::specs::Counted::core_plus, crate::specs::Counted::delay_count))]
fn count_delay(count: &mut CoreCount, delay: u64)
    requires { CoreFits (with_delay count.old delay) }
    ensures { count.new ≡ with_delay count.old delay }
{
    count.delay += u128::from(delay);
}

/// Counts each core's delay.
fn count_delays(counts: &mut [CoreCount], delays: &[u64])
    requires count { length delays.now ≡ length counts.old }
    requires fits { (n : ℕ) (d : CoreCount) → n < length counts.old
        → CoreFits (with_delay (slice_index_or counts.old n d) (slice_index delays.now n)) }
    ensures { (n : ℕ) (d : CoreCount) → n < length counts.old → slice_index_or counts.new n d
        ≡ with_delay (slice_index_or counts.old n d) (slice_index delays.now n) }
{
    for (n, count) in counts.iter_mut().enumerate() {
        count_delay(count, delays[n]);
    }
}

/// Adds the accesses and the delays of an interval.
pub(crate) fn add_to_core_counts(counts: &mut [CoreCount], entries: &[Entry], delays: &[u64])
    requires cores { All (λ e. e.core < length counts.old) entries.now }
    requires delays { length delays.now ≡ length counts.old }
    requires fits { (n : ℕ) (d : CoreCount) → n < length counts.old → CoreFits
        (with_accesses
        (with_delay (slice_index_or counts.old n d) (slice_index delays.now n))
        n entries.now) }
    ensures { (n : ℕ) (d : CoreCount) → n < length counts.old → slice_index_or counts.new n d
        ≡ with_accesses
        (with_delay (slice_index_or counts.old n d) (slice_index delays.now n))
        n entries.now }
{
    count_delays(counts, delays);
    count_accesses(counts, entries);
}

/// Adds what a core's accesses count, and its delay.
#[tactic(auto, unfolding(crate::specs::Counted::core_plus, crate::specs::Counted::delay_count))]
fn add_count(count: &mut CoreCount, accesses: &CoreCount, delay: u64)
    requires { CoreFits (with_counted count.old delay accesses.now) }
    ensures { count.new ≡ with_counted count.old delay accesses.now }
{
    count.delay += u128::from(delay);
    count.delay += accesses.delay;
    count.loads += accesses.loads;
    count.stores += accesses.stores;
    count.atomics += accesses.atomics;
    count.fetches += accesses.fetches;
    count.hits += accesses.hits;
    count.upgrades += accesses.upgrades;
    count.l2hits += accesses.l2hits;
    count.misses += accesses.misses;
}

/// Adds what the accesses of an interval count, and the delays.
pub(crate) fn add_counted_cores(counts: &mut [CoreCount], accesses: &[CoreCount], delays: &[u64])
    requires count { length accesses.now ≡ length counts.old }
    requires delays { length delays.now ≡ length counts.old }
    requires fits { (n : ℕ) (d : CoreCount) → n < length counts.old → CoreFits
        (with_counted (slice_index_or counts.old n d) (slice_index delays.now n) (slice_index_or accesses.now n d)) }
    ensures { (n : ℕ) (d : CoreCount) → n < length counts.old → slice_index_or counts.new n d
        ≡ with_counted (slice_index_or counts.old n d) (slice_index delays.now n) (slice_index_or accesses.now n d) }
{
    for (n, count) in counts.iter_mut().enumerate() {
        add_count(count, &accesses[n], delays[n]);
    }
}
