//! What steps add to tallies, where these are.
ghost use Rattle.std.specs.Prelude.{◌≡◌, ◌&&◌};
ghost use Rattle.profile.specs.Added.{kind_of, with_changes, with_class, with_cycles, with_kind, with_leave, with_outcome};
ghost use Rattle.profile.specs.Copies.{changes_others, reads, writes};
ghost use Rattle.profile_rows.specs.Tallies.{capped_tally, plus};

use crate::contribution::Contribution;
use crate::copies::{CopyState, Leave, changes_others, reads, writes};
use crate::met::one_if;
use profile_rows::Tally;
use sparse_table::Change;
use zs_num::{Outcome, Request};

/// In which number of a tally an access is counted. The kinds stand in the order of these numbers, so
/// that where the number is follows from the kind without a test.
#[derive(Clone, Copy)]
pub(crate) enum Kind {
    Loads,
    Stores,
    Atomics,
    Fetches,
}

/// The kind of a request.
#[inline(always)]
pub(crate) fn kind_of(request: &Request) -> Kind
    ensures { result ≡ kind_of request.now }
{
    match request {
        Request::Load { .. } => Kind::Loads,
        Request::Store { .. } => Kind::Stores,
        Request::Lr { .. } | Request::Sc { .. } | Request::Amo { .. } => Kind::Atomics,
        Request::Fetch { .. } => Kind::Fetches,
    }
}

/// A hit of a core's own cache: of which kind it is, and how many cycles it takes. It adds to three
/// numbers alone.
#[derive(Clone, Copy)]
pub(crate) struct Hit {
    pub(crate) kind: Kind,
    pub(crate) cycles: u64,
}

impl Change<Tally> for Hit {
    ghost use Rattle.profile.specs.Added.{with_hit};

    ghost changed = { λ hit t. with_hit hit.kind hit.cycles t };

    #[inline(always)]
    fn change(&self, value: &mut Tally) {
        count_kind(self.kind, value);
        value.hits = value.hits.saturating_add(1);
        value.cycles = value.cycles.saturating_add(self.cycles);
    }
}

/// An access that does not hit: how it was met, what there was of the own copy, how many copies of
/// other cores it took away, and how many cycles it takes. It adds to some eight numbers.
#[derive(Clone, Copy)]
pub(crate) struct Met {
    pub(crate) request: Request,
    pub(crate) outcome: Outcome,
    pub(crate) copy: CopyState,
    pub(crate) taken: u64,
    pub(crate) cycles: u64,
}

impl Change<Tally> for Met {
    ghost use Rattle.profile.specs.Added.{with_met};

    ghost changed = { λ met t. with_met met t };

    fn change(&self, value: &mut Tally) {
        count_kind(kind_of(&self.request), value);
        count_outcome(&self.outcome, value);
        count_class(&self.outcome, self.copy, value);
        count_changes(self, value);
        count_cycles(self.cycles, value);
    }
}

/// An event waited so many cycles.
#[derive(Clone, Copy)]
pub(crate) struct Waited {
    pub(crate) cycles: u64,
}

impl Change<Tally> for Waited {
    ghost use Rattle.profile.specs.Added.{with_wait};

    ghost changed = { λ waited t. with_wait waited.cycles t };

    #[inline(always)]
    fn change(&self, value: &mut Tally) {
        value.waited = value.waited.saturating_add(u128::from(self.cycles));
    }
}

impl Change<Tally> for Contribution {
    ghost use Rattle.profile_rows.specs.Tallies.{capped_tally, plus};

    ghost changed = { λ c t. capped_tally (plus t c.tally) };

    fn change(&self, value: &mut Tally) {
        add(value, &self.tally);
    }
}

/// Counts an access by its kind.
#[inline(always)]
fn count_kind(kind: Kind, t: &mut Tally)
    ensures { t.new ≡ with_kind kind t.old }
{
    match kind {
        Kind::Loads => t.loads = t.loads.saturating_add(1),
        Kind::Stores => t.stores = t.stores.saturating_add(1),
        Kind::Atomics => t.atomics = t.atomics.saturating_add(1),
        Kind::Fetches => t.fetches = t.fetches.saturating_add(1),
    }
}

/// Counts it by how it was met.
#[inline(always)]
fn count_outcome(outcome: &Outcome, t: &mut Tally)
    ensures { t.new ≡ with_outcome outcome.now t.old }
{
    match outcome {
        Outcome::Hit => t.hits = t.hits.saturating_add(1),
        Outcome::Upgrade { .. } => t.upgrades = t.upgrades.saturating_add(1),
        Outcome::L2 { .. } => t.l2hits = t.l2hits.saturating_add(1),
        Outcome::Miss { .. } => t.misses = t.misses.saturating_add(1),
    }
}

/// Counts it by how the own copy left, where it found none.
#[inline(always)]
fn count_class(outcome: &Outcome, copy: CopyState, t: &mut Tally)
    ensures { t.new ≡ with_class outcome.now copy t.old }
{
    match outcome {
        Outcome::Hit | Outcome::Upgrade { .. } => {}
        Outcome::L2 { .. } | Outcome::Miss { .. } => count_leave(copy, t),
    }
}

/// Counts how a copy left.
#[inline(always)]
fn count_leave(copy: CopyState, t: &mut Tally)
    ensures { t.new ≡ with_leave copy t.old }
{
    match copy {
        CopyState::Never => t.cold = t.cold.saturating_add(1),
        CopyState::Held => {}
        CopyState::Gone(Leave::Coherence) => t.coherence = t.coherence.saturating_add(1),
        CopyState::Gone(Leave::Inclusion) => t.inclusion = t.inclusion.saturating_add(1),
        CopyState::Gone(Leave::Eviction) => t.eviction = t.eviction.saturating_add(1),
    }
}

/// Counts what an access does to copies of other cores.
#[inline(always)]
fn count_changes(met: &Met, t: &mut Tally)
    ensures { t.new ≡ with_changes (writes met.now.request && changes_others met.now.outcome) met.now.taken (reads met.now.request && changes_others met.now.outcome) t.old }
{
    let invalidating = one_if(writes(&met.request) && changes_others(&met.outcome));
    let downgrading = one_if(reads(&met.request) && changes_others(&met.outcome));
    t.invalidating = t.invalidating.saturating_add(invalidating);
    t.invalidated = t.invalidated.saturating_add(met.taken);
    t.downgrades = t.downgrades.saturating_add(downgrading);
}

/// Counts the cycles of an access that does not hit.
#[inline(always)]
fn count_cycles(cycles: u64, t: &mut Tally)
    ensures { t.new ≡ with_cycles cycles t.old }
{
    t.cycles = t.cycles.saturating_add(cycles);
    t.missing = t.missing.saturating_add(cycles);
}

/// Adds a tally to another one.
#[tactic(auto, unfolding(profile_rows::specs::Tallies::capped_tally, profile_rows::specs::Tallies::plus))]
pub(crate) fn add(t: &mut Tally, more: &Tally)
    ensures { t.new ≡ capped_tally (plus t.old more.now) }
{
    t.loads = t.loads.saturating_add(more.loads);
    t.stores = t.stores.saturating_add(more.stores);
    t.atomics = t.atomics.saturating_add(more.atomics);
    t.fetches = t.fetches.saturating_add(more.fetches);
    t.hits = t.hits.saturating_add(more.hits);
    t.upgrades = t.upgrades.saturating_add(more.upgrades);
    t.l2hits = t.l2hits.saturating_add(more.l2hits);
    t.misses = t.misses.saturating_add(more.misses);
    t.cold = t.cold.saturating_add(more.cold);
    t.coherence = t.coherence.saturating_add(more.coherence);
    t.inclusion = t.inclusion.saturating_add(more.inclusion);
    t.eviction = t.eviction.saturating_add(more.eviction);
    t.invalidating = t.invalidating.saturating_add(more.invalidating);
    t.invalidated = t.invalidated.saturating_add(more.invalidated);
    t.downgrades = t.downgrades.saturating_add(more.downgrades);
    t.lost = t.lost.saturating_add(more.lost);
    t.lowered = t.lowered.saturating_add(more.lowered);
    t.cycles = t.cycles.saturating_add(more.cycles);
    t.missing = t.missing.saturating_add(more.missing);
    t.waited = t.waited.saturating_add(more.waited);
}
