//! Whether a tally has something.
ghost use Rattle.std.specs.Prelude.{◌≡◌};
ghost use Rattle.profile.specs.Rows.{has_no_access, has_no_change, has_no_class, has_no_cycle, has_no_loss, has_no_outcome, is_something};

use profile_rows::Tally;

/// Whether something was counted.
#[tactic(auto, unfolding(crate::specs::Rows::is_something))]
pub(crate) fn is_something(t: &Tally) -> bool
    ensures { result ≡ is_something t.now }
{
    !(has_no_access(t)
        && has_no_outcome(t)
        && has_no_class(t)
        && has_no_change(t)
        && has_no_loss(t)
        && has_no_cycle(t))
}

/// No access.
#[tactic(auto, unfolding(crate::specs::Rows::has_no_access))]
fn has_no_access(t: &Tally) -> bool
    ensures { result ≡ has_no_access t.now }
{
    t.loads == 0 && t.stores == 0 && t.atomics == 0 && t.fetches == 0
}

/// Nothing of how caches met accesses.
#[tactic(auto, unfolding(crate::specs::Rows::has_no_outcome))]
fn has_no_outcome(t: &Tally) -> bool
    ensures { result ≡ has_no_outcome t.now }
{
    t.hits == 0 && t.upgrades == 0 && t.l2hits == 0 && t.misses == 0
}

/// Nothing of why they missed.
#[tactic(auto, unfolding(crate::specs::Rows::has_no_class))]
fn has_no_class(t: &Tally) -> bool
    ensures { result ≡ has_no_class t.now }
{
    t.cold == 0 && t.coherence == 0 && t.inclusion == 0 && t.eviction == 0
}

/// Nothing of what they did to other cores.
#[tactic(auto, unfolding(crate::specs::Rows::has_no_change))]
fn has_no_change(t: &Tally) -> bool
    ensures { result ≡ has_no_change t.now }
{
    t.invalidating == 0 && t.invalidated == 0 && t.downgrades == 0
}

/// Nothing of what these suffered.
#[tactic(auto, unfolding(crate::specs::Rows::has_no_loss))]
fn has_no_loss(t: &Tally) -> bool
    ensures { result ≡ has_no_loss t.now }
{
    t.lost == 0 && t.lowered == 0
}

/// Nothing of how long they took.
#[tactic(auto, unfolding(crate::specs::Rows::has_no_cycle))]
fn has_no_cycle(t: &Tally) -> bool
    ensures { result ≡ has_no_cycle t.now }
{
    t.cycles == 0 && t.missing == 0 && t.waited == 0
}
