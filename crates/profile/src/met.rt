//! What an access counts.
ghost use Rattle.std.specs.Prelude.{◌≡◌, ℕ, false};
ghost use Rattle.noc_mesh.specs.NetTiming.{net_time};
ghost use Rattle.stats.specs.Counted.{is_hit, one_if};
ghost use Rattle.profile.specs.Added.{Adds, with_met};
ghost use Rattle.profile.specs.Copies.{finds_none, own_copy, taken_away};
ghost use Rattle.profile.specs.CopyTables.{copies_in};
ghost use Rattle.profile.specs.Contributions.{access_tally};

use crate::added::Met;
use crate::copies::{Copies, CopyState};
use event_graph::Expand;
use noc_mesh::Net;
use zs_num::{Entry, Outcome};

/// How an access that does not hit was met, on a machine of so many cores whose accesses take the
/// time of this net, where this is what there is of all copies before it.
#[inline(always)]
pub(crate) fn met(net: &Net, cores: u16, copies: &Copies, entry: &Entry) -> Met
    requires { is_hit entry.now.outcome ≡ false }
    ensures { Adds (with_met result) (access_tally entry.now (own_copy (copies_in copies.now.of_data.items copies.now.of_instructions.items) entry.now) (taken_away cores (copies_in copies.now.of_data.items copies.now.of_instructions.items) entry.now) (net_time net.now.path entry.now)) }
{
    Met {
        request: entry.request,
        outcome: entry.outcome,
        copy: copy_met(copies, entry),
        taken: copies.taken_away(cores, entry),
        cycles: net.time(entry),
    }
}

/// What there is of the own copy, where the access found none. Of an access that found one nothing is
/// counted by it, so it is not looked for.
fn copy_met(copies: &Copies, entry: &Entry) -> CopyState
    ensures { (taken cycles : ℕ) → access_tally entry.now result taken cycles ≡ access_tally entry.now (own_copy (copies_in copies.now.of_data.items copies.now.of_instructions.items) entry.now) taken cycles }
{
    if finds_none(&entry.outcome) {
        copies.own(entry)
    } else {
        CopyState::Never
    }
}

/// One, where the test holds.
pub(crate) fn one_if(test: bool) -> u64
    ensures { result ≡ one_if test }
{
    if test { 1 } else { 0 }
}

pub(crate) fn is_hit(outcome: &Outcome) -> bool
    ensures { result ≡ is_hit outcome.now }
{
    matches!(outcome, Outcome::Hit)
}

/// Whether it found no copy in the core's own cache.
fn finds_none(outcome: &Outcome) -> bool
    ensures { result ≡ finds_none outcome.now }
{
    matches!(outcome, Outcome::L2 { .. } | Outcome::Miss { .. })
}
