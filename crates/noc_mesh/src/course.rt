//! How far an access has come at each of its stops. Each function stands on the one before it.
ghost use Rattle.std.specs.Prelude.{◌≡◌, ◌≤◌, ◌^◌};
ghost use Rattle.event_graph.specs.PathInRange.{IsAccessPath};
ghost use Rattle.zs_num.specs.declared.entry.Outcome.TheVariants.{Miss};
ghost use Rattle.noc_mesh.specs.NetTiming as timing;
ghost use Rattle.noc_mesh.specs.Standings.{standing_of};

use crate::hops::past;
use crate::stage::{look_up_time, reads};
use crate::{Standing, Stop};
use event_graph::AccessPath;
use zs_num::{Entry, Outcome};

/// At the bank.
pub(crate) fn reached(path: &AccessPath, entry: &Entry) -> Standing
    requires { IsAccessPath path.now }
    ensures come { result ≡ standing_of (timing.reached path.now entry.now) }
    ensures few { result.events ≤ 60 }
    ensures soon { result.end ≤ 2 ^ 20 }
{
    let begun = Standing::begun(path.head(entry));
    past(path, entry, begun, Stop::Core, Stop::Bank)
}

/// Behind the look-up there; `others`: another core has to change its copy.
pub(crate) fn looked_up(path: &AccessPath, entry: &Entry, others: bool) -> Standing
    requires { IsAccessPath path.now }
    ensures come { result ≡ standing_of (timing.looked_up path.now entry.now others) }
    ensures few { result.events ≤ 60 }
    ensures soon { result.end ≤ 2 ^ 20 }
{
    reached(path, entry).behind(look_up_time(path, others))
}

/// Back at the core, where the shared cache answered.
pub(crate) fn answered(path: &AccessPath, entry: &Entry, others: bool) -> Standing
    requires { IsAccessPath path.now }
    ensures come { result ≡ standing_of (timing.answered path.now entry.now others) }
    ensures few { result.events ≤ 60 }
    ensures soon { result.end ≤ 2 ^ 20 }
{
    let looked_up = looked_up(path, entry, others);
    past(path, entry, looked_up, Stop::Bank, Stop::Core)
}

/// At the controller.
pub(crate) fn missed(path: &AccessPath, entry: &Entry) -> Standing
    requires { IsAccessPath path.now }
    ensures come { result ≡ standing_of (timing.missed path.now entry.now) }
    ensures few { result.events ≤ 60 }
    ensures soon { result.end ≤ 2 ^ 20 }
{
    let looked_up = looked_up(path, entry, false);
    past(path, entry, looked_up, Stop::Bank, Stop::Controller)
}

/// Behind the read there; `dirty`: a line is written back beside it.
pub(crate) fn read_in(path: &AccessPath, entry: &Entry, dirty: bool) -> Standing
    requires { IsAccessPath path.now }
    ensures come { result ≡ standing_of (timing.read_in path.now entry.now dirty) }
    ensures few { result.events ≤ 60 }
    ensures soon { result.end ≤ 2 ^ 20 }
{
    let read = missed(path, entry).behind(reads(path, entry).time);
    if dirty { read.beside() } else { read }
}

/// Back at the bank.
pub(crate) fn brought(path: &AccessPath, entry: &Entry, dirty: bool) -> Standing
    requires { IsAccessPath path.now }
    ensures come { result ≡ standing_of (timing.brought path.now entry.now dirty) }
    ensures few { result.events ≤ 60 }
    ensures soon { result.end ≤ 2 ^ 20 }
{
    let read_in = read_in(path, entry, dirty);
    past(path, entry, read_in, Stop::Controller, Stop::Bank)
}

/// Behind the fill, which waits for the write, too.
pub(crate) fn filled(path: &AccessPath, entry: &Entry, dirty: bool) -> Standing
    requires { IsAccessPath path.now }
    ensures come { result ≡ standing_of (timing.filled path.now entry.now dirty) }
    ensures few { result.events ≤ 60 }
    ensures soon { result.end ≤ 2 ^ 20 }
{
    let brought = brought(path, entry, dirty);
    let fill = u64::from(path.l2.fill);
    if dirty {
        let written = missed(path, entry).end + u64::from(path.controllers.write);
        brought.not_before(written).behind(fill)
    } else {
        brought.behind(fill)
    }
}

/// Back at the core behind a miss.
pub(crate) fn returned(path: &AccessPath, entry: &Entry, dirty: bool) -> Standing
    requires { IsAccessPath path.now }
    ensures come { result ≡ standing_of (timing.passage path.now entry.now (Miss dirty)) }
    ensures few { result.events ≤ 60 }
    ensures soon { result.end ≤ 2 ^ 20 }
{
    let filled = filled(path, entry, dirty);
    past(path, entry, filled, Stop::Bank, Stop::Core)
}

/// Where the access has ended.
pub(crate) fn ended(path: &AccessPath, entry: &Entry) -> Standing
    requires { IsAccessPath path.now }
    ensures come { result ≡ standing_of (timing.passage path.now entry.now entry.now.outcome) }
    ensures few { result.events ≤ 60 }
    ensures soon { result.end ≤ 2 ^ 20 }
{
    match entry.outcome {
        Outcome::Hit => Standing::begun(path.head(entry)),
        Outcome::Upgrade { others } | Outcome::L2 { others } => answered(path, entry, others),
        Outcome::Miss { dirty_victim } => returned(path, entry, dirty_victim),
    }
}
