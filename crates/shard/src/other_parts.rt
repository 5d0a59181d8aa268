//! Which L1s of other cores an access touches.
ghost use Rattle.std.specs.Prelude.{◌≡◌, ℕ, ◌<◌, ◌&&◌, ◌||◌, None, Some, false, nat_eq, not, option_map};
ghost use Rattle.std.specs.Set.{is_member};
ghost use Rattle.zs_num.specs.Request.{is_fetch};
ghost use Rattle.mesi_dir.specs.CoreSets.{cores_in};
ghost use Rattle.home.specs.Rows.{evicted_in, line_in};
ghost use Rattle.shard.specs.Coherence.{is_write};
ghost use Rattle.shard.specs.PartsLaws.{AreParts, IsAsked};
ghost use Rattle.shard.specs.SharedStep.{holders_of, l1_of, touched_by, Bank};
ghost use Rattle.shard.specs.Touched.{named_by, named_for};
ghost use Rattle.l1_cache.specs.L1State.{is_private};

use crate::shared::is_write;
use home::{Home, Row};
use mesi_dir::CoreSet;
use zs_num::Request;

/// The other cores whose L1 an access touches that the core's own L1 can't serve alone. The core,
/// below 256, isn't among them. The home knows them all: where the L2 has the line, by its row, and
/// else by that of the line that leaves the L2 for it.
pub fn others_touched(home: &Home, core: u16, request: Request) -> CoreSet
    requires { core < 256 }
    ensures others { (p : Bank) → AreParts p → IsAsked p core request → p.home ≡ home.now → is_private (l1_of p core) request ≡ false
        → (c : ℕ) → is_member nat_eq (touched_by p core request) c ≡ (nat_eq c core || is_member nat_eq (cores_in result.words) c) }
    ensures named { (c : ℕ) → is_member nat_eq (cores_in result.words) c ≡ (not (nat_eq c core) && is_member nat_eq (named_by home.now request) c) }
    ensures apart { is_member nat_eq (cores_in result.words) core ≡ false }
{
    let mut cores = named_by(home, &request);
    cores.remove(core);
    cores
}

/// The cores that the home names for an access, its own perhaps among them.
fn named_by(home: &Home, request: &Request) -> CoreSet
    ensures { (c : ℕ) → is_member nat_eq (cores_in result.words) c ≡ is_member nat_eq (named_by home.now request.now) c }
{
    let line = request.line();
    match home.row(line) {
        Some(row) => sharers(&row, request),
        None => holders(&home.victim(line)),
    }
}

/// The cores that have a line of the L2, where they have to give it up or to share it.
fn sharers(row: &Row, request: &Request) -> CoreSet
    ensures { cores_in result.words ≡ named_for (is_fetch request.now) (is_write request.now) (Some (line_in row.now)) None }
{
    if !request.is_fetch() && (is_write(request) || row.alone) {
        row.sharers
    } else {
        CoreSet::empty()
    }
}

/// All cores that have a line that leaves the L2, if one leaves.
fn holders(evicted: &Option<(u64, Row)>) -> CoreSet
    ensures { (c : ℕ) → is_member nat_eq (cores_in result.words) c ≡ is_member nat_eq (holders_of (option_map evicted_in evicted.now)) c }
{
    match evicted {
        Some((_, row)) => row.sharers.with_all(row.fetchers),
        None => CoreSet::empty(),
    }
}
