//! What an access of a core does to the home of its line and to the L1s of the cores.
ghost use Rattle.std.specs.Prelude.{◌≡◌, ◌+◌, ◌<◌, ◌≤◌, ◌&&◌, List, IfNone, IfSome, IsTrue, Some, false, true, if◌then◌else◌, is_some, length, slice_index_or};
ghost use Rattle.zs_num.specs.Request.{addr_of, is_fetch, line_bytes, line_of, width_of};
ghost use Rattle.home.specs.HomeState.{HomeState, evicted_by, row_at};
ghost use Rattle.home.specs.Rows.{line_in};
ghost use Rattle.l1_cache.specs.L1State.{L1State, has_instructions, is_private, no_l1, place_in_line, private_after, private_reply};
ghost use Rattle.shard.specs.BankSteps.{CanBring, bank_with, line_met};
ghost use Rattle.shard.specs.TakenPart.{taken_part};
ghost use Rattle.shard.specs.Coherence.{fetch_outcome_by, is_write, own_after};
ghost use Rattle.shard.specs.SharedStep.{bank_after, bank_reply, brought_to_own, fetched_from, is_dirty_here, is_some_core, met_at_bank, others_of, own_letter, ready_by, ready_from_home, ready_from_l2, ready_where_shared, shared_after, shared_reply, with_l1};
ghost use Rattle.shard.specs.Seen.{no_home};
ghost use Rattle.shard.specs.Touched.{HasTouched, HasTouchedFor, HasTouchedToFetch};

mod answer;
mod others;
mod own;

use answer::answer;
use cache_set::Letter;
use home::{Home, Row};
use l1_cache::L1;
use others::{bring_home, has_other, leave_others, letter_at, share_others};
use own::{bring_instruction, bring_own, keep_at};
use zs_num::{Outcome, Request};

/// Serves an access of a core to a line of the home, whose bank the L1s are parts of or whole. The
/// answer is the reply, and how the access was met.
#[inline(always)]
pub(crate) fn meet(home: &mut Home, l1s: &mut [L1], core: u16, request: Request) -> (u64, Outcome)
    requires touched { HasTouched (bank_with home.old l1s.old) core request }
    ensures after { bank_with home.new l1s.new ≡ bank_after (bank_with home.old l1s.old) core request }
    ensures reply { result.0 ≡ bank_reply (bank_with home.old l1s.old) core request }
    ensures outcome { result.1 ≡ met_at_bank (bank_with home.old l1s.old) core request }
    ensures cores { length l1s.new ≡ length l1s.old }
{
    if let Some(reply) = serve_alone_at::<Home>(l1s, core, request) {
        return (reply, Outcome::Hit);
    }
    meet_shared(home, l1s, core, request, false)
}

/// The same, for an access that mostly misses the core's own L1: where the home says that the line
/// isn't there, it isn't looked for.
#[inline(always)]
pub(crate) fn meet_from_home(
    home: &mut Home,
    l1s: &mut [L1],
    core: u16,
    request: Request,
) -> (u64, Outcome)
    requires touched { HasTouched (bank_with home.old l1s.old) core request }
    ensures after { bank_with home.new l1s.new ≡ bank_after (bank_with home.old l1s.old) core request }
    ensures reply { result.0 ≡ bank_reply (bank_with home.old l1s.old) core request }
    ensures outcome { result.1 ≡ met_at_bank (bank_with home.old l1s.old) core request }
    ensures cores { length l1s.new ≡ length l1s.old }
{
    let away = is_away(home, l1s, core, &request);
    if away {
        return meet_shared(home, l1s, core, request, true);
    }
    meet(home, l1s, core, request)
}

/// Whether an access is a load or a store of a line of which the home knows that the core's L1
/// doesn't have it. Where the L1 has it at hand, the home isn't asked.
#[inline(always)]
fn is_away(home: &mut Home, l1s: &[L1], core: u16, request: &Request) -> bool
    requires touched { HasTouched (bank_with home.old l1s.now) core request.now }
    ensures letter { IsTrue result → own_letter (bank_with no_home l1s.now) core (line_of request.now) ≡ Letter.I }
    ensures reads { IsTrue result → is_fetch request.now ≡ false }
    ensures same { home.new ≡ home.old }
{
    if !is_load_or_store(request) || l1s[usize::from(core)].has_near(request.line()) {
        return false;
    }
    !home.shares(request.line(), core)
}

/// Whether an access is one that an L1 may serve alone, and no fetch.
fn is_load_or_store(request: &Request) -> bool
    ensures { IsTrue result → is_fetch request.now ≡ false }
{
    matches!(request, Request::Load { .. } | Request::Store { .. })
}

/// Serves one that the core's own L1 can serve alone, or changes nothing.
#[inline(always)]
pub(crate) fn serve_alone_at<T>(l1s: &mut [L1], core: u16, request: Request) -> Option<u64>
    requires core { core < length l1s.old }
    requires some { 1 ≤ width_of request }
    requires few { width_of request ≤ 8 }
    requires within { place_in_line (addr_of request) + width_of request ≤ line_bytes }
    ensures private { is_some result ≡ is_private (slice_index_or l1s.old core no_l1) request }
    ensures reply { IfSome result (λ reply. reply ≡ private_reply (slice_index_or l1s.old core no_l1) request) }
    ensures after { bank_with no_home l1s.new ≡ with_l1 core (λ l1. if is_private l1 request then private_after l1 request else l1) (bank_with no_home l1s.old) }
    ensures cores { length l1s.new ≡ length l1s.old }
{
    l1s[usize::from(core)].serve_alone::<T>(request)
}

/// The same, of a load or a store only where its line is at hand. None: nothing changes.
#[inline(always)]
pub(crate) fn serve_near_at<T>(l1s: &mut [L1], core: u16, request: Request) -> Option<u64>
    requires core { core < length l1s.old }
    requires some { 1 ≤ width_of request }
    requires few { width_of request ≤ 8 }
    requires within { place_in_line (addr_of request) + width_of request ≤ line_bytes }
    ensures private { IfSome result (λ reply. is_private (slice_index_or l1s.old core no_l1) request ≡ true) }
    ensures reply { IfSome result (λ reply. reply ≡ private_reply (slice_index_or l1s.old core no_l1) request) }
    ensures after { IfSome result (λ reply. bank_with no_home l1s.new ≡ with_l1 core (λ l1. private_after l1 request) (bank_with no_home l1s.old)) }
    ensures none { IfNone result (l1s.new ≡ l1s.old) }
    ensures cores { length l1s.new ≡ length l1s.old }
{
    l1s[usize::from(core)].serve_near::<T>(request)
}

/// Serves one that the core's own L1 can't serve alone. `away` says that the L1 doesn't have the
/// line, where that is known.
#[inline(never)]
fn meet_shared(
    home: &mut Home,
    l1s: &mut [L1],
    core: u16,
    request: Request,
    away: bool,
) -> (u64, Outcome)
    requires touched { HasTouched (bank_with home.old l1s.old) core request }
    requires shared { is_private (slice_index_or l1s.old core no_l1) request ≡ false }
    requires away { IsTrue away → own_letter (bank_with no_home l1s.old) core (line_of request) ≡ Letter.I }
    ensures after { bank_with home.new l1s.new ≡ shared_after (bank_with home.old l1s.old) core request }
    ensures reply { result.0 ≡ shared_reply (bank_with home.old l1s.old) core request }
    ensures outcome { result.1 ≡ met_at_bank (bank_with home.old l1s.old) core request }
    ensures cores { length l1s.new ≡ length l1s.old }
{
    let line = request.line();
    if request.is_fetch() {
        return (0, meet_fetch(home, l1s, core, line));
    }
    let letter = letter_met(l1s, core, &request, away);
    let outcome = make_ready(home, l1s, core, line, is_write(&request), letter);
    (answer(home, l1s, core, request), outcome)
}

/// A line comes into a core's instruction cache.
fn meet_fetch(home: &mut Home, l1s: &mut [L1], core: u16, line: u64) -> Outcome
    requires touched { HasTouchedToFetch (bank_with home.old l1s.old) core line }
    requires absent { has_instructions (slice_index_or l1s.old core no_l1) line ≡ false }
    ensures after { bank_with home.new l1s.new ≡ fetched_from core line (row_at home.old line) (bank_with home.old l1s.old) }
    ensures outcome { result ≡ fetch_outcome_by false (is_some (row_at home.old line)) (is_dirty_here (bank_with home.old l1s.old) (evicted_by home.old line)) }
    ensures cores { length l1s.new ≡ length l1s.old }
{
    match home.meet(line) {
        Some(_) => {
            bring_instruction(home, l1s, core, line);
            Outcome::L2 { others: false }
        }
        None => {
            let dirty = bring_home(home, l1s, line);
            bring_instruction(home, l1s, core, line);
            Outcome::Miss {
                dirty_victim: dirty,
            }
        }
    }
}

/// The core's letter for the line of an access that its L1 can't serve alone. The L1 doesn't have
/// the line of a load then, nor that of an access of which it is known.
fn letter_met(l1s: &[L1], core: u16, request: &Request, away: bool) -> Letter
    requires core { core < length l1s.now }
    requires shared { is_private (slice_index_or l1s.now core no_l1) request.now ≡ false }
    requires away { IsTrue away → own_letter (bank_with no_home l1s.now) core (line_of request.now) ≡ Letter.I }
    ensures { result ≡ own_letter (bank_with no_home l1s.now) core (line_of request.now) }
{
    if away {
        return Letter::I;
    }
    if let Request::Load { .. } = request {
        return Letter::I;
    }
    letter_at(l1s, core, request.line())
}

/// A line stands first in a core's L1, with the letter that a read or a write leaves.
fn make_ready(
    home: &mut Home,
    l1s: &mut [L1],
    core: u16,
    line: u64,
    write: bool,
    letter: Letter,
) -> Outcome
    requires letter { letter ≡ own_letter (bank_with home.old l1s.old) core line }
    requires touched { HasTouchedFor (bank_with home.old l1s.old) core line write }
    ensures after { bank_with home.new l1s.new ≡ ready_by (own_letter (bank_with home.old l1s.old) core line) write core line (bank_with home.old l1s.old) }
    ensures outcome { result ≡ line_met (bank_with home.old l1s.old) core line write }
    ensures cores { length l1s.new ≡ length l1s.old }
{
    match letter {
        Letter::M => {
            keep_at(l1s, core, line, Letter::M);
            Outcome::Hit
        }
        Letter::E => {
            keep_at(l1s, core, line, letter_kept(write));
            Outcome::Hit
        }
        Letter::S => meet_copy(home, l1s, core, line, write),
        Letter::I => bring(home, l1s, core, line, write),
    }
}

/// The core has the line in S.
fn meet_copy(home: &mut Home, l1s: &mut [L1], core: u16, line: u64, write: bool) -> Outcome
    requires touched { HasTouchedFor (bank_with home.old l1s.old) core line write }
    requires own { own_letter (bank_with home.old l1s.old) core line ≡ Letter.S }
    ensures after { bank_with home.new l1s.new ≡ ready_where_shared write core line (bank_with home.old l1s.old) }
    ensures outcome { result ≡ line_met (bank_with home.old l1s.old) core line write }
    ensures cores { length l1s.new ≡ length l1s.old }
{
    if write {
        upgrade(home, l1s, core, line)
    } else {
        keep_at(l1s, core, line, Letter::S);
        Outcome::Hit
    }
}

/// The core has the line in S, and writes it.
fn upgrade(home: &mut Home, l1s: &mut [L1], core: u16, line: u64) -> Outcome
    requires touched { HasTouchedFor (bank_with home.old l1s.old) core line true }
    requires own { own_letter (bank_with home.old l1s.old) core line ≡ Letter.S }
    ensures after { bank_with home.new l1s.new ≡ ready_where_shared true core line (bank_with home.old l1s.old) }
    ensures outcome { result ≡ line_met (bank_with home.old l1s.old) core line true }
    ensures cores { length l1s.new ≡ length l1s.old }
{
    match home.meet(line) {
        Some(row) => {
            leave_others(home, l1s, core, line, row);
            keep_at(l1s, core, line, Letter::M);
            home.own(line, core);
            Outcome::Upgrade {
                others: has_other(row, core),
            }
        }
        None => Outcome::Hit,
    }
}

/// The core doesn't have the line.
fn bring(home: &mut Home, l1s: &mut [L1], core: u16, line: u64, write: bool) -> Outcome
    requires touched { HasTouchedFor (bank_with home.old l1s.old) core line write }
    requires own { own_letter (bank_with home.old l1s.old) core line ≡ Letter.I }
    ensures after { bank_with home.new l1s.new ≡ ready_from_home write core line (row_at home.old line) (bank_with home.old l1s.old) }
    ensures outcome { result ≡ line_met (bank_with home.old l1s.old) core line write }
    ensures cores { length l1s.new ≡ length l1s.old }
{
    let coming = make_way(home, l1s, core, line, write);
    bring_own(home, l1s, core, line, coming.letter);
    take_part(home, line, core, coming.shares);
    coming.outcome
}

/// How a line comes into a core's L1 from its home, where the L2 has it.
#[derive(Clone, Copy)]
struct Coming {
    letter: Letter,
    /// Whether the core is the only one that has it then, where that is asked of the home: None where
    /// it is known to be.
    shares: Option<bool>,
    outcome: Outcome,
}

/// A line that a core doesn't have can come into its L1: the L2 has it, and the others have it as
/// they may. What is left is to bring it, and to keep at home that the core has it.
#[inline(always)]
fn make_way(home: &mut Home, l1s: &mut [L1], core: u16, line: u64, write: bool) -> Coming
    requires touched { HasTouchedFor (bank_with home.old l1s.old) core line write }
    requires own { own_letter (bank_with home.old l1s.old) core line ≡ Letter.I }
    ensures can { CanBring (bank_with home.new l1s.new) core line }
    ensures rest { (brought kept : HomeState) (l1s_then : List L1State) → bank_with brought l1s_then ≡ brought_to_own result.letter core line (bank_with home.new l1s.new)
        → kept ≡ taken_part line core result.shares brought → bank_with kept l1s_then ≡ ready_from_home write core line (row_at home.old line) (bank_with home.old l1s.old) }
    ensures outcome { result.outcome ≡ line_met (bank_with home.old l1s.old) core line write }
    ensures cores { length l1s.new ≡ length l1s.old }
{
    match home.meet(line) {
        Some(row) => {
            if write {
                leave_others(home, l1s, core, line, row);
                Coming {
                    letter: Letter::M,
                    shares: None,
                    outcome: Outcome::L2 {
                        others: has_other(row, core),
                    },
                }
            } else {
                let alone = row.sharers.is_empty();
                share_others(home, l1s, line, row);
                Coming {
                    letter: letter_after(false, !alone),
                    shares: Some(alone),
                    outcome: Outcome::L2 {
                        others: is_asked(row, core),
                    },
                }
            }
        }
        None => {
            let dirty_victim = bring_home(home, l1s, line);
            Coming {
                letter: letter_after(write, false),
                shares: None,
                outcome: Outcome::Miss { dirty_victim },
            }
        }
    }
}

/// Whether another core has a line with this row alone, and is asked for it.
#[inline(always)]
fn is_asked(row: Row, core: u16) -> bool
    requires { core < 256 }
    ensures { result ≡ ((line_in row).alone && is_some_core (others_of core (line_in row))) }
{
    row.alone && has_other(row, core)
}

/// A core's L1 has a line of the L2 from now on: it alone, as is known, or else maybe so.
#[inline(always)]
fn take_part(home: &mut Home, line: u64, core: u16, shares: Option<bool>)
    requires { core < 256 }
    ensures { home.new ≡ taken_part line core shares home.old }
{
    match shares {
        Some(alone) => home.grant(line, core, alone),
        None => home.own(line, core),
    }
}

/// The letter of a line that a core had in E.
fn letter_kept(write: bool) -> Letter
    ensures { result ≡ own_after write Letter.E false }
{
    if write { Letter::M } else { Letter::E }
}

/// The letter of a line that a core didn't have, where another core has it, or none has.
fn letter_after(write: bool, has: bool) -> Letter
    ensures { result ≡ own_after write Letter.I has }
{
    match (write, has) {
        (true, _) => Letter::M,
        (false, true) => Letter::S,
        (false, false) => Letter::E,
    }
}

/// Whether an access writes. A store-conditional does also where it stores nothing.
pub(crate) fn is_write(request: &Request) -> bool
    ensures { result ≡ is_write request.now }
{
    matches!(
        request,
        Request::Store { .. } | Request::Sc { .. } | Request::Amo { .. }
    )
}
