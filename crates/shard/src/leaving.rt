//! Which lines an access takes out of caches to make room.
ghost use Rattle.std.specs.Prelude.{◌≡◌, None, Some, if◌then◌else◌, is_some};
ghost use Rattle.home.specs.HomeState.{evicted_by, row_at};
ghost use Rattle.l1_cache.specs.L1State.{copy_at, has_instructions, instruction_victim_in, letter_of, victim_in};
ghost use Rattle.shard.specs.Coherence.{is_valid};
ghost use Rattle.shard.specs.Leaving.{home_left, instruction_left, leaving_by, leaving_here, left_beside, line_in_way, own_left};

use cache_set::Letter;
use home::Home;
use l1_cache::L1;
use zs_num::Request;

/// The lines that leave caches for an access, to make room: from the core's own L1, or from its
/// instruction cache where the access is a fetch; and from the L2, and so from every other cache.
#[derive(Clone, Copy)]
pub struct Leaving {
    pub own: Option<u64>,
    pub shared: Option<u64>,
}

/// Those that leave for an access of the core with this L1 to a line of the home.
pub(crate) fn leaving_here(home: &Home, l1: &L1, request: &Request) -> Leaving
    ensures { result ≡ leaving_here home.now l1.now request.now }
{
    let line = request.line();
    if request.is_fetch() {
        leaving_to_fetch(home, l1, line)
    } else {
        leaving_for(home, l1, line)
    }
}

/// Those that leave for a fetch.
fn leaving_to_fetch(home: &Home, l1: &L1, line: u64) -> Leaving
    ensures { let shared = home_left home.now line in result ≡ leaving_by (has_instructions l1.now line) (instruction_left l1.now line shared) shared }
{
    if l1.has_instructions(line) {
        return nothing();
    }
    let shared = home_left(home, line);
    let own = instruction_left(l1, line, shared);
    Leaving { own, shared }
}

/// Those that leave for a read or a write.
fn leaving_for(home: &Home, l1: &L1, line: u64) -> Leaving
    ensures { let shared = home_left home.now line in result ≡ leaving_by (is_valid (letter_of (copy_at l1.now line))) (own_left l1.now line shared) shared }
{
    if is_there(l1, line) {
        return nothing();
    }
    let shared = home_left(home, line);
    let own = own_left(l1, line, shared);
    Leaving { own, shared }
}

/// Nothing leaves.
fn nothing() -> Leaving
    ensures { result ≡ record { own = None; shared = None } }
{
    Leaving {
        own: None,
        shared: None,
    }
}

/// The line that leaves the L2 for another.
fn home_left(home: &Home, line: u64) -> Option<u64>
    ensures { result ≡ home_left home.now line }
{
    if home.row(line).is_some() {
        return None;
    }
    match home.victim(line) {
        Some((victim, _)) => Some(victim),
        None => None,
    }
}

/// The line that leaves an L1 for another, behind the one that left the L2.
fn own_left(l1: &L1, line: u64, left: Option<u64>) -> Option<u64>
    ensures { result ≡ own_left l1.now line left }
{
    let last = last_in_set(l1, line);
    match left {
        Some(left) => left_beside(is_there(l1, left), last_in_set(l1, left), last),
        None => last,
    }
}

/// Whether an L1 has a line.
fn is_there(l1: &L1, line: u64) -> bool
    ensures { result ≡ is_valid (letter_of (copy_at l1.now line)) }
{
    !matches!(l1.letter(line), Letter::I)
}

/// The last line of a full set of an L1: of the set of this line.
fn last_in_set(l1: &L1, line: u64) -> Option<u64>
    ensures { result ≡ line_in_way (victim_in l1.now line) }
{
    match l1.victim(line) {
        Some((last, _)) => Some(last),
        None => None,
    }
}

/// The line that leaves an instruction cache for another, behind the one that left the L2.
fn instruction_left(l1: &L1, line: u64, left: Option<u64>) -> Option<u64>
    ensures { result ≡ instruction_left l1.now line left }
{
    let last = l1.instruction_victim(line);
    match left {
        Some(left) => left_beside(l1.has_instructions(left), l1.instruction_victim(left), last),
        None => last,
    }
}

/// The line that leaves a set of which `last` is the last one, where another left its own set
/// before: `there` says that it stood in that, and `beside` is the last one of that.
fn left_beside(there: bool, beside: Option<u64>, last: Option<u64>) -> Option<u64>
    ensures { result ≡ left_beside there beside last }
{
    match (last, beside) {
        (Some(last), Some(beside)) if there && beside == last => None,
        _ => last,
    }
}
