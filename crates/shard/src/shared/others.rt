//! What the home and the L1s of other cores do for a core's access.
ghost use Rattle.std.specs.Prelude.{◌≡◌, ◌<◌, IfSome, None, length, option_map};
ghost use Rattle.home.specs.HomeState.{KeepsLine, bytes_at, evicted_by, row_at, with_bytes_at};
ghost use Rattle.home.specs.Rows.{evicted_in, line_in};
ghost use Rattle.l1_cache.specs.L1State.{copy_at, given_up_in, instruction_given_up_in, newer_bytes, shared_in};
ghost use Rattle.mesi_dir.specs.CoreSets.{cores_in};
ghost use Rattle.shard.specs.BankSteps.{bank_with, AreKnown, CanEvict, CanLeave};
ghost use Rattle.shard.specs.Seen.{no_home};
ghost use Rattle.shard.specs.SharedStep.{brought_home, collected, dirty_by, evicted_everywhere, given_up_by, instructions_given_up_by, is_dirty_here, is_modified_by, is_some_core, left_by_others, others_of, own_letter, shared_by, shared_by_others, with_l1};

use cache_set::Letter;
use home::{Home, Row};
use l1_cache::L1;
use mesi_dir::CoreSet;

/// A line comes into the L2 from memory. The line that the L2 evicts for it leaves every L1 before.
/// The answer is whether that one is dirty.
pub(super) fn bring_home(home: &mut Home, l1s: &mut [L1], line: u64) -> bool
    requires absent { row_at home.old line ≡ None }
    requires can { CanEvict home.old l1s.old (evicted_by home.old line) }
    ensures dirty { result ≡ is_dirty_here (bank_with home.old l1s.old) (evicted_by home.old line) }
    ensures after { bank_with home.new l1s.new ≡ brought_home line (bank_with home.old l1s.old) }
    ensures cores { length l1s.new ≡ length l1s.old }
{
    let evicted = home.enter(line);
    let dirty = is_dirty(l1s, &evicted);
    evict_copies(home, l1s, &evicted);
    dirty
}

/// Whether a line that the L2 evicts is dirty there, or modified in an L1.
fn is_dirty(l1s: &[L1], evicted: &Option<(u64, Row)>) -> bool
    requires { IfSome evicted.now (λ evicted. AreKnown (evicted_in evicted).1.sharers l1s.now) }
    ensures { result ≡ is_dirty_here (bank_with no_home l1s.now) (option_map evicted_in evicted.now) }
{
    match evicted {
        Some((line, row)) => row.dirty || is_modified_by(l1s, *line, row.sharers),
        None => false,
    }
}

/// A line that the L2 evicts leaves every L1.
fn evict_copies(home: &mut Home, l1s: &mut [L1], evicted: &Option<(u64, Row)>)
    requires { CanEvict home.old l1s.old (option_map evicted_in evicted.now) }
    ensures after { bank_with home.new l1s.new ≡ evicted_everywhere (option_map evicted_in evicted.now) (bank_with home.old l1s.old) }
    ensures cores { length l1s.new ≡ length l1s.old }
{
    if let Some((line, row)) = evicted {
        let line = *line;
        give_up(home, l1s, line, row.sharers);
        give_up_instructions(l1s, line, row.fetchers);
    }
}

/// The others that have a line of the L2 give it up.
pub(super) fn leave_others(home: &mut Home, l1s: &mut [L1], core: u16, line: u64, row: Row)
    requires { CanLeave (bank_with home.old l1s.old) core line (line_in row) }
    ensures after { bank_with home.new l1s.new ≡ left_by_others core line (line_in row) (bank_with home.old l1s.old) }
    ensures cores { length l1s.new ≡ length l1s.old }
{
    let mut others = row.sharers;
    others.remove(core);
    if others.is_empty() {
        return;
    }
    dirty_by(home, l1s, line, others);
    give_up(home, l1s, line, others);
}

/// The core that has a line of the L2 alone shares it.
pub(super) fn share_others(home: &mut Home, l1s: &mut [L1], line: u64, row: Row)
    requires kept { KeepsLine home.old line }
    requires known { AreKnown (line_in row).sharers l1s.old }
    ensures after { bank_with home.new l1s.new ≡ shared_by_others line (line_in row) (bank_with home.old l1s.old) }
    ensures cores { length l1s.new ≡ length l1s.old }
{
    if row.alone {
        dirty_by(home, l1s, line, row.sharers);
        share(home, l1s, line, row.sharers);
    }
}

/// Whether another core has a line with this row.
pub(super) fn has_other(row: Row, core: u16) -> bool
    requires { core < 256 }
    ensures { result ≡ is_some_core (others_of core (line_in row)) }
{
    let mut others = row.sharers;
    others.remove(core);
    !others.is_empty()
}

/// A line that one of these cores has modified is dirty in the L2.
fn dirty_by(home: &mut Home, l1s: &[L1], line: u64, cores: CoreSet)
    requires { AreKnown (cores_in cores.words) l1s.now }
    ensures { bank_with home.new l1s.now ≡ dirty_by line (cores_in cores.words) (bank_with home.old l1s.now) }
{
    if is_modified_by(l1s, line, cores) {
        home.mark_dirty(line);
    }
}

/// Whether one of these cores has a line modified.
fn is_modified_by(l1s: &[L1], line: u64, cores: CoreSet) -> bool
    requires { AreKnown (cores_in cores.words) l1s.now }
    ensures { result ≡ is_modified_by (bank_with no_home l1s.now) line (cores_in cores.words) }
{
    let mut cores = cores;
    while let Some(core) = cores.take_first() {
        if let Letter::M = letter_at(l1s, core, line) {
            return true;
        }
    }
    false
}

/// A core's letter for a line.
pub(super) fn letter_at(l1s: &[L1], core: u16, line: u64) -> Letter
    requires { core < length l1s.now }
    ensures { result ≡ own_letter (bank_with no_home l1s.now) core line }
{
    l1s[usize::from(core)].letter(line)
}

/// These cores give a line up. Mostly it is none.
#[inline(always)]
fn give_up(home: &mut Home, l1s: &mut [L1], line: u64, cores: CoreSet)
    requires kept { KeepsLine home.old line }
    requires known { AreKnown (cores_in cores.words) l1s.old }
    ensures after { bank_with home.new l1s.new ≡ given_up_by line (cores_in cores.words) (bank_with home.old l1s.old) }
    ensures cores { length l1s.new ≡ length l1s.old }
{
    if cores.is_empty() {
        return;
    }
    give_up_each(home, l1s, line, cores);
}

/// The same, one core after the other.
#[inline(never)]
fn give_up_each(home: &mut Home, l1s: &mut [L1], line: u64, cores: CoreSet)
    requires kept { KeepsLine home.old line }
    requires known { AreKnown (cores_in cores.words) l1s.old }
    ensures after { bank_with home.new l1s.new ≡ given_up_by line (cores_in cores.words) (bank_with home.old l1s.old) }
    ensures cores { length l1s.new ≡ length l1s.old }
{
    let mut cores = cores;
    while let Some(core) = cores.take_first() {
        give_up_at(home, l1s, core, line);
    }
}

/// A core gives a line up.
#[inline(always)]
fn give_up_at(home: &mut Home, l1s: &mut [L1], core: u16, line: u64)
    requires core { core < length l1s.old }
    requires kept { KeepsLine home.old line }
    ensures after { bank_with home.new l1s.new ≡ with_l1 core (given_up_in line) (collected line core (bank_with home.old l1s.old)) }
    ensures kept { KeepsLine home.new line }
    ensures cores { length l1s.new ≡ length l1s.old }
{
    let l1 = &mut l1s[usize::from(core)];
    collect(home, l1, line);
    l1.give_up(line);
}

/// These cores share a line.
fn share(home: &mut Home, l1s: &mut [L1], line: u64, cores: CoreSet)
    requires kept { KeepsLine home.old line }
    requires known { AreKnown (cores_in cores.words) l1s.old }
    ensures after { bank_with home.new l1s.new ≡ shared_by line (cores_in cores.words) (bank_with home.old l1s.old) }
    ensures cores { length l1s.new ≡ length l1s.old }
{
    let mut cores = cores;
    while let Some(core) = cores.take_first() {
        share_at(home, l1s, core, line);
    }
}

/// A core shares a line.
#[inline(always)]
fn share_at(home: &mut Home, l1s: &mut [L1], core: u16, line: u64)
    requires core { core < length l1s.old }
    requires kept { KeepsLine home.old line }
    ensures after { bank_with home.new l1s.new ≡ with_l1 core (shared_in line) (collected line core (bank_with home.old l1s.old)) }
    ensures kept { KeepsLine home.new line }
    ensures cores { length l1s.new ≡ length l1s.old }
{
    let l1 = &mut l1s[usize::from(core)];
    collect(home, l1, line);
    l1.share(line);
}

/// The instruction caches of these cores give a line up.
fn give_up_instructions(l1s: &mut [L1], line: u64, cores: CoreSet)
    requires { AreKnown (cores_in cores.words) l1s.old }
    ensures after { bank_with no_home l1s.new ≡ instructions_given_up_by line (cores_in cores.words) (bank_with no_home l1s.old) }
    ensures cores { length l1s.new ≡ length l1s.old }
{
    let mut cores = cores;
    while let Some(core) = cores.take_first() {
        give_up_instruction_at(l1s, core, line);
    }
}

/// The instruction cache of a core gives a line up.
#[inline(always)]
fn give_up_instruction_at(l1s: &mut [L1], core: u16, line: u64)
    requires { core < length l1s.old }
    ensures after { bank_with no_home l1s.new ≡ with_l1 core (instruction_given_up_in line) (bank_with no_home l1s.old) }
    ensures cores { length l1s.new ≡ length l1s.old }
{
    l1s[usize::from(core)].give_up_instruction(line);
}

/// What a core wrote to a line goes home.
fn collect(home: &mut Home, l1: &L1, line: u64)
    requires { KeepsLine home.old line }
    ensures after { home.new ≡ with_bytes_at line (newer_bytes (copy_at l1.now line) (bytes_at home.old line)) home.old }
    ensures long { length home.new.bytes ≡ length home.old.bytes }
{
    if let Letter::M = l1.letter(line) {
        if let Some(bytes) = l1.bytes(line) {
            home.write_back(line, bytes);
        }
    }
}
