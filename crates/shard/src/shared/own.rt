//! What a core's own L1 and the home do for its access.
ghost use Rattle.std.specs.Prelude.{◌≡◌, ◌<◌, IfSome, IsSome, None, false, length, option_map, slice_index_or, slice_set};
ghost use Rattle.home.specs.HomeState.{KeepsLine, bytes_at, with_bytes_at};
ghost use Rattle.l1_cache.specs.L1State.{HasEntered, answered_in, copy_at, has_instructions, kept_with_in, may_write, no_l1, victim_in};
ghost use Rattle.shard.specs.BankSteps.{bank_with, left_home, CanBring};
ghost use Rattle.shard.specs.SharedStep.{brought_to_own, bytes_of, instruction_brought, with_l1};
ghost use Rattle.shard.specs.Seen.{no_home};

use cache_set::Letter;
use home::Home;
use l1_cache::L1;

/// A line comes from its home into a core's L1, with this letter. The line that leaves for it goes
/// home before its bytes come.
pub(super) fn bring_own(home: &mut Home, l1s: &mut [L1], core: u16, line: u64, letter: Letter)
    requires { CanBring (bank_with home.old l1s.old) core line }
    ensures after { bank_with home.new l1s.new ≡ brought_to_own letter core line (bank_with home.old l1s.old) }
    ensures cores { length l1s.new ≡ length l1s.old }
{
    let evicted = enter_at(l1s, core, line, letter);
    leave_own(home, &l1s[usize::from(core)], core, line, evicted);
    fill_at(home, l1s, core, line);
}

/// A line comes into a core's L1. Its bytes come later. The answer is the line that leaves for it.
#[inline(always)]
fn enter_at(l1s: &mut [L1], core: u16, line: u64, letter: Letter) -> Option<(u64, Letter)>
    requires core { core < length l1s.old }
    requires absent { copy_at (slice_index_or l1s.old core no_l1) line ≡ None }
    ensures victim { result ≡ option_map (λ victim. (victim.0, victim.1.letter)) (victim_in (slice_index_or l1s.old core no_l1) line) }
    ensures entered { HasEntered (slice_index_or l1s.old core no_l1) line letter (slice_index_or l1s.new core no_l1) }
    ensures closed { may_write (copy_at (slice_index_or l1s.new core no_l1) line) ≡ false }
    ensures others { l1s.new ≡ slice_set l1s.old core (slice_index_or l1s.new core no_l1) }
    ensures cores { length l1s.new ≡ length l1s.old }
{
    l1s[usize::from(core)].enter(line, letter)
}

/// The line that leaves a core's L1 for another goes home. Its bytes stand for those of the other.
#[inline(always)]
fn leave_own(home: &mut Home, l1: &L1, core: u16, line: u64, evicted: Option<(u64, Letter)>)
    requires few { core < 256 }
    requires there { IsSome (copy_at l1.now line) }
    requires victim { IfSome evicted (λ evicted. KeepsLine home.old evicted.0) }
    requires kept { KeepsLine home.old line }
    ensures after { home.new ≡ left_home evicted core (bytes_of (copy_at l1.now line)) home.old }
    ensures kept { KeepsLine home.new line }
{
    if let Some((evicted, letter)) = evicted {
        if let Letter::M = letter {
            write_back(home, l1, line, evicted);
            home.drop_writer(evicted, core);
        } else {
            home.drop_core(evicted, core);
        }
    }
}

/// The bytes that an L1 has for a line go home as those of another.
#[inline(always)]
fn write_back(home: &mut Home, l1: &L1, line: u64, evicted: u64)
    requires there { IsSome (copy_at l1.now line) }
    requires kept { KeepsLine home.old evicted }
    ensures after { home.new ≡ with_bytes_at evicted (bytes_of (copy_at l1.now line)) home.old }
    ensures long { length home.new.bytes ≡ length home.old.bytes }
{
    if let Some(bytes) = l1.bytes(line) {
        home.write_back(evicted, bytes);
    }
}

/// The bytes of a line come from its home into a core's L1, where it is and isn't free to write.
#[inline(always)]
fn fill_at(home: &Home, l1s: &mut [L1], core: u16, line: u64)
    requires core { core < length l1s.old }
    requires kept { KeepsLine home.now line }
    requires there { IsSome (copy_at (slice_index_or l1s.old core no_l1) line) }
    requires closed { may_write (copy_at (slice_index_or l1s.old core no_l1) line) ≡ false }
    ensures after { bank_with home.now l1s.new ≡ with_l1 core (answered_in line (bytes_at home.now line) false) (bank_with home.now l1s.old) }
    ensures cores { length l1s.new ≡ length l1s.old }
{
    l1s[usize::from(core)].fill(line, home.line_bytes(line));
}

/// A line that a core's L1 has is used, with this letter from then on.
#[inline(always)]
pub(super) fn keep_at(l1s: &mut [L1], core: u16, line: u64, letter: Letter)
    requires core { core < length l1s.old }
    requires there { IsSome (copy_at (slice_index_or l1s.old core no_l1) line) }
    ensures after { bank_with no_home l1s.new ≡ with_l1 core (kept_with_in line letter) (bank_with no_home l1s.old) }
    ensures cores { length l1s.new ≡ length l1s.old }
{
    l1s[usize::from(core)].keep_first(line, letter);
}

/// A line of the L2 comes into a core's instruction cache.
pub(super) fn bring_instruction(home: &mut Home, l1s: &mut [L1], core: u16, line: u64)
    requires core { core < length l1s.old }
    requires few { core < 256 }
    requires absent { has_instructions (slice_index_or l1s.old core no_l1) line ≡ false }
    ensures after { bank_with home.new l1s.new ≡ instruction_brought core line (bank_with home.old l1s.old) }
    ensures cores { length l1s.new ≡ length l1s.old }
{
    let l1 = &mut l1s[usize::from(core)];
    if let Some(evicted) = l1.instruction_victim(line) {
        home.drop_fetcher(evicted, core);
    }
    l1.take_instruction(line);
    home.fetch(line, core);
}
