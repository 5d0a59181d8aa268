//! Which ways of the L2 have the lines of memory, so that a line is found without a search of its
//! set.
ghost use Rattle.std.specs.Prelude.{◌≡◌, ◌+◌, ◌*◌, ◌/◌, ◌^◌, ◌<◌, ◌≤◌, ℕ, IfSome, IfNone, length, vec_len};
ghost use Rattle.cache_set.specs.Places.{StandsAt, StandsNowhere, set_number_in};
ghost use Rattle.home.specs.Layout.{AreKnown, IsFound, IsLast, IsNoted, IsOwn, IsRemembered, known_row, row_place, way_place};

use cache_set::{Entered, Tags, number_in_shard};
use division::{quotient, remainder};

/// Which lines are the bank's, and which ways have those of memory.
#[derive(Drop)]
pub(crate) struct Met {
    pub(crate) dealt: Dealt,
    /// The line that was looked for last: the calls of one access go to its line one after the other.
    pub(crate) last: Option<Last>,
    /// By line of the bank, from the first in memory on: 0 where the L2 doesn't have it, and else one
    /// more than its way in its set. It is one byte, and few lines of the host's own caches have
    /// those of all lines that a program goes to.
    pub(crate) known: Vec<u8>,
}

/// The line that was looked for last, and where its row stands, None where the L2 doesn't have it.
#[derive(Clone, Copy)]
pub(crate) struct Last {
    pub(crate) line: u64,
    pub(crate) row: Option<usize>,
}

impl Met {
    /// A line came into a way, as it entered.
    #[inline(always)]
    pub(crate) fn remember(&mut self, line: u64, entered: Entered)
        requires shards { 0 < self.old.dealt.shards }
        requires way { entered.way < 32 }
        ensures known { IsRemembered self.old.dealt.number self.old.dealt.shards self.old.dealt.below line (entered.way + 1) entered.evicts entered.had self.old.known.items self.new.known.items }
        ensures last { self.new.last ≡ self.old.last }
        ensures dealt { self.new.dealt ≡ self.old.dealt }
    {
        if entered.evicts {
            self.note(entered.had, 0);
        }
        self.note(line, entered.way as u8 + 1);
    }

    /// Notes something of a line, if it is one of the bank's in memory.
    #[inline(always)]
    fn note(&mut self, line: u64, value: u8)
        requires { 0 < self.old.dealt.shards }
        ensures known { IsNoted self.old.dealt.number self.old.dealt.shards self.old.dealt.below line value self.old.known.items self.new.known.items }
        ensures last { self.new.last ≡ self.old.last }
        ensures dealt { self.new.dealt ≡ self.old.dealt }
    {
        if let Some(at) = self.dealt.place(line, self.known.len()) {
            self.known[at] = value;
        }
    }
}

/// Which lines are the bank's.
#[derive(Clone, Copy)]
pub(crate) struct Dealt {
    /// The bank's number.
    pub(crate) number: u16,
    /// How many banks there are.
    pub(crate) shards: u64,
    /// How many of the bank's lines lie below memory.
    pub(crate) below: u64,
}

impl Dealt {
    /// Where a line stands among the first of the bank's lines in memory, if it is one of so many.
    #[inline(always)]
    pub(crate) fn place(self, line: u64, lines: usize) -> Option<usize>
        requires { 0 < self.shards }
        ensures some { IfSome result (IsOwn self.number self.shards self.below lines line) }
        ensures none { IfNone result ((at : ℕ) → IsOwn self.number self.shards self.below lines line at → ⊥) }
    {
        let number = number_in_shard(self.shards, line);
        let is_own = line - number * self.shards == u64::from(self.number);
        if is_own && self.below <= number && number - self.below < lines as u64 {
            Some((number - self.below) as usize)
        } else {
            None
        }
    }
}

/// Where the row of a line stands, if the L2 has it. For the line that was looked for last nothing is
/// read, and none of the bank's in memory is searched for.
#[inline(always)]
pub(crate) fn find(ways: &Tags, met: &Met, line: u64) -> Option<usize>
    requires shards { 0 < met.now.dealt.shards }
    requires sets { (0 < ways.now.sets) × (ways.now.sets ≤ 65536) }
    requires some { 1 ≤ ways.now.ways }
    requires ages { vec_len ways.now.ages ≡ ways.now.sets * ways.now.ways }
    requires tags { vec_len ways.now.tags ≡ ways.now.sets * ways.now.ways }
    requires last { IsLast met.now.dealt.shards ways.now.sets ways.now.ways ways.now.ages.items ways.now.tags.items met.now.last }
    requires known { AreKnown met.now.dealt.number met.now.dealt.shards met.now.dealt.below ways.now.sets ways.now.ways ways.now.ages.items ways.now.tags.items met.now.known.items }
    ensures here { IfSome result (λ row. StandsAt ways.now.ways ways.now.ages.items ways.now.tags.items (set_number_in met.now.dealt.shards ways.now.sets line) line (way_place ways.now.sets ways.now.ways row)) }
    ensures within { IfSome result (λ row. row < ways.now.sets * ways.now.ways) }
    ensures row { IfSome result (λ row. row ≡ row_place ways.now.sets ways.now.ways (way_place ways.now.sets ways.now.ways row)) }
    ensures none { IfNone result (StandsNowhere ways.now.ways ways.now.ages.items ways.now.tags.items (set_number_in met.now.dealt.shards ways.now.sets line) line) }
    ensures found { IsFound met.now.dealt.shards ways.now.sets ways.now.ways ways.now.ages.items ways.now.tags.items line result }
{
    if let Some(last) = met.last {
        if last.line == line {
            return last.row;
        }
    }
    find_elsewhere(ways, met, line)
}

/// The same for another line than the one that was looked for last.
fn find_elsewhere(ways: &Tags, met: &Met, line: u64) -> Option<usize>
    requires shards { 0 < met.now.dealt.shards }
    requires sets { (0 < ways.now.sets) × (ways.now.sets ≤ 65536) }
    requires some { 1 ≤ ways.now.ways }
    requires ages { vec_len ways.now.ages ≡ ways.now.sets * ways.now.ways }
    requires tags { vec_len ways.now.tags ≡ ways.now.sets * ways.now.ways }
    requires known { AreKnown met.now.dealt.number met.now.dealt.shards met.now.dealt.below ways.now.sets ways.now.ways ways.now.ages.items ways.now.tags.items met.now.known.items }
    ensures { IsFound met.now.dealt.shards ways.now.sets ways.now.ways ways.now.ages.items ways.now.tags.items line result }
{
    let set = remainder(number_in_shard(met.dealt.shards, line), ways.sets);
    match met.dealt.place(line, met.known.len()) {
        Some(at) => row_known(met.known[at], set, ways.sets),
        None => search(ways, set, line),
    }
}

/// The row of the way of a set that is known to have a line, if one is.
#[inline(always)]
fn row_known(known: u8, set: u64, sets: u64) -> Option<usize>
    requires set { set < sets }
    requires sets { sets ≤ 65536 }
    ensures { result ≡ known_row sets set known }
{
    if known == 0 {
        None
    } else {
        Some((usize::from(known) - 1) * sets as usize + set as usize)
    }
}

/// The row of a way that is searched for.
#[cold]
fn search(ways: &Tags, set: u64, line: u64) -> Option<usize>
    requires set { set < ways.now.sets }
    requires sets { ways.now.sets ≤ 65536 }
    requires some { 1 ≤ ways.now.ways }
    requires ages { vec_len ways.now.ages ≡ ways.now.sets * ways.now.ways }
    requires tags { vec_len ways.now.tags ≡ ways.now.sets * ways.now.ways }
    ensures here { IfSome result (λ row. StandsAt ways.now.ways ways.now.ages.items ways.now.tags.items set line (way_place ways.now.sets ways.now.ways row)) }
    ensures within { IfSome result (λ row. row < ways.now.sets * ways.now.ways) }
    ensures row { IfSome result (λ row. row ≡ row_place ways.now.sets ways.now.ways (way_place ways.now.sets ways.now.ways row)) }
    ensures none { IfNone result (StandsNowhere ways.now.ways ways.now.ages.items ways.now.tags.items set line) }
{
    match ways.find_in(set, line) {
        Some(place) => Some(row_place(ways.sets, ways.ways, place)),
        None => None,
    }
}

/// Where the row of the way at a place stands. The ways stand set by set, and the rows way by way: so
/// the rows of lines that follow each other are mostly neighbours.
#[inline(always)]
pub(crate) fn row_place(sets: u64, ways: usize, place: usize) -> usize
    requires some { 0 < ways }
    requires sets { sets ≤ 65536 }
    requires within { place < sets * ways }
    requires few { sets * ways < 2 ^ 63 }
    ensures { result ≡ row_place sets ways place }
{
    let way = remainder(place as u64, ways as u64) as usize;
    way * sets as usize + quotient(place as u64, ways as u64) as usize
}

/// Where the way stands whose row this is.
#[inline(always)]
pub(crate) fn way_place(sets: u64, ways: usize, row: usize) -> usize
    requires some { 0 < sets }
    requires within { row < sets * ways }
    requires few { sets * ways < 2 ^ 63 }
    ensures { result ≡ way_place sets ways row }
{
    let set = remainder(row as u64, sets) as usize;
    set * ways + quotient(row as u64, sets) as usize
}
