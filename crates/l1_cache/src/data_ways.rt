//! The ways of a core's data cache but for their bytes, and the table of those that were met last.
ghost use Rattle.std.specs.Prelude.{◌≡◌, ◌⊎◌, ℕ, ◌+◌, ◌-◌, ◌*◌, ◌<◌, ◌≤◌, ◌^◌, false, true, length, slice_set, slice_index_or, IfSome, IfNone, IsTrue};
ghost use Rattle.cache_set.specs.Places.{HasRoom, IsVictim};
ghost use Rattle.l1_cache.specs.Layout.{AreDataWays, HasAt, HasNowhere, no_kept, set_for, to_write};

use crate::near::{Kept, Near, near_index, near_of};
use cache_set::{Letter, Tags};

/// The ways of a core's data cache but for their bytes.
#[derive(Drop)]
pub(crate) struct DataWays {
    /// 1, or how many shards there are: so many lines are passed over from one set to the next.
    pub(crate) shards: u64,
    pub(crate) tags: Tags,
    pub(crate) kept: Vec<Kept>,
    pub(crate) near: Vec<Near>,
    /// One less than there are entries.
    pub(crate) mask: u64,
}

impl DataWays {
    /// Whether the table has a line.
    #[inline(always)]
    pub(crate) fn has_near(&self, line: u64) -> bool
        requires { AreDataWays self.now }
        ensures { IsTrue result → (place : ℕ) × HasAt self.now line place }
    {
        self.near[near_index(line, self.mask)].line == line && line < u64::MAX
    }

    /// The way that has a line, if the table has the line.
    #[inline(always)]
    pub(crate) fn near(&self, line: u64) -> Option<usize>
        requires { AreDataWays self.now }
        ensures { IfSome result (HasAt self.now line) }
    {
        let entry = self.near[near_index(line, self.mask)];
        if entry.line == line && line < u64::MAX {
            return Some(entry.place as usize);
        }
        None
    }

    /// The way that has a line, if the table has the line and it is free to write. It is M and in
    /// the table then.
    #[inline(always)]
    pub(crate) fn near_to_write(&mut self, line: u64) -> Option<usize>
        requires ways { AreDataWays self.old }
        requires line { line < 2 ^ 64 - 1 }
        ensures here { IfSome result (λ place. HasAt self.old line place) }
        ensures free { IfSome result (λ place. (slice_index_or self.old.kept.items place no_kept).free ≡ true) }
        ensures kept { IfSome result (λ place. self.new.kept.items ≡ slice_set self.old.kept.items place to_write) }
        ensures stays { IfNone result (self.new ≡ self.old) }
        ensures ways { AreDataWays self.new }
        ensures same { self.new ≡ record self.old { kept = self.new.kept; near = self.new.near } }
    {
        let entry = self.near[near_index(line, self.mask)];
        if entry.line == line && entry.writes {
            return Some(entry.place as usize);
        }
        if entry.line == line {
            return self.write_to(line, entry.place as usize);
        }
        None
    }

    /// The way that has a line, if the line is there.
    #[inline(always)]
    pub(crate) fn find(&self, line: u64) -> Option<usize>
        requires { AreDataWays self.now }
        ensures here { IfSome result (HasAt self.now line) }
        ensures none { IfNone result (HasNowhere self.now line) }
    {
        let entry = self.near[near_index(line, self.mask)];
        if entry.line == line && line < u64::MAX {
            return Some(entry.place as usize);
        }
        self.find_in_set(line)
    }

    /// The same, where the table doesn't have the line.
    #[inline(never)]
    fn find_in_set(&self, line: u64) -> Option<usize>
        requires { AreDataWays self.now }
        ensures here { IfSome result (HasAt self.now line) }
        ensures none { IfNone result (HasNowhere self.now line) }
    {
        self.tags.find(self.shards, line)
    }

    /// The way whose line leaves for this one. None where its set has room for both.
    #[inline(always)]
    pub(crate) fn victim(&self, line: u64) -> Option<usize>
        requires { AreDataWays self.now }
        ensures full { IfSome result (IsVictim self.now.tags.ways self.now.tags.ages.items (set_for self.now line)) }
        ensures room { IfNone result (HasRoom self.now.tags.ways self.now.tags.ages.items (set_for self.now line)) }
    {
        self.tags.victim(self.shards, line)
    }

    /// The way that has a line, if the line is there. It is in the table then.
    #[inline(always)]
    pub(crate) fn meet(&mut self, line: u64) -> Option<usize>
        requires { AreDataWays self.old }
        ensures here { IfSome result (HasAt self.old line) }
        ensures none { IfNone result (HasNowhere self.old line) }
        ensures ways { AreDataWays self.new }
        ensures same { self.new ≡ record self.old { near = self.new.near } }
    {
        let entry = self.near[near_index(line, self.mask)];
        if entry.line == line && line < u64::MAX {
            return Some(entry.place as usize);
        }
        self.meet_in_set(line)
    }

    /// The same, where the table doesn't have the line.
    #[inline(never)]
    #[tactic(auto, using(crate::proofs::Table::place_small))]
    fn meet_in_set(&mut self, line: u64) -> Option<usize>
        requires { AreDataWays self.old }
        ensures here { IfSome result (HasAt self.old line) }
        ensures none { IfNone result (HasNowhere self.old line) }
        ensures ways { AreDataWays self.new }
        ensures same { self.new ≡ record self.old { near = self.new.near } }
    {
        let place = self.tags.find(self.shards, line)?;
        let kept = self.kept[place];
        self.near[near_index(line, self.mask)] = near_of(line, place, kept);
        Some(place)
    }

    /// The way that has a line, if it is there and free to write. It is M and in the table then.
    #[inline(always)]
    pub(crate) fn meet_to_write(&mut self, line: u64) -> Option<usize>
        requires ways { AreDataWays self.old }
        requires line { line < 2 ^ 64 - 1 }
        ensures here { IfSome result (λ place. HasAt self.old line place) }
        ensures free { IfSome result (λ place. (slice_index_or self.old.kept.items place no_kept).free ≡ true) }
        ensures kept { IfSome result (λ place. self.new.kept.items ≡ slice_set self.old.kept.items place to_write) }
        ensures none { IfNone result (HasNowhere self.old line ⊎ ((place : ℕ) × (HasAt self.old line place) × ((slice_index_or self.old.kept.items place no_kept).free ≡ false))) }
        ensures stays { IfNone result (self.new ≡ self.old) }
        ensures ways { AreDataWays self.new }
        ensures same { self.new ≡ record self.old { kept = self.new.kept; near = self.new.near } }
    {
        let entry = self.near[near_index(line, self.mask)];
        if entry.line == line && entry.writes {
            return Some(entry.place as usize);
        }
        if entry.line == line {
            return self.write_to(line, entry.place as usize);
        }
        self.meet_to_write_in_set(line)
    }

    /// The same, where the table doesn't say so.
    #[inline(never)]
    fn meet_to_write_in_set(&mut self, line: u64) -> Option<usize>
        requires { AreDataWays self.old }
        ensures here { IfSome result (λ place. HasAt self.old line place) }
        ensures free { IfSome result (λ place. (slice_index_or self.old.kept.items place no_kept).free ≡ true) }
        ensures kept { IfSome result (λ place. self.new.kept.items ≡ slice_set self.old.kept.items place to_write) }
        ensures none { IfNone result (HasNowhere self.old line ⊎ ((place : ℕ) × (HasAt self.old line place) × ((slice_index_or self.old.kept.items place no_kept).free ≡ false))) }
        ensures stays { IfNone result (self.new ≡ self.old) }
        ensures ways { AreDataWays self.new }
        ensures same { self.new ≡ record self.old { kept = self.new.kept; near = self.new.near } }
    {
        let place = self.tags.find(self.shards, line)?;
        self.write_to(line, place)
    }

    /// The same, where the way has the line.
    #[inline(never)]
    fn write_to(&mut self, line: u64, place: usize) -> Option<usize>
        requires ways { AreDataWays self.old }
        requires at { HasAt self.old line place }
        ensures here { IfSome result (λ place. HasAt self.old line place) }
        ensures free { IfSome result (λ place. (slice_index_or self.old.kept.items place no_kept).free ≡ true) }
        ensures kept { IfSome result (λ place. self.new.kept.items ≡ slice_set self.old.kept.items place to_write) }
        ensures none { IfNone result ((slice_index_or self.old.kept.items place no_kept).free ≡ false) }
        ensures stays { IfNone result (self.new ≡ self.old) }
        ensures ways { AreDataWays self.new }
        ensures same { self.new ≡ record self.old { kept = self.new.kept; near = self.new.near } }
    {
        if !self.kept[place].free {
            return None;
        }
        self.set_kept(line, place, Kept::TO_WRITE);
        Some(place)
    }

    /// From now on this is kept of a way that has a line. The line is in the table then.
    #[inline(always)]
    #[tactic(auto, using(crate::proofs::Table::place_small))]
    pub(crate) fn set_kept(&mut self, line: u64, place: usize, kept: Kept)
        requires ways { AreDataWays self.old }
        requires here { HasAt self.old line place }
        ensures kept { self.new.kept.items ≡ slice_set self.old.kept.items place kept }
        ensures ways { AreDataWays self.new }
        ensures same { self.new ≡ record self.old { kept = self.new.kept; near = self.new.near } }
    {
        let entry = near_of(line, place, kept);
        self.kept[place] = kept;
        self.near[near_index(line, self.mask)] = entry;
    }

    /// A way that has a line is free to write from now on, or not. The line is in the table then.
    #[inline(always)]
    pub(crate) fn set_free(&mut self, line: u64, place: usize, free: bool)
        requires ways { AreDataWays self.old }
        requires here { HasAt self.old line place }
        ensures kept { self.new.kept.items ≡ slice_set self.old.kept.items place (record (slice_index_or self.old.kept.items place no_kept) { free = free }) }
        ensures ways { AreDataWays self.new }
        ensures same { self.new ≡ record self.old { kept = self.new.kept; near = self.new.near } }
    {
        let letter = self.kept[place].letter;
        self.set_kept(line, place, Kept { letter, free });
    }

    /// A way that has a line has this letter from now on. The line is in the table then.
    #[inline(always)]
    pub(crate) fn set_letter(&mut self, line: u64, place: usize, letter: Letter)
        requires ways { AreDataWays self.old }
        requires here { HasAt self.old line place }
        ensures kept { self.new.kept.items ≡ slice_set self.old.kept.items place (record (slice_index_or self.old.kept.items place no_kept) { letter = letter }) }
        ensures ways { AreDataWays self.new }
        ensures same { self.new ≡ record self.old { kept = self.new.kept; near = self.new.near } }
    {
        let free = self.kept[place].free;
        self.set_kept(line, place, Kept { letter, free });
    }
}
