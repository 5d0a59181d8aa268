//! The ways of a core's instruction cache, if it has one, and the table of those that were met last.
ghost use Rattle.std.specs.Prelude.{◌≡◌, ◌<◌, IfSome, IfNone};
ghost use Rattle.l1_cache.specs.Layout.{AreInstructionWays, HasInstructionsAt, HasInstructionsNowhere};

use crate::near::{Kept, Near, near_index, near_of};
use cache_set::Tags;

/// The ways of a core's instruction cache.
#[derive(Drop)]
pub(crate) struct InstructionWays {
    /// Without an instruction cache no set.
    pub(crate) tags: Tags,
    pub(crate) near: Vec<Near>,
    /// One less than there are entries.
    pub(crate) mask: u64,
}

impl InstructionWays {
    /// The way that has a line, if one has. Without a set none has.
    #[inline(always)]
    pub(crate) fn find(&self, shards: u64, line: u64) -> Option<usize>
        requires shards { 0 < shards }
        requires ways { AreInstructionWays shards self.now }
        ensures some { IfSome result (λ place. 0 < self.now.tags.sets) }
        ensures here { IfSome result (HasInstructionsAt shards self.now line) }
        ensures none { IfNone result (HasInstructionsNowhere shards self.now line) }
    {
        let entry = self.near[near_index(line, self.mask)];
        if entry.line == line && line < u64::MAX {
            return Some(entry.place as usize);
        }
        self.find_in_set(shards, line)
    }

    /// The same, where the table doesn't have the line.
    #[inline(never)]
    fn find_in_set(&self, shards: u64, line: u64) -> Option<usize>
        requires shards { 0 < shards }
        requires ways { AreInstructionWays shards self.now }
        ensures some { IfSome result (λ place. 0 < self.now.tags.sets) }
        ensures here { IfSome result (HasInstructionsAt shards self.now line) }
        ensures none { IfNone result (HasInstructionsNowhere shards self.now line) }
    {
        if self.tags.sets == 0 {
            return None;
        }
        self.tags.find(shards, line)
    }

    /// The way that has a line, if one has. It is in the table then.
    #[inline(always)]
    pub(crate) fn meet(&mut self, shards: u64, line: u64) -> Option<usize>
        requires shards { 0 < shards }
        requires ways { AreInstructionWays shards self.old }
        ensures some { IfSome result (λ place. 0 < self.old.tags.sets) }
        ensures here { IfSome result (HasInstructionsAt shards self.old line) }
        ensures none { IfNone result (HasInstructionsNowhere shards self.old line) }
        ensures ways { AreInstructionWays shards self.new }
        ensures same { self.new ≡ record self.old { near = self.new.near } }
    {
        let entry = self.near[near_index(line, self.mask)];
        if entry.line == line && line < u64::MAX {
            return Some(entry.place as usize);
        }
        self.meet_in_set(shards, line)
    }

    /// The same, where the table doesn't have the line.
    #[inline(never)]
    #[tactic(auto, using(crate::proofs::Table::instruction_place_small))]
    fn meet_in_set(&mut self, shards: u64, line: u64) -> Option<usize>
        requires shards { 0 < shards }
        requires ways { AreInstructionWays shards self.old }
        ensures some { IfSome result (λ place. 0 < self.old.tags.sets) }
        ensures here { IfSome result (HasInstructionsAt shards self.old line) }
        ensures none { IfNone result (HasInstructionsNowhere shards self.old line) }
        ensures ways { AreInstructionWays shards self.new }
        ensures same { self.new ≡ record self.old { near = self.new.near } }
    {
        let place = self.find_in_set(shards, line)?;
        self.near[near_index(line, self.mask)] = near_of(line, place, Kept::NONE);
        Some(place)
    }
}
