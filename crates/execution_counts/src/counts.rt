//! The counts.
ghost use Rattle.std.specs.Prelude.{◌≡◌, ℕ, ◌+◌, ◌*◌, ◌<◌, ◌≤◌, ◌^◌, ◌==◌, ◌&&◌, IfSome, MatchOption, OnErr, OnOk};
ghost use Rattle.sparse_table.specs.ByCore.{value_at};
ghost use Rattle.sparse_table.specs.Next.{IsNextIn};
ghost use Rattle.execution_counts.specs.Counted.{capped, counted, is_in_stretch, no_stretch, one_if, times_as};

use crate::one_more::{Again, OneMore};
use crate::stretch::{MOST, Stretch};
use sparse_table::by_core::{change_at, next_set, set_at, value_at};
use sparse_table::{SparseTable, earlier};
use std::alloc::Global;
use std::marker::Model;
use zs_num::NoMemory;

/// How many bytes an instruction has.
const INSTRUCTION: u64 = 4;

/// How often each core executed the instruction at each address. A count that would pass 64 bits
/// stays at the greatest number. Contracts see the count by core and address.
#[derive(Drop)]
pub struct ExecutionCounts {
    alloc: Global,
    /// Those that were counted one by one, by core and address.
    singles: Vec<SparseTable<u64>>,
    /// Those that were counted with others, by core and the address of the first of them.
    stretches: Vec<SparseTable<Stretch>>,
    /// No stretch has more instructions than so many.
    longest: u64,
}

impl Model for ExecutionCounts {
    ghost use Rattle.execution_counts.specs.Counted.{AreShort, AreSound, Counts};

    ghost Value = { Counts };

    ghost view = { λ t. record { singles = t.singles.items; stretches = t.stretches.items } };

    ghost invariant = { λ t. AreSound (record { singles = t.singles.items; stretches = t.stretches.items }) × AreShort t.longest t.stretches.items };
}

impl ExecutionCounts {
    /// No core executed anything.
    pub fn new(alloc: Global) -> Self
        ensures { (c n : ℕ) → counted result c n ≡ 0 }
    {
        ExecutionCounts {
            alloc,
            singles: Vec::new(alloc),
            stretches: Vec::new(alloc),
            longest: 0,
        }
    }

    /// A core executed the instruction at an address. Where memory runs out, all counts are as they were.
    #[inline(always)]
    pub fn add(&mut self, core: u16, pc: u64) -> Result<(), NoMemory>
        ensures ok { OnOk result ((c n : ℕ) → counted self.new c n ≡ capped (counted self.old c n + one_if (core == c && pc == n))) }
        ensures err { OnErr result ((c n : ℕ) → counted self.new c n ≡ counted self.old c n) }
    {
        change_at(self.alloc, &mut self.singles, 0, core, pc, &OneMore)?;
        Ok(())
    }

    /// A core executed so many instructions that follow each other, the first of them at an address.
    #[inline(always)]
    pub fn add_stretch(&mut self, core: u16, pc: u64, count: u64) -> Result<(), NoMemory>
        requires { pc + 4 * count ≤ 2 ^ 64 }
        ensures { OnOk result ((c n : ℕ) → counted self.new c n ≡ capped (counted self.old c n + one_if (core == c && is_in_stretch pc count n))) }
    {
        let was = value_at(&self.stretches, Stretch::NONE, core, pc);
        if was.count == count && count > 0 {
            self.add_again(core, pc)
        } else {
            self.add_other_stretch(core, pc, count)
        }
    }

    /// A core executed the stretch that begins at an address once more: as many instructions as it has.
    #[inline(always)]
    fn add_again(&mut self, core: u16, pc: u64) -> Result<(), NoMemory>
        ensures { OnOk result ((c n : ℕ) → counted self.new c n ≡ capped (counted self.old c n + one_if (core == c && is_in_stretch pc (value_at no_stretch self.old.stretches core pc).count n))) }
    {
        change_at(
            self.alloc,
            &mut self.stretches,
            Stretch::NONE,
            core,
            pc,
            &Again,
        )?;
        Ok(())
    }

    /// A core executed so many instructions, whatever stretch begins at the first of them. Where none was
    /// executed there, they are one from now on, unless they are too many. A shorter one is counted once
    /// more, and those behind it one by one. Otherwise all are counted one by one.
    #[inline(never)]
    fn add_other_stretch(&mut self, core: u16, pc: u64, count: u64) -> Result<(), NoMemory>
        requires { pc + 4 * count ≤ 2 ^ 64 }
        ensures { OnOk result ((c n : ℕ) → counted self.new c n ≡ capped (counted self.old c n + one_if (core == c && is_in_stretch pc count n))) }
    {
        let was = value_at(&self.stretches, Stretch::NONE, core, pc);
        if was.times == 0 && count <= MOST {
            self.add_new_stretch(core, pc, count)
        } else if was.count > 0 && was.count < count {
            self.add_again(core, pc)?;
            self.add_one_by_one(core, pc + INSTRUCTION * was.count, count - was.count)
        } else {
            self.add_one_by_one(core, pc, count)
        }
    }

    /// The same, where no stretch was executed that begins there: now they are one.
    fn add_new_stretch(&mut self, core: u16, pc: u64, count: u64) -> Result<(), NoMemory>
        requires fits { pc + 4 * count ≤ 2 ^ 64 }
        requires few { count ≤ 128 }
        requires never { (value_at no_stretch self.old.stretches core pc).times ≡ 0 }
        ensures { OnOk result ((c n : ℕ) → counted self.new c n ≡ capped (counted self.old c n + one_if (core == c && is_in_stretch pc count n))) }
    {
        self.longest = self.longest.max(count);
        set_at(
            self.alloc,
            &mut self.stretches,
            Stretch::NONE,
            core,
            pc,
            Stretch { count, times: 1 },
        )?;
        Ok(())
    }

    /// The same, counted one by one.
    #[inline(never)]
    fn add_one_by_one(&mut self, core: u16, pc: u64, count: u64) -> Result<(), NoMemory>
        requires { pc + 4 * count ≤ 2 ^ 64 }
        ensures { OnOk result ((c n : ℕ) → counted self.new c n ≡ capped (counted self.old c n + one_if (core == c && is_in_stretch pc count n))) }
    {
        for place in 0..count {
            self.add(core, pc + INSTRUCTION * place)?;
        }
        Ok(())
    }

    /// How often a core executed the instruction at an address.
    pub fn get(&self, core: u16, pc: u64) -> u64
        ensures { result ≡ counted self.now core pc }
    {
        let mut count = value_at(&self.singles, 0, core, pc);
        for place in 0..self.longest {
            count = count.saturating_add(times_as(&self.stretches, core, pc, place));
        }
        count
    }

    /// The next address of a core, from this one on, that may have a count: those before it have none.
    pub fn next(&self, core: u16, from: u64) -> Option<u64>
        ensures behind { IfSome result (λ next. from ≤ next) }
        ensures last { (n : ℕ) → 2 ^ 64 ≤ n → counted self.now core n ≡ 0 }
        ensures next { IsNextIn 0 (counted self.now core) from result }
    {
        let single = next_set(&self.singles, core, from);
        let stretch = next_set(&self.stretches, core, from);
        if from > u64::MAX - INSTRUCTION {
            return Some(from);
        }
        match self.near(core, from) {
            Some(near) => Some(near),
            None => earlier(single, stretch),
        }
    }

    /// The first one of the addresses of an instruction's bytes that has a count: in these a stretch
    /// that began before them and goes on has an instruction.
    fn near(&self, core: u16, from: u64) -> Option<u64>
        requires { from + 4 ≤ 2 ^ 64 }
        ensures behind { IfSome result (λ near. from ≤ near) }
        ensures near { MatchOption result ((n : ℕ) → from ≤ n → n < from + 4 → counted self.now core n ≡ 0) (λ near. (n : ℕ) → from ≤ n → n < near → counted self.now core n ≡ 0) }
    {
        for place in 0..INSTRUCTION {
            if self.get(core, from + place) != 0 {
                return Some(from + place);
            }
        }
        None
    }
}

/// How often it was executed as the one of this place of a stretch.
#[inline(always)]
fn times_as(stretches: &Vec<SparseTable<Stretch>>, core: u16, pc: u64, place: u64) -> u64
    requires { place ≤ 2 ^ 32 }
    ensures { result ≡ times_as (value_at no_stretch stretches.now.items core) pc place }
{
    if INSTRUCTION * place > pc {
        return 0;
    }
    let stretch = value_at(stretches, Stretch::NONE, core, pc - INSTRUCTION * place);
    if place < stretch.count {
        stretch.times
    } else {
        0
    }
}
