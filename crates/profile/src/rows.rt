//! Tallies by the address of the instruction and by line, core by core.
ghost use Rattle.std.specs.Prelude.{◌≡◌, ◌==◌, ◌&&◌, ◌++◌, ◌∷◌, [], ℕ, List, OnOk, if◌then◌else◌};
ghost use Rattle.profile.specs.declared.contribution.Contribution.{Contribution};
ghost use Rattle.profile.specs.Added.{Adds};
ghost use Rattle.profile.specs.Copies.{is_this};
ghost use Rattle.profile.specs.Rows.{AreRows, IsNext, has_line};
ghost use Rattle.sparse_table.specs.ByCore.{HaveNone, value_at};
ghost use Rattle.profile_rows.specs.declared.tally.Tally.{Tally};
ghost use Rattle.profile_rows.specs.Tallies.{no_tally};

use crate::contribution::Contribution;
use crate::something::is_something;
use profile_rows::{NONE, Tally};
use sparse_table::by_core::{change_at, change_there, next_set, value_at};
use sparse_table::{Change, SparseTable};
use std::alloc::Global;
use zs_num::NoMemory;

/// What was added to the instruction at each address, and to each line, by core.
#[derive(Drop)]
pub(crate) struct Rows {
    pub(crate) addresses: Vec<SparseTable<Tally>>,
    pub(crate) lines: Vec<SparseTable<Tally>>,
}

impl Rows {
    /// Nothing was added.
    pub(crate) fn new(alloc: Global) -> Rows
        ensures { AreRows [] result.addresses.items result.lines.items }
    {
        Rows {
            addresses: Vec::new(alloc),
            lines: Vec::new(alloc),
        }
    }

    /// Adds what a step adds.
    pub(crate) fn add(&mut self, alloc: Global, c: &Contribution) -> Result<(), NoMemory>
        ensures { OnOk result ((cs : List Contribution) → AreRows cs self.old.addresses.items self.old.lines.items → AreRows (cs ++ c.now ∷ []) self.new.addresses.items self.new.lines.items) }
    {
        self.change(alloc, c.core, c.pc, c.line, c)?;
        Ok(())
    }

    /// Adds what a change adds, to an instruction of a core, if there is one, and to a line.
    #[inline(always)]
    pub(crate) fn change<C: Change<Tally>>(
        &mut self,
        alloc: Global,
        core: u16,
        pc: Option<u64>,
        line: u64,
        by: &C,
    ) -> Result<(), NoMemory>
        ensures { OnOk result ((cs : List Contribution) (more : Tally) → Adds (C.changed by.now) more → AreRows cs self.old.addresses.items self.old.lines.items → AreRows (cs ++ record { core = core; pc = pc; line = line; tally = more } ∷ []) self.new.addresses.items self.new.lines.items) }
    {
        change_where(alloc, &mut self.addresses, core, pc, by)?;
        change_in(alloc, &mut self.lines, core, line, by)?;
        Ok(())
    }

    /// The next line of a core, from this one on, to which something was added.
    pub(crate) fn next_line(&self, core: u16, from: u64) -> Option<u64>
        ensures { (cs : List Contribution) → AreRows cs self.now.addresses.items self.now.lines.items → IsNext (has_line cs core) from result }
    {
        let mut at = from;
        while let Some(line) = next_set(&self.lines, core, at) {
            if self.has_line(core, line) {
                return Some(line);
            }
            if line == u64::MAX {
                return None;
            }
            at = line + 1;
        }
        None
    }

    /// Whether something was added to a line of a core.
    fn has_line(&self, core: u16, line: u64) -> bool
        ensures { (cs : List Contribution) → AreRows cs self.now.addresses.items self.now.lines.items → result ≡ has_line cs core line }
    {
        is_something(&value_at(&self.lines, NONE, core, line))
    }
}

/// Changes the tally that a core has at a number.
#[inline(always)]
fn change_in<C: Change<Tally>>(
    alloc: Global,
    tables: &mut Vec<SparseTable<Tally>>,
    core: u16,
    number: u64,
    by: &C,
) -> Result<(), NoMemory>
    ensures values { OnOk result ((c n : ℕ) → value_at no_tally tables.new.items c n ≡ (if core == c && number == n then C.changed by.now (value_at no_tally tables.old.items c n) else value_at no_tally tables.old.items c n)) }
    ensures none { HaveNone no_tally tables.old.items → HaveNone no_tally tables.new.items }
{
    let place = usize::from(core);
    if place >= tables.len() {
        return change_first(alloc, tables, core, number, by);
    }
    change_there(tables, NONE, place, number, by)?;
    Ok(())
}

/// The same of a core that may have no table yet. It stands apart, since the empty tally, which new
/// tables get, would else be written out for each change.
#[inline(never)]
fn change_first<C: Change<Tally>>(
    alloc: Global,
    tables: &mut Vec<SparseTable<Tally>>,
    core: u16,
    number: u64,
    by: &C,
) -> Result<(), NoMemory>
    ensures values { OnOk result ((c n : ℕ) → value_at no_tally tables.new.items c n ≡ (if core == c && number == n then C.changed by.now (value_at no_tally tables.old.items c n) else value_at no_tally tables.old.items c n)) }
    ensures none { HaveNone no_tally tables.old.items → HaveNone no_tally tables.new.items }
{
    change_at(alloc, tables, NONE, core, number, by)?;
    Ok(())
}

/// The same as `change_in`, where there is a number.
#[inline(always)]
fn change_where<C: Change<Tally>>(
    alloc: Global,
    tables: &mut Vec<SparseTable<Tally>>,
    core: u16,
    number: Option<u64>,
    by: &C,
) -> Result<(), NoMemory>
    ensures values { OnOk result ((c n : ℕ) → value_at no_tally tables.new.items c n ≡ (if core == c && is_this number n then C.changed by.now (value_at no_tally tables.old.items c n) else value_at no_tally tables.old.items c n)) }
    ensures none { HaveNone no_tally tables.old.items → HaveNone no_tally tables.new.items }
{
    match number {
        Some(number) => change_in(alloc, tables, core, number, by),
        None => Ok(()),
    }
}
