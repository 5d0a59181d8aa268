//! Tables by core, each with values by number.
ghost use Rattle.std.specs.Prelude.{◌≡◌, ℕ, ◌<◌, ◌≤◌, ◌^◌, IfSome, OnErr, OnOk, length};
ghost use Rattle.sparse_table.specs.ByCore.{HaveNone, IsNextSet, value_at, with_one};

use crate::{Change, SparseTable, laws};
use std::alloc::Global;
use zs_num::NoMemory;

/// What a core has at a number, or `none`.
#[inline(always)]
pub fn value_at<T: Copy>(tables: &Vec<SparseTable<T>>, none: T, core: u16, number: u64) -> T
    ensures { result ≡ value_at none tables.now.items core number }
{
    let core = usize::from(core);
    if core < tables.len() {
        tables[core].get(number)
    } else {
        none
    }
}

/// Gives a core a value at a number. Where memory runs out, all values are as they were.
#[inline(always)]
pub fn set_at<T: Copy>(
    alloc: Global,
    tables: &mut Vec<SparseTable<T>>,
    none: T,
    core: u16,
    number: u64,
    value: T,
) -> Result<(), NoMemory>
    ensures ok { OnOk result ((c n : ℕ) → value_at none tables.new.items c n ≡ with_one core number value (value_at none tables.old.items) c n) }
    ensures err { OnErr result ((c n : ℕ) → value_at none tables.new.items c n ≡ value_at none tables.old.items c n) }
    ensures none { HaveNone none tables.old.items → HaveNone none tables.new.items }
{
    let core = usize::from(core);
    if core >= tables.len() {
        add_tables(alloc, tables, none, core)?;
    }
    set_there(tables, none, core, number, value)
}

/// The same of a core whose table is there.
#[inline(always)]
pub fn set_there<T: Copy>(
    tables: &mut Vec<SparseTable<T>>,
    none: T,
    core: usize,
    number: u64,
    value: T,
) -> Result<(), NoMemory>
    requires { core < length tables.old.items }
    ensures ok { OnOk result ((c n : ℕ) → value_at none tables.new.items c n ≡ with_one core number value (value_at none tables.old.items) c n) }
    ensures err { OnErr result ((c n : ℕ) → value_at none tables.new.items c n ≡ value_at none tables.old.items c n) }
    ensures count { length tables.new.items ≡ length tables.old.items }
    ensures none { HaveNone none tables.old.items → HaveNone none tables.new.items }
{
    laws::set_gives_back::<T>();
    laws::others_stay::<T>();
    let table = &mut tables[core];
    table.set(number, value)?;
    Ok(())
}

/// Changes what a core has at a number, where it is. Where memory runs out, all values are as they
/// were.
#[inline(always)]
pub fn change_at<T: Copy, C: Change<T>>(
    alloc: Global,
    tables: &mut Vec<SparseTable<T>>,
    none: T,
    core: u16,
    number: u64,
    by: &C,
) -> Result<(), NoMemory>
    ensures ok { OnOk result ((c n : ℕ) → value_at none tables.new.items c n ≡ with_one core number (C.changed by.now (value_at none tables.old.items core number)) (value_at none tables.old.items) c n) }
    ensures err { OnErr result ((c n : ℕ) → value_at none tables.new.items c n ≡ value_at none tables.old.items c n) }
    ensures none { HaveNone none tables.old.items → HaveNone none tables.new.items }
{
    let core = usize::from(core);
    if core >= tables.len() {
        add_tables(alloc, tables, none, core)?;
    }
    change_there(tables, none, core, number, by)
}

/// The same of a core whose table is there.
#[inline(always)]
pub fn change_there<T: Copy, C: Change<T>>(
    tables: &mut Vec<SparseTable<T>>,
    none: T,
    core: usize,
    number: u64,
    by: &C,
) -> Result<(), NoMemory>
    requires { core < length tables.old.items }
    ensures ok { OnOk result ((c n : ℕ) → value_at none tables.new.items c n ≡ with_one core number (C.changed by.now (value_at none tables.old.items core number)) (value_at none tables.old.items) c n) }
    ensures err { OnErr result ((c n : ℕ) → value_at none tables.new.items c n ≡ value_at none tables.old.items c n) }
    ensures count { length tables.new.items ≡ length tables.old.items }
    ensures none { HaveNone none tables.old.items → HaveNone none tables.new.items }
{
    laws::set_gives_back::<T>();
    laws::others_stay::<T>();
    let table = &mut tables[core];
    table.change(number, by)?;
    Ok(())
}

/// Adds empty tables, up to that of this core.
#[inline(never)]
fn add_tables<T: Copy>(
    alloc: Global,
    tables: &mut Vec<SparseTable<T>>,
    none: T,
    core: usize,
) -> Result<(), NoMemory>
    requires { core < 2 ^ 16 }
    ensures there { OnOk result (core < length tables.new.items) }
    ensures same { (c n : ℕ) → value_at none tables.new.items c n ≡ value_at none tables.old.items c n }
    ensures none { HaveNone none tables.old.items → HaveNone none tables.new.items }
{
    while tables.len() <= core {
        tables.push(SparseTable::new(alloc, none))?;
    }
    Ok(())
}

/// The next number of a core, from this one on, that was set.
pub fn next_set<T: Copy>(tables: &Vec<SparseTable<T>>, core: u16, from: u64) -> Option<u64>
    ensures behind { IfSome result (λ next. from ≤ next) }
    ensures last { (none : T) → HaveNone none tables.now.items → (n : ℕ) → 2 ^ 64 ≤ n → value_at none tables.now.items core n ≡ none }
    ensures next { (none : T) → HaveNone none tables.now.items → IsNextSet none tables.now.items core from result }
{
    let core = usize::from(core);
    if core < tables.len() {
        let table = &tables[core];
        table.entries_rise();
        table.next(from)
    } else {
        None
    }
}
