//! What all cores use of all lines.
ghost use Rattle.std.specs.Prelude.{◌≡◌, ℕ, OnErr, OnOk};
ghost use Rattle.line_use.specs.Right.{AddsUse, unused};
ghost use Rattle.sparse_table.specs.ByCore.{value_at, with_one};

use crate::line_bytes::{LineBytes, UNUSED};
use sparse_table::SparseTable;
use sparse_table::by_core::{set_at, value_at};
use std::alloc::Global;
use zs_num::{NoMemory, Request};

/// Adds the bytes of an access of a core. Nothing is written where all of them were there.
#[inline(always)]
pub(crate) fn add_use(
    alloc: Global,
    uses: &mut Vec<SparseTable<LineBytes>>,
    core: u16,
    request: &Request,
) -> Result<(), NoMemory>
    ensures ok { OnOk result (AddsUse core request.now (value_at unused uses.old.items) (value_at unused uses.new.items)) }
    ensures err { OnErr result ((c n : ℕ) → value_at unused uses.new.items c n ≡ value_at unused uses.old.items c n) }
{
    let line = request.line();
    let before = value_at(uses, UNUSED, core, line);
    let after = before.and(LineBytes::of(request));
    if after.is(before) {
        return Ok(());
    }
    keep(alloc, uses, core, line, after)
}

/// Keeps what a core uses of a line.
#[inline(never)]
fn keep(
    alloc: Global,
    uses: &mut Vec<SparseTable<LineBytes>>,
    core: u16,
    line: u64,
    bytes: LineBytes,
) -> Result<(), NoMemory>
    ensures ok { OnOk result ((c n : ℕ) → value_at unused uses.new.items c n ≡ with_one core line bytes (value_at unused uses.old.items) c n) }
    ensures err { OnErr result ((c n : ℕ) → value_at unused uses.new.items c n ≡ value_at unused uses.old.items c n) }
{
    set_at(alloc, uses, UNUSED, core, line, bytes)
}
