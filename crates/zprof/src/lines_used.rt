//! The rows of lines with the bytes that were used.
ghost use Rattle.std.specs.Prelude.{◌≡◌, ℕ, IfOk, Some, length, slice_get};
ghost use Rattle.profile_rows.specs.declared.line_row.LineRow.{LineRow};
ghost use Rattle.zprof.specs.LinesUsed.{AreLinesUsed, IsUsed};

use line_use::LineUse;
use profile::Profile;
use profile_rows::LineRow;
use std::alloc::Global;
use zs_num::NoMemory;

/// The rows of a profile by line and core, with the bytes that each core read and wrote.
pub fn lines_used(
    alloc: Global,
    profile: &Profile,
    uses: &LineUse,
) -> Result<Vec<LineRow>, NoMemory>
    requires { uses.now ≡ profile.now.steps }
    ensures { IfOk result (λ rows. AreLinesUsed profile.now rows.items) }
{
    let counted = profile.line_tallies(alloc)?;
    with_bytes(alloc, &counted, uses)
}

/// These rows with the bytes of each.
fn with_bytes(alloc: Global, counted: &[LineRow], uses: &LineUse) -> Result<Vec<LineRow>, NoMemory>
    ensures count { IfOk result (λ rows. length rows.items ≡ length counted.now) }
    ensures each { IfOk result (λ rows. (n : ℕ) (before row : LineRow) → slice_get counted.now n ≡ Some before → slice_get rows.items n ≡ Some row → IsUsed uses.now before row) }
{
    let mut rows = Vec::new(alloc);
    for row in counted {
        rows.push(used(row, uses))?;
    }
    Ok(rows)
}

/// A row with the bytes that its core read and wrote.
fn used(counted: &LineRow, uses: &LineUse) -> LineRow
    ensures { IsUsed uses.now counted.now result }
{
    let LineRow {
        line,
        core,
        tally,
        ..
    } = *counted;
    LineRow {
        line,
        core,
        tally,
        read: uses.read(core, line),
        written: uses.written(core, line),
    }
}
