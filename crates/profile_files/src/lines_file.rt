//! lines.csv: what was counted of each line.
ghost use Rattle.std.specs.Prelude.{◌≡◌, ◌++◌, codes, IfOk, OnOk, map, string_bytes};
ghost use Rattle.std.specs.List.{flat_map};
ghost use Rattle.profile_rows.specs.Tallies.{capped_wide};
ghost use Rattle.profile_files.specs.Groups.{AreGroups, rows_of};
ghost use Rattle.profile_files.specs.LinesFile.{line_columns, line_place, line_row, lines_head, lines_text, mask, row_cost};
ghost use Rattle.profile_files.specs.Numbers.{marked};

use crate::groups::{Group, groups, sort};
use crate::numbers::{write_accesses, write_in_hexadecimal, write_marked};
use profile_rows::LineRow;
use report::write_hexadecimal;
use std::alloc::{AllocError, Global};
use zs_num::{Bytes, NoMemory};

/// The rows of lines, those of the line that cost most first. Rows of a line follow each other.
#[tactic(auto, unfolding(crate::specs::LinesFile::lines_text))]
pub fn lines(alloc: Global, rows: &[LineRow]) -> Result<Bytes, NoMemory>
    ensures { IfOk result (λ text. text ≡ lines_text rows.now) }
{
    let mut groups = groups(alloc, rows)?;
    sort(&mut groups)?;
    let mut text = String::new(alloc);
    write_head(&mut text)?;
    write_groups(&mut text, rows, &groups)?;
    Ok(Bytes::of(text.into_bytes()))
}

#[tactic(auto, unfolding(crate::specs::LinesFile::lines_head))]
fn write_head(text: &mut String) -> Result<(), AllocError>
    ensures { OnOk result (string_bytes text.new ≡ string_bytes text.old ++ lines_head) }
{
    text.push_str(
        "line,core,loads,stores,atomics,fetches,hits,upgrades,l2hits,misses,\
         cold,coherence,inclusion,eviction,invalidating,invalidated,downgrading,lost,lowered,\
         cycles,missing,waited,cost,read,written\n",
    )
}

/// Writes the rows of each group.
fn write_groups(text: &mut String, rows: &[LineRow], groups: &[Group]) -> Result<(), AllocError>
    requires { AreGroups rows.now groups.now }
    ensures { OnOk result (string_bytes text.new ≡ string_bytes text.old
        ++ flat_map (flat_map line_row) (map (rows_of rows.now) groups.now)) }
{
    for group in groups {
        write_rows(text, &rows[group.first..group.first + group.count])?;
    }
    Ok(())
}

fn write_rows(text: &mut String, rows: &[LineRow]) -> Result<(), AllocError>
    ensures { OnOk result (string_bytes text.new ≡ string_bytes text.old ++ flat_map line_row rows.now) }
{
    for row in rows {
        write_row(text, row)?;
    }
    Ok(())
}

#[tactic(auto, unfolding(crate::specs::LinesFile::line_row))]
fn write_row(text: &mut String, row: &LineRow) -> Result<(), AllocError>
    ensures { OnOk result (string_bytes text.new ≡ string_bytes text.old ++ line_row row.now) }
{
    write_place(text, row)?;
    write_accesses(text, &row.tally)?;
    write_columns(text, row)?;
    write_mask(text, row.read)?;
    write_mask(text, row.written)?;
    text.push_str("\n")
}

/// Writes the address of a line, and the core.
#[tactic(auto, unfolding(crate::specs::LinesFile::line_place))]
fn write_place(text: &mut String, row: &LineRow) -> Result<(), AllocError>
    ensures { OnOk result (string_bytes text.new ≡ string_bytes text.old ++ line_place row.now) }
{
    write_in_hexadecimal(text, row.line.saturating_mul(64))?;
    write!(text, ",{}", row.core)
}

/// Writes the numbers behind those of the accesses.
#[tactic(auto, unfolding(crate::specs::LinesFile::line_columns))]
fn write_columns(text: &mut String, row: &LineRow) -> Result<(), AllocError>
    ensures { OnOk result (string_bytes text.new ≡ string_bytes text.old ++ marked (codes ",") (line_columns row.now)) }
{
    let numbers = [
        u128::from(row.tally.cold),
        u128::from(row.tally.coherence),
        u128::from(row.tally.inclusion),
        u128::from(row.tally.eviction),
        u128::from(row.tally.invalidating),
        u128::from(row.tally.invalidated),
        u128::from(row.tally.downgrades),
        u128::from(row.tally.lost),
        u128::from(row.tally.lowered),
        u128::from(row.tally.cycles),
        u128::from(row.tally.missing),
        row.tally.waited,
        row_cost(row),
    ];
    write_marked(text, ",", &numbers)
}

/// What a row cost.
fn row_cost(row: &LineRow) -> u128
    ensures { result ≡ capped_wide (row_cost row.now) }
{
    u128::from(row.tally.missing).saturating_add(row.tally.waited)
}

/// Writes which bytes of a line are meant.
#[tactic(auto, unfolding(crate::specs::LinesFile::mask))]
fn write_mask(text: &mut String, bytes: u64) -> Result<(), AllocError>
    ensures { OnOk result (string_bytes text.new ≡ string_bytes text.old ++ mask bytes) }
{
    write_hexadecimal(text, ",0x", 16, bytes)
}
