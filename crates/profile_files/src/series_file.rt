//! series.csv: what was counted interval by interval.
ghost use Rattle.std.specs.Prelude.{◌≡◌, ◌++◌, All, IfOk, IfSome, OnOk, length, string_bytes};
ghost use Rattle.std.specs.List.{flat_map};
ghost use Rattle.machine_desc.specs.Components.{component_count};
ghost use Rattle.machine_desc.specs.Machine.{IsMesh};
ghost use Rattle.profile_files.specs.SeriesFile.{all_waits, numbered, series_columns, series_head, series_row, series_text};

use crate::numbers::{write_accesses, write_marked};
use machine_desc::{Machine, link_count};
use profile_rows::SeriesRow;
use std::alloc::{AllocError, Global};
use zs_num::{Bytes, NoMemory};

/// The rows in the order in which they are given, with the waiting at each component of the machine.
#[tactic(auto, unfolding(crate::specs::SeriesFile::series_text))]
pub fn series(alloc: Global, machine: &Machine, rows: &[SeriesRow]) -> Result<Bytes, NoMemory>
    requires mesh { IfSome machine.now.mesh IsMesh }
    requires waits { All (λ row. length row.waits.items ≡ component_count machine.now) rows.now }
    ensures { IfOk result (λ text. text ≡ series_text machine.now rows.now) }
{
    let mut text = String::new(alloc);
    write_head(&mut text, machine)?;
    write_rows(&mut text, rows)?;
    Ok(Bytes::of(text.into_bytes()))
}

fn write_rows(text: &mut String, rows: &[SeriesRow]) -> Result<(), AllocError>
    ensures { OnOk result (string_bytes text.new ≡ string_bytes text.old ++ flat_map series_row rows.now) }
{
    for row in rows {
        write_row(text, row)?;
    }
    Ok(())
}

fn write_head(text: &mut String, machine: &Machine) -> Result<(), AllocError>
    requires { IfSome machine.now.mesh IsMesh }
    ensures { OnOk result (string_bytes text.new ≡ string_bytes text.old ++ series_head machine.now) }
{
    write_columns(text)?;
    write_numbered(text, "bank", machine.l2.banks)?;
    write_numbered(text, "controller", machine.controllers.count)?;
    write_numbered(text, "link", link_count(machine))?;
    text.push_str("\n")
}

#[tactic(auto, unfolding(crate::specs::SeriesFile::series_columns))]
fn write_columns(text: &mut String) -> Result<(), AllocError>
    ensures { OnOk result (string_bytes text.new ≡ string_bytes text.old ++ series_columns) }
{
    text.push_str(
        "interval,intervals,instructions,loads,stores,atomics,fetches,\
         hits,upgrades,l2hits,misses,events,waited",
    )
}

/// Writes the names of so many components of a kind.
fn write_numbered(text: &mut String, kind: &str, count: u16) -> Result<(), AllocError>
    ensures { OnOk result (string_bytes text.new ≡ string_bytes text.old ++ numbered kind.now count) }
{
    for n in 0..count {
        write!(text, ",{kind}{n}")?;
    }
    Ok(())
}

#[tactic(auto, unfolding(crate::specs::SeriesFile::series_row))]
fn write_row(text: &mut String, row: &SeriesRow) -> Result<(), AllocError>
    ensures { OnOk result (string_bytes text.new ≡ string_bytes text.old ++ series_row row.now) }
{
    write!(text, "{}", row.first)?;
    write_marked(
        text,
        ",",
        &[u128::from(row.intervals), u128::from(row.instructions)],
    )?;
    write_accesses(text, &row.tally)?;
    write_marked(text, ",", &[u128::from(row.events), all_waits(row)])?;
    write_marked(text, ",", &row.waits)?;
    text.push_str("\n")
}

/// How many cycles events waited at all components.
fn all_waits(row: &SeriesRow) -> u128
    ensures { result ≡ all_waits row.now }
{
    let mut sum: u128 = 0;
    for wait in &row.waits {
        sum = sum.saturating_add(*wait);
    }
    sum
}
