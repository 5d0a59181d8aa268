//! callgrind.out: what was counted of each instruction.
ghost use Rattle.std.specs.Prelude.{◌≡◌, ◌++◌, IfOk, None, OnOk, string_bytes};
ghost use Rattle.profile_files.specs.CallgrindFile.{address_line, address_lines, callgrind_head, callgrind_text, heading, new_heading, totals_line};

use crate::numbers::{write_in_hexadecimal, write_marked};
use crate::totals::{columns, totals};
use profile_rows::AddressRow;
use std::alloc::{AllocError, Global};
use zs_num::{Bytes, NoMemory};

/// The instructions in the order in which they are given, with the sums of all in the last line.
#[tactic(auto, unfolding(crate::specs::CallgrindFile::callgrind_text))]
pub fn callgrind(alloc: Global, rows: &[AddressRow]) -> Result<Bytes, NoMemory>
    ensures { IfOk result (λ text. text ≡ callgrind_text rows.now) }
{
    let mut text = String::new(alloc);
    write_head(&mut text)?;
    write_rows(&mut text, rows)?;
    write_totals(&mut text, rows)?;
    Ok(Bytes::of(text.into_bytes()))
}

#[tactic(auto, unfolding(crate::specs::CallgrindFile::callgrind_head))]
fn write_head(text: &mut String) -> Result<(), AllocError>
    ensures { OnOk result (string_bytes text.new ≡ string_bytes text.old ++ callgrind_head) }
{
    text.push_str(
        "# callgrind format\nversion: 1\ncreator: zprof\npositions: instr\n\
         events: Ir Loads Stores Atomics Fetches Hits Upgrades L2hits Misses Cycles Waited\n\n",
    )
}

fn write_rows(text: &mut String, rows: &[AddressRow]) -> Result<(), AllocError>
    ensures { OnOk result (string_bytes text.new ≡ string_bytes text.old ++ address_lines None rows.now) }
{
    let mut before = None;
    for row in rows {
        write_new_heading(text, before, row.core)?;
        write_row(text, row)?;
        before = Some(row.core);
    }
    Ok(())
}

/// Writes who executed the instructions that follow, unless the row before said so.
#[tactic(auto, unfolding(crate::specs::CallgrindFile::new_heading))]
fn write_new_heading(
    text: &mut String,
    before: Option<Option<u16>>,
    core: Option<u16>,
) -> Result<(), AllocError>
    ensures { OnOk result (string_bytes text.new ≡ string_bytes text.old ++ new_heading before core) }
{
    if before == Some(core) {
        return Ok(());
    }
    write_heading(text, core)
}

/// Writes who executed the instructions that follow.
#[tactic(auto, unfolding(crate::specs::CallgrindFile::heading))]
fn write_heading(text: &mut String, core: Option<u16>) -> Result<(), AllocError>
    ensures { OnOk result (string_bytes text.new ≡ string_bytes text.old ++ heading core) }
{
    match core {
        None => text.push_str("ob=cores\nfl=???\nfn=???\n"),
        Some(number) => write!(text, "ob=core {number}\nfl=???\nfn=???\n"),
    }
}

#[tactic(auto, unfolding(crate::specs::CallgrindFile::address_line))]
fn write_row(text: &mut String, row: &AddressRow) -> Result<(), AllocError>
    ensures { OnOk result (string_bytes text.new ≡ string_bytes text.old ++ address_line row.now) }
{
    write_in_hexadecimal(text, row.pc)?;
    write_marked(text, " ", &columns(row))?;
    text.push_str("\n")
}

fn write_totals(text: &mut String, rows: &[AddressRow]) -> Result<(), AllocError>
    ensures { OnOk result (string_bytes text.new ≡ string_bytes text.old ++ totals_line rows.now) }
{
    text.push_str("totals:")?;
    write_marked(text, " ", &totals(rows))?;
    text.push_str("\n")
}
