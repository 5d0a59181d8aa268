//! halts.txt: where each core was at the end.
ghost use Rattle.std.specs.Prelude.{◌≡◌, ◌++◌, IfOk, OnOk, string_bytes};
ghost use Rattle.std.specs.List.{flat_map};
ghost use Rattle.report.specs.ReportText.{numbered_lines};
ghost use Rattle.profile_files.specs.HaltsFile.{halt_head, halt_lines, halts_text, jump_line, register_line};

use crate::numbers::write_in_hexadecimal;
use profile_rows::{HaltRow, Jump};
use report::write_halt;
use std::alloc::{AllocError, Global};
use zs_num::{Bytes, NoMemory};

/// The cores in the order in which they are given.
#[tactic(auto, unfolding(crate::specs::HaltsFile::halts_text))]
pub fn halts(alloc: Global, rows: &[HaltRow]) -> Result<Bytes, NoMemory>
    ensures { IfOk result (λ text. text ≡ halts_text rows.now) }
{
    let mut text = String::new(alloc);
    for row in rows {
        write_core(&mut text, row)?;
    }
    Ok(Bytes::of(text.into_bytes()))
}

fn write_core(text: &mut String, row: &HaltRow) -> Result<(), AllocError>
    ensures { OnOk result (string_bytes text.new ≡ string_bytes text.old ++ halt_lines row.now) }
{
    write_head(text, row)?;
    write_registers(text, &row.registers)?;
    write_jumps(text, &row.jumps)
}

#[tactic(auto, unfolding(crate::specs::HaltsFile::halt_head))]
fn write_head(text: &mut String, row: &HaltRow) -> Result<(), AllocError>
    ensures { OnOk result (string_bytes text.new ≡ string_bytes text.old ++ halt_head row.now) }
{
    write!(text, "core {}\nhalt ", row.core)?;
    write_halt(text, row.halted)?;
    write!(text, "\npc 0x{:x}\n", row.pc)
}

fn write_registers(text: &mut String, registers: &[u64]) -> Result<(), AllocError>
    ensures { OnOk result (string_bytes text.new ≡ string_bytes text.old ++ numbered_lines register_line 0 registers.now) }
{
    for (n, value) in registers.iter().enumerate() {
        write_register(text, n, *value)?;
    }
    Ok(())
}

#[tactic(auto, unfolding(crate::specs::HaltsFile::register_line))]
fn write_register(text: &mut String, number: usize, value: u64) -> Result<(), AllocError>
    ensures { OnOk result (string_bytes text.new ≡ string_bytes text.old ++ register_line number value) }
{
    write!(text, "x{number} 0x{value:x}\n")
}

fn write_jumps(text: &mut String, jumps: &[Jump]) -> Result<(), AllocError>
    ensures { OnOk result (string_bytes text.new ≡ string_bytes text.old ++ flat_map jump_line jumps.now) }
{
    for jump in jumps {
        write_jump(text, jump)?;
    }
    Ok(())
}

#[tactic(auto, unfolding(crate::specs::HaltsFile::jump_line))]
fn write_jump(text: &mut String, jump: &Jump) -> Result<(), AllocError>
    ensures { OnOk result (string_bytes text.new ≡ string_bytes text.old ++ jump_line jump.now) }
{
    let Jump { from, to } = *jump;
    write!(text, "jump 0x{from:x} 0x{to:x}\n")
}
