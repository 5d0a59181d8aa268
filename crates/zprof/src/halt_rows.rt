//! Where each core was at the end.
ghost use Rattle.std.specs.Prelude.{◌≡◌, ◌≤◌, IfOk, length, map};
ghost use Rattle.rv_core.specs.Sound.{IsSoundCore};
ghost use Rattle.zprof.specs.HaltRows.{AreHaltRows, IsHaltRow, next_at};

use bound_core::BoundCore;
use last_jumps::LastJumps;
use profile_rows::HaltRow;
use replay::Final;
use rv_core::{Core, Why};
use std::alloc::Global;
use zs_num::NoMemory;

/// The row of each core at the end of a run of 256 cores at most.
pub fn halt_rows(
    alloc: Global,
    results: &Final,
    jumps: &LastJumps,
) -> Result<Vec<HaltRow>, NoMemory>
    requires { length results.now.cores ≤ 256 }
    ensures { IfOk result (λ rows. AreHaltRows jumps.now results.now.cores rows.items) }
{
    rows_of(alloc, &results.cores, jumps)
}

/// The row of each of these cores.
fn rows_of(alloc: Global, cores: &[BoundCore], jumps: &LastJumps) -> Result<Vec<HaltRow>, NoMemory>
    requires { length cores.now ≤ 256 }
    ensures { IfOk result (λ rows. AreHaltRows jumps.now (map (λ c. c.timed) cores.now) rows.items) }
{
    let mut rows = Vec::new(alloc);
    for core in cores {
        let number = rows.len() as u16;
        rows.push(halt_row(alloc, number, core, jumps)?)?;
    }
    Ok(rows)
}

/// The row of a core.
fn halt_row(
    alloc: Global,
    number: u16,
    core: &BoundCore,
    jumps: &LastJumps,
) -> Result<HaltRow, NoMemory>
    ensures { IfOk result (λ row. IsHaltRow jumps.now number core.now.timed row) }
{
    let core = core.core();
    let (halted, pc) = (core.halted(), core.pc());
    Ok(HaltRow {
        core: number,
        halted,
        pc,
        registers: registers(alloc, core)?,
        jumps: jumps.jumps(alloc, number, next_at(halted, pc))?,
    })
}

/// The address of the next instruction, or of the one that halted the core by a fault. None comes
/// behind the call by which a core exits.
fn next_at(halted: Option<Why>, pc: u64) -> Option<u64>
    ensures { result ≡ next_at halted pc }
{
    match halted {
        Some(Why::Exit(_)) => None,
        _ => Some(pc),
    }
}

/// The numbers in the registers of a core.
fn registers(alloc: Global, core: &Core) -> Result<Vec<u64>, NoMemory>
    requires { IsSoundCore core.now }
    ensures { IfOk result (λ all. all.items ≡ core.now.registers) }
{
    let mut all = Vec::new(alloc);
    for number in 0..32 {
        all.push(core.reg(number))?;
    }
    Ok(all)
}
