//! Writes a schedule.
ghost use Rattle.std.specs.Prelude.{◌≡◌, ◌<◌, ◌^◌, ◌++◌, length, IfOk, OnOk};
ghost use Rattle.byteorder.specs.Endian.{little_bytes};
ghost use Rattle.schedule_file.specs.ScheduleFile.{header_bytes, list_bytes, schedule_file_of, width_for};

use crate::MAGIC;
use crate::version::{is_wide, version};
use access_log::Schedule;
use std::alloc::Global;
use zs_num::{Bytes, NoMemory};

/// The file of a schedule: of version 1 for at most 64 cores, of version 2 for more.
pub fn write(alloc: Global, schedule: &Schedule) -> Result<Bytes, NoMemory>
    ensures { IfOk result (λ bytes. bytes ≡ schedule_file_of schedule.now) }
{
    let mut out = header(alloc, schedule)?;
    for k in 0..schedule.intervals() {
        put_list(&mut out, schedule.list(k), schedule.cores())?;
    }
    Ok(Bytes::of(out))
}

/// The magic, the version, how many cores there are, and how many intervals.
#[tactic(auto, unfolding(crate::specs::ScheduleFile::header_bytes))]
fn header(alloc: Global, schedule: &Schedule) -> Result<Vec<u8>, NoMemory>
    ensures { IfOk result (λ out. out.items ≡ header_bytes schedule.now) }
{
    let mut out = Vec::from_slice(alloc, &MAGIC)?;
    put_number(&mut out, version(schedule.cores()))?;
    put_number(&mut out, u32::from(schedule.cores()))?;
    put_number(&mut out, schedule.intervals())?;
    Ok(out)
}

fn put_number(out: &mut Vec<u8>, number: u32) -> Result<(), NoMemory>
    ensures { OnOk result (out.new.items ≡ out.old.items ++ little_bytes 4 number) }
{
    out.extend_from_slice(&number.to_le_bytes())?;
    Ok(())
}

/// How many turns a list has, and the core of each.
fn put_list(out: &mut Vec<u8>, turns: &[u16], cores: u16) -> Result<(), NoMemory>
    requires { length turns.now < 2 ^ 32 }
    ensures { OnOk result (out.new.items ≡ out.old.items ++ list_bytes (width_for cores) turns.now) }
{
    put_number(out, turns.len() as u32)?;
    for core in turns {
        put_core(out, *core, cores)?;
    }
    Ok(())
}

/// The number of a core, in one byte or in two.
#[tactic(auto, unfolding(crate::specs::ScheduleFile::width_for))]
fn put_core(out: &mut Vec<u8>, core: u16, cores: u16) -> Result<(), NoMemory>
    ensures { OnOk result (out.new.items ≡ out.old.items ++ little_bytes (width_for cores) core) }
{
    let bytes = core.to_le_bytes();
    out.push(bytes[0])?;
    if is_wide(cores) {
        out.push(bytes[1])?;
    }
    Ok(())
}
