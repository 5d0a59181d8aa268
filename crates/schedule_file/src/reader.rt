//! Reads a schedule from front to back.
ghost use Rattle.std.specs.Prelude.{◌≡◌, ◌≤◌, ◌<◌, ◌+◌, ◌*◌, ◌^◌, All, length, take, drop, vec_len, nat_le, IfOk, IfErr, IfSome, Ok, Err, None};
ghost use Rattle.std.specs.List.{position};
ghost use Rattle.schedule_file.specs.ScheduleFile.{field_at, numbers_of, read_number, schedule_of, turns_from, count_of, width_for};
ghost use Rattle.schedule_file.specs.Answers.{AnswersAs};

use crate::version::{is_wide, turns_len, version};
use crate::{BadSchedule, MAGIC, ScheduleReadFail};
use access_log::Schedule;
use byteorder::{ByteOrder, LittleEndian};
use std::alloc::Global;
use zs_num::NoMemory;

/// Where the lists of the intervals begin.
const HEADER_LEN: usize = 16;

/// The schedule of a file for a machine of so many cores, or the first thing that is wrong with the
/// file.
#[tactic(auto, unfolding(crate::specs::ScheduleFile::schedule_of))]
pub fn read(alloc: Global, bytes: &[u8], cores: u16) -> Result<Schedule, ScheduleReadFail>
    ensures { AnswersAs (λ s. s) result (schedule_of cores bytes.now) }
{
    let count = intervals(bytes, cores)?;
    let mut schedule = Schedule::new(alloc, cores);
    let mut at = HEADER_LEN;
    for interval in 0..count {
        let turns = turns(alloc, bytes, cores, interval, at)?;
        at += 4 + turns_len(cores, turns.len());
        schedule.push(turns)?;
    }
    if at == bytes.len() {
        Ok(schedule)
    } else {
        Err(BadSchedule::After { at: at as u64 }.into())
    }
}

/// How many intervals the header names, of a schedule for so many cores.
#[tactic(auto, unfolding(crate::specs::ScheduleFile::count_of))]
fn intervals(bytes: &[u8], cores: u16) -> Result<u32, BadSchedule>
    ensures value { result ≡ count_of cores bytes.now }
    ensures within { IfOk result (λ count. 16 ≤ length bytes.now) }
{
    if field(bytes, 0, MAGIC.len())? != MAGIC.as_slice() {
        return Err(BadSchedule::Magic);
    }
    let found = number(bytes, 4)?;
    if found != version(cores) {
        return Err(BadSchedule::Version { found });
    }
    let found = number(bytes, 8)?;
    if found != u32::from(cores) {
        return Err(BadSchedule::Cores { found });
    }
    number(bytes, 12)
}

/// The list of an interval, which begins at this byte.
#[tactic(auto, unfolding(crate::specs::ScheduleFile::turns_from))]
fn turns(
    alloc: Global,
    bytes: &[u8],
    cores: u16,
    interval: u32,
    at: usize,
) -> Result<Vec<u16>, ScheduleReadFail>
    requires { at ≤ length bytes.now }
    ensures known { IfOk result (λ v. All (λ core. core < cores) v.items) }
    ensures within { IfOk result (λ v. at + (4 + width_for cores * vec_len v) ≤ length bytes.now) }
    ensures short { IfOk result (λ v. vec_len v < 2 ^ 32) }
    ensures turns { AnswersAs (λ v. v.items) result (turns_from cores bytes.now interval at) }
{
    let count = number(bytes, at)? as usize;
    let list = field(bytes, at + 4, turns_len(cores, count))?;
    let turns = numbers(alloc, list, cores, count)?;
    match stranger(&turns, cores) {
        Some(place) => Err(BadSchedule::Core {
            interval,
            place: place as u32,
        }
        .into()),
        None => Ok(turns),
    }
}

/// The first place of a list whose number is that of no core.
fn stranger(turns: &[u16], cores: u16) -> Option<usize>
    ensures value { result ≡ position (nat_le cores) turns.now }
    ensures bound { IfSome result (λ place. place < length turns.now) }
    ensures none { result ≡ None → All (λ core. core < cores) turns.now }
{
    turns.iter().position(|core| cores <= *core)
}

/// So many numbers of cores, of which a list consists.
#[tactic(auto, unfolding(crate::specs::ScheduleFile::width_for))]
fn numbers(alloc: Global, list: &[u8], cores: u16, count: usize) -> Result<Vec<u16>, NoMemory>
    requires { length list.now ≡ width_for cores * count }
    ensures value { IfOk result (λ v. v.items ≡ numbers_of (width_for cores) count list.now) }
    ensures count { IfOk result (λ v. vec_len v ≡ count) }
{
    if is_wide(cores) {
        two_byte_numbers(alloc, list, count)
    } else {
        one_byte_numbers(alloc, list)
    }
}

/// The numbers of a list of bytes, one in each.
fn one_byte_numbers(alloc: Global, list: &[u8]) -> Result<Vec<u16>, NoMemory>
    ensures { IfOk result (λ wide. wide.items ≡ list.now) }
{
    let wide = list.iter().map(|core| u16::from(*core)).collect(alloc)?;
    Ok(wide)
}

/// So many numbers of two bytes each.
fn two_byte_numbers(alloc: Global, list: &[u8], count: usize) -> Result<Vec<u16>, NoMemory>
    requires { length list.now ≡ 2 * count }
    ensures { IfOk result (λ wide. wide.items ≡ numbers_of 2 count list.now) }
{
    let mut wide = Vec::with_capacity(alloc, count)?;
    for k in 0..count {
        wide.push(LittleEndian::read_u16(&list[2 * k..]))?;
    }
    Ok(wide)
}

/// The number at this byte.
fn number(bytes: &[u8], at: usize) -> Result<u32, BadSchedule>
    requires { at ≤ length bytes.now + 16 }
    ensures value { result ≡ read_number bytes.now at }
    ensures within { IfOk result (λ number. at + 4 ≤ length bytes.now) }
{
    Ok(LittleEndian::read_u32(field(bytes, at, 4)?))
}

/// So many bytes from this one on.
fn field(bytes: &[u8], at: usize, count: usize) -> Result<&[u8], BadSchedule>
    requires place { at ≤ length bytes.now + 16 }
    requires count { count < 2 ^ 33 }
    ensures ok { IfOk result (λ field. field_at bytes.now at count ≡ Ok field.now) }
    ensures err { IfErr result (λ wrong. field_at bytes.now at count ≡ Err wrong) }
{
    if at + count <= bytes.len() {
        Ok(&bytes[at..at + count])
    } else {
        Err(BadSchedule::Short { at: at as u64 })
    }
}
