//! Reads an events file from front to back, and keeps nothing of it but how much it has.
ghost use Rattle.std.specs.Prelude.{◌≡◌, ◌≤◌, ◌<◌, ◌+◌, ◌*◌, ◌^◌, length, sum_by, IfOk, IfErr, Ok, Err};
ghost use Rattle.certify.specs.EventsFile.{count_of, events_of, field_at, interval_from, read_event, read_number, then_read};

use crate::numbers::numbers_of;
use crate::record::RECORD_LEN;
use crate::{BadEvents, MAGIC, VERSION};
use byteorder::{ByteOrder, LittleEndian};
use component::Comp;

/// Where the intervals begin.
pub(crate) const HEADER_LEN: usize = 16;

/// How many intervals a file has, and how many events together.
#[derive(Clone, Copy)]
pub(crate) struct Counts {
    /// How many intervals, 0 to 2^26.
    pub(crate) intervals: u32,
    /// How many events in all intervals together, 0 to 2^22.
    pub(crate) events: u32,
}

/// How much a file has that is for these components, or the first thing that is wrong with it.
#[tactic(auto, unfolding(crate::specs::EventsFile::events_of))]
pub(crate) fn measure(file: &[u8], comps: &[Comp]) -> Result<Counts, BadEvents>
    requires { length file.now ≤ 2 ^ 28 }
    ensures { result ≡ then_read (events_of comps.now file.now) (λ intervals. Ok (record { intervals = length intervals; events = sum_by length intervals })) }
{
    let intervals = intervals(file, comps.len())?;
    let mut at = HEADER_LEN;
    let mut events = 0;
    for interval in 0..intervals {
        let count = interval_len(file, comps, interval, at)?;
        at += 4 + RECORD_LEN * count as usize;
        events += count;
    }
    if at == file.len() {
        Ok(Counts { intervals, events })
    } else {
        Err(BadEvents::After { at: at as u64 })
    }
}

/// How many intervals the header names, of a file for so many components.
#[tactic(auto, unfolding(crate::specs::EventsFile::count_of))]
fn intervals(file: &[u8], components: usize) -> Result<u32, BadEvents>
    ensures value { result ≡ count_of components file.now }
    ensures within { IfOk result (λ count. 16 ≤ length file.now) }
{
    if field(file, 0, MAGIC.len())? != MAGIC.as_slice() {
        return Err(BadEvents::Magic);
    }
    let found = number(file, 4)?;
    if found != VERSION {
        return Err(BadEvents::Version { found });
    }
    let found = number(file, 8)?;
    if found as usize != components {
        return Err(BadEvents::Components { found });
    }
    number(file, 12)
}

/// How many events the interval has that begins at this byte.
#[tactic(auto, unfolding(crate::specs::EventsFile::interval_from))]
fn interval_len(file: &[u8], comps: &[Comp], interval: u32, at: usize) -> Result<u32, BadEvents>
    requires { at ≤ length file.now }
    ensures value { result ≡ then_read (interval_from comps.now file.now interval at) (λ timed. Ok (length timed)) }
    ensures within { IfOk result (λ count. at + (4 + 64 * count) ≤ length file.now) }
{
    let count = number(file, at)?;
    for place in 0..count {
        record(
            file,
            comps,
            interval,
            place,
            at + 4 + RECORD_LEN * place as usize,
        )?;
    }
    Ok(count)
}

/// Reads the record that begins at this byte, which is to stand for an event.
#[tactic(auto, unfolding(crate::specs::EventsFile::read_event))]
fn record(
    file: &[u8],
    comps: &[Comp],
    interval: u32,
    place: u32,
    at: usize,
) -> Result<(), BadEvents>
    requires { at ≤ length file.now + 16 }
    ensures value { result ≡ then_read (read_event comps.now file.now interval place at) (λ x. Ok tt) }
    ensures within { IfOk result (λ x. at + 64 ≤ length file.now) }
{
    let record = field(file, at, RECORD_LEN)?;
    if numbers_of(record).is_event(comps, place) {
        Ok(())
    } else {
        Err(BadEvents::Field { interval, place })
    }
}

/// The number at this byte.
pub(crate) fn number(file: &[u8], at: usize) -> Result<u32, BadEvents>
    requires { at ≤ length file.now + 16 }
    ensures value { result ≡ read_number file.now at }
    ensures within { IfOk result (λ number. at + 4 ≤ length file.now) }
{
    Ok(LittleEndian::read_u32(field(file, at, 4)?))
}

/// So many bytes from this one on.
fn field(file: &[u8], at: usize, count: usize) -> Result<&[u8], BadEvents>
    requires place { at ≤ length file.now + 16 }
    requires count { count < 2 ^ 40 }
    ensures ok { IfOk result (λ field. field_at file.now at count ≡ Ok field.now) }
    ensures err { IfErr result (λ wrong. field_at file.now at count ≡ Err wrong) }
{
    if at + count <= file.len() {
        Ok(&file[at..at + count])
    } else {
        Err(BadEvents::Short { at: at as u64 })
    }
}
