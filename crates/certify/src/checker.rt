//! Checks an events file.
ghost use Rattle.std.specs.Prelude.{◌≡◌, ◌+◌, ◌*◌, ◌<◌, ◌≤◌, ◌^◌, ℕ, List, length, sum_by, take, drop, Ok, IfOk, OnOk};
ghost use Rattle.std.specs.List.{find};
ghost use Rattle.std.specs.Option.{option_map};
ghost use Rattle.byteorder.specs.Endian.{little_number};
ghost use Rattle.component.specs.declared.comp.Comp.{Comp};
ghost use Rattle.event_graph.specs.OneListWeave.{FiredEvent};
ghost use Rattle.certify.specs.Answers.{AnswersAs};
ghost use Rattle.certify.specs.EventsFile.{events_of};
ghost use Rattle.certify.specs.Records.{AreRecords};
ghost use Rattle.certify.specs.ShortTimes.{HaveShortTimes};
ghost use Rattle.certify.specs.Verdict.{after_all, is_wrong, verdict_of, wrong_as};

use crate::interval::first_wrong_event;
use crate::keys::sort_keys;
use crate::numbers::number_at;
use crate::reader::{Counts, HEADER_LEN, measure};
use crate::record::RECORD_LEN;
use crate::serve::serve_all;
use crate::{CheckFail, Verdict};
use component::{Comp, Comps};
use std::alloc::Global;
use zs_num::{Cycle, Key, NoMemory};

/// Whether the starts and finishes of a file are those that the weave gives its events on these
/// components, one interval after the other; if not, the first event that is wrong, or the first
/// thing that is wrong with the file. The file has at most 2^28 bytes, and each time of the
/// components is below 2^60 cycles.
pub fn check(alloc: Global, file: &[u8], comps: Comps<Comp>) -> Result<Verdict, CheckFail>
    requires length { length file.now ≤ 2 ^ 28 }
    requires times { HaveShortTimes comps }
    ensures { AnswersAs result (verdict_of comps file.now) }
{
    let counts = measure(file, comps.as_slice())?;
    let mut comps = comps;
    let verdict = judge_all(alloc, file, counts, comps.as_mut_slice())?;
    Ok(verdict)
}

/// The verdict on a file that was read, which has so much.
fn judge_all(
    alloc: Global,
    file: &[u8],
    counts: Counts,
    comps: &mut [Comp],
) -> Result<Verdict, NoMemory>
    requires length { length file.now ≤ 2 ^ 28 }
    requires read { (intervals : List (List FiredEvent)) × (events_of comps.old file.now ≡ Ok intervals) × (length intervals ≡ counts.intervals) × (sum_by length intervals ≡ counts.events) }
    requires times { HaveShortTimes comps.old }
    ensures { IfOk result (λ v. verdict_of comps.old file.now ≡ Ok v) }
{
    let Counts { intervals, events } = counts;
    let mut keys = Vec::new(alloc);
    let mut finishes = Vec::new(alloc);
    let mut at = HEADER_LEN;
    for interval in 0..intervals {
        let records = records_at(file, at);
        match judge(records, interval, comps, &mut keys, &mut finishes)? {
            Some(wrong) => return Ok(wrong),
            None => at += 4 + records.len(),
        }
    }
    Ok(Verdict::Yes { intervals, events })
}

/// The records of the interval that begins at this byte.
fn records_at(file: &[u8], at: usize) -> &[u8]
    requires { at + (4 + 64 * little_number 4 (drop at file.now)) ≤ length file.now }
    ensures { result.now ≡ take (64 * little_number 4 (drop at file.now)) (drop (at + 4) file.now) }
{
    let count = number_at(file, at) as usize;
    &file[at + 4..at + 4 + RECORD_LEN * count]
}

/// The verdict on the first event of an interval that is wrong. The components serve its events.
fn judge(
    records: &[u8],
    interval: u32,
    comps: &mut [Comp],
    keys: &mut Vec<Key>,
    finishes: &mut Vec<Cycle>,
) -> Result<Option<Verdict>, NoMemory>
    requires short { length records.now ≤ 2 ^ 28 }
    requires interval { (timed : List FiredEvent) × AreRecords comps.old timed records.now }
    requires times { HaveShortTimes comps.old }
    ensures verdict { IfOk result (λ v. (timed : List FiredEvent) → AreRecords comps.old timed records.now → v ≡ option_map (wrong_as timed interval) (find (is_wrong comps.old timed) timed)) }
    ensures comps { OnOk result ((timed : List FiredEvent) → AreRecords comps.old timed records.now → find (is_wrong comps.old timed) timed ≡ None → comps.new ≡ after_all comps.old timed) }
    ensures times { OnOk result (HaveShortTimes comps.new) }
{
    let count = (records.len() / RECORD_LEN) as u32;
    sort_keys(records, count, keys)?;
    finishes.clear();
    finishes.resize(count as usize, 0)?;
    serve_all(records, keys, comps, finishes);
    Ok(first_wrong_event(records, interval, count, finishes))
}
