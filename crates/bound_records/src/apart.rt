//! A recorder, and what it is made of.
ghost use Rattle.std.specs.Prelude.{◌≡◌, ◌<◌, ◌≤◌, ◌^◌, ℕ, List, Some, length, map, reverse, slice_get, vec_capacity, IfOk};
ghost use Rattle.access_record.specs.BankLogs.{BankLogState};
ghost use Rattle.access_record.specs.Laws.{beyond_hits};
ghost use Rattle.access_record.specs.RecordLogs.{RecordLogState};
ghost use Rattle.access_record.specs.Restamped.{AreSameButStamps, list_like, lists_of_stamped};
ghost use Rattle.stats.specs.Counted.{no_core_count};
ghost use Rattle.bound_records.specs.declared.record_port.CoreRecord.{CoreRecord};
ghost use Rattle.bound_records.specs.Apart.{AreNewPartsOf, AreRecorderParts, AreTurnsOfLists, lists_in, recorder_of};

use crate::Recorder;
use crate::record_port::CoreRecord;
use crate::recorder::NO_COUNT;
use access_record::{BankLog, RecordLog, Stamped};
use bound_core::PartsPort;
use stats::CoreCount;
use std::alloc::Global;
use zs_num::{Cycle, NoMemory};

/// What a recorder is made of.
#[derive(Drop)]
pub struct RecorderParts {
    pub port: PartsPort,
    /// How many banks there are.
    pub banks: u16,
    /// What is kept of each core, in order of their numbers.
    pub records: Vec<CoreRecord>,
    /// When the interval began.
    pub begin: Cycle,
    /// Where memory begins.
    pub base: u64,
    /// For how many accesses of each core there is memory.
    pub room: u32,
}

impl Recorder {
    /// Takes it apart before the first access of an interval that begins then, below 2^63.
    pub fn take_apart(mut self, alloc: Global, begin: Cycle) -> Result<RecorderParts, NoMemory>
        requires { begin < 2 ^ 63 }
        ensures { IfOk result (AreNewPartsOf self begin) }
    {
        self.restart(begin);
        let Recorder {
            port,
            banks,
            logs,
            records,
            counts: _,
            begin,
            base,
            room,
        } = self;
        let kept = Vec::with_capacity(alloc, logs.len())?;
        Ok(RecorderParts {
            port,
            banks,
            records: joined(logs, records, kept),
            begin,
            base,
            room,
        })
    }

    /// A recorder of these, whose accesses the cores made by these turns: each names the core of an
    /// access. They get the stamps that follow in this order.
    pub fn of(alloc: Global, parts: RecorderParts, turns: &Vec<u16>) -> Result<Recorder, NoMemory>
        requires parts { AreRecorderParts parts }
        requires turns { AreTurnsOfLists turns.now.items (lists_in parts.records.items) }
        ensures { IfOk result (λ r. r ≡ recorder_of parts turns.now.items) }
    {
        let RecorderParts {
            port,
            banks,
            records: kept,
            begin,
            base,
            room,
        } = parts;
        let mut split = Split::with_room(alloc, kept.len())?;
        split.fill(kept);
        let Split {
            mut logs,
            mut records,
            counts,
        } = split;
        restamp_logs(&Stamped::of(banks, turns, &logs), &mut logs);
        restamp_records(&logs, &mut records);
        Ok(Recorder {
            port,
            banks,
            logs,
            records,
            counts,
            begin,
            base,
            room,
        })
    }
}

/// What is kept of each core that has no access yet, of these logs and records.
fn joined(
    mut logs: Vec<BankLog>,
    mut records: Vec<RecordLog>,
    mut kept: Vec<CoreRecord>,
) -> Vec<CoreRecord>
    requires records { length records.items ≡ length logs.items }
    requires room { (length kept.items ≡ 0) × (length logs.items ≤ vec_capacity kept) }
    ensures count { length result.items ≡ length logs.items }
    ensures logs { map (λ k. k.log) result.items ≡ logs.items }
    ensures records { map (λ k. k.records) result.items ≡ records.items }
    ensures counts { (i : ℕ) (k : CoreRecord) → slice_get result.items i ≡ Some k → k.count ≡ no_core_count }
{
    while let Some(log) = logs.pop() {
        let Some(records) = records.pop() else {
            unreachable!()
        };
        kept.push_reserved(CoreRecord {
            log,
            records,
            count: NO_COUNT,
        });
    }
    kept.reverse();
    kept
}

/// What is kept of all cores, in order of their numbers, each kind by itself.
#[derive(Drop)]
struct Split {
    logs: Vec<BankLog>,
    records: Vec<RecordLog>,
    counts: Vec<CoreCount>,
}

impl Split {
    /// Nothing yet, and room for so many cores.
    fn with_room(alloc: Global, cores: usize) -> Result<Self, NoMemory>
        ensures none { IfOk result (λ s. (length s.logs.items ≡ 0) × (length s.records.items ≡ 0) × (length s.counts.items ≡ 0)) }
        ensures room { IfOk result (λ s. (cores ≤ vec_capacity s.logs) × (cores ≤ vec_capacity s.records) × (cores ≤ vec_capacity s.counts)) }
    {
        Ok(Split {
            logs: Vec::with_capacity(alloc, cores)?,
            records: Vec::with_capacity(alloc, cores)?,
            counts: Vec::with_capacity(alloc, cores)?,
        })
    }

    /// Takes in what is kept of the cores.
    fn fill(&mut self, mut kept: Vec<CoreRecord>)
        requires none { (length self.old.logs.items ≡ 0) × (length self.old.records.items ≡ 0) × (length self.old.counts.items ≡ 0) }
        requires room { (length kept.items ≤ vec_capacity self.old.logs) × (length kept.items ≤ vec_capacity self.old.records) × (length kept.items ≤ vec_capacity self.old.counts) }
        ensures logs { self.new.logs.items ≡ map (λ k. k.log) kept.items }
        ensures records { self.new.records.items ≡ map (λ k. k.records) kept.items }
        ensures counts { self.new.counts.items ≡ map (λ k. k.count) kept.items }
    {
        while let Some(record) = kept.pop() {
            self.logs.push_reserved(record.log);
            self.records.push_reserved(record.records);
            self.counts.push_reserved(record.count);
        }
        self.logs.reverse();
        self.records.reverse();
        self.counts.reverse();
    }
}

/// The accesses of all logs get their stamps.
fn restamp_logs(stamped: &Stamped, logs: &mut [BankLog])
    requires { (i : ℕ) (log : BankLogState) → slice_get logs.old i ≡ Some log → AreSameButStamps log.entries (list_like (lists_of_stamped stamped.now) log.entries) }
    ensures { logs.new ≡ map {A = BankLogState} (λ log. record log { entries = list_like (lists_of_stamped stamped.now) log.entries }) logs.old }
{
    for log in logs.iter_mut() {
        log.restamp(stamped);
    }
}

/// The accesses of all records get the stamps that they have in the logs.
fn restamp_records(logs: &[BankLog], records: &mut [RecordLog])
    requires many { length records.old ≡ length logs.now }
    requires same { (i : ℕ) (log : BankLogState) (kept : RecordLogState) → slice_get logs.now i ≡ Some log → slice_get records.old i ≡ Some kept → AreSameButStamps kept.entries (beyond_hits log.entries) }
    ensures many { length records.new ≡ length records.old }
    ensures each { (i : ℕ) (log : BankLogState) (kept : RecordLogState) → slice_get logs.now i ≡ Some log → slice_get records.old i ≡ Some kept
        → slice_get records.new i ≡ Some (record kept { entries = beyond_hits log.entries }) }
{
    for place in 0..logs.len() {
        records[place].restamp(&logs[place]);
    }
}
