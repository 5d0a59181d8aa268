//! The bound phase of an interval by one worker.
ghost use Rattle.std.specs.Prelude.{◌≡◌, ◌+◌, ◌-◌, ◌*◌, ◌<◌, ◌≤◌, ◌^◌, ℕ, min, IsTrue, List, [], Some, length, slice_get, slice_set, vec_len, IfOk};
ghost use Rattle.zs_num.specs.declared.entry.Entry.{Entry};
ghost use Rattle.machine_desc.specs.Machine.{IsMachine};
ghost use Rattle.noc_mesh.specs.NetTiming.{net_time};
ghost use Rattle.access_record.specs.BankLogs.{BankLogState};
ghost use Rattle.access_record.specs.RecordLogs.{RecordLogState};
ghost use Rattle.bound_core.specs.NumberedCores.{NumberedCore};
ghost use Rattle.bound_core.specs.ShardPort.{base_of, l1i_of, room_of, size_of};
ghost use Rattle.bound_core.specs.TimedCore.{beside_cycles};
ghost use Rattle.bound_records.specs.Counted.{count_of};
ghost use Rattle.bound_records.specs.CoreRuns.{AreNumbered, CanRunInterval, HasRecorded, HasRunToEnd, HaveRecorded, IsNetOf};
ghost use Rattle.bound_records.specs.Recorders.{IsRecorderFor, core_room};

use crate::Recorder;
use crate::gated_port::GatedPort;
use crate::own_program::OwnProgram;
use crate::record_port::{CoreRecord, RecordPort};
use crate::recorder::NO_COUNT;
use access_record::{BankLog, RecordLog};
use bound_core::BoundCore;
use machine_desc::Machine;
use noc_mesh::Net;
use rv_blocks::DecodedProgram;
use stats::CoreCount;
use std::alloc::Global;
use std::mem;
use zs_host::Gate;
use zs_num::{Cycle, NoMemory};

/// Runs the cores to the end of the interval, one after the other.
pub(crate) fn run_cores<G: Gate>(
    alloc: Global,
    machine: &Machine,
    program: &DecodedProgram<'_>,
    net: &Net,
    end: Cycle,
    gate: &G,
    cores: &mut [BoundCore],
    mut recorder: Recorder,
) -> Result<Recorder, NoMemory>
    requires machine { IsMachine machine.now }
    requires net { IsNetOf machine.now net.now }
    requires end { end ≤ 10 * 2 ^ 30 }
    requires recorder { IsRecorderFor machine.now recorder }
    requires begin { recorder.begin ≡ end - machine.now.interval }
    requires base { base_of recorder.world ≡ machine.now.memory.base }
    requires size { size_of recorder.world ≡ machine.now.memory.size }
    requires count { length cores.old ≡ machine.now.cores }
    requires ready { (i : ℕ) (c : NumberedCore) → slice_get cores.old i ≡ Some c → CanRunInterval machine.now end (base_of recorder.world) (size_of recorder.world) (l1i_of recorder.world) c.timed }
    requires numbered { AreNumbered cores.old }
    requires none { (i : ℕ) (entries : List Entry) → slice_get recorder.lists i ≡ Some entries → entries ≡ [] }
    requires room { machine.now.cores * core_room machine.now ≤ room_of recorder.world }
    ensures { IfOk result (HaveRecorded machine.now program.now end machine.now.cores cores.old cores.new recorder) }
{
    for (number, core) in cores.iter_mut().enumerate() {
        recorder = run_core(
            alloc,
            machine,
            program,
            net,
            end,
            gate,
            core,
            number as u16,
            recorder,
        )?;
    }
    Ok(recorder)
}

/// Runs the core of this number to the end of the interval. A core that has halted stays as it is.
fn run_core<G: Gate>(
    alloc: Global,
    machine: &Machine,
    program: &DecodedProgram<'_>,
    net: &Net,
    end: Cycle,
    gate: &G,
    core: &mut BoundCore,
    number: u16,
    recorder: Recorder,
) -> Result<Recorder, NoMemory>
    requires machine { IsMachine machine.now }
    requires net { IsNetOf machine.now net.now }
    requires end { end ≤ 10 * 2 ^ 30 }
    requires recorder { IsRecorderFor machine.now recorder }
    requires begin { recorder.begin ≡ end - machine.now.interval }
    requires base { base_of recorder.world ≡ machine.now.memory.base }
    requires size { size_of recorder.world ≡ machine.now.memory.size }
    requires ready { CanRunInterval machine.now end (base_of recorder.world) (size_of recorder.world) (l1i_of recorder.world) core.old.timed }
    requires number { core.old.number ≡ number }
    requires known { number < machine.now.cores }
    requires none { slice_get recorder.lists number ≡ Some [] }
    requires room { core_room machine.now ≤ room_of recorder.world }
    ensures { IfOk result (HasRecorded machine.now program.now end core.old core.new recorder) }
{
    if core.halted().is_some() {
        return Ok(recorder);
    }
    core.reserve(machine.interval)?;
    Ok(run_on(alloc, program, net, end, gate, core, number, recorder))
}

/// Runs the core of this number, which has room on its console.
fn run_on<G: Gate>(
    alloc: Global,
    program: &DecodedProgram<'_>,
    net: &Net,
    end: Cycle,
    gate: &G,
    core: &mut BoundCore,
    number: u16,
    recorder: Recorder,
) -> Recorder
    requires end { end ≤ 10 * 2 ^ 30 }
    requires number { core.old.number ≡ number }
    requires known { number < length recorder.lists }
    requires none { slice_get recorder.lists number ≡ Some [] }
    requires base { base_of recorder.world ≡ core.old.timed.core.memory.base }
    requires size { size_of recorder.world ≡ core.old.timed.core.memory.size }
    requires l1i { IsTrue core.old.timed.core.fetching → IsTrue (l1i_of recorder.world) }
    requires clock { core.old.timed.clock ≤ 2 ^ 56 }
    requires room { end - core.old.timed.clock + beside_cycles ≤ min (room_of recorder.world) recorder.room }
    requires spare { end - core.old.timed.clock + beside_cycles ≤ core.old.spare }
    ensures { HasRunToEnd (λ e. net_time net.now.path e) program.now end core.old core.new recorder result }
{
    let Recorder {
        port,
        banks,
        mut logs,
        mut records,
        mut counts,
        begin,
        base,
        room,
    } = recorder;
    let record = take(alloc, &mut logs, &mut records, number);
    let mut gated = GatedPort {
        gate,
        core: number,
        port: RecordPort::new(port, record),
    };
    core.run_one(&OwnProgram { program }, net, end, &mut gated);
    let (port, record) = gated.port.finish();
    put(&mut logs, &mut records, &mut counts, number, record);
    Recorder {
        port,
        banks,
        logs,
        records,
        counts,
        begin,
        base,
        room,
    }
}

/// Takes what is kept of a core out of its place. Nothing is counted yet.
fn take(
    alloc: Global,
    logs: &mut Vec<BankLog>,
    records: &mut Vec<RecordLog>,
    core: u16,
) -> CoreRecord
    requires logs { core < vec_len logs.old }
    requires records { core < vec_len records.old }
    ensures log { slice_get logs.old.items core ≡ Some result.log }
    ensures record { slice_get records.old.items core ≡ Some result.records }
    ensures count { result.count ≡ count_of [] }
    ensures logs { (log : BankLogState) → slice_set logs.new.items core log ≡ slice_set logs.old.items core log }
    ensures logs_many { vec_len logs.new ≡ vec_len logs.old }
    ensures records_many { vec_len records.new ≡ vec_len records.old }
    ensures records { (kept : RecordLogState) → slice_set records.new.items core kept ≡ slice_set records.old.items core kept }
{
    let log = mem::replace(&mut logs[usize::from(core)], BankLog::none(alloc));
    let records = mem::replace(&mut records[usize::from(core)], RecordLog::none(alloc));
    CoreRecord {
        log,
        records,
        count: NO_COUNT,
    }
}

/// Puts what is kept of a core at its place.
fn put(
    logs: &mut Vec<BankLog>,
    records: &mut Vec<RecordLog>,
    counts: &mut Vec<CoreCount>,
    core: u16,
    record: CoreRecord,
)
    requires logs { core < vec_len logs.old }
    requires records { core < vec_len records.old }
    requires counts { core < vec_len counts.old }
    ensures logs { logs.new.items ≡ slice_set logs.old.items core record.log }
    ensures records { records.new.items ≡ slice_set records.old.items core record.records }
    ensures counts { counts.new.items ≡ slice_set counts.old.items core record.count }
{
    logs[usize::from(core)] = record.log;
    records[usize::from(core)] = record.records;
    counts[usize::from(core)] = record.count;
}
