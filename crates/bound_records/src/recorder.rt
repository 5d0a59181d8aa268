//! Caches and memory that one worker has, and what it keeps of the accesses of an interval.
ghost use Rattle.std.specs.Prelude.{◌≡◌, ◌+◌, ◌*◌, ◌<◌, ◌≤◌, ◌^◌, ℕ, [], All, Err, Some, length, map, replicate, slice_get, IfErr, IfOk, IsTrue, OnOk};
ghost use Rattle.std.specs.List.{range_with_len};
ghost use Rattle.machine_desc.specs.Machine.{IsMachine};
ghost use Rattle.shard.specs.StandsFor.{new_shards};
ghost use Rattle.access_log.specs.RecordedOrder.{recorded_order};
ghost use Rattle.access_record.specs.BankLogs.{entries_in};
ghost use Rattle.access_record.specs.Turns.{in_turns};
ghost use Rattle.access_record.specs.Unordered.{order_of};
ghost use Rattle.bound_core.specs.History.{begun_over_shards};
ghost use Rattle.bound_core.specs.NumberedCores.{NumberedCore, timed_of};
ghost use Rattle.bound_core.specs.ReferenceMachine.{bound_phase};
ghost use Rattle.bound_core.specs.ShardPort.{AreShardsOf};
ghost use Rattle.bound_core.specs.ShardWorld.{begun_world, restarted, shards_serve};
ghost use Rattle.bound_core.specs.TimedCore.{beside_cycles};
ghost use Rattle.bound_records.specs.CoreRuns.{AreNumbered, IsNetOf, access_time_of};
ghost use Rattle.bound_records.specs.Intervals.{AreKept, CanAllRun, HaveRun, IfIllegalTurn};
ghost use Rattle.bound_records.specs.Recorders.{AreTakenBy, AreTakenIn, IsRecorderFor, counts_in, emptied, emptied_at, entries_of, no_log, no_records, recorded_kept, uncounted, without_accesses};

use crate::TurnsFail;
use crate::listed_turns::take_turns;
use crate::running::run_cores;
use crate::turn_port::TurnPort;
use access_record::{
    BankLog, OrderBuffers, RecordLog, Turns, Unordered, recorded_accesses, recorded_cores,
};
use bound_core::{BESIDE_CYCLES, BoundCore, PartsPort};
use elf_load::Image;
use machine_desc::Machine;
use noc_mesh::Net;
use rv_blocks::DecodedProgram;
use shard::Parts;
use stats::CoreCount;
use std::alloc::Global;
use std::marker::Model;
use std::mem;
use zs_host::Gate;
use zs_num::{Cycle, Entry, NoMemory};

/// Caches and memory that one worker has, and what it keeps of the accesses of an interval: of each
/// a byte and what it counts, and a record of each that makes events. Contracts see the accesses of
/// each core, in its order.
#[derive(Drop)]
pub struct Recorder {
    pub(crate) port: PartsPort,
    pub(crate) banks: u16,
    // In order of the numbers of the cores.
    pub(crate) logs: Vec<BankLog>,
    pub(crate) records: Vec<RecordLog>,
    pub(crate) counts: Vec<CoreCount>,
    pub(crate) begin: Cycle,
    pub(crate) base: u64,
    pub(crate) room: u32,
}

impl Model for Recorder {
    ghost use Rattle.std.specs.Prelude.{map};
    ghost use Rattle.bound_records.specs.Recorders.{AreKeptOf, RecorderState};

    ghost Value = { RecorderState };

    ghost view = { λ r. record { world = r.port.world; lists = map (λ log. log.entries) r.logs.items; begin = r.begin; base = r.base; room = r.room } };

    ghost invariant = { λ r. AreKeptOf (record { world = r.port.world; lists = map (λ log. log.entries) r.logs.items; begin = r.begin; base = r.base; room = r.room }) r.banks r.logs.items r.records.items r.counts.items };
}

impl Recorder {
    /// One for a machine into which an executable was loaded, before the first access. It has room
    /// for the accesses of an interval, so that no access takes memory.
    pub fn new(alloc: Global, machine: &Machine, image: &Image) -> Result<Self, NoMemory>
        requires machine { IsMachine machine.now }
        requires base { image.now.base ≡ machine.now.memory.base }
        requires size { image.now.size ≡ machine.now.memory.size }
        ensures world { IfOk result (λ r. r.world ≡ begun_world machine.now.cores (map restarted (new_shards machine.now image.now))) }
        ensures lists { IfOk result (λ r. r.lists ≡ replicate machine.now.cores []) }
        ensures recorder { IfOk result (IsRecorderFor machine.now) }
    {
        let port = new_port(alloc, machine, image)?;
        let room = (machine.interval + BESIDE_CYCLES) as u32;
        Ok(Recorder {
            port,
            banks: machine.l2.banks,
            logs: empty_logs(alloc, machine.cores, machine.l2.banks, room)?,
            records: empty_records(alloc, machine, room)?,
            counts: vec![in alloc; NO_COUNT; usize::from(machine.cores)]?,
            begin: 0,
            base: machine.memory.base,
            room,
        })
    }

    /// Makes it ready for an interval that begins then: it has no access, and all stamps are 0.
    pub(crate) fn restart(&mut self, begin: Cycle)
        requires { begin < 2 ^ 63 }
        ensures { self.new ≡ record self.old { world = begun_world (length self.old.world.stamps) (map restarted self.old.world.shards); lists = replicate (length self.old.lists) []; begin = begin } }
    {
        self.port.restart();
        clear_logs(&mut self.logs);
        begin_records(&mut self.records, begin);
        clear_counts(&mut self.counts);
        self.begin = begin;
    }

    /// Runs the cores to the end of an interval, one after the other. Before each access it passes
    /// the gate, as worker 0. It then has the accesses of this interval, and of no other.
    pub fn run<G: Gate>(
        mut self,
        alloc: Global,
        machine: &Machine,
        program: &DecodedProgram<'_>,
        net: &Net,
        end: Cycle,
        gate: &G,
        cores: &mut [BoundCore],
    ) -> Result<Self, NoMemory>
        requires machine { IsMachine machine.now }
        requires net { IsNetOf machine.now net.now }
        requires end { end ≤ 10 * 2 ^ 30 }
        requires recorder { IsRecorderFor machine.now self }
        requires shards { AreShardsOf machine.now.cores self.world.shards machine.now.memory.base machine.now.memory.size }
        requires banks { length self.world.shards ≡ machine.now.l2.banks }
        requires count { length cores.old ≡ machine.now.cores }
        requires ready { CanAllRun machine.now end cores.old self }
        requires numbered { AreNumbered cores.old }
        ensures run { IfOk result (λ r. HaveRun machine.now program.now end (map (λ e. e.core) (entries_of r)) (entries_of r) cores.old cores.new self r) }
        ensures kept { IfOk result (AreKept machine.now) }
    {
        bound_core::laws::phases_are_histories();
        access_log::laws::stamps_rise();
        access_log::laws::cores_decide_the_order();
        access_log::laws::recorded_order_keeps_the_stamps();
        access_record::laws::records_stand_for_accesses();
        access_record::laws::records_keep_each_access();
        access_record::laws::records_keep_the_events();
        noc_mesh::laws::net_accesses_have_few_events();
        noc_mesh::laws::net_accesses_beyond_hits_have_events();
        noc_mesh::laws::net_events_are_in_a_row();
        self.restart(end.saturating_sub(machine.interval));
        let recorder = run_cores(alloc, machine, program, net, end, gate, cores, self)?;
        Ok(recorder)
    }

    /// Runs the cores to the end of an interval, by turns in the order of a list, which names the
    /// core of each. It then has the accesses of this interval, and of no other. Where the list is
    /// not legal it answers the first place that is not.
    pub fn run_under(
        mut self,
        machine: &Machine,
        program: &DecodedProgram<'_>,
        net: &Net,
        end: Cycle,
        turns: &[u16],
        cores: &mut [BoundCore],
    ) -> Result<Self, TurnsFail>
        requires machine { IsMachine machine.now }
        requires net { IsNetOf machine.now net.now }
        requires end { end ≤ 10 * 2 ^ 30 }
        requires known { All (λ number. number < machine.now.cores) turns.now }
        requires few { length turns.now < 2 ^ 32 }
        requires recorder { IsRecorderFor machine.now self }
        requires shards { AreShardsOf machine.now.cores self.world.shards machine.now.memory.base machine.now.memory.size }
        requires banks { length self.world.shards ≡ machine.now.l2.banks }
        requires count { length cores.old ≡ machine.now.cores }
        requires ready { CanAllRun machine.now end cores.old self }
        requires numbered { AreNumbered cores.old }
        ensures run { IfOk result (λ r. HaveRun machine.now program.now end turns.now (in_turns turns.now r.lists) cores.old cores.new self r) }
        ensures kept { IfOk result (AreKept machine.now) }
        ensures illegal { IfErr result (λ fail. IfIllegalTurn fail (λ place. bound_phase shards_serve (access_time_of machine.now) program.now end turns.now (begun_over_shards (timed_of cores.old) (map restarted self.world.shards)) ≡ Err place)) }
    {
        bound_core::laws::phases_are_histories();
        access_log::laws::stamps_rise();
        access_log::laws::cores_decide_the_order();
        access_log::laws::recorded_order_keeps_the_stamps();
        access_record::laws::records_stand_for_accesses();
        access_record::laws::records_keep_each_access();
        access_record::laws::records_keep_the_events();
        noc_mesh::laws::net_accesses_have_few_events();
        noc_mesh::laws::net_accesses_beyond_hits_have_events();
        noc_mesh::laws::net_events_are_in_a_row();
        reserve_all(machine, cores)?;
        self.restart(end.saturating_sub(machine.interval));
        let mut port = TurnPort::new(self);
        match take_turns(program, net, end, turns, cores, &mut port) {
            Ok(()) => Ok(port.finish()),
            Err(place) => Err(TurnsFail::Illegal { place }),
        }
    }

    /// How many accesses the interval has.
    pub fn access_count(&self) -> u32
        requires { length (entries_of self.now) < 2 ^ 32 }
        ensures { result ≡ length (entries_of self.now) }
    {
        count_all(&self.logs)
    }

    /// What is counted of each core's accesses, by the numbers of the cores. No delay is counted.
    pub fn counts(&self) -> &[CoreCount]
        ensures { result.now ≡ counts_in self.now }
    {
        &self.counts
    }

    /// The cores of the interval's accesses, in recorded order. These are the turns by which the
    /// accesses were made.
    pub fn recorded_cores(
        &self,
        alloc: Global,
        turns: Turns<'_>,
        buffers: &mut OrderBuffers,
    ) -> Result<Vec<u16>, NoMemory>
        requires { AreTakenIn turns self.now }
        ensures { IfOk result (λ list. list.items ≡ map (λ e. e.core) (recorded_order (entries_of self.now))) }
    {
        access_log::laws::stamps_rise();
        access_log::laws::cores_decide_the_order();
        recorded_cores(alloc, &self.logs, turns, self.banks, buffers)
    }

    /// Gives the accesses of the interval away, while their recorded order is still to be told, and
    /// then has none. These are the turns by which they were made. It keeps the memory of these logs,
    /// if they are for as many cores, banks and accesses, and else takes new memory.
    pub fn put_aside(
        &mut self,
        alloc: Global,
        turns: Vec<u16>,
        spare: Vec<BankLog>,
    ) -> Result<Unordered, NoMemory>
        requires few { length self.old.world.shards ≤ 64 }
        requires turns { AreTakenBy turns.items self.old }
        ensures order { IfOk result (λ u. order_of u ≡ map (λ e. e.core) (recorded_order (entries_of self.old))) }
        ensures none { OnOk result (self.new ≡ without_accesses self.old) }
    {
        access_log::laws::stamps_rise();
        access_log::laws::cores_decide_the_order();
        let cores = self.logs.len() as u16;
        let spare = spare_logs(alloc, spare, cores, self.banks, self.room)?;
        let logs = mem::replace(&mut self.logs, spare);
        begin_records(&mut self.records, 0);
        clear_counts(&mut self.counts);
        self.begin = 0;
        Ok(Unordered::of(logs, turns, self.banks))
    }

    /// The accesses that make events, in recorded order, as their records give them back. These are
    /// the turns by which they were made, and the cores of all accesses in recorded order.
    pub fn recorded_accesses(
        &self,
        alloc: Global,
        turns: Turns<'_>,
        cores: &[u16],
    ) -> Result<Vec<Entry>, NoMemory>
        requires turns { AreTakenIn turns self.now }
        requires cores { cores.now ≡ map (λ e. e.core) (recorded_order (entries_of self.now)) }
        ensures { IfOk result (λ list. list.items ≡ recorded_kept self.now) }
    {
        access_log::laws::stamps_rise();
        access_log::laws::cores_decide_the_order();
        recorded_accesses(
            alloc,
            &self.logs,
            &self.records,
            turns,
            cores,
            self.banks,
            self.begin,
            self.base,
        )
    }
}

/// The caches and the memory of a machine into which an executable was loaded.
fn new_port(alloc: Global, machine: &Machine, image: &Image) -> Result<PartsPort, NoMemory>
    requires machine { IsMachine machine.now }
    requires base { image.now.base ≡ machine.now.memory.base }
    requires size { image.now.size ≡ machine.now.memory.size }
    ensures { IfOk result (λ p. p.world ≡ begun_world machine.now.cores (map restarted (new_shards machine.now image.now))) }
{
    let parts = Parts::new(alloc, machine, image)?;
    match PartsPort::new(alloc, parts, machine.cores) {
        Ok(port) => Ok(port),
        Err((NoMemory, _parts)) => Err(NoMemory),
    }
}

/// The log of each core before its first access, where there are so many cores and banks.
fn empty_logs(alloc: Global, cores: u16, banks: u16, room: u32) -> Result<Vec<BankLog>, NoMemory>
    requires some { 0 < banks }
    requires few { banks ≤ 64 }
    ensures { IfOk result (λ logs. logs.items ≡ map (no_log banks room) (range_with_len 0 cores)) }
{
    let mut logs = Vec::new(alloc);
    for core in 0..cores {
        logs.push(BankLog::with_room(alloc, core, banks, room)?)?;
    }
    Ok(logs)
}

/// The same in the memory of these logs, if they are for so many cores and banks, and so much room.
fn spare_logs(
    alloc: Global,
    mut spare: Vec<BankLog>,
    cores: u16,
    banks: u16,
    room: u32,
) -> Result<Vec<BankLog>, NoMemory>
    requires some { 0 < banks }
    requires few { banks ≤ 64 }
    ensures { IfOk result (λ logs. logs.items ≡ map (no_log banks room) (range_with_len 0 cores)) }
{
    if are_for(&spare, cores, banks, room) {
        clear_logs(&mut spare);
        Ok(spare)
    } else {
        empty_logs(alloc, cores, banks, room)
    }
}

/// Whether they are the logs of so many cores and banks, in order, each with so much room.
fn are_for(logs: &[BankLog], cores: u16, banks: u16, room: u32) -> bool
    ensures { IsTrue result → map emptied logs.now ≡ map (no_log banks room) (range_with_len 0 cores) }
{
    if logs.len() != usize::from(cores) {
        return false;
    }
    for core in 0..cores {
        let log = &logs[usize::from(core)];
        if log.core() != core || log.banks() != banks || log.room() != room {
            return false;
        }
    }
    true
}

/// The records of each core before its first access.
fn empty_records(alloc: Global, machine: &Machine, room: u32) -> Result<Vec<RecordLog>, NoMemory>
    requires { IsMachine machine.now }
    ensures { IfOk result (λ records. records.items ≡ map (no_records machine.now.memory.base room) (range_with_len 0 machine.now.cores)) }
{
    let mut records = Vec::new(alloc);
    for core in 0..machine.cores {
        let base = machine.memory.base;
        records.push(RecordLog::with_room(alloc, core, base, room)?)?;
    }
    Ok(records)
}

/// Gives each core room on its console for what it can write in an interval.
pub fn reserve_all(machine: &Machine, cores: &mut [BoundCore]) -> Result<(), NoMemory>
    requires { IsMachine machine.now }
    ensures timed { OnOk result (timed_of cores.new ≡ timed_of cores.old) }
    ensures numbered { OnOk result (AreNumbered cores.old → AreNumbered cores.new) }
    ensures spare { OnOk result ((i : ℕ) (c : NumberedCore) → slice_get cores.new i ≡ Some c → machine.now.interval + beside_cycles ≤ c.spare) }
{
    for number in 0..cores.len() {
        cores[number].reserve(machine.interval)?;
    }
    Ok(())
}

/// How many accesses all logs have.
fn count_all(logs: &[BankLog]) -> u32
    requires { length (entries_in logs.now) < 2 ^ 32 }
    ensures { result ≡ length (entries_in logs.now) }
{
    let mut count = 0;
    for log in logs {
        count += log.len();
    }
    count
}

/// Forgets the accesses of all logs.
fn clear_logs(logs: &mut [BankLog])
    ensures { logs.new ≡ map emptied logs.old }
{
    for log in logs {
        log.clear();
    }
}

/// Forgets all records: an interval begins then.
fn begin_records(records: &mut [RecordLog], begin: Cycle)
    requires { begin < 2 ^ 63 }
    ensures { records.new ≡ map (emptied_at begin) records.old }
{
    for record in records {
        record.begin(begin);
    }
}

/// Sets all counts to nothing.
fn clear_counts(counts: &mut [CoreCount])
    ensures { counts.new ≡ map uncounted counts.old }
{
    for count in counts {
        *count = NO_COUNT;
    }
}

/// What is counted of a core before its first access.
pub(crate) const NO_COUNT: CoreCount = CoreCount {
    delay: 0,
    loads: 0,
    stores: 0,
    atomics: 0,
    fetches: 0,
    hits: 0,
    upgrades: 0,
    l2hits: 0,
    misses: 0,
};
