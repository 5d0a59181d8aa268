//! The profile of a run.
ghost use Rattle.std.specs.Prelude.{◌≡◌, ◌≤◌, ◌^◌, ◌++◌, ◌∷◌, [], ℕ, All, List, OnOk, false, length, true};
ghost use Rattle.trace.specs.Trace.{Accessed, Ended, Executed, Step};
ghost use Rattle.profile.specs.Executed.{executed_at};
ghost use Rattle.execution_counts.specs.Counted.{counted};
ghost use Rattle.noc_mesh.specs.NetTiming.{net_time};
ghost use Rattle.stats.specs.Counted.{is_hit};
ghost use Rattle.profile.specs.Contributions.{access_adds, at_address, at_line};
ghost use Rattle.profile.specs.CopyTables.{copies_in};
ghost use Rattle.profile.specs.Profiled.{added_in, has_address, series_in};
ghost use Rattle.profile.specs.Rows.{IsCandidate, IsNext, has_line};
ghost use Rattle.profile.specs.Parts.{AreParts};
ghost use Rattle.profile.specs.Series.{AreSeries, IsSeries, Series, no_series, nothing_open, with_interval, with_last, with_room};
ghost use Rattle.zs_num.specs.declared.entry.Entry.{Entry};
ghost use Rattle.profile_rows.specs.Tallies.{capped, capped_tally, plus};

use crate::added::{Hit, kind_of};
use crate::met::is_hit;
use crate::parts::Parts;
use crate::series::SeriesRows;
use crate::something::is_something;
use event_graph::{Event, Expand, Fired, FiredList, Graph};
use execution_counts::ExecutionCounts;
use noc_mesh::Net;
use profile_rows::{NONE, SeriesRow, Tally};
use shard::Leaving;
use sparse_table::by_core::{next_set, value_at};
use sparse_table::earlier;
use std::alloc::Global;
use std::marker::Model;
use trace::Tracer;
use tracers::Told;
use zs_num::{Entries, Entry, NoMemory};

/// The profile of the steps that it was told. Where memory ran out, it begins anew.
#[derive(Drop)]
pub struct Profile {
    alloc: Global,
    told: Told,
    net: Net,
    cores: u16,
    comps: usize,
    every: u32,
    /// How often the instruction at each address was executed, by core.
    instructions: ExecutionCounts,
    parts: Parts,
    series: SeriesRows,
}

impl Model for Profile {
    ghost use Rattle.profile.specs.Profiled.{IsRight, Profiled};

    ghost Value = { Profiled };

    ghost view = { λ p. record { steps = p.told.steps; path = p.net.path; cores = p.cores; comps = p.comps; every = p.every } };

    ghost invariant = { λ p. IsRight (record { steps = p.told.steps; path = p.net.path; cores = p.cores; comps = p.comps; every = p.every }) p.instructions p.parts p.series };
}

impl Profile {
    /// The profile of no steps, of a machine with so many cores and components, whose accesses take
    /// the time of this net. A row of its series has `every` intervals, and one where `every` is 0.
    pub fn new(alloc: Global, net: Net, cores: u16, comps: usize, every: u32) -> Self
        ensures { result ≡ record { steps = []; path = net.path; cores = cores; comps = comps; every = every } }
    {
        Profile {
            alloc,
            told: Told::new(),
            net,
            cores,
            comps,
            every,
            instructions: ExecutionCounts::new(alloc),
            parts: Parts::new(alloc),
            series: SeriesRows::new(alloc),
        }
    }

    /// How many cores the machine has.
    pub fn cores(&self) -> u16
        ensures { result ≡ self.now.cores }
    {
        self.cores
    }

    /// How often a core executed the instruction at an address.
    pub fn instructions(&self, core: u16, pc: u64) -> u64
        ensures { result ≡ capped (executed_at core pc self.now.steps) }
    {
        self.instructions.get(core, pc)
    }

    /// What the accesses of a core's instruction at an address count, and how long they waited.
    pub fn accesses(&self, core: u16, pc: u64) -> Tally
        ensures { result ≡ capped_tally (at_address core pc (added_in self.now)) }
    {
        value_at(&self.parts.rows.addresses, NONE, core, pc)
    }

    /// What a core's accesses to a line count, how long they waited, and what the core suffered there
    /// by those of others.
    pub fn line(&self, core: u16, line: u64) -> Tally
        ensures { result ≡ capped_tally (at_line core line (added_in self.now)) }
    {
        value_at(&self.parts.rows.lines, NONE, core, line)
    }

    /// The next line, from this one on, to which something was added of a core.
    pub fn next_line(&self, core: u16, from: u64) -> Option<u64>
        ensures { IsNext (has_line (added_in self.now) core) from result }
    {
        self.parts.rows.next_line(core, from)
    }

    /// The next address, from this one on, at which a core executed an instruction, or one of which
    /// accesses count something.
    pub fn next_address(&self, core: u16, from: u64) -> Option<u64>
        ensures { IsNext (has_address self.now core) from result }
    {
        let mut at = from;
        while let Some(pc) = self.next_place(core, at) {
            if self.has_address(core, pc) {
                return Some(pc);
            }
            if pc == u64::MAX {
                return None;
            }
            at = pc + 1;
        }
        None
    }

    /// The next address, from this one on, at which a table of the core has a value.
    fn next_place(&self, core: u16, from: u64) -> Option<u64>
        ensures next { IsCandidate (has_address self.now core) from result }
        ensures last { (n : ℕ) → 2 ^ 64 ≤ n → has_address self.now core n ≡ false }
    {
        let executed = self.instructions.next(core, from);
        let accessed = next_set(&self.parts.rows.addresses, core, from);
        earlier(executed, accessed)
    }

    /// Whether a core executed the instruction at an address, or something was added to it.
    fn has_address(&self, core: u16, pc: u64) -> bool
        ensures { result ≡ has_address self.now core pc }
    {
        self.instructions.get(core, pc) != 0
            || is_something(&value_at(&self.parts.rows.addresses, NONE, core, pc))
    }

    /// An access that does not hit, for which these lines left. It stands apart, so that a hit is
    /// short.
    #[inline(never)]
    fn missed(&mut self, pc: u64, entry: &Entry, leaving: &Leaving) -> Result<(), NoMemory>
        requires { is_hit entry.now.outcome ≡ false }
        ensures told { OnOk result (self.new.steps ≡ self.old.steps ++ Accessed pc entry.now leaving.now ∷ []) }
        ensures fixed { record self.new { steps = [] } ≡ record self.old { steps = [] } }
    {
        let passed = miss(
            self.alloc,
            &mut self.parts,
            &mut self.series,
            &self.net,
            self.cores,
            pc,
            entry,
            leaving,
        );
        match passed {
            Ok(()) => {
                self.told = self.told.then_accessed(&pc, entry, leaving);
                Ok(())
            }
            Err(no_memory) => {
                forget(
                    self.alloc,
                    &mut self.told,
                    &mut self.instructions,
                    &mut self.parts,
                    &mut self.series,
                );
                Err(no_memory)
            }
        }
    }

    /// The rows of the intervals that ended, in order: `every` intervals each, the last one maybe
    /// fewer.
    pub fn series(&self) -> &[SeriesRow]
        ensures rows { AreSeries (series_in self.now).rows result.now }
        ensures waits { All (λ row. length row.waits.items ≡ self.now.comps) result.now }
    {
        &self.series.rows
    }
}

impl Tracer for Profile {
    ghost use Rattle.profile.specs.Profiled.{Profiled};

    ghost steps = { λ p. p.steps };

    ghost Fixed = { Profiled };

    ghost fixed = { λ p. record p { steps = [] } };

    #[inline(always)]
    fn executed(&mut self, core: u16, pc: u64) -> Result<(), NoMemory> {
        self.instructions.add(core, pc)?;
        self.series.executed(1);
        self.told = self.told.then_executed(&core, &pc);
        Ok(())
    }

    #[inline(always)]
    fn executed_all(&mut self, core: u16, pc: u64, count: u64) -> Result<(), NoMemory> {
        match self.instructions.add_stretch(core, pc, count) {
            Ok(()) => {
                self.series.executed(count);
                self.told = self.told.then_executed_all(&core, &pc, &count);
                Ok(())
            }
            Err(no_memory) => {
                forget(
                    self.alloc,
                    &mut self.told,
                    &mut self.instructions,
                    &mut self.parts,
                    &mut self.series,
                );
                Err(no_memory)
            }
        }
    }

    fn accessed(&mut self, pc: u64, entry: &Entry, leaving: Leaving) -> Result<(), NoMemory> {
        if !is_hit(&entry.outcome) {
            return self.missed(pc, entry, &leaving);
        }
        let passed = hit(
            self.alloc,
            &mut self.parts,
            &mut self.series,
            &self.net,
            pc,
            entry,
            &leaving,
        );
        match passed {
            Ok(()) => {
                self.told = self.told.then_accessed(&pc, entry, &leaving);
                Ok(())
            }
            Err(no_memory) => {
                forget(
                    self.alloc,
                    &mut self.told,
                    &mut self.instructions,
                    &mut self.parts,
                    &mut self.series,
                );
                Err(no_memory)
            }
        }
    }

    fn ended(
        &mut self,
        entries: &Entries,
        graph: &Graph,
        fired: &FiredList,
        delays: &[u64],
    ) -> Result<(), NoMemory> {
        let ended = end_interval(
            self.alloc,
            &mut self.parts,
            &mut self.series,
            self.comps,
            self.every,
            graph.events(),
            fired.as_slice(),
        );
        match ended {
            Ok(()) => {
                self.told = self.told.then_ended(entries, graph, fired, delays);
                Ok(())
            }
            Err(no_memory) => {
                forget(
                    self.alloc,
                    &mut self.told,
                    &mut self.instructions,
                    &mut self.parts,
                    &mut self.series,
                );
                Err(no_memory)
            }
        }
    }
}

/// All tables are those of no step. Memory ran out, and what was told is not kept.
#[cold]
#[inline(never)]
fn forget(
    alloc: Global,
    told: &mut Told,
    instructions: &mut ExecutionCounts,
    parts: &mut Parts,
    series: &mut SeriesRows,
)
    ensures told { told.new.steps ≡ [] }
    ensures instructions { (core pc : ℕ) → counted instructions.new core pc ≡ 0 }
    ensures parts { (time : Entry → ℕ) (cores : ℕ) → AreParts time cores [] parts.new }
    ensures series { IsSeries no_series series.new }
{
    *told = Told::new();
    *instructions = ExecutionCounts::new(alloc);
    *parts = Parts::new(alloc);
    *series = SeriesRows::new(alloc);
}

/// An access that does not hit, for which these lines left.
#[inline(always)]
fn miss(
    alloc: Global,
    parts: &mut Parts,
    series: &mut SeriesRows,
    net: &Net,
    cores: u16,
    pc: u64,
    entry: &Entry,
    leaving: &Leaving,
) -> Result<(), NoMemory>
    requires { is_hit entry.now.outcome ≡ false }
    ensures parts { OnOk result ((steps : List Step) → AreParts (net_time net.now.path) cores steps parts.old → AreParts (net_time net.now.path) cores (steps ++ Accessed pc entry.now leaving.now ∷ []) parts.new) }
    ensures series { OnOk result ((s : Series) → IsSeries s series.old → IsSeries (record s { begun = record s.begun { tally = plus s.begun.tally (access_adds (net_time net.now.path) cores (copies_in parts.old.copies.of_data.items parts.old.copies.of_instructions.items) pc entry.now).tally } }) series.new) }
{
    let met = parts.access(alloc, net, cores, pc, entry, leaving)?;
    series.accessed(&met);
    Ok(())
}

/// The same of one that hits.
#[inline(always)]
fn hit(
    alloc: Global,
    parts: &mut Parts,
    series: &mut SeriesRows,
    net: &Net,
    pc: u64,
    entry: &Entry,
    leaving: &Leaving,
) -> Result<(), NoMemory>
    requires { is_hit entry.now.outcome ≡ true }
    ensures parts { OnOk result ((cores : ℕ) (steps : List Step) → AreParts (net_time net.now.path) cores steps parts.old → AreParts (net_time net.now.path) cores (steps ++ Accessed pc entry.now leaving.now ∷ []) parts.new) }
    ensures series { OnOk result ((cores : ℕ) (s : Series) → IsSeries s series.old → IsSeries (record s { begun = record s.begun { tally = plus s.begun.tally (access_adds (net_time net.now.path) cores (copies_in parts.old.copies.of_data.items parts.old.copies.of_instructions.items) pc entry.now).tally } }) series.new) }
{
    let hit = Hit {
        kind: kind_of(&entry.request),
        cycles: net.time(entry),
    };
    parts.hit(alloc, pc, entry, leaving, &hit)?;
    series.hit(&hit);
    Ok(())
}

/// The end of an interval, of which these are the events and when they fired.
fn end_interval(
    alloc: Global,
    parts: &mut Parts,
    series: &mut SeriesRows,
    comps: usize,
    every: u32,
    events: &[Event],
    fired: &[Fired],
) -> Result<(), NoMemory>
    ensures parts { OnOk result ((time : Entry → ℕ) (cores : ℕ) (steps : List Step) (entries : List Entry) (delays : List ℕ) → AreParts time cores steps parts.old → AreParts time cores (steps ++ Ended (record { entries = entries; events = events.now; fired = fired.now; delays = delays }) ∷ []) parts.new) }
    ensures series { OnOk result ((s : Series) → IsSeries s series.old → IsSeries (record { begun = nothing_open; rows = with_last (with_interval s.begun events.now fired.now) (with_room comps every s.rows) }) series.new) }
{
    parts.end(alloc, events, fired)?;
    series.ended(alloc, comps, every, events, fired)?;
    Ok(())
}
