//! The parts of a profile that accesses and their events change.
ghost use Rattle.std.specs.Prelude.{◌≡◌, ◌==◌, ◌&&◌, ◌++◌, ◌∷◌, [], ℕ, List, IfOk, OnOk, if◌then◌else◌, map, false, true};
ghost use Rattle.zs_num.specs.declared.entry.Entry.{Entry};
ghost use Rattle.event_graph.specs.declared.event.Event.{Event};
ghost use Rattle.event_graph.specs.declared.fired.Fired.{Fired};
ghost use Rattle.noc_mesh.specs.NetTiming.{net_time};
ghost use Rattle.stats.specs.Counted.{is_hit};
ghost use Rattle.trace.specs.Trace.{Accessed, Ended, Step};
ghost use Rattle.profile.specs.declared.contribution.Contribution.{Contribution};
ghost use Rattle.profile.specs.Added.{Adds, kind_of, with_met};
ghost use Rattle.profile.specs.Contributions.{access_adds, wait_adds};
ghost use Rattle.profile.specs.CopyTables.{copies_in};
ghost use Rattle.profile.specs.Makers.{of_core, queue_at, tail};
ghost use Rattle.profile.specs.Parts.{AreParts, IsServing};
ghost use Rattle.profile.specs.Waits.{makers_of, wait_for};
ghost use Rattle.profile.specs.Rows.{AreRows};

use crate::added::{Hit, Met, Waited};
use crate::contribution::Maker;
use crate::copies::Copies;
use crate::makers::{Queue, clear, first_of, put, take_first};
use crate::met::{is_hit, met};
use crate::rows::Rows;
use crate::series::wait_of;
use crate::suffered::add_suffered;
use event_graph::{Event, Fired};
use noc_mesh::Net;
use shard::Leaving;
use std::alloc::Global;
use zs_num::{Entry, NoMemory};

/// What there is of all copies, the accesses of the interval that made events, and the sums.
#[derive(Drop)]
pub(crate) struct Parts {
    pub(crate) copies: Copies,
    pub(crate) makers: Vec<Queue>,
    pub(crate) rows: Rows,
}

impl Parts {
    /// Those before the first step.
    pub(crate) fn new(alloc: Global) -> Parts
        ensures { (time : Entry → ℕ) (cores : ℕ) → AreParts time cores [] result }
    {
        Parts {
            copies: Copies::new(alloc),
            makers: Vec::new(alloc),
            rows: Rows::new(alloc),
        }
    }

    /// An access that does not hit, for which these lines left. Answers how it was met.
    pub(crate) fn access(
        &mut self,
        alloc: Global,
        net: &Net,
        cores: u16,
        pc: u64,
        entry: &Entry,
        leaving: &Leaving,
    ) -> Result<Met, NoMemory>
        requires { is_hit entry.now.outcome ≡ false }
        ensures parts { OnOk result ((steps : List Step) → AreParts (net_time net.now.path) cores steps self.old → AreParts (net_time net.now.path) cores (steps ++ Accessed pc entry.now leaving.now ∷ []) self.new) }
        ensures met { IfOk result (λ met. Adds (with_met met) (access_adds (net_time net.now.path) cores (copies_in self.old.copies.of_data.items self.old.copies.of_instructions.items) pc entry.now).tally) }
    {
        let met = met(net, cores, &self.copies, entry);
        self.rows
            .change(alloc, entry.core, Some(pc), entry.request.line(), &met)?;
        add_suffered(alloc, &mut self.rows, cores, &self.copies, entry)?;
        self.copies.pass(alloc, entry, leaving)?;
        put_maker(alloc, &mut self.makers, pc, entry)?;
        Ok(met)
    }

    /// A hit, for which these lines left. It changes no copy of another core, and makes no event.
    #[inline(always)]
    pub(crate) fn hit(
        &mut self,
        alloc: Global,
        pc: u64,
        entry: &Entry,
        leaving: &Leaving,
        hit: &Hit,
    ) -> Result<(), NoMemory>
        requires hits { is_hit entry.now.outcome ≡ true }
        requires kind { hit.now.kind ≡ kind_of entry.now.request }
        ensures { OnOk result ((time : Entry → ℕ) (cores : ℕ) (steps : List Step) → hit.now.cycles ≡ time entry.now → AreParts time cores steps self.old → AreParts time cores (steps ++ Accessed pc entry.now leaving.now ∷ []) self.new) }
    {
        self.rows
            .change(alloc, entry.core, Some(pc), entry.request.line(), hit)?;
        self.copies.pass_hit(alloc, entry, leaving)?;
        Ok(())
    }

    /// The end of an interval, of which these are the events and when they fired.
    pub(crate) fn end(
        &mut self,
        alloc: Global,
        events: &[Event],
        fired: &[Fired],
    ) -> Result<(), NoMemory>
        ensures { OnOk result ((time : Entry → ℕ) (cores : ℕ) (steps : List Step) (entries : List Entry) (delays : List ℕ) → AreParts time cores steps self.old → AreParts time cores (steps ++ Ended (record { entries = entries; events = events.now; fired = fired.now; delays = delays }) ∷ []) self.new) }
    {
        let count = events.len().min(fired.len());
        for place in 0..count {
            self.wait(alloc, &events[place], &fired[place])?;
        }
        clear(&mut self.makers);
        Ok(())
    }

    /// An event waited for the access that made it.
    fn wait(&mut self, alloc: Global, event: &Event, fired: &Fired) -> Result<(), NoMemory>
        ensures waits { OnOk result ((whole : List Contribution) (left : List (Event × Fired)) → IsServing whole ((event.now, fired.now) ∷ left) self.old → IsServing whole left self.new) }
        ensures copies { self.new.copies ≡ self.old.copies }
    {
        let first = first_of(&self.makers, event.core);
        give(alloc, &mut self.rows, first, event, fired)?;
        let_go(&mut self.makers, event);
        Ok(())
    }
}

/// Adds the wait of an event to the access that made it, if there is one. Many wait for nothing.
fn give(
    alloc: Global,
    rows: &mut Rows,
    first: Option<Maker>,
    event: &Event,
    fired: &Fired,
) -> Result<(), NoMemory>
    ensures { OnOk result ((cs : List Contribution) → AreRows cs rows.old.addresses.items rows.old.lines.items → AreRows (cs ++ map wait_adds (wait_for first event.now fired.now)) rows.new.addresses.items rows.new.lines.items) }
{
    if let Some(maker) = first {
        let cycles = wait_of(event, fired);
        if cycles > 0 {
            let waited = Waited { cycles };
            rows.change(alloc, maker.core, Some(maker.pc), maker.line, &waited)?;
        }
    }
    Ok(())
}

/// Takes the first access of an event's core off, where the event is its last one.
fn let_go(makers: &mut Vec<Queue>, event: &Event)
    ensures { (c : ℕ) → queue_at makers.new.items c ≡ (if event.now.critical && event.now.core == c then tail (queue_at makers.old.items c) else queue_at makers.old.items c) }
{
    if event.critical {
        take_first(makers, event.core);
    }
}

/// Puts an access behind those of its core, where it makes events.
fn put_maker(alloc: Global, makers: &mut Vec<Queue>, pc: u64, entry: &Entry) -> Result<(), NoMemory>
    ensures { OnOk result ((c : ℕ) → queue_at makers.new.items c ≡ queue_at makers.old.items c ++ of_core c (makers_of pc entry.now)) }
{
    if is_hit(&entry.outcome) {
        return Ok(());
    }
    let maker = Maker {
        core: entry.core,
        pc,
        line: entry.request.line(),
    };
    put(alloc, makers, maker)?;
    Ok(())
}
