//! The counters of a run.
use crate::comp_counts::{add_counted_comps, add_to_comp_counts};
use crate::core_counts::{add_counted_cores, add_to_core_counts};
use crate::{CompCount, CoreCount};
use component::{Comp, Comps};
use event_graph::{FiredList, Graph};
use feedback::Delays;
use machine_desc::{Machine, component_count};
use std::alloc::Global;
use std::marker::Model;
use zs_num::{Entries, NoMemory};

/// What was counted so far, by the numbers of the cores and of the components.
#[derive(Drop)]
pub struct Counters {
    core_counts: Vec<CoreCount>,
    comp_counts: Vec<CompCount>,
    accesses: u64,
    events: u64,
}

impl Model for Counters {
    ghost use Rattle.stats.specs.Counts.{Counts};

    ghost Value = { Counts };

    ghost view = { λ c. record {
      core_counts = c.core_counts.items;
      comp_counts = c.comp_counts.items;
      accesses = c.accesses;
      events = c.events;
    } };
}

impl Counters {
    ghost use Rattle.std.specs.Prelude.{◌≡◌, ◌<◌, All, IfOk, Some, length, slice_get};
    ghost use Rattle.machine_desc.specs.Machine.{IsMachine};
    ghost use Rattle.stats.specs.CountsFit.{CountsFit};
    ghost use Rattle.stats.specs.Added.{added, no_counts};
    ghost use Rattle.stats.specs.Counts.{Interval};
    ghost use Rattle.stats.specs.KnownCounts.{AreAccessCounts, AreEventCounts};
    ghost use Rattle.stats.specs.TookTheirTime.{TookTheirTime};

    /// The counters of this machine, all 0.
    pub fn new(alloc: Global, machine: &Machine) -> Result<Counters, NoMemory>
        requires { IsMachine machine.now }
        ensures { IfOk result (λ c. c ≡ no_counts machine.now) }
    {
        Ok(Counters {
            core_counts: vec![in alloc; NO_CORE_COUNT; usize::from(machine.cores)]?,
            comp_counts: vec![in alloc; NO_COMP_COUNT; usize::from(component_count(machine))]?,
            accesses: 0,
            events: 0,
        })
    }

    /// Adds an interval: its accesses, its events as the weave fired them, the delays of the cores,
    /// and the components after it.
    pub fn add(
        &mut self,
        entries: &Entries,
        graph: &Graph,
        fired: &FiredList,
        delays: &Delays,
        comps: &Comps<Comp>,
    )
        requires cores { All (λ e. e.core < length self.old.core_counts) entries.now }
        requires components { All (λ e. e.component < length self.old.comp_counts) graph.now }
        requires delays { length delays.now ≡ length self.old.core_counts }
        requires comps { length comps.now ≡ length self.old.comp_counts }
        requires took { TookTheirTime graph.now fired.now }
        requires fits { CountsFit (added self.old
            (record { entries = entries.now; events = graph.now; fired = fired.now; delays = delays.now })
            comps.now) }
        ensures { self.new ≡ added self.old
            (record { entries = entries.now; events = graph.now; fired = fired.now; delays = delays.now })
            comps.now }
    {
        add_to_core_counts(&mut self.core_counts, entries.as_slice(), delays.as_slice());
        add_to_comp_counts(
            &mut self.comp_counts,
            graph.events(),
            fired.as_slice(),
            comps.as_slice(),
        );
        self.accesses += entries.as_slice().len() as u64;
        self.events += graph.events().len() as u64;
    }

    /// Adds an interval of which everything was counted: so many accesses, those of each core, so
    /// many events, those of each component; with the delays of the cores, and the components after
    /// it.
    pub fn add_counts(
        &mut self,
        core_counts: &[CoreCount],
        accesses: u64,
        delays: &Delays,
        comp_counts: &[CompCount],
        events: u64,
        comps: &Comps<Comp>,
    )
        requires cores { length core_counts.now ≡ length self.old.core_counts }
        requires delays { length delays.now ≡ length self.old.core_counts }
        requires components { length comp_counts.now ≡ length self.old.comp_counts }
        requires comps { length comps.now ≡ length self.old.comp_counts }
        requires fits { (i : Interval) × AreAccessCounts i core_counts.now accesses × (i.delays ≡ delays.now) × AreEventCounts i comp_counts.now events × CountsFit (added self.old i comps.now) }
        ensures { (i : Interval) → AreAccessCounts i core_counts.now accesses → i.delays ≡ delays.now → AreEventCounts i comp_counts.now events → self.new ≡ added self.old i comps.now }
    {
        add_counted_cores(&mut self.core_counts, core_counts, delays.as_slice());
        add_counted_comps(&mut self.comp_counts, comp_counts, comps.as_slice());
        self.accesses += accesses;
        self.events += events;
    }

    /// Adds an interval whose accesses were counted: how many there were, those of each core, the
    /// events as the weave fired them, the delays of the cores, and the components after it.
    pub fn add_events(
        &mut self,
        core_counts: &[CoreCount],
        accesses: u64,
        graph: &Graph,
        fired: &FiredList,
        delays: &Delays,
        comps: &Comps<Comp>,
    )
        requires cores { length core_counts.now ≡ length self.old.core_counts }
        requires components { All (λ e. e.component < length self.old.comp_counts) graph.now }
        requires delays { length delays.now ≡ length self.old.core_counts }
        requires comps { length comps.now ≡ length self.old.comp_counts }
        requires took { TookTheirTime graph.now fired.now }
        requires fits { (i : Interval) × AreAccessCounts i core_counts.now accesses × (i.events ≡ graph.now) × (i.fired ≡ fired.now) × (i.delays ≡ delays.now) × CountsFit (added self.old i comps.now) }
        ensures { (i : Interval) → AreAccessCounts i core_counts.now accesses → i.events ≡ graph.now → i.fired ≡ fired.now → i.delays ≡ delays.now → self.new ≡ added self.old i comps.now }
    {
        add_counted_cores(&mut self.core_counts, core_counts, delays.as_slice());
        add_to_comp_counts(
            &mut self.comp_counts,
            graph.events(),
            fired.as_slice(),
            comps.as_slice(),
        );
        self.accesses += accesses;
        self.events += graph.events().len() as u64;
    }

    /// What was counted of a core.
    pub fn core(&self, number: u16) -> CoreCount
        requires { number < length self.now.core_counts }
        ensures { slice_get self.now.core_counts number ≡ Some result }
    {
        self.core_counts[usize::from(number)]
    }

    /// What was counted of the components, in order of their numbers.
    pub fn comp_counts(&self) -> &[CompCount]
        ensures { result.now ≡ self.now.comp_counts }
    {
        &self.comp_counts
    }

    /// What was counted of a component.
    pub fn comp(&self, number: u16) -> CompCount
        requires { number < length self.now.comp_counts }
        ensures { slice_get self.now.comp_counts number ≡ Some result }
    {
        self.comp_counts[usize::from(number)]
    }

    /// How many accesses there were.
    pub fn accesses(&self) -> u64
        ensures { result ≡ self.now.accesses }
    {
        self.accesses
    }

    /// How many events there were.
    pub fn events(&self) -> u64
        ensures { result ≡ self.now.events }
    {
        self.events
    }
}

/// The count of a core before its first access.
const NO_CORE_COUNT: CoreCount = CoreCount {
    delay: 0,
    loads: 0,
    stores: 0,
    atomics: 0,
    fetches: 0,
    hits: 0,
    upgrades: 0,
    l2hits: 0,
    misses: 0,
};

/// The count of a component before its first event.
const NO_COMP_COUNT: CompCount = CompCount {
    events: 0,
    waited: 0,
    free: 0,
};
