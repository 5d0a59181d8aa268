//! What no clause says: counts worked by hand, on one bank and one controller with the times of the
//! built-in machine, and that the calls succeed at the largest machine too.
ghost use Rattle.std.specs.Prelude.{◌≡◌, ◌<◌, ◌≤◌, All, None, length};
ghost use Rattle.component.specs.Components.{AreFresh};
ghost use Rattle.machine_desc.specs.Machine.{IsMachine};
ghost use Rattle.event_graph.specs.Numbered.{IsNumbered};
ghost use Rattle.event_graph.specs.Timely.{AreTimely};
ghost use Rattle.stats.specs.CountsFit.{CountsFit};
ghost use Rattle.stats.specs.Added.{added, no_counts};

use crate::machines::{machine, no_counters};
use component::{Bank, Comp, Comps, Controller, components};
use event_graph::{Event, Fired, FiredList, Graph, Kind};
use feedback::Delays;
use machine_desc::{Machine, component_count};
use stats::{CompCount, CoreCount, Counters, laws};
use std::process::Abort;
use zs_num::{AmoOp, Cycle, Entries, Entry, Outcome, Request};

/// The bank and the controller, free from these cycles on.
fn comps(rt: &(impl Abort + AllocGlobal), bank: Cycle, controller: Cycle) -> Comps<Comp>
    ensures { length result ≡ 2 }
{
    let list = vec![in rt.alloc();
        Comp::Bank(Bank {
            lookup: 10,
            remote: 15,
            fill: 2,
            occupancy: 4,
            free: bank,
        }),
        Comp::Controller(Controller {
            read: 100,
            write: 40,
            occupancy: 20,
            free: controller,
        }),
    ];
    Comps::of(list.expect(rt, "memory"))
}

fn access(core: u16, start: Cycle, request: Request, outcome: Outcome) -> Entry
    ensures { result.core ≡ core }
{
    Entry {
        core,
        stamp: start,
        start,
        request,
        reply: 0,
        outcome,
    }
}

fn event(number: u32, component: u16, kind: Kind, min_start: Cycle, min_finish: Cycle) -> Event
    ensures number { result.number ≡ number }
    ensures component { result.component ≡ component }
    ensures min_start { result.min_start ≡ min_start }
    ensures min_finish { result.min_finish ≡ min_finish }
    ensures first { result.first ≡ None }
    ensures second { result.second ≡ None }
{
    Event {
        number,
        core: 0,
        component,
        kind,
        min_start,
        min_finish,
        critical: false,
        first: None,
        second: None,
    }
}

fn fired(number: u32, start: Cycle, finish: Cycle) -> Fired
    ensures number { result.number ≡ number }
    ensures start { result.start ≡ start }
    ensures finish { result.finish ≡ finish }
{
    Fired {
        number,
        start,
        finish,
    }
}

const LOAD: Request = Request::Load {
    addr: 0x11000,
    width: 8,
};

const STORE: Request = Request::Store {
    addr: 0x11000,
    width: 8,
    value: 1,
};

const CONDITIONAL: Request = Request::Sc {
    addr: 0x11000,
    width: 8,
    value: 1,
    paired: false,
};

const ADD: Request = Request::Amo {
    op: AmoOp::Add,
    addr: 0x11000,
    width: 8,
    value: 1,
};

/// An interval as the weave left it.
#[derive(Drop)]
struct WovenInterval {
    entries: Entries,
    graph: Graph,
    fired: FiredList,
    delays: Delays,
    comps: Comps<Comp>,
    ghost cores: { All (λ e. e.core < 2) entries },
    ghost components: { All (λ e. e.component < 2) graph },
    ghost few_entries: { length entries < 10 },
    ghost few_events: { length graph < 10 },
    ghost timely: { AreTimely graph fired },
    ghost delay_count: { length delays ≡ 2 },
    ghost short_delays: { All (λ d. d ≤ 100) delays },
    ghost comp_count: { length comps ≡ 2 },
}

/// An interval of these accesses, events, delays and components.
fn woven(
    rt: &(impl Abort + AllocGlobal),
    entries: &[Entry],
    events: &[Event],
    fired: &[Fired],
    delays: &[u64],
    comps: Comps<Comp>,
) -> WovenInterval
    requires cores { All (λ e. e.core < 2) entries.now }
    requires components { All (λ e. e.component < 2) events.now }
    requires few_entries { length entries.now < 10 }
    requires few_events { length events.now < 10 }
    requires numbered { IsNumbered events.now }
    requires timely { AreTimely events.now fired.now }
    requires delay_count { length delays.now ≡ 2 }
    requires short_delays { All (λ d. d ≤ 100) delays.now }
    requires comp_count { length comps ≡ 2 }
{
    let alloc = rt.alloc();
    let entries = Vec::from_slice(alloc, entries).expect(rt, "memory");
    let events = Vec::from_slice(alloc, events).expect(rt, "memory");
    let fired = Vec::from_slice(alloc, fired).expect(rt, "memory");
    let delays = Vec::from_slice(alloc, delays).expect(rt, "memory");
    WovenInterval {
        entries: Entries::of(entries),
        graph: Graph::of(events),
        fired: FiredList::of(fired),
        delays: Delays::of(delays),
        comps,
    }
}

/// Core 0 misses at cycle 1, and a line is written back: the write waits 20 cycles for the read,
/// and so the fill comes 20 cycles later. Core 1 takes the write permission from another core at
/// cycle 3, and waits 2 cycles for the bank; then it has a hit.
fn first(rt: &(impl Abort + AllocGlobal)) -> WovenInterval {
    let entries = [
        access(0, 1, LOAD, Outcome::Miss { dirty_victim: true }),
        access(1, 3, STORE, Outcome::Upgrade { others: true }),
        access(1, 20, LOAD, Outcome::Hit),
    ];
    let events = [
        event(0, 0, Kind::Lookup, 2, 12),
        event(1, 1, Kind::Read, 12, 112),
        event(2, 1, Kind::Write, 12, 52),
        event(3, 0, Kind::Fill, 112, 114),
        event(4, 0, Kind::Remote, 4, 19),
    ];
    let woven_events = [
        fired(0, 2, 12),
        fired(1, 12, 112),
        fired(2, 12, 72),
        fired(3, 132, 134),
        fired(4, 4, 21),
    ];
    let comps = comps(rt, 136, 52);
    woven(rt, &entries, &events, &woven_events, &[20, 2], comps)
}

/// Both cores find lines in the shared cache at the same cycle. Core 0's look-up is the second, and
/// waits 4 cycles for the bank.
fn second(rt: &(impl Abort + AllocGlobal)) -> WovenInterval {
    let entries = [
        access(1, 10_000, CONDITIONAL, Outcome::L2 { others: false }),
        access(0, 10_000, ADD, Outcome::L2 { others: false }),
    ];
    let events = [
        event(0, 0, Kind::Lookup, 10_001, 10_011),
        event(1, 0, Kind::Lookup, 10_001, 10_011),
    ];
    let woven_events = [fired(0, 10_001, 10_011), fired(1, 10_001, 10_015)];
    let comps = comps(rt, 10_009, 52);
    woven(rt, &entries, &events, &woven_events, &[4, 0], comps)
}

/// Adds an interval to the counters of two cores and two components.
#[tactic(auto, using(crate::proofs::Lengths::as_many_cores, crate::proofs::Lengths::as_many_comps))]
fn add(counters: &mut Counters, woven: &WovenInterval)
    requires cores { length counters.old.core_counts ≡ 2 }
    requires comps { length counters.old.comp_counts ≡ 2 }
    requires fits { let woven = woven.now in CountsFit (added counters.old
        (record { entries = woven.entries; events = woven.graph; fired = woven.fired; delays = woven.delays })
        woven.comps) }
    ensures added { let woven = woven.now in counters.new ≡ added counters.old
        (record { entries = woven.entries; events = woven.graph; fired = woven.fired; delays = woven.delays })
        woven.comps }
    ensures cores { length counters.new.core_counts ≡ 2 }
    ensures comps { length counters.new.comp_counts ≡ 2 }
{
    counters.add(
        &woven.entries,
        &woven.graph,
        &woven.fired,
        &woven.delays,
        &woven.comps,
    );
}

/// The components of a machine before its first interval.
fn first_comps(rt: &(impl Abort + AllocGlobal), machine: &Machine) -> Comps<Comp>
    requires { IsMachine machine.now }
    ensures { AreFresh machine.now result }
{
    components(rt.alloc(), machine).expect(rt, "memory")
}

/// The counters of a machine before its first interval.
fn first_counters(rt: &(impl Abort + AllocGlobal), machine: &Machine) -> Counters
    requires { IsMachine machine.now }
    ensures { result ≡ no_counts machine.now }
{
    Counters::new(rt.alloc(), machine).expect(rt, "memory")
}

/// The counters after both intervals, which fit by the laws.
fn counted(rt: &(impl Abort + AllocGlobal), machine: &Machine) -> Counters
    requires machine { IsMachine machine.now }
    requires cores { machine.now.cores ≡ 2 }
    requires banks { machine.now.l2.banks ≡ 1 }
    requires controllers { machine.now.controllers.count ≡ 1 }
    requires mesh { machine.now.mesh ≡ None }
    ensures cores { length result.core_counts ≡ 2 }
    ensures comps { length result.comp_counts ≡ 2 }
{
    laws::nothing_is_counted_first();
    laws::counters_are_sums();
    laws::sums_fit();
    let _before = first_comps(rt, machine);
    let mut counters = first_counters(rt, machine);
    let one = first(rt);
    add(&mut counters, &one);
    let two = second(rt);
    add(&mut counters, &two);
    counters
}

/// Counters, of so many cores and so many components.
#[derive(Drop)]
struct SizedCounters {
    counters: Counters,
    cores: u16,
    comps: u16,
    ghost core_counts: { length counters.core_counts ≡ cores },
    ghost comp_counts: { length counters.comp_counts ≡ comps },
}

impl SizedCounters {
    /// What was counted of a core.
    fn core(&self, number: u16) -> Option<CoreCount> {
        if number < self.cores {
            Some(self.counters.core(number))
        } else {
            None
        }
    }

    /// What was counted of a component.
    fn comp(&self, number: u16) -> Option<CompCount> {
        if number < self.comps {
            Some(self.counters.comp(number))
        } else {
            None
        }
    }
}

/// What was counted of both intervals on a machine of two cores, a bank and a controller.
fn of_both(rt: &(impl Abort + AllocGlobal), machine: &Machine) -> SizedCounters
    requires machine { IsMachine machine.now }
    requires cores { machine.now.cores ≡ 2 }
    requires banks { machine.now.l2.banks ≡ 1 }
    requires controllers { machine.now.controllers.count ≡ 1 }
    requires mesh { machine.now.mesh ≡ None }
{
    SizedCounters {
        counters: counted(rt, machine),
        cores: 2,
        comps: 2,
    }
}

/// Checks what was counted of a core.
fn has_core(rt: &impl Abort, found: &SizedCounters, number: u16, wanted: &CoreCount) {
    assert!(rt; found.core(number) == Some(*wanted));
}

/// Checks what was counted of a component.
fn has_comp(rt: &impl Abort, found: &SizedCounters, number: u16, wanted: &CompCount) {
    assert!(rt; found.comp(number) == Some(*wanted));
}

/// Checks how many accesses and events there were in all.
fn has_totals(rt: &impl Abort, found: &SizedCounters, accesses: u64, events: u64) {
    assert!(rt; found.counters.accesses() == accesses);
    assert!(rt; found.counters.events() == events);
}

/// Checks the counts of both intervals.
fn has_both(rt: &impl Abort, found: &SizedCounters) {
    has_core(rt, found, 0, &CORE_0);
    has_core(rt, found, 1, &CORE_1);
    has_comp(rt, found, 0, &BANK);
    has_comp(rt, found, 1, &CONTROLLER);
    has_totals(rt, found, 5, 7);
}

#[test]
fn two_intervals_are_counted(rt: HostRuntime) {
    has_both(&rt, &of_both(&rt, &machine(&rt, 2, 1, 1)));
}

static CORE_0: CoreCount = CoreCount {
    delay: 24,
    loads: 1,
    stores: 0,
    atomics: 1,
    fetches: 0,
    hits: 0,
    upgrades: 0,
    l2hits: 1,
    misses: 1,
};

static CORE_1: CoreCount = CoreCount {
    delay: 2,
    loads: 1,
    stores: 1,
    atomics: 1,
    fetches: 0,
    hits: 1,
    upgrades: 1,
    l2hits: 1,
    misses: 0,
};

static BANK: CompCount = CompCount {
    events: 5,
    waited: 6,
    free: 10_009,
};

static CONTROLLER: CompCount = CompCount {
    events: 2,
    waited: 20,
    free: 52,
};

/// The counters of a machine before the first interval.
fn uncounted(rt: &(impl Abort + AllocGlobal), machine: &Machine) -> SizedCounters
    requires { IsMachine machine.now }
{
    SizedCounters {
        counters: no_counters(rt, machine),
        cores: machine.cores,
        comps: component_count(machine),
    }
}

/// Checks of how many cores and components there are counts.
fn has_counts(rt: &impl Abort, found: &SizedCounters, cores: u16, comps: u16) {
    assert!(rt; found.cores == cores && found.comps == comps);
    assert!(rt; found.counters.comp_counts().len() == usize::from(comps));
}

/// Checks that nothing is counted of 256 cores, 64 banks and 16 controllers.
fn has_nothing(rt: &impl Abort, found: &SizedCounters) {
    has_counts(rt, found, 256, 80);
    has_core(rt, found, 255, &NO_CORE_COUNT);
    has_comp(rt, found, 79, &NO_COMP_COUNT);
    has_totals(rt, found, 0, 0);
}

#[test]
fn the_largest_machine_has_counters(rt: HostRuntime) {
    has_nothing(&rt, &uncounted(&rt, &machine(&rt, 256, 64, 16)));
}

static NO_CORE_COUNT: CoreCount = CoreCount {
    delay: 0,
    loads: 0,
    stores: 0,
    atomics: 0,
    fetches: 0,
    hits: 0,
    upgrades: 0,
    l2hits: 0,
    misses: 0,
};

static NO_COMP_COUNT: CompCount = CompCount {
    events: 0,
    waited: 0,
    free: 0,
};
