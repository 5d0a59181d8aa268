//! The weave of an interval whose accesses are recorded.
ghost use Rattle.std.specs.Prelude.{◌≡◌, ◌*◌, ◌≤◌, ◌^◌, ◌++◌, ◌∷◌, [], All, List, map, IfNone, IfOk, IfSome, OnOk, false, true};
ghost use Rattle.crew.specs.Crews.{free_seats};
ghost use Rattle.machine_desc.specs.Machine.{IsMachine};
ghost use Rattle.component.specs.ComponentStep.{free_of};
ghost use Rattle.component.specs.Components.{AreComponents};
ghost use Rattle.component.specs.declared.comp.Comp.{Comp};
ghost use Rattle.stats.specs.Counts.{Interval};
ghost use Rattle.bound_records.specs.CoreRuns.{IsNetOf};
ghost use Rattle.bound_records.specs.Recorders.{AreTakenIn};
ghost use Rattle.run.specs.IntervalWeave.{AreEventsOf, HaveFired};
ghost use Rattle.run.specs.Recording.{IsRecordingOf, IsRecordingSoFar, is_on};
ghost use Rattle.run.specs.Records.{FitsIn, IsRecorded, IsTakenIn, accesses_in, recorded_interval};

use crate::Recording;
use crate::chains::weave_lists;
use crate::context::Context;
use crate::firing::fire_all;
use crate::first_passes::LaterPasses;
use crate::laws::intervals_are_woven;
use crate::weaving::{events_of, woven_of};
use access_record::{OrderBuffers, Turns};
use bound_records::Recorder;
use bound_workers::Work;
use component::{Comp, Comps};
use crew::{Asker, Post};
use event_graph::{FiredList, Graph};
use feedback::Delays;
use machine_desc::Machine;
use noc_mesh::Net;
use stats::Counters;
use std::alloc::Global;
use std::sync::Wait;
use weave_chains::ChainBuffers;
use weave_seq::weave_seq;
use zs_host::{Gate, OpenGate};
use zs_num::{Entries, NoMemory};

/// Fires the events of an interval's accesses, which were made by these turns, by so many workers,
/// who pass the gate before each. Moves the components on, counts the interval, and adds it to the
/// recording. Answers the delays of the cores, and their numbers in the recorded order of the accesses
/// where this had to be told. `domains_are_worth` says what it says to `fire_all`. The events are
/// fired core by core, as far as the order of the accesses does not matter, by one worker and where
/// domains are not worth it, while no events are kept.
pub(crate) fn weave_recorded<'a, R: Wait + Sync, G: Gate>(
    context: &Context<'a, R, G>,
    posts: &[Post<Work<'a, R, G>>],
    askers: &mut [Asker<Work<'a, R, G>>],
    recorder: &Recorder,
    turns: Turns<'_>,
    comps: &mut Comps<Comp>,
    counters: &mut Counters,
    domains_are_worth: &mut bool,
    recording: &mut Recording,
    chain_buffers: &mut ChainBuffers,
    order_buffers: &mut OrderBuffers,
) -> Result<(Delays, Option<Vec<u16>>), NoMemory>
    requires workers { (1 ≤ context.now.workers) × (context.now.workers ≤ 64) }
    requires askers { askers.old ≡ free_seats posts.now }
    requires machine { IsMachine context.now.machine.now }
    requires net { IsNetOf context.now.machine.now context.now.net.now }
    requires recorded { IsRecorded context.now.machine.now recorder.now }
    requires turns { AreTakenIn turns recorder.now }
    requires components { AreComponents context.now.machine.now comps.old }
    requires free { All (λ c. free_of c ≤ 2 ^ 56) comps.old }
    requires fits { FitsIn (recorded_interval context.now.machine.now comps.old recorder.now) context.now.machine.now comps.old counters.old }
    requires recording { IsRecordingSoFar context.now.machine.now recording.old }
    ensures taken { IfOk result (λ r. IsTakenIn (recorded_interval context.now.machine.now comps.old recorder.now) comps.old comps.new counters.old counters.new r.0) }
    ensures order { IfOk result (λ r. IfSome r.1 (λ list. list.items ≡ map (λ e. e.core) (accesses_in recorder.now))) }
    ensures recorded { OnOk result ((intervals : List Interval) → IsRecordingOf context.now.machine.now intervals recording.old → IsRecordingOf context.now.machine.now (intervals ++ recorded_interval context.now.machine.now comps.old recorder.now ∷ []) recording.new) }
    ensures on { is_on recording.new ≡ is_on recording.old }
    ensures askers { askers.new ≡ askers.old }
{
    let weavers = context.workers.min(context.machine.domains.count);
    let found = weave_by_cores(
        context.alloc,
        context.machine,
        context.net,
        recorder,
        comps,
        counters,
        weavers,
        *domains_are_worth,
        context.gate,
        context.places,
        recording,
        chain_buffers,
    )?;
    match found {
        Some(delays) => Ok((delays, None)),
        None => {
            let order = recorder.recorded_cores(context.alloc, turns, order_buffers)?;
            let delays = weave_in_order(
                context,
                posts,
                askers,
                recorder,
                turns,
                &order,
                comps,
                counters,
                weavers,
                &later_passes(
                    context,
                    weavers,
                    *domains_are_worth,
                    recording,
                    chain_buffers,
                ),
                domains_are_worth,
                recording,
            )?;
            Ok((delays, Some(order)))
        }
    }
}

/// The gate for the weave in order that follows where the one core by core gave nothing.
fn later_passes<'a, R, G: Gate>(
    context: &Context<'a, R, G>,
    workers: u16,
    domains_are_worth: bool,
    recording: &Recording,
    chain_buffers: &ChainBuffers,
) -> LaterPasses<'a, G> {
    let begun = can_fire_by_cores(workers, domains_are_worth, context.gate, recording);
    LaterPasses::behind(context.gate, begun, context.places, chain_buffers)
}

/// The same core by core, without adding anything to the recording. None where they cannot be fired
/// so, or where the order of the accesses matters: nothing is changed then.
fn weave_by_cores<G: Gate>(
    alloc: Global,
    machine: &Machine,
    net: &Net,
    recorder: &Recorder,
    comps: &mut Comps<Comp>,
    counters: &mut Counters,
    workers: u16,
    domains_are_worth: bool,
    gate: &G,
    places: &[u16],
    recording: &Recording,
    chain_buffers: &mut ChainBuffers,
) -> Result<Option<Delays>, NoMemory>
    requires machine { IsMachine machine.now }
    requires net { IsNetOf machine.now net.now }
    requires recorded { IsRecorded machine.now recorder.now }
    requires components { AreComponents machine.now comps.old }
    requires free { All (λ c. free_of c ≤ 2 ^ 56) comps.old }
    requires fits { FitsIn (recorded_interval machine.now comps.old recorder.now) machine.now comps.old counters.old }
    ensures taken { IfOk result (λ found. IfSome found (IsTakenIn (recorded_interval machine.now comps.old recorder.now) comps.old comps.new counters.old counters.new)) }
    ensures off { IfOk result (λ found. IfSome found (λ _. is_on recording.now ≡ false)) }
    ensures comps { IfOk result (λ found. IfNone found (comps.new ≡ comps.old)) }
    ensures counters { IfOk result (λ found. IfNone found (counters.new ≡ counters.old)) }
{
    intervals_are_woven();
    if !can_fire_by_cores(workers, domains_are_worth, gate, recording) {
        return Ok(None);
    }
    let found = weave_lists(alloc, net, recorder, comps, places, gate, chain_buffers)?;
    let Some(woven) = found else {
        return Ok(None);
    };
    counters.add_counts(
        recorder.counts(),
        u64::from(recorder.access_count()),
        &woven.delays,
        &woven.counts,
        u64::from(woven.events),
        comps,
    );
    Ok(Some(woven.delays))
}

/// Whether so many workers fire the events of an interval core by core: one does, and several where
/// domains are not worth it, unless somebody looks at the gate, by which each event of theirs passes
/// as one of its domain's worker.
fn can_fire_by_cores<G: Gate>(
    workers: u16,
    domains_are_worth: bool,
    gate: &G,
    recording: &Recording,
) -> bool
    ensures off { result ≡ true → is_on recording.now ≡ false }
{
    let by_one = workers == 1 || (!domains_are_worth && gate.is_open());
    by_one && !recording.is_on()
}

/// The same in the recorded order of the accesses.
fn weave_in_order<'a, R: Wait + Sync, G: Gate>(
    context: &Context<'a, R, G>,
    posts: &[Post<Work<'a, R, G>>],
    askers: &mut [Asker<Work<'a, R, G>>],
    recorder: &Recorder,
    turns: Turns<'_>,
    order: &[u16],
    comps: &mut Comps<Comp>,
    counters: &mut Counters,
    workers: u16,
    later: &LaterPasses<'_, G>,
    domains_are_worth: &mut bool,
    recording: &mut Recording,
) -> Result<Delays, NoMemory>
    requires workers { (1 ≤ workers) × (workers ≤ 64) }
    requires askers { askers.old ≡ free_seats posts.now }
    requires machine { IsMachine context.now.machine.now }
    requires net { IsNetOf context.now.machine.now context.now.net.now }
    requires recorded { IsRecorded context.now.machine.now recorder.now }
    requires turns { AreTakenIn turns recorder.now }
    requires order { order.now ≡ map (λ e. e.core) (accesses_in recorder.now) }
    requires components { AreComponents context.now.machine.now comps.old }
    requires free { All (λ c. free_of c ≤ 2 ^ 56) comps.old }
    requires fits { FitsIn (recorded_interval context.now.machine.now comps.old recorder.now) context.now.machine.now comps.old counters.old }
    requires recording { IsRecordingSoFar context.now.machine.now recording.old }
    ensures taken { IfOk result (IsTakenIn (recorded_interval context.now.machine.now comps.old recorder.now) comps.old comps.new counters.old counters.new) }
    ensures recorded { OnOk result ((intervals : List Interval) → IsRecordingOf context.now.machine.now intervals recording.old → IsRecordingOf context.now.machine.now (intervals ++ recorded_interval context.now.machine.now comps.old recorder.now ∷ []) recording.new) }
    ensures on { is_on recording.new ≡ is_on recording.old }
    ensures askers { askers.new ≡ askers.old }
{
    let (alloc, machine) = (context.alloc, context.machine);
    let graph = recorded_events(alloc, machine, context.net, recorder, turns, order, comps)?;
    let fired = fire_all(
        context.rt,
        alloc,
        machine,
        &graph,
        comps,
        workers,
        context.gate,
        later,
        context.places,
        posts,
        askers,
        domains_are_worth,
    )?;
    let delays = take_in(
        alloc, machine, recorder, graph, fired, comps, counters, recording,
    )?;
    Ok(delays)
}

/// Fires the events of an interval's accesses, which were made by these turns, and does the same
/// without a recording and without a gate: core by core, as far as the order of the accesses does
/// not matter.
pub fn weave_replayed(
    alloc: Global,
    machine: &Machine,
    net: &Net,
    recorder: &Recorder,
    turns: Turns<'_>,
    comps: &mut Comps<Comp>,
    counters: &mut Counters,
    places: &[u16],
    chain_buffers: &mut ChainBuffers,
) -> Result<Delays, NoMemory>
    requires machine { IsMachine machine.now }
    requires net { IsNetOf machine.now net.now }
    requires recorded { IsRecorded machine.now recorder.now }
    requires turns { AreTakenIn turns recorder.now }
    requires components { AreComponents machine.now comps.old }
    requires free { All (λ c. free_of c ≤ 2 ^ 56) comps.old }
    requires fits { FitsIn (recorded_interval machine.now comps.old recorder.now) machine.now comps.old counters.old }
    ensures { IfOk result (IsTakenIn (recorded_interval machine.now comps.old recorder.now) comps.old comps.new counters.old counters.new) }
{
    let off = Recording::Off;
    let found = weave_by_cores(
        alloc,
        machine,
        net,
        recorder,
        comps,
        counters,
        1,
        true,
        &OpenGate,
        places,
        &off,
        chain_buffers,
    )?;
    match found {
        Some(delays) => Ok(delays),
        None => weave_on_one_list(alloc, machine, net, recorder, turns, comps, counters),
    }
}

/// The same on one list, in the recorded order of the accesses.
fn weave_on_one_list(
    alloc: Global,
    machine: &Machine,
    net: &Net,
    recorder: &Recorder,
    turns: Turns<'_>,
    comps: &mut Comps<Comp>,
    counters: &mut Counters,
) -> Result<Delays, NoMemory>
    requires machine { IsMachine machine.now }
    requires net { IsNetOf machine.now net.now }
    requires recorded { IsRecorded machine.now recorder.now }
    requires turns { AreTakenIn turns recorder.now }
    requires components { AreComponents machine.now comps.old }
    requires free { All (λ c. free_of c ≤ 2 ^ 56) comps.old }
    requires fits { FitsIn (recorded_interval machine.now comps.old recorder.now) machine.now comps.old counters.old }
    ensures { IfOk result (IsTakenIn (recorded_interval machine.now comps.old recorder.now) comps.old comps.new counters.old counters.new) }
{
    let mut off = Recording::Off;
    let order = recorder.recorded_cores(alloc, turns, &mut OrderBuffers::none())?;
    let graph = recorded_events(alloc, machine, net, recorder, turns, &order, comps)?;
    let fired = weave_seq(alloc, &graph, comps)?;
    let delays = take_in(
        alloc, machine, recorder, graph, fired, comps, counters, &mut off,
    )?;
    Ok(delays)
}

/// The events of an interval's accesses, which were made by these turns, and whose cores are these
/// in recorded order.
fn recorded_events(
    alloc: Global,
    machine: &Machine,
    net: &Net,
    recorder: &Recorder,
    turns: Turns<'_>,
    order: &[u16],
    comps: &Comps<Comp>,
) -> Result<Graph, NoMemory>
    requires machine { IsMachine machine.now }
    requires net { IsNetOf machine.now net.now }
    requires recorded { IsRecorded machine.now recorder.now }
    requires turns { AreTakenIn turns recorder.now }
    requires order { order.now ≡ map (λ e. e.core) (accesses_in recorder.now) }
    requires components { AreComponents machine.now comps.now }
    requires free { All (λ c. free_of c ≤ 2 ^ 56) comps.now }
    ensures { IfOk result (AreEventsOf machine.now comps.now (accesses_in recorder.now)) }
{
    let list = recorder.recorded_accesses(alloc, turns, order)?;
    let entries = Entries::of(list);
    let graph = events_of(alloc, machine, net, &entries, comps)?;
    Ok(graph)
}

/// Takes in an interval whose events have fired: counts it, and adds it to the recording. Answers
/// the delays of the cores.
fn take_in(
    alloc: Global,
    machine: &Machine,
    recorder: &Recorder,
    graph: Graph,
    fired: FiredList,
    comps: &Comps<Comp>,
    counters: &mut Counters,
    recording: &mut Recording,
) -> Result<Delays, NoMemory>
    requires machine { IsMachine machine.now }
    requires recorded { IsRecorded machine.now recorder.now }
    requires fired { (before : List Comp) × HaveFired machine.now before (accesses_in recorder.now) graph fired comps.now × FitsIn (recorded_interval machine.now before recorder.now) machine.now before counters.old }
    requires recording { IsRecordingSoFar machine.now recording.old }
    ensures taken { IfOk result (λ delays. (before : List Comp) → HaveFired machine.now before (accesses_in recorder.now) graph fired comps.now → IsTakenIn (recorded_interval machine.now before recorder.now) before comps.now counters.old counters.new delays) }
    ensures recorded { OnOk result ((before : List Comp) → HaveFired machine.now before (accesses_in recorder.now) graph fired comps.now → (intervals : List Interval) → IsRecordingOf machine.now intervals recording.old → IsRecordingOf machine.now (intervals ++ recorded_interval machine.now before recorder.now ∷ []) recording.new) }
    ensures on { is_on recording.new ≡ is_on recording.old }
{
    event_graph::laws::machine_components_stay();
    let woven = woven_of(alloc, machine, graph, fired)?;
    recording.keep(&woven.graph, &woven.fired)?;
    counters.add_events(
        recorder.counts(),
        u64::from(recorder.access_count()),
        &woven.graph,
        &woven.fired,
        &woven.delays,
        comps,
    );
    Ok(woven.delays)
}
