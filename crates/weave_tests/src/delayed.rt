//! The delays of cores, from the weave of a graph on one list.
ghost use Rattle.std.specs.Prelude.{◌<◌, All, IsTrue};

use crate::fitting::{LIMIT, are_fast, is_graph};
use crate::graphs::graph_of;
use crate::page::Page;
use crate::server::Server;
use crate::worked::{BANK_AND_CONTROLLER, TWO_MISSES, listed};
use component::{Comps, Kind};
use event_graph::{Event, Fired, Graph, laws};
use feedback::{Delays, delays};
use std::alloc::Global;
use weave_seq::weave_seq;
use zs_num::NoMemory;

/// Whether the events are of so many cores.
fn are_of_cores(events: &[Event], cores: u16) -> bool
    ensures { IsTrue result → All (λ event. event.core < cores) events.now }
{
    events.iter().all(|event| event.core < cores)
}

/// The delays of so many cores, from the weave of a graph on these servers, or `None` where memory
/// runs out or the conditions of either are not seen to hold. `times` gains the times of the
/// events.
fn delayed(
    alloc: Global,
    graph: &Graph,
    comps: &mut Comps<Server>,
    cores: u16,
    times: &mut Vec<Fired>,
) -> Option<Delays> {
    let events = graph.events();
    if events.len() > LIMIT as usize
        || !is_graph(events, comps.as_slice())
        || !are_fast(comps.as_slice())
        || !are_of_cores(events, cores)
    {
        return None;
    }
    laws::steps_stay_small::<Server>();
    laws::events_take_their_time::<Server>();
    feedback::laws::timely_events_have_finished();
    match weave_seq(alloc, graph, comps) {
        Ok(fired) => {
            times.extend_from_slice(fired.as_slice()).ok()?;
            delays(alloc, graph, &fired, cores).ok()
        }
        Err(NoMemory) => None,
    }
}

/// The two misses of two cores, of which each waits for the last event of its miss.
fn of_two_cores(alloc: Global) -> Option<Vec<Event>> {
    let mut events = listed(alloc, &TWO_MISSES)?;
    for event in &mut events {
        event.core = u16::from(event.number >= 3);
        event.critical = event.kind == Kind::Fill;
    }
    Some(events)
}

/// Writes when the events finish, and by how much each core is late.
fn write(times: &[Fired], late: &[u64], page: &mut Page) {
    let mut before = "\n  events finish at [";
    for fired in times {
        page.count(before, fired.finish);
        before = ", ";
    }
    page.text("], cores are late by ");
    page.list(late);
    page.line("");
}

fn write_delayed(alloc: Global, page: &mut Page) -> Option<()> {
    let graph = graph_of(of_two_cores(alloc)?, &BANK_AND_CONTROLLER)?;
    let mut comps = Comps::of(Vec::from_slice(alloc, &BANK_AND_CONTROLLER).ok()?);
    let mut times = Vec::new(alloc);
    let late = delayed(alloc, &graph, &mut comps, 2, &mut times)?;
    write(&times, late.as_slice(), page);
    Some(())
}

/// The second core waits for the bank until 6, and then for the controller until 32.
pub(crate) fn run(alloc: Global, page: &mut Page) {
    page.text("the delays of cores follow from the weave");
    if write_delayed(alloc, page).is_none() {
        page.line(": not woven");
    }
}
