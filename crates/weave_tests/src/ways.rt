//! One graph woven in every way: on one list, by domains, and by several numbers of workers.
ghost use Rattle.domain_map.specs.Domains.{IsPartition};

use crate::by_domains::{LeftByDomains, weave_by_domains};
use crate::by_workers::woven_by_workers;
use crate::graphs::{Layout, in_domains};
use crate::one_list::woven;
use crate::server::Server;
use component::Comps;
use domain_map::Parts;
use event_graph::{Fired, Graph};
use std::alloc::Global;
use std::thread::Threads;
use weave_run::Woven;
use zs_host::OpenGate;
use zs_num::Cycle;

/// What a weave leaves.
pub(crate) struct Outcome {
    /// The events in order of their numbers.
    pub(crate) fired: Vec<Fired>,
    /// For each server the cycle from which on it is free.
    pub(crate) frees: Vec<Cycle>,
}

/// Taken apart in this one place, so that whoever lets go of an outcome owes this call alone.
impl Drop for Outcome {
    fn drop(self) {
        let Outcome {
            fired: _fired,
            frees: _frees,
        } = self;
    }
}

/// Until when the servers are busy.
fn frees(alloc: Global, servers: &[Server]) -> Option<Vec<Cycle>> {
    let mut frees = Vec::with_capacity(alloc, servers.len()).ok()?;
    add_frees(servers, &mut frees)?;
    Some(frees)
}

/// Adds until when the servers are busy.
pub(crate) fn add_frees(servers: &[Server], frees: &mut Vec<Cycle>) -> Option<()> {
    for server in servers {
        frees.push(server.free).ok()?;
    }
    Some(())
}

/// What a weave left that fired these events and left these servers. `None` where memory runs out.
pub(crate) fn outcome_of(alloc: Global, fired: &[Fired], servers: &[Server]) -> Option<Outcome> {
    let frees = frees(alloc, servers)?;
    let fired = Vec::from_slice(alloc, fired).ok()?;
    Some(Outcome { fired, frees })
}

/// What one list leaves of the graph, or `None` where it is none on these servers or memory runs
/// out.
pub(crate) fn on_one_list(alloc: Global, graph: &Graph, servers: &[Server]) -> Option<Outcome> {
    let mut comps = Comps::of(Vec::from_slice(alloc, servers).ok()?);
    let fired = woven(alloc, graph, &mut comps)?;
    outcome_of(alloc, fired.as_slice(), comps.as_slice())
}

/// Whether two lists have the same cycles, in whatever order. The first is sorted then. `None`
/// where memory runs out.
fn are_same(some: &mut Vec<Cycle>, others: &[Cycle], alloc: Global) -> Option<bool> {
    let mut others = Vec::from_slice(alloc, others).ok()?;
    Some(some.sort().is_ok() && others.sort().is_ok() && some.as_slice() == others.as_slice())
}

/// Whether the weave by domains leaves this, but for the order of the servers.
fn is_by_domains(
    alloc: Global,
    graph: &Graph,
    parts: &Parts,
    servers: &[Server],
    wanted: &Outcome,
) -> Option<bool>
    requires { IsPartition graph.now parts.now }
{
    let mut left = LeftByDomains::new(alloc, graph.events().len())?;
    weave_by_domains(alloc, graph, parts, servers, &mut left)?;
    let same = are_same(&mut left.frees, &wanted.frees, alloc)?;
    Some(same && left.fired.as_slice() == wanted.fired.as_slice())
}

/// Whether the servers are busy until then.
fn are_busy_until(servers: &[Server], frees: &[Cycle]) -> bool {
    if servers.len() != frees.len() {
        return false;
    }
    for (server, free) in servers.iter().zip(frees) {
        if server.free != *free {
            return false;
        }
    }
    true
}

/// Whether a weave left this, in no more rounds than there are events.
fn is_as(found: &Woven<Server>, wanted: &Outcome) -> bool {
    found.fired.as_slice() == wanted.fired.as_slice()
        && are_busy_until(found.comps.as_slice(), &wanted.frees)
        && found.rounds as usize <= wanted.fired.len()
}

/// Whether so many workers leave this.
fn is_by_workers<T: Threads + Sync>(
    threads: &T,
    alloc: Global,
    graph: &Graph,
    parts: &Parts,
    servers: &[Server],
    workers: u16,
    wanted: &Outcome,
) -> bool
    requires { IsPartition graph.now parts.now }
{
    match woven_by_workers(threads, alloc, graph, parts, servers, workers, &OpenGate) {
        Some(found) => is_as(&found, wanted),
        None => false,
    }
}

/// Whether the domains and each of these numbers of workers leave this.
fn is_every_way<T: Threads + Sync>(
    threads: &T,
    alloc: Global,
    graph: &Graph,
    parts: &Parts,
    servers: &[Server],
    numbers: &[u16],
    wanted: &Outcome,
) -> bool
    requires { IsPartition graph.now parts.now }
{
    if is_by_domains(alloc, graph, parts, servers, wanted) != Some(true) {
        return false;
    }
    for workers in numbers {
        if !is_by_workers(threads, alloc, graph, parts, servers, *workers, wanted) {
            return false;
        }
    }
    true
}

/// Whether every way of weaving by these domains leaves this, by these numbers of workers too.
fn is_in_domains<T: Threads + Sync>(
    threads: &T,
    alloc: Global,
    graph: &Graph,
    servers: &[Server],
    layout: Layout,
    numbers: &[u16],
    wanted: &Outcome,
) -> bool {
    match in_domains(alloc, graph, layout) {
        Some(parts) => is_every_way(threads, alloc, graph, &parts, servers, numbers, wanted),
        None => false,
    }
}

/// What every way of weaving leaves of the graph, by these numbers of workers too; or `None` where
/// two ways differ, memory runs out, or it is no graph on these servers and in these domains.
pub(crate) fn every_way<T: Threads + Sync>(
    threads: &T,
    alloc: Global,
    graph: &Graph,
    servers: &[Server],
    layout: Layout,
    numbers: &[u16],
) -> Option<Outcome> {
    let wanted = on_one_list(alloc, graph, servers)?;
    if is_in_domains(threads, alloc, graph, servers, layout, numbers, &wanted) {
        Some(wanted)
    } else {
        None
    }
}
