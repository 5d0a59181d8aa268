//! How long each way of weaving takes.
ghost use Rattle.domain_map.specs.Domains.{IsPartition};

use crate::by_domains::{LeftByDomains, weave_by_domains};
use crate::by_workers::woven_by_workers;
use crate::graphs::{SIXTEEN_DOMAINS, graph_of, idle, in_domains, misses};
use crate::one_list::woven;
use crate::server::Server;
use component::Comps;
use domain_map::Parts;
use event_graph::Graph;
use std::alloc::Global;
use std::io;
use std::thread::Threads;
use std::time::Instant;
use zs_host::OpenGate;

/// In how many visits the domains weave, if they do.
fn visits(alloc: Global, graph: &Graph, parts: &Parts, servers: &[Server]) -> Option<u32>
    requires { IsPartition graph.now parts.now }
{
    let mut left = LeftByDomains::new(alloc, graph.events().len())?;
    weave_by_domains(alloc, graph, parts, servers, &mut left)?;
    Some(left.visits)
}

/// Writes how long the weave by domains took, if the graph was woven.
fn time_domains(
    rt: &HostRuntime,
    graph: &Graph,
    parts: &Parts,
    servers: &[Server],
) -> io::Result<bool>
    requires { IsPartition graph.now parts.now }
{
    let begin = Instant::now(rt)?;
    let Some(visits) = visits(rt.alloc(), graph, parts, servers) else {
        return Ok(false);
    };
    println!(rt; "domains {:?}, {visits} visits", begin.elapsed(rt)?)?;
    Ok(true)
}

/// In how many rounds so many workers weave, if they do.
fn rounds<T: Threads + Sync>(
    threads: &T,
    alloc: Global,
    graph: &Graph,
    parts: &Parts,
    servers: &[Server],
    workers: u16,
) -> Option<u32>
    requires { IsPartition graph.now parts.now }
{
    Some(woven_by_workers(threads, alloc, graph, parts, servers, workers, &OpenGate)?.rounds)
}

/// Writes how long so many workers took, if the graph was woven.
fn time_workers<T: Threads + Sync>(
    rt: &HostRuntime,
    threads: &T,
    graph: &Graph,
    parts: &Parts,
    servers: &[Server],
    workers: u16,
) -> io::Result<bool>
    requires { IsPartition graph.now parts.now }
{
    let begin = Instant::now(rt)?;
    let Some(rounds) = rounds(threads, rt.alloc(), graph, parts, servers, workers) else {
        return Ok(false);
    };
    println!(rt;
        "{workers} workers {:?}, {rounds} rounds",
        begin.elapsed(rt)?
    )?;
    Ok(true)
}

/// Writes how long one list took, if the graph was woven.
fn time_one_list(rt: &HostRuntime, graph: &Graph, comps: &mut Comps<Server>) -> io::Result<bool> {
    let begin = Instant::now(rt)?;
    if woven(rt.alloc(), graph, comps).is_none() {
        return Ok(false);
    }
    println!(rt; "one list {:?}", begin.elapsed(rt)?)?;
    Ok(true)
}

/// Writes how long one list took on these servers, which stay as they are, if the graph was woven.
fn time_on(rt: &HostRuntime, graph: &Graph, servers: &[Server]) -> io::Result<bool> {
    let mut comps = Comps::of(Vec::from_slice(rt.alloc(), servers)?);
    time_one_list(rt, graph, &mut comps)
}

/// Writes how long each way of weaving a graph takes. Answers whether all wove it.
fn time_all<T: Threads + Sync>(
    rt: &HostRuntime,
    threads: &T,
    graph: &Graph,
    parts: &Parts,
    servers: &[Server],
) -> io::Result<bool>
    requires { IsPartition graph.now parts.now }
{
    let (events, crossings) = (graph.events().len(), parts.crossings().len());
    println!(rt; "{events} events, {crossings} crossings")?;
    if !time_on(rt, graph, servers)? || !time_domains(rt, graph, parts, servers)? {
        return Ok(false);
    }
    for workers in [1, 2, 4] {
        if !time_workers(rt, threads, graph, parts, servers, workers)? {
            return Ok(false);
        }
    }
    Ok(true)
}

/// A graph of so many events on these servers, or `None` where memory runs out or they make none.
fn graph_on(alloc: Global, count: u32, servers: &[Server]) -> Option<Graph> {
    graph_of(misses(alloc, count, 1)?, servers)
}

/// Writes how long each way of weaving a graph in sixteen domains takes. Answers whether all wove
/// it.
fn time_graph<T: Threads + Sync>(
    rt: &HostRuntime,
    threads: &T,
    graph: &Graph,
    servers: &[Server],
) -> io::Result<bool> {
    match in_domains(rt.alloc(), graph, SIXTEEN_DOMAINS) {
        Some(parts) => time_all(rt, threads, graph, &parts, servers),
        None => Ok(false),
    }
}

/// Weaves a graph of so many events each way, and writes how long it took. Answers whether all
/// were woven.
pub(crate) fn run<T: Threads + Sync>(
    rt: &HostRuntime,
    threads: &T,
    count: u32,
) -> io::Result<bool> {
    let alloc = rt.alloc();
    let Some(servers) = idle(alloc, SIXTEEN_DOMAINS.components(), 4) else {
        return Ok(false);
    };
    match graph_on(alloc, count, &servers) {
        Some(graph) => time_graph(rt, threads, &graph, &servers),
        None => Ok(false),
    }
}
