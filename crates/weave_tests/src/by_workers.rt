//! The weave by workers, of graphs that are seen to fit.
ghost use Rattle.domain_map.specs.Domains.{IsPartition};

use crate::fitting::{LIMIT, are_fast, is_graph};
use crate::server::Server;
use component::Comps;
use domain_map::Parts;
use event_graph::{Graph, laws};
use std::alloc::Global;
use std::thread::Threads;
use weave_run::{Woven, weave};
use zs_host::Gate;

/// The weave of a graph that was partitioned, by so many workers, or `None` where memory runs out
/// or its conditions are not seen to hold.
pub(crate) fn woven_by_workers<R: Threads + Sync, G: Gate>(
    rt: &R,
    alloc: Global,
    graph: &Graph,
    parts: &Parts,
    servers: &[Server],
    workers: u16,
    gate: &G,
) -> Option<Woven<Server>>
    requires { IsPartition graph.now parts.now }
{
    let events = graph.events();
    if workers == 0
        || workers > 64
        || events.len() > LIMIT as usize
        || parts.places().len() != servers.len()
        || !is_graph(events, servers)
        || !are_fast(servers)
    {
        return None;
    }
    laws::steps_stay_small::<Server>();
    let comps = Comps::of(Vec::from_slice(alloc, servers).ok()?);
    weave(rt, alloc, graph, parts, comps, workers, gate).ok()
}
