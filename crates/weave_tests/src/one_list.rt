//! The weave on one list, of graphs that are seen to fit.
use crate::fitting::{LIMIT, are_fast, is_graph};
use crate::server::Server;
use component::Comps;
use event_graph::{FiredList, Graph, laws};
use std::alloc::Global;
use weave_seq::weave_seq;

/// The weave of a graph on these servers, or `None` where memory runs out or its conditions are not
/// seen to hold.
pub(crate) fn woven(alloc: Global, graph: &Graph, comps: &mut Comps<Server>) -> Option<FiredList> {
    let events = graph.events();
    if events.len() > LIMIT as usize
        || !is_graph(events, comps.as_slice())
        || !are_fast(comps.as_slice())
    {
        return None;
    }
    laws::steps_stay_small::<Server>();
    weave_seq(alloc, graph, comps).ok()
}
