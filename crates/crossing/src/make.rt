//! How the words of the crossings are made.
ghost use Rattle.std.specs.Prelude.{◌≡◌, ◌≤◌, ◌<◌, ◌+◌, ◌-◌, ◌*◌, ◌^◌, [], IfOk, length, map, vec_len, replicate};
ghost use Rattle.std.specs.Vec.{vec_capacity};
ghost use Rattle.event_graph.specs.Fits.{GraphFits};
ghost use Rattle.domain_map.specs.Domains.{IsPartition};
ghost use Rattle.crossing.specs.Rule.{untold};
ghost use Rattle.crossing.specs.Seats.{AreSeats, finishes_of, sources_of};

use crate::crossings::Crossings;
use crate::plays::{Finishes, NextSeat, Say};
use crate::seat::DomainSeat;
use crate::view::{TableSeat, Words};
use component::{Component, Comps};
use domain_map::Parts;
use event_graph::Graph;
use std::alloc::Global;
use std::marker::Brand;
use zs_num::NoMemory;

impl Crossings {
    /// A word for each crossing of a graph that was split, which says nothing yet, and the seats of
    /// the domains by their numbers. The finish that a crossing stands for is that of its parent in
    /// the one-list weave of the graph from these components: contracts speak of it, and nothing of
    /// it is computed.
    pub fn make<C: Component>(
        alloc: Global,
        graph: &Graph,
        parts: &Parts,
        comps: &Comps<C>,
    ) -> Result<(Crossings, Vec<DomainSeat>), NoMemory>
        requires fits { GraphFits C.serves C.floor graph.now comps.now }
        requires partitions { IsPartition graph.now parts.now }
        ensures { IfOk result (λ made. AreSeats made.0 (finishes_of C.stepped graph.now parts.now comps.now) (sources_of parts.now) (length parts.now.events) made.1.items) }
    {
        let count = parts.crossings().len();
        if count > u32::MAX as usize {
            return Err(NoMemory);
        }
        let domains = parts.domains();
        let seats = Vec::with_capacity(alloc, usize::from(domains))?;
        let zeros = vec![in alloc; 0; 16 * count + 1]?;
        let (words, first) = Words::of_words(alloc, &zeros, &(count as u64))?;
        let seats = seated::<C, Brand>(&words, first, domains, seats, graph, parts, comps);
        Ok((Crossings { words }, seats))
    }
}

/// Tells the first seat the finishes and the sources, and gives each domain its seat.
fn seated<C: Component, F: Finishes>(
    words: &Words,
    mut first: TableSeat,
    domains: u16,
    mut seats: Vec<DomainSeat>,
    graph: &Graph,
    parts: &Parts,
    comps: &Comps<C>,
) -> Vec<DomainSeat>
    requires empty { seats.items ≡ [] }
    requires room { domains ≤ vec_capacity seats }
    requires table { first.table_id ≡ words.now.shared.table_id }
    requires count { words.now.shared.table_id.words ≡ 16 * length F.sources + 1 }
    requires key { words.now.shared.key ≡ length F.sources }
    requires untold { first.me ≡ (untold, []) }
    ensures { AreSeats words.now.shared.table_id F.finishes F.sources domains result.items }
{
    words.shared.load::<Say<F>>(&mut first, 0);
    for domain in 0..domains {
        let place = words.shared.split_seat::<NextSeat>(&mut first);
        seats.push_reserved(DomainSeat { place });
    }
    seats
}
