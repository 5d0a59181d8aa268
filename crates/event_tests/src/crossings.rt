//! Two events that a crossing joins.
ghost use Rattle.std.specs.Prelude.{◌≡◌, [], ◌∷◌, IsTrue, length};
ghost use Rattle.machine_desc.specs.Components.{component_count};
ghost use Rattle.machine_desc.specs.Machine.{IsMachine};
ghost use Rattle.domain_map.specs.Domains.{IsPartition};
ghost use Rattle.domain_map.specs.declared.crossing.Crossing.{Crossing};
ghost use Rattle.crossing.specs.Seats.{new_seat};
ghost use Rattle.event_tests.specs.Pair.{IsPairOfEvents, pair};

use crate::machines::small;
use component::{Bank, Comps, Kind};
use crossing::{Crossings, DomainSeat};
use domain_map::{Parts, split};
use event_graph::{Event, Graph, Parent};
use machine_desc::Machine;
use std::process::Abort;
use zs_num::Word;

/// An idle bank whose look-ups take 10 cycles.
fn bank() -> Bank
    ensures lookup { result.lookup ≡ 10 }
    ensures free { result.free ≡ 0 }
{
    Bank {
        lookup: 10,
        remote: 15,
        fill: 2,
        occupancy: 4,
        free: 0,
    }
}

/// Two banks as the components.
fn comps_of(rt: &(impl Abort + AllocGlobal), former: Bank, latter: Bank) -> Comps<Bank>
    ensures { result ≡ former ∷ latter ∷ [] }
{
    Comps::of(vec![in rt.alloc(); former, latter].expect(rt, "memory"))
}

/// A look-up on each of two components, of which the second waits for the first.
fn pair(rt: &(impl Abort + AllocGlobal)) -> Graph
    ensures { result ≡ pair }
{
    let first = Event {
        number: 0,
        core: 0,
        component: 0,
        kind: Kind::Lookup,
        min_start: 0,
        min_finish: 10,
        critical: false,
        first: None,
        second: None,
    };
    let second = Event {
        number: 1,
        component: 1,
        critical: true,
        first: Some(Parent {
            number: 0,
            delay: 0,
        }),
        ..first
    };
    Graph::of(vec![in rt.alloc(); first, second].expect(rt, "memory"))
}

/// How the two events are split on a machine of two components in two domains.
fn parts_of(rt: &(impl Abort + AllocGlobal), graph: &Graph, machine: &Machine) -> Parts
    requires machine { IsMachine machine.now }
    requires components { component_count machine.now ≡ 2 }
    requires domains { machine.now.domains.count ≡ 2 }
    requires pair { graph.now ≡ pair }
    ensures partition { IsPartition graph.now result }
    ensures domains { length result.events ≡ 2 }
{
    split(rt.alloc(), graph, machine).expect(rt, "memory")
}

/// Whether there is one crossing, from event 0 in domain 0.
fn is_one_crossing(parts: &Parts) -> bool
    ensures { IsTrue result → (x : Crossing) × (parts.now.crossings ≡ x ∷ []) × (x.parent ≡ 0) × (x.source ≡ 0) }
{
    let crossings = parts.crossings();
    crossings.len() == 1 && crossings[0].parent == 0 && crossings[0].source == 0
}

/// What the second seat finds at first, once a bound was raised, and once the finish is published.
fn found(crossings: &Crossings, first: &mut DomainSeat, second: &mut DomainSeat) -> [Word; 3]
    requires first { first.old ≡ new_seat crossings.now (10 ∷ []) (0 ∷ []) 0 }
    requires second { second.old ≡ new_seat crossings.now (10 ∷ []) (0 ∷ []) 1 }
    ensures first { first.new.crossings ≡ crossings.now }
    ensures second { second.new.crossings ≡ crossings.now }
{
    let before = crossings.look(second, 0);
    crossings.raise(first, 0, 7);
    let raised = crossings.look(second, 0);
    crossings.publish(first, 0, 10);
    [before, raised, crossings.look(second, 0)]
}

/// A word for the crossing, and the seats of both domains.
fn crossings_of(
    rt: &(impl Abort + AllocGlobal),
    graph: &Graph,
    parts: &Parts,
    comps: &Comps<Bank>,
) -> (Crossings, Vec<DomainSeat>)
    requires pair { IsPairOfEvents graph.now parts.now comps.now }
    requires partition { IsPartition graph.now parts.now }
    ensures { result.1.items ≡ new_seat result.0 (10 ∷ []) (0 ∷ []) 0 ∷ new_seat result.0 (10 ∷ []) (0 ∷ []) 1 ∷ [] }
{
    Crossings::make(rt.alloc(), graph, parts, comps).expect(rt, "memory")
}

/// The same on the words of the two events.
fn found_by_the_second(
    rt: &(impl Abort + AllocGlobal),
    graph: &Graph,
    parts: &Parts,
    comps: &Comps<Bank>,
) -> [Word; 3]
    requires pair { IsPairOfEvents graph.now parts.now comps.now }
    requires partition { IsPartition graph.now parts.now }
{
    let (crossings, mut seats) = crossings_of(rt, graph, parts, comps);
    let mut first = seats.remove(0);
    let mut second = seats.remove(0);
    let words = found(&crossings, &mut first, &mut second);
    seats.push(first).expect(rt, "memory");
    seats.push(second).expect(rt, "memory");
    crossings.close(seats);
    words
}

/// The same with two idle banks as the components.
fn found_on_banks(rt: &(impl Abort + AllocGlobal), graph: &Graph, parts: &Parts) -> [Word; 3]
    requires pair { graph.now ≡ pair }
    requires partition { IsPartition graph.now parts.now }
    requires domains { length parts.now.events ≡ 2 }
{
    assert!(rt; is_one_crossing(parts));
    let comps = comps_of(rt, bank(), bank());
    found_by_the_second(rt, graph, parts, &comps)
}

#[test]
fn a_look_finds_the_finish_once_it_is_published(rt: HostRuntime) {
    let graph = pair(&rt);
    let parts = parts_of(&rt, &graph, &small(&rt, 1));
    let words = found_on_banks(&rt, &graph, &parts);
    assert!(rt; words == [Word::Bound(0), Word::Bound(7), Word::Exact(10)]);
}
