//! Worked graphs, split by hand.
ghost use Rattle.std.specs.Prelude.{◌≡◌, ◌<◌, ◌^◌, All, IsTrue, length};
ghost use Rattle.machine_desc.specs.Components.{component_count};
ghost use Rattle.machine_desc.specs.Machine.{IsMachine};

use crate::loads::{Load, MISS, graph_of};
use crate::machines::small;
use domain_map::{Crossing, Parts, split};
use event_graph::{Event, Graph};
use machine_desc::Machine;
use std::process::Abort;
use zs_num::Outcome;

/// Whether these events can be split on a machine of two components.
fn is_on_two(events: &[Event]) -> bool
    ensures components { IsTrue result → All (λ e. e.component < 2) events.now }
    ensures few { IsTrue result → length events.now < 2 ^ 31 }
{
    events.len() < 1 << 31 && events.iter().all(|event| event.component < 2)
}

/// How a graph is split on a machine of two components.
fn parts_of(rt: &(impl Abort + AllocGlobal), graph: &Graph, machine: &Machine) -> Parts
    requires machine { IsMachine machine.now }
    requires components { component_count machine.now ≡ 2 }
{
    assert!(rt; is_on_two(graph.events()));
    split(rt.alloc(), graph, machine).expect(rt, "memory")
}

/// How the graph of loads is split on the machine of two cores.
fn split_of(rt: &(impl Abort + AllocGlobal), loads: &[Load]) -> Parts {
    parts_of(rt, &graph_of(rt, loads), &small(rt, 2))
}

/// Checks how many domains there are, and those of the components.
fn has_domains(rt: &impl Abort, parts: &Parts, count: u16, places: &[u16]) {
    assert!(rt; parts.domains() == count);
    assert!(rt; parts.places() == places);
}

/// Checks the domain of a component.
fn is_in_domain(rt: &impl Abort, parts: &Parts, component: u16, wanted: u16) {
    assert!(rt; usize::from(component) < parts.places().len());
    assert!(rt; parts.domain(component) == wanted);
}

/// Checks the events of a domain.
fn has_events(rt: &impl Abort, parts: &Parts, domain: u16, wanted: &[u32]) {
    assert!(rt; domain < parts.domains());
    assert!(rt; parts.events(domain) == wanted);
}

/// Checks the crossings between the domains.
fn has_crossings(rt: &impl Abort, parts: &Parts, wanted: &[Crossing]) {
    assert!(rt; parts.crossings() == wanted);
}

static TWO_MISSES_CROSS: [Crossing; 4] = [
    Crossing {
        parent: 0,
        child: 1,
        source: 0,
        target: 1,
        delay: 0,
    },
    Crossing {
        parent: 1,
        child: 2,
        source: 1,
        target: 0,
        delay: 0,
    },
    Crossing {
        parent: 3,
        child: 4,
        source: 0,
        target: 1,
        delay: 0,
    },
    Crossing {
        parent: 4,
        child: 5,
        source: 1,
        target: 0,
        delay: 0,
    },
];

static TWO_MISSES: [Load; 2] = [(0, 1, MISS), (1, 1, MISS)];

/// Checks the domains, the events and the crossings of the two misses.
fn cross_four_times(rt: &impl Abort, parts: &Parts) {
    has_domains(rt, parts, 2, &[0, 1]);
    is_in_domain(rt, parts, 0, 0);
    is_in_domain(rt, parts, 1, 1);
    has_events(rt, parts, 0, &[0, 2, 3, 5]);
    has_events(rt, parts, 1, &[1, 4]);
    has_crossings(rt, parts, &TWO_MISSES_CROSS);
}

#[test]
fn two_misses_cross_four_times(rt: HostRuntime) {
    cross_four_times(&rt, &split_of(&rt, &TWO_MISSES));
}

static A_FILL_WAITS: [Crossing; 4] = [
    Crossing {
        parent: 0,
        child: 1,
        source: 0,
        target: 1,
        delay: 0,
    },
    Crossing {
        parent: 0,
        child: 2,
        source: 0,
        target: 1,
        delay: 0,
    },
    Crossing {
        parent: 1,
        child: 3,
        source: 1,
        target: 0,
        delay: 0,
    },
    Crossing {
        parent: 2,
        child: 3,
        source: 1,
        target: 0,
        delay: 60,
    },
];

static DIRTY_MISS: [Load; 1] = [(0, 1, Outcome::Miss { dirty_victim: true })];

#[test]
fn a_fill_waits_across_for_the_read_and_for_the_write_back(rt: HostRuntime) {
    has_crossings(&rt, &split_of(&rt, &DIRTY_MISS), &A_FILL_WAITS);
}
