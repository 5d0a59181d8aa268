//! How a graph's events are split into domains.
ghost use Rattle.std.specs.Prelude.{◌≡◌, ◌+◌, ◌<◌, ◌^◌, ◌++◌, [], IfOk, OnOk, IfSome, All, length, vec_len};
ghost use Rattle.machine_desc.specs.Components.{component_count};
ghost use Rattle.machine_desc.specs.ComponentDomains.{component_domains};
ghost use Rattle.machine_desc.specs.Machine.{IsMachine};
ghost use Rattle.event_graph.specs.Numbered.{IsNumbered};
ghost use Rattle.domain_map.specs.Domains.{IsPartition, IsSplit, crossing_from, crossings_into, domain_of_event as the_domain_of_event, domain_of_number as the_domain_of_number};
ghost use Rattle.domain_map.specs.Inside.{lists_of, with_event_number, with_event_of_domain};

use crate::{Crossing, Parts};
use event_graph::{Event, Graph, Parent};
use machine_desc::{Machine, component_count, domain_of};
use std::alloc::Global;
use zs_num::NoMemory;

/// The events of a graph by the domains of a machine.
pub fn split(alloc: Global, graph: &Graph, machine: &Machine) -> Result<Parts, NoMemory>
    requires machine { IsMachine machine.now }
    requires components { All (λ e. e.component < component_count machine.now) graph.now }
    requires few { length graph.now < 2 ^ 31 }
    ensures { IfOk result (IsSplit graph.now machine.now) }
{
    partition(
        alloc,
        graph.events(),
        component_domains(alloc, machine)?,
        machine.domains.count,
    )
}

/// The domain of each component, by number.
pub fn component_domains(alloc: Global, machine: &Machine) -> Result<Vec<u16>, NoMemory>
    requires { IsMachine machine.now }
    ensures listed { IfOk result (λ places. places.items ≡ component_domains machine.now) }
    ensures count { IfOk result (λ places. length places.items ≡ component_count machine.now) }
    ensures below { IfOk result (λ places. All (λ domain. domain < machine.now.domains.count) places.items) }
{
    let mut places = Vec::new(alloc);
    for component in 0..component_count(machine) {
        places.push(domain_of(machine, component))?;
    }
    Ok(places)
}

/// The events by the domains of their components.
fn partition(
    alloc: Global,
    events: &[Event],
    places: Vec<u16>,
    count: u16,
) -> Result<Parts, NoMemory>
    requires numbered { IsNumbered events.now }
    requires components { All (λ e. e.component < length places.items) events.now }
    requires below { All (λ domain. domain < count) places.items }
    ensures places { IfOk result (λ p. p.places ≡ places.items) }
    ensures domains { IfOk result (λ p. length p.events ≡ count) }
    ensures partitions { IfOk result (IsPartition events.now) }
{
    let mut lists = empty_lists(alloc, count)?;
    let mut crossings = Vec::new(alloc);
    for event in events {
        add_event(&mut lists, &mut crossings, &places, events, event)?;
    }
    Ok(Parts {
        places,
        count,
        lists,
        crossings,
    })
}

/// No event in any domain.
fn empty_lists(alloc: Global, count: u16) -> Result<Vec<Vec<u32>>, NoMemory>
    ensures count { IfOk result (λ lists. length (lists_of lists.items) ≡ count) }
    ensures empty { IfOk result (λ lists. All (λ list. list ≡ []) (lists_of lists.items)) }
{
    let mut lists = Vec::with_capacity(alloc, usize::from(count))?;
    for _domain in 0..count {
        lists.push(Vec::new(alloc))?;
    }
    Ok(lists)
}

/// Puts an event behind those of its domain, and the crossings into it behind the others.
fn add_event(
    lists: &mut Vec<Vec<u32>>,
    crossings: &mut Vec<Crossing>,
    places: &[u16],
    events: &[Event],
    event: &Event,
) -> Result<(), NoMemory>
    requires below { All (λ domain. domain < vec_len lists.old) places.now }
    requires components { All (λ e. e.component < length places.now) events.now }
    requires component { event.now.component < length places.now }
    requires first { IfSome event.now.first (λ p. p.number < length events.now) }
    requires second { IfSome event.now.second (λ p. p.number < length events.now) }
    ensures event { OnOk result (lists_of lists.new.items ≡ with_event_of_domain places.now (lists_of lists.old.items) event.now) }
    ensures crossings { OnOk result (crossings.new.items ≡ crossings.old.items ++ crossings_into places.now events.now event.now) }
{
    push_number(lists, domain_of_event(places, event), event.number)?;
    push_crossing(crossings, places, events, event, event.first)?;
    push_crossing(crossings, places, events, event, event.second)?;
    Ok(())
}

/// Puts a number behind those of its domain.
fn push_number(lists: &mut Vec<Vec<u32>>, domain: u16, number: u32) -> Result<(), NoMemory>
    requires { domain < vec_len lists.old }
    ensures pushed { OnOk result (lists_of lists.new.items ≡ with_event_number (lists_of lists.old.items) domain number) }
{
    let list = &mut lists[usize::from(domain)];
    list.push(number)?;
    Ok(())
}

/// The domain of an event.
fn domain_of_event(places: &[u16], event: &Event) -> u16
    requires { event.now.component < length places.now }
    ensures { result ≡ the_domain_of_event places.now event.now }
{
    places[usize::from(event.component)]
}

/// The domain of the event of a number.
fn domain_of_number(places: &[u16], events: &[Event], number: u32) -> u16
    requires places { All (λ e. e.component < length places.now) events.now }
    requires there { number < length events.now }
    ensures { result ≡ the_domain_of_number places.now events.now number }
{
    domain_of_event(places, &events[number as usize])
}

/// Puts the crossing from an event's parent to it behind the others, where there is one.
#[tactic(auto, using(std::proofs::lemmas::Bool::Decides::nat_tests))]
fn push_crossing(
    crossings: &mut Vec<Crossing>,
    places: &[u16],
    events: &[Event],
    event: &Event,
    parent: Option<Parent>,
) -> Result<(), NoMemory>
    requires places { All (λ e. e.component < length places.now) events.now }
    requires place { event.now.component < length places.now }
    requires parent { IfSome parent (λ p. p.number < length events.now) }
    ensures { OnOk result (crossings.new.items ≡ crossings.old.items ++ crossing_from places.now events.now event.now parent) }
{
    let Some(parent) = parent else {
        return Ok(());
    };
    let source = domain_of_number(places, events, parent.number);
    let target = domain_of_event(places, event);
    if source != target {
        crossings.push(Crossing {
            parent: parent.number,
            child: event.number,
            source,
            target,
            delay: parent.delay,
        })?;
    }
    Ok(())
}
