//! A graph's events by their domains.
ghost use Rattle.std.specs.Prelude.{◌≡◌, ◌<◌, length, slice_get, Some};
ghost use Rattle.domain_map.specs.Domains.{HasDomains};

use crate::Crossing;
use std::marker::Model;

/// The events of a graph by their domains, and the crossings between the domains. Crossings are
/// numbered from 0 in their order.
#[derive(Drop)]
pub struct Parts {
    pub(crate) places: Vec<u16>,
    pub(crate) count: u16,
    pub(crate) lists: Vec<Vec<u32>>,
    pub(crate) crossings: Vec<Crossing>,
}

impl Model for Parts {
    ghost use Rattle.domain_map.specs.Domains.{Partition};

    ghost Value = { Partition };

    ghost use Rattle.domain_map.specs.Inside.{partition_of, IsWholePartition};

    ghost view = { partition_of };

    ghost invariant = { IsWholePartition };
}

impl Parts {
    /// The numbers of the events that a domain fires, in ascending order.
    pub fn events(&self, domain: u16) -> &[u32]
        requires { domain < length self.now.events }
        ensures { slice_get self.now.events domain ≡ Some result.now }
    {
        &self.lists[usize::from(domain)]
    }

    /// The crossings, in the order of their children's numbers and then of the parents' slots.
    pub fn crossings(&self) -> &[Crossing]
        ensures { result.now ≡ self.now.crossings }
    {
        &self.crossings
    }

    /// How many domains there are.
    pub fn domains(&self) -> u16
        ensures count { result ≡ length self.now.events }
        ensures below { HasDomains self.now }
    {
        self.count
    }

    /// The domains of the components, by number.
    pub fn places(&self) -> &[u16]
        ensures { result.now ≡ self.now.places }
    {
        &self.places
    }

    /// The domain of a component.
    pub fn domain(&self, component: u16) -> u16
        requires { component < length self.now.places }
        ensures listed { slice_get self.now.places component ≡ Some result }
        ensures below { result < length self.now.events }
    {
        self.places[usize::from(component)]
    }
}
