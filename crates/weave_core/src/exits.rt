//! The crossings out of a domain.
ghost use Rattle.std.specs.Prelude.{◌≡◌, ◌≤◌, ◌<◌, ◌^◌, IfOk, Some, length, slice_get};
ghost use Rattle.weave_core.specs.Beginning.{IsRisingList};
ghost use Rattle.weave_core.specs.Exits.{AreExits, AreRising, HaveParents};

use crate::prepare::place_of;
use domain_map::Crossing;
use event_graph::Event;
use std::alloc::Global;
use zs_num::NoMemory;

/// The numbers of the crossings out of a domain, in order, and for each the place of its parent
/// among the domain's events.
#[derive(Drop)]
pub(crate) struct Exits {
    pub(crate) numbers: Vec<u32>,
    pub(crate) parents: Vec<u32>,
}

impl Exits {
    /// Those of a domain whose events are here.
    pub(crate) fn of(
        alloc: Global,
        here: &[Event],
        crossings: &[Crossing],
        domain: u16,
    ) -> Result<Self, NoMemory>
        requires rising { IsRisingList here.now }
        requires few { length here.now < 2 ^ 30 }
        requires few_crossings { length crossings.now < 2 ^ 31 }
        requires parents { HaveParents here.now crossings.now domain }
        ensures { IfOk result (λ exits. AreExits here.now crossings.now domain (length crossings.now) exits.numbers.items exits.parents.items) }
    {
        let mut numbers = Vec::new(alloc);
        let mut parents = Vec::new(alloc);
        for number in 0..crossings.len() as u32 {
            let crossing = crossings[number as usize];
            if crossing.source == domain {
                let Some(parent) = place_of(here, crossing.parent) else {
                    unreachable!()
                };
                numbers.push(number)?;
                parents.push(parent)?;
            }
        }
        Ok(Exits { numbers, parents })
    }

    /// The place of the parent of a crossing, which is one of them.
    pub(crate) fn parent_of(&self, crossing: u32) -> u32
        requires sizes { length self.now.parents.items ≡ length self.now.numbers.items }
        requires rising { AreRising self.now.numbers.items }
        requires there { (i : _) × (slice_get self.now.numbers.items i ≡ Some crossing) }
        ensures { (i : _) × ((slice_get self.now.numbers.items i ≡ Some crossing) × (slice_get self.now.parents.items i ≡ Some result)) }
    {
        let Ok(place) = self.numbers.binary_search(&crossing) else {
            unreachable!()
        };
        self.parents[place]
    }
}
