//! The crossings out of each event.
ghost use Rattle.std.specs.Prelude.{◌≡◌, ◌<◌, ◌≤◌, ◌-◌, ◌^◌, All, IfOk, length};
ghost use Rattle.weave_run.specs.Outgoing.{AreCrossingsLinked, AreOutgoing};

use domain_map::Crossing;
use std::alloc::Global;
use zs_num::NoMemory;

/// For each event the last crossing that it is the parent of, and for each crossing the one before
/// with the same parent. A crossing stands as its number and 1, and none as 0.
#[derive(Drop)]
pub(crate) struct Outgoing {
    pub(crate) last: Vec<u32>,
    pub(crate) before: Vec<u32>,
}

impl Outgoing {
    /// The crossings out of so many events.
    pub(crate) fn of(alloc: Global, events: usize, crossings: &[Crossing]) -> Result<Self, NoMemory>
        requires few { length crossings.now < 2 ^ 31 }
        requires there { All (λ x. x.parent < events) crossings.now }
        ensures { IfOk result (λ o. AreOutgoing crossings.now events o) }
    {
        let mut last = vec![in alloc; 0; events]?;
        let mut before = vec![in alloc; 0; crossings.len()]?;
        link(crossings, last.as_mut_slice(), before.as_mut_slice());
        Ok(Outgoing { last, before })
    }
}

/// Links each crossing behind the one before with the same parent.
fn link(crossings: &[Crossing], last: &mut [u32], before: &mut [u32])
    requires few { length crossings.now < 2 ^ 32 - 1 }
    requires there { All (λ x. x.parent < length last.old) crossings.now }
    requires room { length before.old ≡ length crossings.now }
    requires none { All (λ n. n ≡ 0) last.old }
    ensures linked { AreCrossingsLinked crossings.now last.new before.new }
    ensures events { length last.new ≡ length last.old }
{
    for number in 0..crossings.len() {
        let parent = crossings[number].parent as usize;
        before[number] = last[parent];
        last[parent] = number as u32 + 1;
    }
}
