//! The weave core by core of two misses, with its numbers by hand.
ghost use Rattle.std.specs.Prelude.{◌≡◌, ◌≤◌, ◌^◌, None};
ghost use Rattle.machine_desc.specs.Machine.{IsMachine};
ghost use Rattle.component.specs.Components.{AreFresh};
ghost use Rattle.event_tests.specs.TwoMisses.{miss_of, two_misses};

use crate::loads::{MISS, entry};
use crate::machines::small;
use component::{Comp, Comps, components};
use event_graph::{Plain, laws};
use machine_desc::Machine;
use std::process::Abort;
use weave_chains::{Accesses, ChainBuffers, Woven, weave_chains};
use zs_host::OpenGate;
use zs_num::{Cycle, Entry};

/// A miss of core 0 and one of core 1, which begin at these cycles.
#[derive(Drop)]
struct TwoMisses {
    first: Cycle,
    second: Cycle,
}

impl Accesses for TwoMisses {
    ghost lists = { λ m. two_misses m.first m.second };

    fn cores(&self) -> u16 {
        2
    }

    fn count(&self, _core: u16) -> u32 {
        1
    }

    fn access(&self, core: u16, _place: u32) -> Entry {
        let start = if core == 0 { self.first } else { self.second };
        miss(core, start)
    }
}

/// A miss of a core, at this cycle.
fn miss(core: u16, start: Cycle) -> Entry
    ensures { result ≡ miss_of core start }
{
    entry(&(core, start, MISS))
}

/// What the weave gives of them on these components, once more with the buffers of another.
fn woven_of(
    rt: &(impl Abort + AllocGlobal),
    machine: &Machine,
    misses: &TwoMisses,
    comps: &mut Comps<Comp>,
    buffers: &mut ChainBuffers,
) -> Option<Woven>
    requires machine { IsMachine machine.now }
    requires closed { machine.now.dram ≡ None }
    requires fresh { AreFresh machine.now comps.old }
    requires first { misses.now.first ≤ 2 ^ 34 }
    requires second { misses.now.second ≤ 2 ^ 34 }
{
    laws::plain_graphs_fit();
    laws::plain_accesses_have_few_events();
    laws::plain_events_are_in_a_row();
    laws::events_are_placed::<Plain>();
    laws::events_are_counted::<Plain>();
    laws::events_begin_with_their_accesses::<Plain>();
    laws::machine_steps_stay_small();
    let plain = Plain::of(machine);
    weave_chains(rt.alloc(), &plain, misses, comps, &[], &OpenGate, buffers).expect(rt, "memory")
}

/// The same on the components of the machine before their first event.
fn woven(
    rt: &(impl Abort + AllocGlobal),
    first: Cycle,
    second: Cycle,
    buffers: &mut ChainBuffers,
) -> Option<Woven>
    requires first { first ≤ 2 ^ 34 }
    requires second { second ≤ 2 ^ 34 }
{
    let machine = small(rt, 2);
    let mut comps = components(rt.alloc(), &machine).expect(rt, "memory");
    woven_of(
        rt,
        &machine,
        &TwoMisses { first, second },
        &mut comps,
        buffers,
    )
}

/// How many events, and how many cycles these waited.
type CountRow = (u64, u128);

/// Checks what is counted of the bank and of the controller.
fn are_counts(rt: &impl Abort, woven: &Woven, wanted: [CountRow; 2]) {
    assert!(rt; woven.counts.len() == 2);
    let found = [
        (woven.counts[0].events, woven.counts[0].waited),
        (woven.counts[1].events, woven.counts[1].waited),
    ];
    assert!(rt; found == wanted);
}

/// Checks the delays of the cores.
fn are_delays(rt: &impl Abort, woven: &Woven, wanted: &[u64]) {
    assert!(rt; woven.delays.as_slice() == wanted);
}

/// Checks the weave of misses a cycle apart.
fn wait_behind_each_other(rt: &(impl Abort + AllocGlobal), buffers: &mut ChainBuffers) {
    let Some(woven) = woven(rt, 0, 1, buffers) else {
        panic!(rt; "a tie");
    };
    assert!(rt; woven.events == 6);
    are_delays(rt, &woven, &[0, 19]);
    are_counts(rt, &woven, [(4, 3), (2, 16)]);
}

// The second look-up starts at 2, and the bank takes it at 5; the second read starts at 15, and the
// controller takes it at 31. So its fill ends at 133 in place of 114.
#[test]
fn the_later_of_two_misses_waits_for_bank_and_controller(rt: HostRuntime) {
    wait_behind_each_other(&rt, &mut ChainBuffers::new(rt.alloc()));
}

// Both look-ups start at 1, so the recorded order has to say which is first. What is left of this
// weave does not matter for another.
#[test]
fn misses_in_one_cycle_are_a_tie(rt: HostRuntime) {
    let mut buffers = ChainBuffers::new(rt.alloc());
    assert!(&rt; woven(&rt, 0, 0, &mut buffers).is_none());
    wait_behind_each_other(&rt, &mut buffers);
}
