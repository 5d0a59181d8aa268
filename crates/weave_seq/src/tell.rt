//! What the children of an event learn when it has fired.
ghost use Rattle.std.specs.Prelude.{◌≡◌, ◌<◌, ◌≤◌, ◌+◌, ◌^◌, ℕ, Some, false, length, slice_get, true};
ghost use Rattle.event_graph.specs.declared.event.Event.{Event};
ghost use Rattle.event_graph.specs.declared.event.Parent.{Parent};
ghost use Rattle.event_graph.specs.Numbered.{IsNumbered};
ghost use Rattle.weave_seq.specs.Chains.{AreChains, parent_in, parents_in};
ghost use Rattle.weave_seq.specs.Known.{finish_at, told_to};

use crate::children::{Children, parent};
use crate::state::State;
use event_graph::{Event, Fired};

/// Tells the children of an event that it fired.
pub(crate) fn tell_children(state: &mut State, events: &[Event], children: &Children, fired: Fired)
    requires numbered { IsNumbered events.now }
    requires chains { AreChains (parents_in children.now.slot events.now) children.now.last.items children.now.before.items (length events.now) }
    requires within { fired.number < length events.now }
    requires finish { finish_at state.old.times fired.number ≡ fired.finish }
    requires after { 0 < fired.finish }
    requires untold { state.old ≡ told_to children.now.slot false fired.number (finish_at state.old.times) events.now }
    requires unfired { (j : ℕ) (e : Event) (p : Parent) → slice_get events.now j ≡ Some e → parent_in children.now.slot e ≡ Some p → p.number ≡ fired.number → finish_at state.old.times j ≡ 0 }
    requires small { (j : ℕ) (e : Event) (p : Parent) → slice_get events.now j ≡ Some e → parent_in children.now.slot e ≡ Some p → p.number ≡ fired.number → fired.finish + p.delay ≤ 2 ^ 62 }
    ensures { state.new ≡ told_to children.now.slot true fired.number (finish_at state.old.times) events.now }
{
    let mut next = children.last[fired.number as usize];
    while next > 0 {
        let child = next as usize;
        let delay = match parent(&events[child], children.slot) {
            Some(p) => p.delay,
            None => unreachable!(),
        };
        state.parent_fired(next, fired.finish + delay);
        next = children.before[child];
    }
}
