//! What the weave begins with.
ghost use Rattle.std.specs.Prelude.{◌≡◌, ◌<◌, ◌≤◌, List, [], length};
ghost use Rattle.event_graph.specs.EventGraph.{all_events};
ghost use Rattle.event_graph.specs.Fits.{GraphFits};
ghost use Rattle.event_graph.specs.SmallSteps.{AreSmallSteps};
ghost use Rattle.weave_chains.specs.Beginning.{AreFresh};
ghost use Rattle.weave_chains.specs.Chains.{AreReady};
ghost use Rattle.weave_chains.specs.Listed.{AreOwn, one_after_other};
ghost use Rattle.weave_chains.specs.NextEvents.{AreAhead, AreOfLists};
ghost use Rattle.weave_chains.specs.Rounds.{AreChained};
ghost use Rattle.weave_chains.specs.States.{states};

use crate::accesses::Accesses;
use crate::ahead::{look_ahead, push_next};
use crate::chain::Chain;
use crate::laws::rounds_rest_on_these;
use component::Component;
use core_queue::CoreQueue;
use event_graph::Expand;

/// Each core's chain becomes that of its accesses, of which no event has fired.
pub(crate) fn begin_chains<A: Accesses>(accesses: &A, chains: &mut [Chain])
    requires own { AreOwn (A.lists accesses.now) }
    requires count { length chains.old ≡ length (A.lists accesses.now) }
    ensures fresh { AreFresh (one_after_other (A.lists accesses.now)) (states (A.lists accesses.now) chains.new) }
    ensures of { AreOfLists (A.lists accesses.now) chains.new }
    ensures count { length chains.new ≡ length chains.old }
{
    let cores = accesses.cores();
    for core in 0..cores {
        let chain = &mut chains[usize::from(core)];
        chain.begin(accesses.count(core));
    }
}

/// Looks up the first event of each chain, and puts it into the queue.
pub(crate) fn first_keys<X: Expand, A: Accesses, C: Component>(
    expand: &X,
    accesses: &A,
    chains: &mut [Chain],
    ready: &mut CoreQueue,
)
    requires chained { AreChained (X.pieces expand.now) (A.lists accesses.now) }
    requires count { length chains.old ≡ length (A.lists accesses.now) }
    requires fresh { AreFresh (one_after_other (A.lists accesses.now)) (states (A.lists accesses.now) chains.old) }
    requires of { AreOfLists (A.lists accesses.now) chains.old }
    requires none { ready.old.keys ≡ [] }
    requires room { length chains.old ≤ ready.old.room }
    requires begins { (first : List C) × GraphFits C.serves C.floor (all_events (X.pieces expand.now) (one_after_other (A.lists accesses.now))) first × AreSmallSteps C.stepped C.greatest (all_events (X.pieces expand.now) (one_after_other (A.lists accesses.now))) first }
    ensures ready { AreReady (X.pieces expand.now) (one_after_other (A.lists accesses.now)) [] (states (A.lists accesses.now) chains.old) ready.new.keys }
    ensures ahead { AreAhead (X.pieces expand.now) (A.lists accesses.now) chains.new }
    ensures states { states (A.lists accesses.now) chains.new ≡ states (A.lists accesses.now) chains.old }
    ensures count { length chains.new ≡ length chains.old }
    ensures room { ready.new.room ≡ ready.old.room }
{
    rounds_rest_on_these::<X, C>();
    let cores = accesses.cores();
    for core in 0..cores {
        let chain = &mut chains[usize::from(core)];
        let start = look_ahead(expand, accesses, core, chain);
        push_next(ready, u32::from(core), start);
    }
}
