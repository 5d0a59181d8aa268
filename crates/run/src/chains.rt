//! The weave core by core of the accesses that one worker has recorded.
ghost use Rattle.std.specs.Prelude.{◌≡◌, ◌-◌, ◌<◌, ◌^◌, List, IfNone, IfOk, IfSome, OnErr, length};
ghost use Rattle.zs_num.specs.declared.entry.Entry.{Entry};
ghost use Rattle.component.specs.ComponentStep.{comp_step};
ghost use Rattle.component.specs.Greatest.{comp_greatest};
ghost use Rattle.component.specs.Serving.{comp_latency, comp_serves};
ghost use Rattle.event_graph.specs.EventGraph.{all_events};
ghost use Rattle.event_graph.specs.Fits.{GraphFits};
ghost use Rattle.event_graph.specs.OneListWeave.{woven};
ghost use Rattle.event_graph.specs.SmallSteps.{AreSmallSteps};
ghost use Rattle.noc_mesh.specs.NetTiming.{net_pieces};
ghost use Rattle.weave_chains.specs.Listed.{one_after_other};
ghost use Rattle.weave_chains.specs.Rounds.{AreChained};
ghost use Rattle.weave_chains.specs.Ties.{HaveNoTie, HaveTie};
ghost use Rattle.weave_chains.specs.Woven.{AreOrdered, IsWoven};
ghost use Rattle.bound_records.specs.Recorders.{kept_lists};

use bound_records::Recorder;
use component::{Comp, Comps};
use event_graph::Plain;
use noc_mesh::{Net, laws};
use std::alloc::Global;
use weave_chains::{ChainBuffers, Woven, weave_chains};
use zs_host::Gate;
use zs_num::NoMemory;

/// Weaves the accesses that make events core by core, as `weave_chains` does. Where there are no
/// mesh and no open rows it does so by the plain expansion, of which the compiler then knows that no
/// event has to be asked whether it is.
pub fn weave_lists<G: Gate>(
    alloc: Global,
    net: &Net,
    recorder: &Recorder,
    comps: &mut Comps<Comp>,
    places: &[u16],
    gate: &G,
    chain_buffers: &mut ChainBuffers,
) -> Result<Option<Woven>, NoMemory>
    requires chained { AreChained (net_pieces net.now.path) (kept_lists recorder.now) }
    requires few { length (all_events (net_pieces net.now.path) (one_after_other (kept_lists recorder.now))) < 2 ^ 32 - 1 }
    requires fits { GraphFits comp_serves comp_latency (all_events (net_pieces net.now.path) (one_after_other (kept_lists recorder.now))) comps.old }
    requires small { AreSmallSteps comp_step comp_greatest (all_events (net_pieces net.now.path) (one_after_other (kept_lists recorder.now))) comps.old }
    ensures woven { IfOk result (λ o. IfSome o (λ w. (recorded : List Entry) → AreOrdered (net_pieces net.now.path) (one_after_other (kept_lists recorder.now)) recorded → IsWoven comp_step (net_pieces net.now.path) recorded comps.old (length (kept_lists recorder.now)) w comps.new)) }
    ensures no_tie { IfOk result (λ o. IfSome o (λ w. HaveNoTie (woven comp_step (all_events (net_pieces net.now.path) (one_after_other (kept_lists recorder.now))) comps.old))) }
    ensures tie { IfOk result (λ o. IfNone o (HaveTie (woven comp_step (all_events (net_pieces net.now.path) (one_after_other (kept_lists recorder.now))) comps.old))) }
    ensures unchanged_at_tie { IfOk result (λ o. IfNone o (comps.new ≡ comps.old)) }
    ensures unchanged { OnErr result (comps.new ≡ comps.old) }
{
    laws::nets_without_a_mesh_are_plain();
    if net.path.mesh.is_none() && net.path.dram.is_none() {
        let plain = Plain { path: net.path };
        weave_chains(alloc, &plain, recorder, comps, places, gate, chain_buffers)
    } else {
        weave_chains(alloc, net, recorder, comps, places, gate, chain_buffers)
    }
}
