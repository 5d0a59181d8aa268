//! How the delays of an interval are found.
ghost use Rattle.std.specs.Prelude.{◌≡◌, ◌<◌, IfOk, All};
ghost use Rattle.feedback.specs.FeedbackDelay.{feedback_delays};
ghost use Rattle.feedback.specs.Finished.{HaveFinished};

use crate::Delays;
use event_graph::{FiredList, Graph, laws};
use std::alloc::Global;
use zs_num::NoMemory;

/// The delay of each core: how much later its last critical event of the interval finished in the
/// weave than at zero load. A core without events has none.
pub fn delays(
    alloc: Global,
    graph: &Graph,
    fired: &FiredList,
    cores: u16,
) -> Result<Delays, NoMemory>
    requires finished { HaveFinished graph.now fired.now }
    requires cores { All (λ e. e.core < cores) graph.now }
    ensures { IfOk result (λ d. d ≡ feedback_delays graph.now fired.now cores) }
{
    laws::the_last_critical_event_moves_on();
    let mut list = vec![in alloc; 0; usize::from(cores)]?;
    let finishes = fired.as_slice();
    for (i, event) in graph.events().iter().enumerate() {
        let awaited = event.critical;
        if awaited {
            list[usize::from(event.core)] = finishes[i].finish - event.min_finish;
        }
    }
    Ok(Delays::of(list))
}
