//! The children of a domain's events among its events.
ghost use Rattle.std.specs.Prelude.{◌≡◌};
ghost use Rattle.weave_core.specs.Children.{CanTellChain, IsChain, tell_all};

use crate::waiting::Waiting;
use zs_num::Cycle;

/// A child of an event, where both are of the domain.
#[derive(Clone, Copy)]
pub(crate) struct Link {
    /// The place of the child.
    pub(crate) child: u32,
    /// The number of links up to the next of the same parent. 0 is none.
    pub(crate) next: u32,
    /// The least time from the parent's finish to the child's start, in cycles.
    pub(crate) delay: u64,
}

/// Tells the children in a chain that their parent has finished.
pub(crate) fn tell_children(waiting: &mut Waiting, links: &[Link], head: u32, finish: Cycle)
    requires { CanTellChain links.now head finish waiting.old }
    ensures { (chain : _) → IsChain links.now head chain → waiting.new ≡ tell_all finish waiting.old chain }
{
    let mut next = head;
    while next > 0 {
        let link = &links[next as usize - 1];
        waiting.parent_fired(link.child, finish + link.delay);
        next = link.next;
    }
}
