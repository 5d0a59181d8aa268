//! A tree of minima. Node 1 is the root, below node n are nodes 2 * n and 2 * n + 1, and the leaves
//! stand last.
ghost use Rattle.std.specs.Prelude.{◌≡◌, ◌+◌, ◌*◌, ◌<◌, ◌≤◌, ◌^◌, ℕ, drop, length, slice_index, slice_set};
ghost use Rattle.core_queue.specs.Minima.{AreMinima};

/// A leaf gets this word.
#[inline(always)]
pub(crate) fn set_leaf(nodes: &mut [u64], leaves: usize, leaf: usize, word: u64)
    requires leaf { leaf < leaves }
    requires few { leaves ≤ 2 ^ 17 }
    requires all { length nodes.old ≡ 2 * leaves }
    requires minima { AreMinima leaves nodes.old }
    ensures minima { AreMinima leaves nodes.new }
    ensures leaves { drop leaves nodes.new ≡ slice_set (drop leaves nodes.old) leaf word }
    ensures all { length nodes.new ≡ length nodes.old }
{
    let mut at = leaves + leaf;
    let mut least = word;
    nodes[at] = least;
    while at > 1 {
        let above = at / 2;
        // The numbers of the two nodes below it are 4 * above + 1 together.
        least = least.min(nodes[4 * above + 1 - at]);
        nodes[above] = least;
        at = above;
    }
}

/// The first of the leaves that have the least word. There are so many levels above them.
#[inline(always)]
pub(crate) fn first_leaf(nodes: &[u64], levels: u32, leaves: usize) -> usize
    requires leaves { leaves ≡ 2 ^ levels }
    requires few { leaves ≤ 2 ^ 17 }
    requires all { length nodes.now ≡ 2 * leaves }
    requires minima { AreMinima leaves nodes.now }
    ensures within { result < leaves }
    ensures least { slice_index nodes.now (leaves + result) ≡ slice_index nodes.now 1 }
    ensures below { (n : ℕ) → n < leaves → slice_index nodes.now 1 ≤ slice_index nodes.now (leaves + n) }
    ensures first { (n : ℕ) → n < result → slice_index nodes.now 1 < slice_index nodes.now (leaves + n) }
{
    let least = nodes[1];
    let mut at = 1;
    for _ in 0..levels {
        at *= 2;
        if nodes[at] != least {
            at += 1;
        }
    }
    at - leaves
}
