//! Where the loop goes on.

/// Where the loop goes on behind a slot.
#[derive(Clone, Copy)]
pub enum Flow {
    /// At the next slot, in the same block.
    On,
    /// At this place, where a block begins.
    To(usize),
    /// Nowhere: nothing was done, since it is a load.
    Load,
    /// Nowhere: nothing was done, since it is a store.
    Store,
    /// Nowhere: nothing was done.
    Apart,
}
