//! What a core at work does while it holds nothing.

/// Something that a core does before an access. It holds no L1 and no home then, so it may take any
/// time. It has no meaning: no answer depends on it.
pub trait Pause {
    /// Does it.
    fn pause(&self);
}
