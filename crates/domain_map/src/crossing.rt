//! A parent and a child in different domains.

/// A parent in one domain and its child in another: the child's domain has to learn the parent's
/// finish from the parent's.
#[derive(Clone, Copy, PartialEq, Eq)]
pub struct Crossing {
    /// The number of the parent.
    pub parent: u32,
    /// The number of the child.
    pub child: u32,
    /// The parent's domain.
    pub source: u16,
    /// The child's domain.
    pub target: u16,
    /// The least time from the parent's finish to the child's start, in cycles.
    pub delay: u64,
}
