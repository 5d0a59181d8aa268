//! A recorded event.
use component::Kind;
use zs_num::Cycle;

/// An event that has to finish before another starts.
#[derive(Clone, Copy, PartialEq, Eq)]
pub struct Parent {
    /// The number of the parent.
    pub number: u32,
    /// The least time from the parent's finish to the event's start, in cycles.
    pub delay: u64,
}

/// A recorded event. Events are numbered from 0 in each interval; a parent has a smaller number.
/// An interval of many cores can have hundreds of thousands, so the small fields lie side by side.
#[derive(Clone, Copy, PartialEq, Eq)]
pub struct Event {
    pub number: u32,
    /// The core whose access made it.
    pub core: u16,
    /// The component that serves it.
    pub component: u16,
    pub kind: Kind,
    /// Whether it is the last event of its access.
    pub critical: bool,
    /// Its start and its finish in the bound phase, at zero load.
    pub min_start: Cycle,
    pub min_finish: Cycle,
    pub first: Option<Parent>,
    pub second: Option<Parent>,
}

const _: () = prove!(size_of::<Event>() == 96);
