//! Laws over the definitions alone, each the contract of a function that does nothing.
ghost use Rattle.stats.specs.Laws.{CountersAreSums, NothingIsCountedFirst, OrdersCountAlike, SumsFit};

/// Counters to which the intervals of a run were added one after the other have its sums.
pub fn counters_are_sums()
    ensures { CountersAreSums }
{}

/// The counters of a run begin at nothing.
pub fn nothing_is_counted_first()
    ensures { NothingIsCountedFirst }
{}

/// No sum of a run passes its type, where the run has at most 2^60 intervals and events, fewer than
/// 2^64 accesses, and no delay or finish over 2^62 cycles.
pub fn sums_fit()
    ensures { SumsFit }
{}

/// An interval counts the same in whatever order its accesses stand, as long as each core has its
/// own in the same order, and the events the same sums on each component.
pub fn orders_count_alike()
    ensures { OrdersCountAlike }
{}
