//! Laws over the definitions alone, each the contract of a function that does nothing.
ghost use Rattle.profile.specs.Laws.{AddressRowsAddUp, AddressRowsWait, ClassesAddUp, CopiesAreOfCaches, CopiesAreTheMachines, CopiesLeaveForReasons, CoreCountersAddUp, LineRowsAddUp, LineRowsWait, OthersCopiesAreTold, SeriesAddsUp, SumRowsAddUp, WaitsAddUp, WaitsAreOfComponents, WaitsAreSharedOut};

use trace::laws::{
    accesses_are_met, accesses_are_of_intervals, instructions_are_told, intervals_are_the_runs,
    steps_fit,
};

/// What a core's steps add up to, at whatever addresses and lines, is what the run counted of the
/// core: accesses by kind, fetches among them, and by how the caches met them.
pub fn core_counters_add_up()
    ensures { CoreCountersAddUp }
{
    accesses_are_of_intervals();
    intervals_are_the_runs();
}

/// The rows of a core add up to what the run counted of it: those of its addresses, and those of
/// lines. And the rows of addresses of all cores together add up to what these counted.
pub fn rows_add_up()
    ensures addresses { AddressRowsAddUp }
    ensures lines { LineRowsAddUp }
    ensures sums { SumRowsAddUp }
{
    accesses_are_of_intervals();
    instructions_are_told();
    intervals_are_the_runs();
    steps_fit();
}

/// Each event of a run's intervals waits for one access that was told: so all waits together are
/// those of the events, and so those of the components.
pub fn waits_add_up()
    ensures events { WaitsAddUp }
    ensures components { WaitsAreOfComponents }
{
    access_log::laws::recorded_order_sorts();
    noc_mesh::laws::net_accesses_beyond_hits_have_events();
    noc_mesh::laws::net_graphs_fit();
    accesses_are_of_intervals();
    intervals_are_the_runs();
}

/// Of the events of an interval each core's own wait for its accesses in order, and each access
/// has the waits of as many events as it makes.
pub fn waits_are_shared_out()
    ensures { WaitsAreSharedOut }
{
    noc_mesh::laws::net_accesses_beyond_hits_have_events();
    accesses_are_of_intervals();
}

/// The rows of addresses of all cores tell together how long the components had events wait, and so
/// do the rows of lines.
pub fn rows_wait()
    ensures addresses { AddressRowsWait }
    ensures lines { LineRowsWait }
{
    waits_add_up();
    accesses_are_of_intervals();
    steps_fit();
}

/// What the steps say of each copy is what the machine's caches do: which copies there are, what an
/// access does to those of other cores, and why a copy leaves.
pub fn copies_are_those_of_caches()
    ensures held { CopiesAreOfCaches }
    ensures others { OthersCopiesAreTold }
    ensures reasons { CopiesLeaveForReasons }
{
    shard::laws::coherence_stays();
    shard::laws::copies_behind();
    shard::laws::new_shards_stand();
    accesses_are_met();
}

/// What the steps say of a core's copies is what its caches have. So each access that finds no copy
/// there is of one class.
pub fn copies_are_the_machines()
    ensures copies { CopiesAreTheMachines }
    ensures classes { ClassesAddUp }
{
    shard::laws::coherence_stays();
    shard::laws::copies_behind();
    shard::laws::new_shards_stand();
    accesses_are_met();
}

/// The rows of a series add up to what the run counted: its intervals, the instructions and the
/// accesses of all cores, its events, and how long each component had them wait.
pub fn series_adds_up()
    ensures { SeriesAddsUp }
{
    accesses_are_of_intervals();
    instructions_are_told();
    intervals_are_the_runs();
}
