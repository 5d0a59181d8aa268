//! Laws over the definitions alone, each the contract of a function that does nothing.
ghost use Rattle.trace.specs.Laws.{AccessesAreMet, AccessesAreOfIntervals, AllInstructionsAreTold, CountsAreOfWhatEnded, InstructionsAreTold, IntervalsAreTheRuns, StepsFit, SumsAreOverIntervals};

use access_log::laws::{recorded_order_sorts, rising_lists_stay, stamps_rise};
use component::laws::fresh_components_are_one;

/// The intervals that ended in the trace of a run are the run's.
pub fn intervals_are_the_runs()
    ensures intervals { IntervalsAreTheRuns }
    ensures counts { CountsAreOfWhatEnded }
{
    fresh_components_are_one();
}

/// Each core counted the instructions that the trace tells of it, and all cores together those of
/// the whole trace, of which each stands in an interval that ended.
pub fn instructions_are_told()
    ensures each { InstructionsAreTold }
    ensures all { AllInstructionsAreTold }
{
    fresh_components_are_one();
}

/// Each interval has the accesses that the trace tells between its end and that of the one before,
/// in recorded order. So a sum over accesses is one over the intervals' entries.
pub fn accesses_are_of_intervals()
    ensures each { AccessesAreOfIntervals }
    ensures sums { SumsAreOverIntervals }
{
    event_graph::laws::machine_components_stay();
    fresh_components_are_one();
    recorded_order_sorts();
    rising_lists_stay();
    stamps_rise();
}

/// The accesses of a run are met by the caches of its machine, each by what those before it left.
pub fn accesses_are_met()
    ensures { AccessesAreMet }
{
    fresh_components_are_one();
    rv_core::laws::accesses_are_paired_right();
    rv_core::laws::cores_stay_sound();
    rv_core::laws::reached_cores_are_sound();
    shard::laws::coherence_stays();
    shard::laws::new_shards_stand();
}

/// Addresses and lines of a run's steps are numbers of 64 bits.
pub fn steps_fit()
    ensures { StepsFit }
{
    fresh_components_are_one();
    rv_core::laws::accesses_are_paired_right();
    rv_core::laws::cores_stay_sound();
    rv_core::laws::reached_cores_are_sound();
}
