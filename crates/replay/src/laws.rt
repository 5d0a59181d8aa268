//! Laws over the definitions alone, each the contract of a function that does nothing: those of
//! every run, and what a replay makes of one.
ghost use Rattle.replay.specs.Laws.{ReplaysGiveTheSame};

use component::laws::fresh_components_are_one;
pub use reference::laws::{
    accesses_take_as_long_whenever, each_run_has_one_events_file, legal_schedules_fit,
    one_core_has_one_schedule, results_are_one,
};

/// A run keeps a schedule, and a replay of that schedule gives what the run gave: the same cores,
/// the same counts, as many intervals, and the same end. So the one's report is the other's.
pub fn replays_give_the_same()
    ensures { ReplaysGiveTheSame }
{
    fresh_components_are_one();
}
