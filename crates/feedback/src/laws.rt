//! Laws over the definitions alone, each the contract of a function that does nothing.
ghost use Rattle.feedback.specs.Laws.{DelaysAreOfTheCores, DelaysAreSmall, TimelyEventsHaveFinished};

/// Events that were fired timely, in order of number, have all that `delays` asks of a weave.
pub fn timely_events_have_finished()
    ensures { TimelyEventsHaveFinished }
{}

/// There is a delay for each core, and none is longer than 2^62 cycles.
pub fn delays_are_small()
    ensures { DelaysAreSmall }
{}

/// The delays are the same where the events have other numbers, which put those of each core in the
/// same order, and the same times.
pub fn delays_are_of_the_cores()
    ensures { DelaysAreOfTheCores }
{
    event_graph::laws::cores_wait_for_the_same_event();
}
