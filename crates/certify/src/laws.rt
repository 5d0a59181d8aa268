//! Laws over the definitions alone, each the contract of a function that does nothing but cite
//! others.
ghost use Rattle.certify.specs.Laws.{EachFileIsReadAgain, EachFileIsWrittenAgain, FilesHaveThisLength, WovenIsAccepted, YesIsWoven};

use component::Comp;
use event_graph::laws::{
    components_serve_their_own_events, each_event_fires_once, events_fire_in_order,
    weave_is_the_one_solution,
};

/// The file of what is read from bytes is these bytes, so no two files say the same.
pub fn each_file_is_written_again()
    ensures { EachFileIsWrittenAgain }
{}

/// What is read from the file of graphs that fit, with all cycles and times below 2^60, is these
/// graphs, with their starts and finishes.
pub fn each_file_is_read_again()
    ensures { EachFileIsReadAgain }
{}

/// A file has 16 bytes, four for each interval, and 64 for each event.
pub fn files_have_this_length()
    ensures { FilesHaveThisLength }
{}

/// Where the verdict on a file is yes, its events start and finish as the weave has them, interval
/// by interval, each on the components as the weave left them before it.
pub fn yes_is_woven()
    ensures { YesIsWoven }
{
    weave_is_the_one_solution::<Comp>();
    events_fire_in_order::<Comp>();
    each_event_fires_once::<Comp>();
    components_serve_their_own_events::<Comp>();
}

/// The verdict is yes on the file of graphs that fit, with the starts and finishes of the weave,
/// where all cycles and times are below 2^60.
pub fn woven_is_accepted()
    ensures { WovenIsAccepted }
{
    weave_is_the_one_solution::<Comp>();
    events_fire_in_order::<Comp>();
    each_event_fires_once::<Comp>();
    components_serve_their_own_events::<Comp>();
}
