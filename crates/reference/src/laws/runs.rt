//! Laws of whole runs under a schedule.
ghost use Rattle.reference.specs.Laws.{AccessesTakeAsLongWhenever, EventsFilesAreOne, LegalSchedulesFit, OneCoreHasASchedule, OneCoreHasNoOtherSchedule, ResultsAreOne, RunsHaveAnEventsFile};

use component::laws::{fresh_components_are_one, fresh_components_are_there};

/// A run under a schedule gives one result: its report is a function of the machine, the executable
/// and the schedule.
pub fn results_are_one()
    ensures { ResultsAreOne }
{
    fresh_components_are_one();
}

/// The run of an executable on a machine of one core has one legal schedule, and so one report.
pub fn one_core_has_one_schedule()
    ensures there { OneCoreHasASchedule }
    ensures one { OneCoreHasNoOtherSchedule }
{
    fresh_components_are_there();
    fresh_components_are_one();
}

/// A legal schedule names the machine's cores. It has a turn for each access of its run, and a list
/// for each interval, of which there are at most as many as the machine's limit.
pub fn legal_schedules_fit()
    ensures { LegalSchedulesFit }
{}

/// A run under a schedule has one events file.
pub fn each_run_has_one_events_file()
    ensures there { RunsHaveAnEventsFile }
    ensures one { EventsFilesAreOne }
{
    fresh_components_are_one();
}

/// How long an access of a run takes does not depend on when it starts, with a mesh and open rows or
/// without. So what `same_path` says of pipelines holds of every machine.
pub fn accesses_take_as_long_whenever()
    ensures { AccessesTakeAsLongWhenever }
{
    noc_mesh::laws::events_are_of_lines_and_outcomes();
}
