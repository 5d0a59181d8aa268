//! Laws over the words and over what calls answer, each the contract of a function that does
//! nothing.
ghost use Rattle.zsim.specs.Laws.{OutputsAreApart, PlainChecksAreCommands, PlainReplaysAreCommands, PlainRunsAreCommands, RecordsAreReplayed, ReplaysRepeatRuns};

/// The words `run MACHINE EXE`, `replay MACHINE EXE --schedule NAME` and `check MACHINE EVENTS` are a
/// command wherever the words in them do not begin with a hyphen, but for a faulty `gen:N`.
pub fn plain_words_are_commands()
    ensures run { PlainRunsAreCommands }
    ensures replay { PlainReplaysAreCommands }
    ensures check { PlainChecksAreCommands }
{}

/// No command writes the schedule and the events to one file.
pub fn outputs_are_apart()
    ensures { OutputsAreApart }
{}

/// Replaying a recorded schedule writes the bytes that the run wrote: of a run that was reported
/// whole, and a replay on the same machine and executable whose schedule is the one that the run
/// kept, or the file that it wrote, the report is the same and so is the status; unless a file or a
/// put fails in the replay, or memory runs out.
pub fn replays_repeat_runs()
    ensures kept { ReplaysRepeatRuns }
    ensures recorded { RecordsAreReplayed }
{
    replay::laws::replays_give_the_same();
    replay::laws::legal_schedules_fit();
    schedule_file::laws::each_schedule_is_read_again();
    schedule_file::laws::files_are_short();
}
