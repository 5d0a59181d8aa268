//! Laws over the definitions alone, each the contract of a function that does nothing.
ghost use Rattle.schedule_file.specs.Laws.{EachFileIsWrittenAgain, EachScheduleIsReadAgain, FilesAreShort};

/// What is read from the file of a schedule is that schedule, so no two schedules have one file.
pub fn each_schedule_is_read_again()
    ensures { EachScheduleIsReadAgain }
{}

/// The file of what is read from bytes is these bytes, so no two files say the same.
pub fn each_file_is_written_again()
    ensures { EachFileIsWrittenAgain }
{}

/// The file of a schedule has 16 bytes, four for each interval, and at most two for each turn.
pub fn files_are_short()
    ensures { FilesAreShort }
{}
