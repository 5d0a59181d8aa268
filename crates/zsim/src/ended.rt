//! What the top call answers.
ghost use Rattle.std.specs.Prelude.{◌≡◌};

use access_log::Schedule;
use certify::{BadEvents, Verdict};
use elf_load::BadElf;
use machine_desc::BadMachine;
use schedule_file::BadSchedule;
use zs_num::Bytes;

/// What a call answers: how it ended, what it could say of that on standard error, and what it
/// kept.
#[derive(Drop)]
pub struct Ended {
    pub status: Status,
    pub said: Said,
    pub kept: Kept,
}

/// How a call ended.
#[derive(Drop)]
pub enum Status {
    /// The run ended with every core halted, and its report was written; or the events of a check
    /// are the weave's, and that was written.
    Ran,
    /// The run ended with a core that is not halted, and its report was written.
    Limit,
    /// The words are no command.
    Usage,
    /// The machine, the executable, the schedule or the events could not be read.
    ReadFault,
    /// The report, the schedule, the events or the text of a check could not be written.
    WriteFault,
    /// The machine description fails this check first.
    BadMachine(BadMachine),
    /// The executable fails this check first.
    BadElf(BadElf),
    /// The schedule of a replay fails this check first, or is not legal for the run.
    BadSchedule(ScheduleFault),
    /// A file has more bytes than its limit, be it read or the events file of a run.
    TooLong(Which),
    /// The events file of a check is refused for this first.
    BadEvents(BadEvents),
    /// The events of a check are not the weave's: this verdict on them is not Yes.
    NotWoven(Verdict),
    NoMemory,
}

impl Status {
    ghost use Rattle.zsim.specs.ErrorLine.{status_number};

    /// The number with which the program ends.
    pub fn number(&self) -> u8
        ensures { result ≡ status_number self.now }
    {
        match self {
            Status::Ran => 0,
            Status::Usage => 2,
            Status::Limit => 3,
            Status::ReadFault => 4,
            Status::WriteFault => 5,
            Status::BadMachine(_) => 6,
            Status::BadElf(_) => 7,
            Status::NoMemory => 8,
            Status::BadSchedule(_) => 9,
            Status::TooLong(_) => 10,
            Status::BadEvents(_) => 11,
            Status::NotWoven(_) => 12,
        }
    }
}

/// Which file has more bytes than its limit.
#[derive(Clone, Copy)]
pub enum Which {
    /// The machine description, of 2^20 bytes at most.
    Machine,
    /// The executable, of 2^26 bytes at most.
    Exe,
    /// The schedule file, of 2^28 bytes at most.
    Schedule,
    /// The events file, of 2^28 bytes at most.
    Events,
}

/// Why a schedule was refused.
#[derive(Clone, Copy)]
pub enum ScheduleFault {
    /// The file fails this check first.
    File(BadSchedule),
    /// This place of an interval's list is the first that is not legal for the run.
    Illegal { interval: u32, place: u32 },
}

/// How much of the status's line went to standard error.
#[derive(Clone, Copy)]
pub enum Said {
    /// The whole line.
    All,
    /// A prefix: standard error failed.
    Fault,
    /// A prefix: memory ran out.
    NoMemory,
}

/// What was read, and the schedule of the run.
#[derive(Drop)]
pub struct Kept {
    /// The text of the machine. It is empty where it was not read.
    pub machine: Bytes,
    /// The executable. It is empty where it was not read.
    pub exe: Bytes,
    /// The schedule file of a replay. It is empty where it was not read, and for a run.
    pub sched_file: Bytes,
    /// The schedule that the run took, up to the last interval that was completed, or that the
    /// replay read.
    pub schedule: Schedule,
    /// The events file of a check. It is empty where it was not read, and for a run and a replay.
    pub events: Bytes,
}
