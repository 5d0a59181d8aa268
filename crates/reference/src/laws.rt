//! Laws over the definitions alone, each the contract of a function that does nothing.
ghost use Rattle.std.specs.Prelude.{◌≡◌, ℕ, List};
ghost use Rattle.zs_num.specs.declared.entry.Entry.{Entry};
ghost use Rattle.zs_num.specs.declared.request.Request.{Request};
ghost use Rattle.elf_load.specs.MemoryImage.{MemoryImage};
ghost use Rattle.reference.specs.FetchLaws.{FetchesAreExecuted, FetchesChangeTimesAndOutcomesAlone, TurnsAreSteps};
ghost use Rattle.reference.specs.HistoryLaws.{HistoriesArePhases, PhasesAreHistories, RecordedOrderIsHistory, TurnsAreTheCoresOwn, TurnsMakeAHistory};
ghost use Rattle.reference.specs.Intervals.{FirstIntervalBegins, NextIntervalBegins};
ghost use Rattle.reference.specs.TurnLaws.{AccessesAreFew, EndsWhereAllAreOver, LocalInstructionsAreAlone, LocalInstructionsEnd, StepsLeadToTheSameEnd, StoppedCoresStay, TurnIsScheduled, TurnsAreScheduled};
ghost use Rattle.reference.specs.MachineOfShards.{HistoriesAreRunsOfTheMachine, ShardsDoAsTheMachine};
ghost use Rattle.reference.specs.PairedPhases.{HistoriesArePaired, PhasesArePaired};
ghost use Rattle.reference.specs.Reaching.{BeginsAtItself, GoesOnByATurn, GoesOnByLocalInstructions, GoesOnToTheEnd, IsThePhaseAtTheEnd};
ghost use Rattle.reference.specs.SamePath.{AccessesTakeAsLongWhenever, PipelinesAreNoFaster, PipelinesChangeTimesAlone};
ghost use Rattle.rv_decode.specs.declared.inst.Inst.{Inst};
ghost use Rattle.reference.specs.InstructionLaws.{CoreInMemory, InstructionsAreSteps, LoadsAreWhole, OtherBytesStay, PairAloneStores, PairStores, StoreBetweenEndsPair, StoredIsLoaded, StoresAreWhole, WriteBetweenEndsPair};

mod runs;

pub use runs::{
    accesses_take_as_long_whenever, each_run_has_one_events_file, legal_schedules_fit,
    one_core_has_one_schedule, results_are_one,
};
use rv_core::Port;

/// A whole instruction is what a core does at its next step, with the instruction that the program
/// has at pc, and then with the replies to its accesses.
pub fn instructions_are_steps_and_replies()
    ensures { InstructionsAreSteps }
{}

/// A load or a store does what one access of all its bytes would, aligned or not, and wherever it
/// crosses a line.
pub fn loads_and_stores_are_whole()
    ensures loads { LoadsAreWhole }
    ensures stores { StoresAreWhole }
{
    rv_core::laws::accesses_are_little_endian();
}

/// A load of what a store stored gives the stored bytes, sign-extended or zero-extended, for every
/// width and address in memory.
pub fn stored_is_loaded()
    ensures { StoredIsLoaded }
{
    rv_core::laws::accesses_are_little_endian();
}

/// A store changes no other byte of memory.
pub fn other_bytes_stay()
    ensures { OtherBytesStay }
{
    rv_core::laws::accesses_are_little_endian();
    flat_memory::laws::other_bytes_stay();
}

/// A store-conditional of the bytes of the latest load-reserved, with nothing between on this core,
/// stores and writes 0 to rd where no other core wrote to the line since.
pub fn a_pair_stores()
    ensures alone { PairAloneStores }
    ensures others { (number : ℕ) (reserve : Inst) (others : List (ℕ × Request)) (store : Inst) (s : CoreInMemory)
        → PairStores number reserve others store s }
{
    flat_memory::laws::others_end_by_writes();
    rv_core::laws::accesses_are_little_endian();
}

/// It stores nothing and writes 1 to rd where another core did.
pub fn a_write_between_ends_a_pair()
    ensures store { StoreBetweenEndsPair }
    ensures others { (number : ℕ) (reserve : Inst) (others : List (ℕ × Request)) (store : Inst) (s : CoreInMemory)
        → WriteBetweenEndsPair number reserve others store s }
{
    flat_memory::laws::others_end_by_writes();
    rv_core::laws::accesses_are_little_endian();
}

/// Whatever program a core runs, after its local instructions it waits for an access, has halted, or
/// has come to the interval's end with no instruction in progress.
pub fn local_instructions_end()
    ensures { LocalInstructionsEnd }
{}

/// The steps that a core takes by itself, one after the other, lead to where its local instructions
/// lead: each step leaves the end as it was, and a core that goes on by itself no more stands there.
pub fn steps_lead_to_the_end()
    ensures stays { StoppedCoresStay }
    ensures goes_on { StepsLeadToTheSameEnd }
{}

/// A core has at most 257 accesses more than cycles before it ends its interval: those of the
/// instruction in progress, and its fetch.
pub fn accesses_are_few()
    ensures { AccessesAreFew }
{}

/// Where a core executed its local instructions before its turn comes, the bound phase is the same.
pub fn local_instructions_are_alone<World>()
    ensures { (serve : World → (core start : ℕ) → Request → Entry × World) (time : Entry → ℕ) (image : MemoryImage) (end : ℕ)
        → LocalInstructionsAreAlone serve time image end }
{}

/// Where every core has halted or come to the interval's end with no instruction in progress, the
/// bound phase leaves all as it is.
pub fn ends_where_all_are_over<World>()
    ensures { (serve : World → (core start : ℕ) → Request → Entry × World) (time : Entry → ℕ) (image : MemoryImage) (end : ℕ)
        → EndsWhereAllAreOver serve time image end }
{}

/// Where a port answers what a world does, the turns of a core through it are those of the machine
/// of one thread under the schedule that names the core for each.
pub fn turns_are_scheduled<Q: Port, World>()
    ensures one { (world : Q → World) (serve : World → (core start : ℕ) → Request → Entry × World)
        → TurnIsScheduled Q.gives world serve }
    ensures to_end { (world : Q → World) (serve : World → (core start : ℕ) → Request → Entry × World)
        → TurnsAreScheduled Q.gives world serve }
{}

/// How a bound phase is followed from turn to turn: it begins without a turn, goes on by a turn, by
/// a core's local instructions or by all turns of a core that are left, and is the whole bound
/// phase where every core is over.
pub fn turns_lead_on<Q: Port, World>()
    ensures begins { (serve : World → (core start : ℕ) → Request → Entry × World) (time : Entry → ℕ) (image : MemoryImage) (end : ℕ)
        → BeginsAtItself serve time image end }
    ensures turn { (world : Q → World) (serve : World → (core start : ℕ) → Request → Entry × World)
        → GoesOnByATurn Q.gives world serve }
    ensures alone { (serve : World → (core start : ℕ) → Request → Entry × World) (time : Entry → ℕ) (image : MemoryImage) (end : ℕ)
        → GoesOnByLocalInstructions serve time image end }
    ensures turns { (world : Q → World) (serve : World → (core start : ℕ) → Request → Entry × World)
        → GoesOnToTheEnd Q.gives world serve }
    ensures whole { (serve : World → (core start : ℕ) → Request → Entry × World) (time : Entry → ℕ) (image : MemoryImage) (end : ℕ)
        → IsThePhaseAtTheEnd serve time image end }
{}

/// A history of an interval is a bound phase: whatever the order in which the cores took their
/// turns at the shards, the schedule of the entries' cores is legal, and gives these entries, these
/// cores and these shards.
pub fn histories_are_phases()
    ensures { (time : Entry → ℕ) (image : MemoryImage) (end : ℕ) → HistoriesArePhases time image end }
{}

/// The entries of every bound phase over shards are a history.
pub fn phases_are_histories()
    ensures { (time : Entry → ℕ) (image : MemoryImage) (end : ℕ) → PhasesAreHistories time image end }
{}

/// Turns that were taken one after the other make a history, once every core is over: so do those
/// of cores that run to the end of the interval one after the other.
pub fn turns_make_a_history()
    ensures { (time : Entry → ℕ) (image : MemoryImage) (end : ℕ) → TurnsMakeAHistory time image end }
{
    phases_are_histories();
}

/// The turns that a core took through a port are its own part of a history.
pub fn turns_are_the_cores_own<Q: Port>()
    ensures { TurnsAreTheCoresOwn Q.gives }
{}

/// The entries of a history in recorded order are a history of the same cores and shards. So the
/// turns in recorded order are legal, and leave what the turns left as they were taken.
pub fn recorded_order_is_a_history()
    ensures { (time : Entry → ℕ) (image : MemoryImage) (end : ℕ) → RecordedOrderIsHistory time image end }
{
    access_log::laws::recorded_order_keeps_the_stamps();
}

/// Where cores and shards stand for a machine, every bound phase over the shards is that of the
/// machine, and so is every place at which a schedule is not legal.
pub fn shards_do_as_the_machine()
    ensures { (time : Entry → ℕ) (image : MemoryImage) (end : ℕ) → ShardsDoAsTheMachine time image end }
{
    rv_core::laws::cores_stay_sound();
    rv_core::laws::accesses_are_paired_right();
    shard::laws::marks();
    shard::laws::shards_stand_for_a_machine();
}

/// Whatever the order in which cores took their turns at the shards, in recorded order the entries
/// are a run of the machine of one thread for which the cores and the shards stand.
pub fn histories_are_runs_of_the_machine()
    ensures { (time : Entry → ℕ) (image : MemoryImage) (end : ℕ) → HistoriesAreRunsOfTheMachine time image end }
{
    recorded_order_is_a_history();
    histories_are_phases();
    shards_do_as_the_machine();
}

/// In whatever order cores access memory, each store-conditional says rightly whether it is paired:
/// whether its core's latest load-reserved was of the same bytes, and no store-conditional of the
/// core came since.
pub fn accesses_are_paired_right()
    ensures phases { (time : Entry → ℕ) (image : MemoryImage) (end : ℕ) → PhasesArePaired time image end }
    ensures histories { (time : Entry → ℕ) (image : MemoryImage) (end : ℕ) → HistoriesArePaired time image end }
{
    rv_core::laws::cores_stay_sound();
    rv_core::laws::accesses_are_paired_right();
    histories_are_phases();
}

/// The cores and the new shards of a machine stand for its first world, and cores and shards that
/// stand for a machine stand for it in the next interval, where all last stamps are 0 again.
pub fn intervals_begin()
    ensures first { FirstIntervalBegins }
    ensures next { NextIntervalBegins }
{
    rv_core::laws::reached_cores_are_sound();
    shard::laws::new_shards_stand();
}

/// Right behind its fetch an instruction is executed, whatever the reply: the core does not ask for
/// it again.
pub fn fetches_are_executed()
    ensures { FetchesAreExecuted }
{}

/// A turn of the machine of one thread is steps of its core.
pub fn turns_are_steps()
    ensures { TurnsAreSteps }
{}

/// Whatever the order in which cores step, a machine without instruction caches does the same by
/// the same steps, but for those that fetch: replies, registers, consoles and memory are the same.
/// Fetches change times, and how the caches meet accesses.
pub fn fetches_change_times_and_outcomes_alone()
    ensures { FetchesChangeTimesAndOutcomesAlone }
{
    rv_core::laws::reached_cores_are_sound();
    rv_core::laws::cores_stay_sound();
}

/// Whatever the order in which cores step, machines that differ in their pipelines alone do the
/// same by the same steps: registers, consoles, replies, outcomes, memory and cache lists are the
/// same. And no clock is earlier than without pipelines, where the time of an access does not
/// depend on when it starts: `times` says that it does not where there is neither a mesh nor open
/// rows, and `accesses_take_as_long_whenever` says it of every machine.
pub fn same_path()
    ensures path { PipelinesChangeTimesAlone }
    ensures clocks { PipelinesAreNoFaster }
    ensures times { AccessesTakeAsLongWhenever }
{}
