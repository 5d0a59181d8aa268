//! Laws over the definitions alone, each the contract of a function that does nothing.
ghost use Rattle.shard.specs.Laws.{CoherentStays, CoresStay, EntriesAreOfOneMachine, FetchedLinesAreThere, FetchesChangeNoLetter, FetchesTakeLettersOfOneLine, HitsAreAllowed, Inclusion, InstructionsInclusion, LastIsStamp, MarksAreReservations, NewShardsAreOneMachine, NewShardsStand, NumberStays, OthersLeaveInstructionCaches, OthersTakeOneLine, ReadAfterWrite, SetsStaySound, ShardsAnswer, ShardsStandForAMachine, SingleWriter, StillServes};
ghost use Rattle.shard.specs.LeavingLaws.{CopiesBehind, InstructionsBehind, LeavingIsTheMachines, LinesBehind};
ghost use Rattle.shard.specs.NewParts.{NewBanksAreShards, NewPartsAreShards};
ghost use Rattle.shard.specs.PartsLaws.{OtherBank, OwnBank, PrivateIsOfOneL1, RunsAreOfShards, UntouchedIsApart};
ghost use Rattle.shard.specs.Touched.{AskedStays, OnlyTouchedCount, TouchedAreKnown};

/// An access leaves a shard its number.
pub fn number_stays()
    ensures { NumberStays }
{}

/// The last stamp of a shard is that of its latest access.
pub fn last_is_stamp()
    ensures { LastIsStamp }
{}

/// What a shard could be asked it can be asked after an access.
pub fn still_serves()
    ensures { StillServes }
{}

/// A core that a shard knows it knows after an access.
pub fn cores_stay()
    ensures { CoresStay }
{}

/// An access hits exactly where the core has the line with a letter that allows it: any letter to
/// read, M or E to write; and a fetch exactly where the core's instruction cache has the line.
pub fn hits_are_allowed()
    ensures { HitsAreAllowed }
{}

/// Marks in each shard are as good as one reservation for each core: over every list of accesses of
/// cores in which each store-conditional says rightly whether it is paired, they give the replies
/// and leave the memory that flat memory gives and leaves.
pub fn marks()
    ensures { MarksAreReservations }
{}

/// Whatever is accessed, from empty caches on, no set has a line twice or more lines than ways,
/// each line stands in the set of its number, and no L1 lists a line that it does not hold.
pub fn sets_stay_sound()
    ensures { SetsStaySound }
{}

/// Coherence is kept by every access of a core, where there is a set for each line with room for
/// one.
pub fn coherence_stays()
    ensures { CoherentStays }
{}

/// Whatever cores access, from empty caches on: where a core has a line in M or E, no other core
/// has it.
pub fn single_writer()
    ensures { SingleWriter }
{}

/// Whatever cores access, from empty caches on: the L2 has each line that an L1 has, and each line
/// that an instruction cache has.
pub fn inclusion()
    ensures data { Inclusion }
    ensures instructions { InstructionsInclusion }
{}

/// Where the L2 has the line, a fetch changes no letter, and no other access changes an instruction
/// cache: also a write leaves the line there. Where the L2 does not have it, they change these for
/// the line alone that the L2 evicts. Right after a core's fetch the line is in its instruction
/// cache.
pub fn instructions_are_apart()
    ensures letters { FetchesChangeNoLetter }
    ensures instructions { OthersLeaveInstructionCaches }
    ensures letter { FetchesTakeLettersOfOneLine }
    ensures instruction { OthersTakeOneLine }
    ensures there { FetchedLinesAreThere }
{}

/// Behind an access each core has the lines that it had, but for those that leave to make room and
/// those that the access writes in another core, and with the line that it reads or writes itself.
/// Instruction caches keep theirs, whatever is written. The L2 has the line of the access.
pub fn copies_behind()
    ensures data { CopiesBehind }
    ensures instructions { InstructionsBehind }
    ensures shared { LinesBehind }
{}

/// What leaves the caches of a shard for an access is what leaves those of the machine for which the
/// shards stand.
pub fn leaving_is_the_machines()
    ensures { LeavingIsTheMachines }
{}

/// What a shard does with an access to a line of its own is what one machine does, and the shards
/// stand for that machine after it.
pub fn shards_stand_for_a_machine()
    ensures { ShardsStandForAMachine }
{}

/// The new shards of a machine stand for memory as an executable was loaded, and for empty caches.
pub fn new_shards_stand()
    ensures { NewShardsStand }
{}

/// Whatever shards answer, one after the other, are the replies of one flat memory and the outcomes
/// of the caches of one machine, where each store-conditional says rightly whether it is paired.
pub fn entries_are_of_one_machine()
    ensures { EntriesAreOfOneMachine }
{}

/// So it is from the new shards of a machine on, with memory as an executable was loaded and empty
/// caches.
pub fn new_shards_are_one_machine()
    ensures { NewShardsAreOneMachine }
{}

/// A load of what a store wrote gives the low bytes of the number, where no access between wrote to
/// the line, whichever cores accessed.
pub fn read_after_write()
    ensures { ReadAfterWrite }
{
    flat_memory::laws::stored_is_loaded();
}

/// Shards that stand for a machine answer whatever its cores ask of its memory.
pub fn shards_answer()
    ensures { ShardsAnswer }
{}

/// The bank of an access does what its shard does: the reply and the outcome are the shard's, and
/// the home and the L1s are seen after it as the shard after it. They fit together as before.
pub fn own_bank()
    ensures { OwnBank }
{}

/// The other banks see nothing of an access, where each L1 has the sets of all banks, and fit
/// together as before.
pub fn other_bank()
    ensures { OtherBank }
{}

/// What homes and whole L1s answer to accesses of their cores, one after the other, is what the
/// shards answer for which they stand, bank by bank.
pub fn runs_are_of_shards()
    ensures { RunsAreOfShards }
{}

/// A new home and new L1s, of all lines or of its own alone, are seen as a new shard, and fit
/// together.
pub fn new_banks_are_shards()
    ensures { NewBanksAreShards }
{}

/// All new homes, with whole L1s, are seen as the new shards of the machine.
pub fn new_parts_are_shards()
    ensures { NewPartsAreShards }
{}

/// A private access hits. It changes nothing but its core's L1, which answers it.
pub fn private_is_of_one_l1()
    ensures { PrivateIsOfOneL1 }
{}

/// An access commutes with whatever changes an L1 that it does not touch.
pub fn untouched_is_apart()
    ensures { UntouchedIsApart }
{}

/// An access does the same to whatever has the parts that it touches, and leaves the other L1s as
/// they are.
pub fn only_touched_parts_count()
    ensures { OnlyTouchedCount }
{}

/// What an access touches are L1s of cores of the machine.
pub fn touched_are_known()
    ensures { TouchedAreKnown }
{}

/// An access leaves every core what it could ask.
pub fn asked_stays()
    ensures { AskedStays }
{}
