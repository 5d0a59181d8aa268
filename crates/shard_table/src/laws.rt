//! Laws over the definitions alone, each the contract of a function that does nothing.
ghost use Rattle.shard_table.specs.Laws.{WholeIsAnswered, WholeIsOfOneMachine, WholeReadsAfterWrites};

/// What `ShardTable::close` promises of each shard and its own accesses holds of all together: in
/// recorded order, the shards answer the accesses of all cores one after the other.
pub fn accesses_are_answered()
    ensures { WholeIsAnswered }
{
    shard::laws::number_stays();
}

/// So the accesses of all cores, in recorded order, have the replies of one memory and the outcomes
/// of one machine's caches, one after the other, and the shards that come back stand for what is
/// left.
pub fn accesses_are_of_one_machine()
    ensures { WholeIsOfOneMachine }
{
    accesses_are_answered();
    shard::laws::coherence_stays();
    shard::laws::shards_stand_for_a_machine();
    shard::laws::entries_are_of_one_machine();
}

/// In recorded order, a load of what a store wrote gives the low bytes of the number, where no
/// access between wrote to the line, whichever cores accessed.
pub fn read_after_write()
    ensures { WholeReadsAfterWrites }
{
    accesses_are_answered();
    shard::laws::coherence_stays();
    shard::laws::shards_stand_for_a_machine();
    shard::laws::read_after_write();
}
