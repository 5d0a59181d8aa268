//! Laws over the definitions alone, each the contract of a function that does nothing.
ghost use Rattle.parts_table.specs.MachineLaws.{MachineLaws};

/// What the table needs of homes and L1s.
pub(crate) fn machine_laws()
    ensures { MachineLaws }
{
    shard::laws::only_touched_parts_count();
    shard::laws::private_is_of_one_l1();
    shard::laws::runs_are_of_shards();
    shard::laws::own_bank();
    shard::laws::other_bank();
    shard::laws::still_serves();
}
