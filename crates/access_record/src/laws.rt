//! Laws over the definitions alone, each the contract of a function that does nothing.
ghost use Rattle.access_record.specs.Laws.{BytesTell, HitsMakeNoEvents, RecordsKeepEachAccess, RecordsKeepTheEvents, RecordsStandForAccesses};

/// What `bank_of_byte` and `has_events` answer of the byte of an access: its bank, and whether it
/// makes events.
pub fn bytes_tell()
    ensures { BytesTell }
{}

/// The record of an access stands for one with the same core, start, line and outcome, which is a
/// fetch if that is one.
pub fn records_stand_for_accesses()
    ensures { RecordsStandForAccesses }
{}

/// Of the access for which a record stands the events are those of the recorded one, and so is the
/// time at zero load, in every machine.
pub fn records_keep_each_access()
    ensures { RecordsKeepEachAccess }
{
    noc_mesh::laws::events_are_of_lines_and_outcomes();
}

/// The events of an interval are those of its accesses that are no hits.
pub fn hits_make_no_events()
    ensures { HitsMakeNoEvents }
{}

/// The events of an interval are those of the accesses for which the records of its accesses stand
/// that are no hits.
pub fn records_keep_the_events()
    ensures { RecordsKeepTheEvents }
{
    noc_mesh::laws::events_are_of_lines_and_outcomes();
}
