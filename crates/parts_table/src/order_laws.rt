//! Laws of the order of accesses, each the contract of a function that does nothing.
ghost use Rattle.parts_table.specs.TurnOrder.{TurnsPutInOrder};

/// Turns by which the keys of accesses are in order put the accesses in order, and each core has its
/// own.
pub fn turns_put_in_order()
    ensures { TurnsPutInOrder }
{}
