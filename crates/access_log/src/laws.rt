//! Laws over the definitions alone, each the contract of a function that does nothing.
ghost use Rattle.access_log.specs.Laws.{CoresDecideTheOrder, EachHasItsOwn, OneMoreIsStamped, RecordedOrderKeepsTheStamps, RecordedOrderSorts, RisingListsStay, RisingStampsAreDistinct, StampsRise};

/// The recorded order has the same entries, by their stamps and at a tie by their cores; where no
/// two have the same of both, it is the only such list.
pub fn recorded_order_sorts()
    ensures { RecordedOrderSorts }
{}

/// What was stamped in the order in which the turns were taken is stamped by the same rule in
/// recorded order, and each core and each bank has the same entries in the same order.
pub fn recorded_order_keeps_the_stamps()
    ensures { RecordedOrderKeepsTheStamps }
{}

/// What each of a list of things comes to by the entries of a history is what it comes to by its
/// own.
pub fn each_has_its_own<X>()
    ensures { EachHasItsOwn X }
{}

/// An entry whose stamp is one more than the latest of its bank and of its core goes on with a
/// history.
pub fn one_more_is_stamped()
    ensures { OneMoreIsStamped }
{}

/// The stamps of logical clocks rise in each core and in each bank.
pub fn stamps_rise()
    ensures { StampsRise }
{}

/// The recorded order leaves each list of entries with one number as it is, where its stamps rise.
pub fn rising_lists_stay()
    ensures { RisingListsStay }
{}

/// The recorded order is the same for all ways of putting the lists of the cores together.
pub fn cores_decide_the_order()
    ensures { CoresDecideTheOrder }
{}

/// Where stamps rise in each core, no two entries have the same stamp and core.
pub fn rising_stamps_are_distinct()
    ensures { RisingStampsAreDistinct }
{}
