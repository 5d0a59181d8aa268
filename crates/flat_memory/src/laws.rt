//! Laws over the definitions alone, each the contract of a function that does nothing.
ghost use Rattle.flat_memory.specs.Laws.{ConditionalFailsAfterOthersStore, ConditionalStoresAfterReserved, FetchesChangeNothing, LoadGivesWhatWasStored, OthersEndByWrites, StoreLeavesOtherBytes};

/// A load of what a store stored gives the number's low bytes.
pub fn stored_is_loaded()
    ensures { LoadGivesWhatWasStored }
{}

/// A store changes no other byte.
pub fn other_bytes_stay()
    ensures { StoreLeavesOtherBytes }
{}

/// A store-conditional right after a load-reserved of the same bytes stores.
pub fn a_pair_stores()
    ensures { ConditionalStoresAfterReserved }
{}

/// A store-conditional does not store where another core stored to the line since the
/// load-reserved.
pub fn a_store_between_ends_a_pair()
    ensures { ConditionalFailsAfterOthersStore }
{}

/// What a core has reserved ends where another core writes to its line, and by nothing else that
/// another core does.
pub fn others_end_by_writes()
    ensures { OthersEndByWrites }
{}

/// A fetch is answered 0, and changes neither the bytes of memory nor what is reserved.
pub fn fetches_change_nothing()
    ensures { FetchesChangeNothing }
{}
