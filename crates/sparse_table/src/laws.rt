//! Laws over the definitions alone, each the contract of a function that does nothing.
ghost use Rattle.sparse_table.specs.Laws.{GivesBack, IsSetNow, IsWalked, IsWalkedFromZero, OthersStay, StaysRising, SumsFollow};

/// A number has the value that it was given last.
pub fn set_gives_back<T: Copy>()
    ensures { GivesBack T }
{}

/// All other numbers keep their values.
pub fn others_stay<T: Copy>()
    ensures { OthersStay T }
{}

/// The numbers of the entries rise, so each number that was set is among them once.
pub fn entries_stay_rising<T: Copy>()
    ensures { StaysRising T }
{}

/// A number that was given a value is set.
pub fn is_set_now<T: Copy>()
    ensures { IsSetNow T }
{}

/// A sum over the entries, of a measure that is 0 where nothing was set, takes on what a number has
/// now for what it had.
pub fn sums_follow<T: Copy>()
    ensures { SumsFollow T }
{}

/// A walk from a number to the next that was set, and on from the number behind it, visits each
/// entry with its value.
pub fn walks_visit_entries<T: Copy>()
    ensures { IsWalked T }
{}

/// A walk from 0 visits all.
pub fn walks_from_zero<T: Copy>()
    ensures { IsWalkedFromZero T }
{}
