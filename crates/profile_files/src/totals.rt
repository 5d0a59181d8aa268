//! The sums of the columns of all instructions.
ghost use Rattle.std.specs.Prelude.{◌≡◌, map};
ghost use Rattle.profile_rows.specs.Tallies.{capped_wide};
ghost use Rattle.profile_files.specs.CallgrindFile.{added, columns, sums};

use profile_rows::AddressRow;

/// The numbers of an instruction, in the order of the events.
#[tactic(auto, unfolding(crate::specs::CallgrindFile::columns))]
pub fn columns(row: &AddressRow) -> [u128; 11]
    ensures { result ≡ columns row.now }
{
    [
        u128::from(row.instructions),
        u128::from(row.tally.loads),
        u128::from(row.tally.stores),
        u128::from(row.tally.atomics),
        u128::from(row.tally.fetches),
        u128::from(row.tally.hits),
        u128::from(row.tally.upgrades),
        u128::from(row.tally.l2hits),
        u128::from(row.tally.misses),
        u128::from(row.tally.cycles),
        row.tally.waited,
    ]
}

/// The sums of the columns, each as far as its type goes.
pub fn totals(rows: &[AddressRow]) -> [u128; 11]
    ensures { result ≡ map capped_wide (sums rows.now) }
{
    let mut totals = [0; 11];
    for row in rows {
        add(&mut totals, &columns(row));
    }
    totals
}

/// Adds to each number the one at its place.
fn add(totals: &mut [u128; 11], numbers: &[u128; 11])
    ensures { totals.new ≡ map capped_wide (added totals.old numbers.now) }
{
    for n in 0..11 {
        totals[n] = totals[n].saturating_add(numbers[n]);
    }
}
