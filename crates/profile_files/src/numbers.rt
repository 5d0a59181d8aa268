//! Numbers of the files.
ghost use Rattle.std.specs.Prelude.{◌≡◌, ◌++◌, OnOk, codes, string_bytes};
ghost use Rattle.profile_files.specs.Numbers.{accesses, in_hexadecimal, marked};

use profile_rows::Tally;
use std::alloc::AllocError;

/// Writes numbers, each behind a mark.
pub fn write_marked(text: &mut String, mark: &str, numbers: &[u128]) -> Result<(), AllocError>
    ensures { OnOk result (string_bytes text.new ≡ string_bytes text.old ++ marked mark.now numbers.now) }
{
    for number in numbers {
        write!(text, "{mark}{number}")?;
    }
    Ok(())
}

/// Writes how many accesses there were of each kind, and how many had each outcome, as columns.
#[tactic(auto, unfolding(crate::specs::Numbers::accesses))]
pub fn write_accesses(text: &mut String, tally: &Tally) -> Result<(), AllocError>
    ensures { OnOk result (string_bytes text.new ≡ string_bytes text.old ++ marked (codes ",") (accesses tally.now)) }
{
    let numbers = [
        u128::from(tally.loads),
        u128::from(tally.stores),
        u128::from(tally.atomics),
        u128::from(tally.fetches),
        u128::from(tally.hits),
        u128::from(tally.upgrades),
        u128::from(tally.l2hits),
        u128::from(tally.misses),
    ];
    write_marked(text, ",", &numbers)
}

/// Writes a number in hexadecimal digits, without leading zeros.
pub fn write_in_hexadecimal(text: &mut String, number: u64) -> Result<(), AllocError>
    ensures { OnOk result (string_bytes text.new ≡ string_bytes text.old ++ in_hexadecimal number) }
{
    write!(text, "0x{number:x}")
}
