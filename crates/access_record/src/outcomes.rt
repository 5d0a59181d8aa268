//! Outcomes by numbers of 3 bits.
ghost use Rattle.std.specs.Prelude.{◌≡◌, ◌<◌};
ghost use Rattle.access_record.specs.Outcomes.{number_of, outcome_of};

use zs_num::Outcome;

/// The number of an outcome, below 8.
#[inline(always)]
pub(crate) fn number_of(outcome: Outcome) -> u32
    ensures number { result ≡ number_of outcome }
    ensures small { result < 8 }
{
    match outcome {
        Outcome::Hit => 0,
        Outcome::Upgrade { others: false } => 1,
        Outcome::Upgrade { others: true } => 2,
        Outcome::L2 { others: false } => 3,
        Outcome::L2 { others: true } => 4,
        Outcome::Miss {
            dirty_victim: false,
        } => 5,
        Outcome::Miss { dirty_victim: true } => 6,
    }
}

/// The outcome with this number.
#[inline(always)]
pub(crate) fn outcome_of(number: u32) -> Outcome
    ensures { result ≡ outcome_of number }
{
    match number {
        0 => Outcome::Hit,
        1 => Outcome::Upgrade { others: false },
        2 => Outcome::Upgrade { others: true },
        3 => Outcome::L2 { others: false },
        4 => Outcome::L2 { others: true },
        5 => Outcome::Miss {
            dirty_victim: false,
        },
        _ => Outcome::Miss { dirty_victim: true },
    }
}
