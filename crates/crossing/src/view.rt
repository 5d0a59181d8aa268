//! What a seat knows of the crossings, and the rule that ties it to the words.
use atomic_table::{Seat, Table, TableRule};
use std::alloc::Global;

/// What a seat knows. No value of it is made: contracts read the arrays as lists of any length.
/// Words are kept as numbers, `2 * bound` or `2 * finish + 1`.
pub struct View {
    /// Whether the seat was told the finishes and the sources.
    pub told: bool,
    /// Whether it is the first seat, which makes the others.
    pub makes: bool,
    /// The domain whose seat it is. Of the first seat how many it made: the next domain.
    pub domain: u64,
    /// The finish of each crossing's parent.
    pub finishes: [u64; 0],
    /// The domain that each crossing comes from.
    pub sources: [u64; 0],
    /// What this seat last wrote to each crossing's word.
    pub wrote: [u64; 0],
    /// What this seat last found in each crossing's word.
    pub noted: [u64; 0],
    /// How often this seat looked at each crossing's word.
    pub looks: [u64; 0],
}

/// The rule of the words. Its key is the number of crossings.
pub struct WordRule;

impl TableRule<(), View, u64> for WordRule {
    ghost use Rattle.crossing.specs.Rule.{Holds, untold};

    ghost holds = { Holds };

    ghost first = { λ _. untold };
}

pub(crate) type Words = Table<(), View, u64, WordRule, Global>;

pub(crate) type TableSeat = Seat<(), View>;
