//! The delays of the cores.
ghost use Rattle.std.specs.Prelude.{◌≡◌};

use std::marker::Model;

/// How many cycles each core's clock has to grow, by the cores' numbers. Contracts see it as a
/// list.
#[derive(Drop)]
pub struct Delays {
    list: Vec<u64>,
}

impl Model for Delays {
    ghost use Rattle.std.specs.Prelude.{List, ℕ};

    ghost Value = { List ℕ };

    ghost view = { λ d. d.list.items };
}

impl Delays {
    /// The delays of a list, which it takes over.
    pub fn of(list: Vec<u64>) -> Self
        ensures { result ≡ list.items }
    {
        Delays { list }
    }

    /// The delay of each core, in cycles.
    pub fn as_slice(&self) -> &[u64]
        ensures { result.now ≡ self.now }
    {
        &self.list
    }

    /// Gives the list back.
    pub fn into_list(self) -> Vec<u64>
        ensures { result.items ≡ self }
    {
        self.list
    }
}
