//! Events as the weave fired them.
ghost use Rattle.std.specs.Prelude.{◌≡◌};

use std::marker::Model;
use zs_num::Cycle;

/// An event with the cycles that the weave found for it.
#[derive(Clone, Copy, PartialEq, Eq)]
pub struct Fired {
    pub number: u32,
    pub start: Cycle,
    pub finish: Cycle,
}

/// A list of fired events, which contracts see as a list.
#[derive(Drop)]
pub struct FiredList {
    list: Vec<Fired>,
}

impl Model for FiredList {
    ghost use Rattle.std.specs.Prelude.{List};
    ghost use Rattle.event_graph.specs.declared.fired.Fired.{Fired};

    ghost Value = { List Fired };

    ghost view = { λ f. f.list.items };
}

impl FiredList {
    /// The fired events of a list, which it takes over.
    pub fn of(list: Vec<Fired>) -> Self
        ensures { result ≡ list.items }
    {
        FiredList { list }
    }

    /// The fired events, in the order of the list.
    pub fn as_slice(&self) -> &[Fired]
        ensures { result.now ≡ self.now }
    {
        &self.list
    }

    /// Gives the list back.
    pub fn into_list(self) -> Vec<Fired>
        ensures { result.items ≡ self }
    {
        self.list
    }
}
