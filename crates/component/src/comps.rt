//! A list of components.
use std::marker::Model;

/// The components of a machine in order of their numbers, which contracts see as a list.
#[derive(Drop)]
pub struct Comps<C> {
    list: Vec<C>,
}

impl<C> Model for Comps<C> {
    ghost use Rattle.std.specs.Prelude.{List};

    ghost Value = { List C };

    ghost view = { λ c. c.list.items };
}

impl<C> Comps<C> {
    ghost use Rattle.std.specs.Prelude.{◌≡◌};
    ghost use Rattle.std.specs.Borrow.{sem};
    ghost use Rattle.component.specs.Lending.{lends_components};

    /// The components of a list, which it takes over.
    pub fn of(list: Vec<C>) -> Self
        ensures { result ≡ list.items }
    {
        Comps { list }
    }

    /// The components, in order of their numbers.
    pub fn as_slice(&self) -> &[C]
        ensures { result.now ≡ self.now }
    {
        &self.list
    }

    /// The components for their steps.
    pub fn as_mut_slice(&mut self) -> &mut [C]
        ensures* writes_back { sem 𝓛 (lends_components C.row self.entry result) }
        ensures value { result.now ≡ self.old }
    {
        self.list.as_mut_slice()
    }

    /// Gives the list back.
    pub fn into_list(self) -> Vec<C>
        ensures { result.items ≡ self }
    {
        self.list
    }
}
