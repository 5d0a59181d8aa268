//! Laws over the definitions alone, each the contract of a function that does nothing.
ghost use Rattle.component.specs.Laws.{ComponentsStay, FreshComponentsAreOne, FreshComponentsAreThere};

/// The components of a machine stay its components when one of them serves an event.
pub fn components_stay()
    ensures { ComponentsStay }
{}

/// A machine's components before their first event are one list.
pub fn fresh_components_are_one()
    ensures { FreshComponentsAreOne }
{}

/// A machine has components before their first event.
pub fn fresh_components_are_there()
    ensures { FreshComponentsAreThere }
{}
