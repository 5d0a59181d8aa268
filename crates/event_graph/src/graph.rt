//! The events of an interval.
ghost use Rattle.std.specs.Prelude.{◌≡◌};

use crate::Event;
use std::marker::Model;

/// The events of an interval, in order of their numbers.
#[derive(Drop)]
pub struct Graph {
    events: Vec<Event>,
}

impl Model for Graph {
    ghost use Rattle.std.specs.Prelude.{List};
    ghost use Rattle.event_graph.specs.declared.event.Event.{Event};
    ghost use Rattle.event_graph.specs.Numbered.{IsNumbered};

    ghost Value = { List Event };

    ghost view = { λ g. g.events.items };

    ghost invariant = { λ g. IsNumbered g.events.items };
}

impl Graph {
    ghost use Rattle.event_graph.specs.Numbered.{IsNumbered};

    /// A graph of these events.
    pub fn of(events: Vec<Event>) -> Self
        requires { IsNumbered events.items }
        ensures { result ≡ events.items }
    {
        Graph { events }
    }

    /// The events, in order of their numbers.
    pub fn events(&self) -> &[Event]
        ensures events { result.now ≡ self.now }
        ensures numbered { IsNumbered self.now }
    {
        &self.events
    }
}
