//! What is done before an event fires. It has no meaning: no answer depends on it.
use zs_host::{Gate, Point};

/// Is called before each event that fires.
pub(crate) trait Before {
    /// Before an event of this component.
    fn event_of(&self, component: u16);
}

/// Nothing is done.
#[derive(Clone, Copy)]
pub(crate) struct Nothing;

impl Before for Nothing {
    #[inline(always)]
    fn event_of(&self, _component: u16) {}
}

/// The one worker that there is passes a gate, as the worker of the event's domain.
#[derive(Drop)]
pub(crate) struct Passing<'a, G: Gate> {
    /// The domain of each component, by number.
    pub(crate) places: &'a [u16],
    pub(crate) gate: &'a G,
}

impl<'a, G: Gate> Before for Passing<'a, G> {
    #[inline(always)]
    fn event_of(&self, component: u16) {
        if let Some(&domain) = self.places.get(usize::from(component)) {
            self.gate.pass(0, Point::Fire { domain });
        }
    }
}
