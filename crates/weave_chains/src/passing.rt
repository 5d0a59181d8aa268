//! What is done before an event fires. It has no meaning: no answer depends on it.
use zs_host::{Gate, Point};

/// The one worker that there is passes a gate, as the worker of the event's domain.
#[derive(Drop)]
pub(crate) struct Passing<'a, G: Gate> {
    /// The domain of each component, by number.
    pub(crate) places: &'a [u16],
    pub(crate) gate: &'a G,
}

impl<'a, G: Gate> Passing<'a, G> {
    /// Passes the gate before an event of this component.
    #[inline(always)]
    pub(crate) fn event_of(&self, component: u16) {
        if let Some(&domain) = self.places.get(usize::from(component)) {
            self.gate.pass(0, Point::Fire { domain });
        }
    }
}
