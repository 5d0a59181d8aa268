//! Where an access stops on its way.

/// Where an access stops on its way.
#[derive(Clone, Copy)]
pub(crate) enum Stop {
    /// The core that makes it.
    Core,
    /// The bank that has its line.
    Bank,
    /// The controller behind that bank.
    Controller,
}
