//! The words by which the domains of the weave tell each other the finishes of their events.
#![tactic(auto)]

mod crossings;
mod make;
mod plays;
mod seat;
mod view;

pub use crossings::Crossings;
pub use seat::DomainSeat;
