//! A mesh of nodes that accesses cross, link by link: the route from a node to another, and the
//! events of an access on its way.
#![tactic(auto)]

mod course;
mod direction;
mod events;
mod hops;
pub mod laws;
mod net;
mod routes;
mod stage;
mod standing;
mod stop;

pub use direction::Direction;
pub use net::Net;
pub use routes::route;
pub(crate) use stage::Stage;
pub(crate) use standing::Standing;
pub(crate) use stop::Stop;
