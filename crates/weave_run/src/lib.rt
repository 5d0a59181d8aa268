//! The weave by rounds, in which each worker runs its domains as far as they can go.
#![tactic(auto)]

mod at_work;
mod beside;
mod by_hands;
mod by_workers;
mod crew;
mod dealt;
mod ended;
mod ending;
mod hands;
mod hiring;
mod outgoing;
mod plan;
mod post;
mod raise;
mod rounds;
mod run;
mod setup;
mod share;
mod team;
mod tell;
mod way;

pub use by_hands::weave_with;
pub use by_workers::{Woven, weave};
pub use hands::Hands;
pub use share::DomainShare;
pub use way::{DomainWay, WatchedDomains};
