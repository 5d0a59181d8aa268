//! Workers that live on while someone asks them for one job after the other. Between the two stands
//! a post: at most one job lies at it, and it goes to the worker and comes back as its answer, or
//! it is taken back as it is.
#![tactic(auto)]

mod asker;
mod bell;
mod crew;
mod job;
mod plays;
mod post;
mod rule;
mod share;
mod view;
mod worker;

pub use asker::{Asker, Collected};
pub use crew::{Crew, end_all, run_beside};
pub use job::Job;
pub use post::Post;
pub use share::do_all;
pub use view::Stage;
pub use worker::Worker;
