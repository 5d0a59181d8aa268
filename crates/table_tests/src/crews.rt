//! Crews: each job is done, by a worker or by who asks, and comes back at its place.
mod adding;
mod by_hand;
mod rounds;
