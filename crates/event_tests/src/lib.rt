//! Tests of machines, events, their files, their weave core by core and domains through the public
//! calls of their crates.
#![tactic(auto)]

#[cfg(test)]
mod chains;
#[cfg(test)]
mod components;
#[cfg(test)]
mod crossings;
#[cfg(test)]
mod descriptions;
#[cfg(test)]
mod domains;
#[cfg(test)]
mod events;
#[cfg(test)]
mod graphs;
#[cfg(test)]
mod loads;
#[cfg(test)]
mod machines;
#[cfg(test)]
mod meshes;
#[cfg(test)]
mod nets;
#[cfg(test)]
mod open_rows;
#[cfg(test)]
mod queues;
