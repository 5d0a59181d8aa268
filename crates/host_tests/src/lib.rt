//! Tests of what a run has of the world outside, through the public calls of `zs_host`: files and
//! sinks, in memory and of the system, each on its happy path and where a call fails.
#![tactic(auto)]

#[cfg(test)]
mod calls;
#[cfg(test)]
mod files_in_memory;
#[cfg(test)]
mod gates;
#[cfg(test)]
mod interrupted;
#[cfg(test)]
mod sinks_in_memory;
#[cfg(test)]
mod streams;
#[cfg(test)]
mod system_files;
