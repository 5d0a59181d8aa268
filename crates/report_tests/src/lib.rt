//! Tests of what is counted of a run, of its report and of the files of a profile, through the public
//! calls of their crates.
#![tactic(auto)]

#[cfg(test)]
mod counting;
#[cfg(test)]
mod files;
#[cfg(test)]
mod lines;
#[cfg(test)]
mod machines;
#[cfg(test)]
mod reports;
