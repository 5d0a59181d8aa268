//! Tests of profiles: of the values by number in which they are kept, and of what small programs
//! add up to.
#![tactic(auto)]

#[cfg(test)]
mod counts;
#[cfg(test)]
mod given;
#[cfg(test)]
mod profiles;
#[cfg(test)]
mod tests;
#[cfg(test)]
mod told;
