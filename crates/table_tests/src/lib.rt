//! Tests of accesses by several threads: two cores share the shards of a table, in one thread and
//! in two, and the first interval of small programs by several workers, also past gates. And of
//! crews, which do jobs beside who asks for them, of workers to whom things are dealt, and of two
//! cores that share homes and L1s one by one.
#![tactic(auto)]

#[cfg(test)]
mod at_the_gate;
#[cfg(test)]
mod crews;
#[cfg(test)]
mod dealt;
#[cfg(test)]
mod first_interval;
#[cfg(test)]
mod gates;
#[cfg(test)]
mod given;
#[cfg(test)]
mod paces;
#[cfg(test)]
mod parts;
#[cfg(test)]
mod requests;
#[cfg(test)]
mod tested;
#[cfg(test)]
mod tests;
