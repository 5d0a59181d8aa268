//! Tests of the instruction set through the public calls of its crates: words, arithmetic, whole
//! instructions, their times, memory, executables, and the numbers that they all speak of.
#![tactic(auto)]

#[cfg(test)]
mod arithmetic;
#[cfg(test)]
mod changes;
#[cfg(test)]
mod checks;
#[cfg(test)]
mod decoding;
#[cfg(test)]
mod executables;
#[cfg(test)]
mod fetching;
#[cfg(test)]
mod files;
#[cfg(test)]
mod generating;
#[cfg(test)]
mod images;
#[cfg(test)]
mod instructions;
#[cfg(test)]
mod intervals;
#[cfg(test)]
mod lists;
#[cfg(test)]
mod loading;
#[cfg(test)]
mod memory;
#[cfg(test)]
mod numbers;
#[cfg(test)]
mod pace;
#[cfg(test)]
mod refusals;
#[cfg(test)]
mod words;
#[cfg(test)]
mod writing;
