//! A program that is decoded once: its words, and its instructions in a dense form, with a loop over
//! those that need no memory, up to the access of one that does, one that goes on over accesses that
//! are hits, and those that also tell where they went. All but these go by blocks, of whose
//! instructions only the last may jump, and each block is paid for at its entry.
#![tactic(auto)]

mod access;
mod answer;
mod blocks;
mod decoded_program;
mod dense;
mod flow;
mod hits;
mod join;
mod line;
mod making;
mod perform;
mod slot;
mod told_hits;
mod told_lines;
mod tried;

pub use decoded_program::DecodedProgram;
