//! Machine descriptions: the text that gives the numbers of a machine, read and checked.
#![tactic(auto)]

mod checks;
mod components;
mod document;
mod domains;
mod errors;
mod keys;
pub mod laws;
mod lists;
mod machine;
mod numbers;
mod plain;
mod ratios;
mod reader;
mod unknown;
mod versions;

pub use components::{component_count, domain_of, link_count, node_count};
pub use errors::{BadMachine, MachineFail};
pub use lists::{KeyName, Places};
pub use machine::{Controllers, Domains, Dram, L1, L2, Machine, Memory, Mesh, Pipe};
pub use plain::PLAIN;
pub use reader::read;
