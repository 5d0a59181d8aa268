//! Tests of what accesses leave, through the public calls of their crates: lines in sets, in L1s, in
//! homes and in directories, shards, logs, records, and schedules with their files.
#![tactic(auto)]

#[cfg(test)]
mod checks;
#[cfg(test)]
mod directories;
#[cfg(test)]
mod homes;
#[cfg(test)]
mod l1s;
#[cfg(test)]
mod logs;
#[cfg(test)]
mod machines;
#[cfg(test)]
mod records;
#[cfg(test)]
mod schedule_files;
#[cfg(test)]
mod sets;
#[cfg(test)]
mod shards;
#[cfg(test)]
mod words;
