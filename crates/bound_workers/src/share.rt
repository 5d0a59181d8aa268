//! A worker's share of an interval.

use crate::team::Team;
use machine_desc::Memory;
use noc_mesh::Net;
use parts_table::PartsTable;
use rv_blocks::DecodedProgram;
use std::sync::{Arc, Wait};
use zs_host::Gate;
use zs_num::Cycle;

/// A worker's share of an interval: it runs its cores to the end, one after the other. Its answer
/// has these cores where they ran to.
#[derive(Drop)]
pub struct Share<'a, R: Wait + Sync, G: Gate> {
    pub(crate) rt: &'a R,
    pub(crate) gate: &'a G,
    pub(crate) table: Arc<PartsTable>,
    pub(crate) program: &'a DecodedProgram<'a>,
    pub(crate) net: &'a Net,
    pub(crate) memory: &'a Memory,
    pub(crate) end: Cycle,
    pub(crate) worker: u16,
    pub(crate) team: Team,
}
