//! What is the same all through a run.
use machine_desc::Machine;
use noc_mesh::Net;
use rv_blocks::DecodedProgram;
use std::alloc::Global;

/// What is the same all through a run: its machine, its program, and who runs it.
#[derive(Drop)]
pub(crate) struct Context<'a, R, G> {
    pub rt: &'a R,
    pub alloc: Global,
    pub machine: &'a Machine,
    pub program: &'a DecodedProgram<'a>,
    /// How accesses cross the machine.
    pub net: &'a Net,
    /// The domain of each component.
    pub places: &'a [u16],
    /// Before each access and each event a worker passes it.
    pub gate: &'a G,
    /// How many workers there are, 1 to 64.
    pub workers: u16,
}
