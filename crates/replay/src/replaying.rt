//! The run of an executable under a schedule that is handed in.
ghost use Rattle.std.specs.Prelude.{◌≡◌, IfOk};
ghost use Rattle.std.specs.List.{range_with_len};
ghost use Rattle.machine_desc.specs.Machine.{IsMachine};
ghost use Rattle.replay.specs.Replay.{Replays};
ghost use Rattle.reference.specs.Results.{HasCounts};
ghost use Rattle.run.specs.Simulation.{IsAtStart};

use crate::ReplayFail;
use crate::under::interval_under;
use access_log::Schedule;
use domain_map::component_domains;
use elf_load::Image;
use machine_desc::Machine;
use noc_mesh::Net;
use run::{Final, Simulation};
use rv_blocks::DecodedProgram;
use std::alloc::Global;
use weave_chains::ChainBuffers;

/// Runs an image under a schedule: in each interval the cores take their turns in the order of its
/// list. Illegal names the first place of the schedule that is not legal for the run.
pub fn replay(
    alloc: Global,
    machine: &Machine,
    image: &Image,
    schedule: &Schedule,
) -> Result<Final, ReplayFail>
    requires machine { IsMachine machine.now }
    requires base { image.now.base ≡ machine.now.memory.base }
    requires size { image.now.size ≡ machine.now.memory.size }
    requires cores { schedule.now.cores ≡ machine.now.cores }
    ensures gives { Replays machine.now image.now schedule.now.lists result }
    ensures counted { IfOk result (HasCounts machine.now) }
    ensures numbered { IfOk result (λ r. r.numbers ≡ range_with_len 0 machine.now.cores) }
{
    let places = component_domains(alloc, machine)?;
    let program = DecodedProgram::of(alloc, image)?;
    let simulation = Simulation::new(alloc, machine, image)?;
    replay_on(alloc, machine, &program, &places, simulation, schedule)
}

/// The same, of a simulation that is at its start. `places` has the domain of each component.
fn replay_on(
    alloc: Global,
    machine: &Machine,
    program: &DecodedProgram<'_>,
    places: &[u16],
    mut simulation: Simulation,
    schedule: &Schedule,
) -> Result<Final, ReplayFail>
    requires machine { IsMachine machine.now }
    requires starts { IsAtStart machine.now program.now simulation }
    requires cores { schedule.now.cores ≡ machine.now.cores }
    ensures gives { Replays machine.now program.now schedule.now.lists result }
    ensures counted { IfOk result (HasCounts machine.now) }
    ensures numbered { IfOk result (λ r. r.numbers ≡ range_with_len 0 machine.now.cores) }
{
    let net = Net::of(machine);
    let mut chain_buffers = ChainBuffers::new(alloc);
    let lists = schedule.intervals();
    let mut k = 0;
    let mut end = 0;
    while !simulation.has_ended(machine, k) {
        if k == lists {
            return Err(ReplayFail::Illegal {
                interval: k,
                place: 0,
            });
        }
        end += machine.interval;
        let turns = schedule.list(k);
        simulation = interval_under(
            simulation,
            alloc,
            machine,
            program,
            &net,
            end,
            k,
            turns,
            places,
            &mut chain_buffers,
        )?;
        k += 1;
    }
    if k < lists {
        return Err(ReplayFail::Illegal {
            interval: k,
            place: 0,
        });
    }
    Ok(simulation.results(k))
}
