//! A worker with its cores.
ghost use Rattle.std.specs.Prelude.{IsTrue};
ghost use Rattle.noc_mesh.specs.NetTiming.{net_time};
ghost use Rattle.bound_workers.specs.Team.{CanWork, HasPlaces, HasWorked, IsFree};

use crate::member::{Member, run};
use crate::way::Way;
use dealing::Worker;
use machine_desc::Memory;
use noc_mesh::Net;
use parts_table::{PartsTable, Places};
use rv_blocks::DecodedProgram;
use std::sync::Wait;
use zs_num::Cycle;

/// A worker with its cores, and places for the L1s of all cores, which go from core to core.
pub(crate) type Team = Worker<Member, Option<Places>>;

/// Whether it has no cores, and room and places for so many.
pub(crate) fn is_free(team: &Team, cores: u16) -> bool
    ensures { IsTrue result → IsFree cores team.now }
{
    let room = usize::from(cores);
    team.queue.is_empty() && team.queue.capacity() >= room && has_places(&team.tools, room)
}

/// Whether there are places for so many cores, of which none is filled.
fn has_places(places: &Option<Places>, cores: usize) -> bool
    ensures { IsTrue result → HasPlaces cores places.now }
{
    match places {
        Some(places) => places.cores() == cores && places.are_empty(),
        None => false,
    }
}

/// Runs the cores of a worker to the end of the interval, one after the other: the first of its queue
/// comes behind all others as it has run.
pub(crate) fn work<R: Wait, W: Way>(
    rt: &R,
    gate: &W,
    table: &PartsTable,
    program: &DecodedProgram<'_>,
    net: &Net,
    memory: &Memory,
    end: Cycle,
    worker: u16,
    team: &mut Team,
)
    requires { CanWork table.now memory.now end team.old }
    ensures { HasWorked (λ e. net_time net.now.path e) program.now end table.now team.old team.new }
{
    let Some(mut places) = team.tools.take() else {
        return;
    };
    for _ in 0..team.queue.len() {
        let Some(member) = team.queue.pop_front() else {
            unreachable!()
        };
        let (member, back) = run(
            rt, gate, table, program, net, memory, end, worker, member, places,
        );
        places = back;
        team.queue.push_back_reserved(member);
    }
    team.tools = Some(places);
}
