//! A core of a worker, with its seat at the table and what is kept of its accesses.
ghost use Rattle.bound_workers.specs.Member.{ArePlacesFor, CanRun, HasRun};
ghost use Rattle.noc_mesh.specs.NetTiming.{net_time};

use crate::gated_port::GatedPort;
use crate::table_port::TablePort;
use crate::way::Way;
use bound_core::BoundCore;
use bound_records::{CoreRecord, OwnProgram};
use machine_desc::Memory;
use noc_mesh::Net;
use parts_table::{CoreSeat, PartsTable, Places};
use rv_blocks::DecodedProgram;
use std::sync::Wait;
use zs_num::Cycle;

/// A core with its seat, and what is kept of its accesses in the interval.
#[derive(Drop)]
pub(crate) struct Member {
    pub core: BoundCore,
    pub seat: CoreSeat,
    pub record: CoreRecord,
}

/// Runs a core to the end of the interval, unless it has halted. The worker's places come back.
pub(crate) fn run<'x, R: Wait, W: Way>(
    rt: &'x R,
    gate: &'x W,
    table: &'x PartsTable,
    program: &DecodedProgram<'_>,
    net: &Net,
    memory: &Memory,
    end: Cycle,
    worker: u16,
    member: Member,
    places: Places,
) -> (Member, Places)
    requires can { CanRun table.now memory.now end member }
    requires places { ArePlacesFor table.now.cores places }
    ensures ran { HasRun (λ e. net_time net.now.path e) program.now end table.now member result.0 }
    ensures places { ArePlacesFor table.now.cores result.1 }
{
    bound_core::laws::turns_are_the_cores_own::<GatedPort<R, W>>();
    let Member {
        mut core,
        seat,
        record,
    } = member;
    if core.halted().is_some() {
        return (Member { core, seat, record }, places);
    }
    let turn = seat.begin(rt, table, places);
    let port = TablePort {
        rt,
        table,
        base: memory.base,
        size: memory.size,
        turn,
        record,
    };
    let mut gated = GatedPort { gate, worker, port };
    // Of a type of its own, so that the loop over instructions is compiled on its own.
    let program = OwnProgram { program };
    core.run_one(&OwnProgram { program: &program }, net, end, &mut gated);
    let (turn, record) = gated.port.finish();
    let (seat, places) = turn.end(table);
    (Member { core, seat, record }, places)
}
