//! A core of a worker, with its seat at the table of shards.
ghost use Rattle.std.specs.Prelude.{◌≡◌};
ghost use Rattle.bound_phase.specs.Member.{CanRun, HasRun};

use crate::seat_port::SeatPort;
use bound_core::BoundCore;
use event_graph::Expand;
use machine_desc::Memory;
use rv_core::Program;
use shard_table::{CoreSeat, ShardTable};
use std::sync::Wait;
use zs_host::Gate;
use zs_num::Cycle;

/// A core with its seat at the table.
#[derive(Drop)]
pub(crate) struct Member {
    pub core: BoundCore,
    pub seat: CoreSeat,
}

/// Runs a core to the end of the interval, unless it has halted.
pub(crate) fn run<R: Wait, G: Gate, P: Program, X: Expand>(
    rt: &R,
    gate: &G,
    table: &ShardTable,
    program: &P,
    expansion: &X,
    memory: &Memory,
    end: Cycle,
    worker: u16,
    member: Member,
) -> Member
    requires { CanRun table.now memory.now end member }
    ensures { HasRun (X.time expansion.now) (P.image program.now) end table.now member result }
{
    bound_core::laws::turns_are_the_cores_own::<SeatPort<R, G>>();
    let Member { mut core, seat } = member;
    if core.halted().is_some() {
        return Member { core, seat };
    }
    let mut port = SeatPort {
        rt,
        gate,
        table,
        worker,
        base: memory.base,
        size: memory.size,
        seat,
    };
    core.run_one(program, expansion, end, &mut port);
    let SeatPort { seat, .. } = port;
    Member { core, seat }
}
