//! All memory that a table takes, before the first access.
ghost use Rattle.std.specs.Prelude.{◌≡◌, ◌*◌, ◌≤◌, ◌<◌, ◌^◌, [], length, map, replicate, vec_capacity, IfOk};
ghost use Rattle.shard_table.specs.Buffers.{new_logs};

use crate::hold::APART;
use crate::seat::CoreSeat;
use access_log::CoreLog;
use shard::Shard;
use std::alloc::Global;
use zs_num::{NoMemory, Stamp};

/// All memory that a table takes.
pub(crate) struct Buffers {
    /// The words of the shards, none of which is held.
    pub words: Vec<u64>,
    /// The last stamps of the shards.
    pub stamps: Vec<Stamp>,
    /// The logs of the cores.
    pub logs: Vec<CoreLog>,
    /// Room for a seat of each core.
    pub seats: Vec<CoreSeat>,
    /// Room for the shards, when they are handed back.
    pub shards: Vec<Shard>,
    /// Room for the logs, when they are handed back.
    pub closed: Vec<CoreLog>,
}

impl Buffers {
    /// All memory, that of these logs first.
    pub(crate) fn new(
        alloc: Global,
        shards: &[Shard],
        cores: u16,
        room: u32,
        earlier: Vec<CoreLog>,
    ) -> Result<Self, NoMemory>
        requires { length shards.now < 2 ^ 16 }
        ensures words { IfOk result (λ m. m.words.items ≡ replicate (16 * length shards.now) 0) }
        ensures stamps { IfOk result (λ m. m.stamps.items ≡ map (λ shard. shard.last) shards.now) }
        ensures logs { IfOk result (λ m. m.logs.items ≡ new_logs cores room) }
        ensures seats { IfOk result (λ m. (m.seats.items ≡ []) × (cores ≤ vec_capacity m.seats)) }
        ensures shards { IfOk result (λ m. (m.shards.items ≡ []) × (length shards.now ≤ vec_capacity m.shards)) }
        ensures closed { IfOk result (λ m. (m.closed.items ≡ []) × (cores ≤ vec_capacity m.closed)) }
    {
        Ok(Buffers {
            words: vec![in alloc; 0; APART * shards.len()]?,
            stamps: last_stamps(alloc, shards)?,
            logs: logs(alloc, cores, room, earlier)?,
            seats: Vec::with_capacity(alloc, usize::from(cores))?,
            shards: Vec::with_capacity(alloc, shards.len())?,
            closed: Vec::with_capacity(alloc, usize::from(cores))?,
        })
    }
}

fn last_stamps(alloc: Global, shards: &[Shard]) -> Result<Vec<Stamp>, NoMemory>
    ensures { IfOk result (λ stamps. stamps.items ≡ map (λ shard. shard.last) shards.now) }
{
    let mut stamps = Vec::with_capacity(alloc, shards.len())?;
    for shard in shards {
        stamps.push_reserved(shard.last());
    }
    Ok(stamps)
}

/// An empty log for each core, with so much room: an earlier one, where it has as much.
fn logs(
    alloc: Global,
    cores: u16,
    room: u32,
    mut earlier: Vec<CoreLog>,
) -> Result<Vec<CoreLog>, NoMemory>
    ensures { IfOk result (λ logs. logs.items ≡ new_logs cores room) }
{
    let mut logs = Vec::with_capacity(alloc, usize::from(cores))?;
    for _ in 0..cores {
        logs.push_reserved(log_from(alloc, room, earlier.pop())?);
    }
    Ok(logs)
}

/// An empty log with so much room: the earlier one, where it has as much.
fn log_from(alloc: Global, room: u32, earlier: Option<CoreLog>) -> Result<CoreLog, NoMemory>
    ensures { IfOk result (λ log. log ≡ record { entries = []; room = room }) }
{
    let Some(mut log) = earlier else {
        return CoreLog::with_room(alloc, room);
    };
    log.clear();
    if log.spare() == room {
        return Ok(log);
    }
    CoreLog::with_room(alloc, room)
}
