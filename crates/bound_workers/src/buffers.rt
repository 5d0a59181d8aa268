//! Memory of the workers, which one bound phase leaves to the next.
ghost use Rattle.std.specs.Prelude.{◌≡◌, ◌<◌, ◌≤◌, All, IfOk, IsTrue, length, vec_capacity};
ghost use Rattle.bound_workers.specs.Team.{IsFree};
ghost use Rattle.bound_workers.specs.Intervals.{AreToolsFor};

use crate::hiring::teams;
use crate::team::{Team, is_free};
use parts_table::{Blocks, Merge};
use std::alloc::Global;
use zs_num::NoMemory;

/// Workers, and what it takes to put the accesses of all cores in order.
#[derive(Drop)]
pub(crate) struct Tools {
    pub teams: Vec<Team>,
    pub blocks: Vec<Blocks>,
    pub merge: Merge,
}

impl Tools {
    /// For so many workers and cores, and so many accesses of each core.
    fn new(alloc: Global, workers: u16, cores: u16, room: u32) -> Result<Self, NoMemory>
        ensures { IfOk result (λ t. AreToolsFor workers cores room t.teams.items t.blocks.items t.merge) }
    {
        Ok(Tools {
            teams: teams(alloc, workers, cores)?,
            blocks: empty_blocks(alloc, cores, room)?,
            merge: Merge::new(alloc, cores)?,
        })
    }

    /// Whether they are for so many workers and cores, and so many accesses of each core.
    fn are_for(&self, workers: u16, cores: u16, room: u32) -> bool
        ensures { IsTrue result → AreToolsFor workers cores room self.now.teams.items self.now.blocks.items self.now.merge }
    {
        self.teams.len() == usize::from(workers)
            && self.teams.iter().all(|team| is_free(team, cores))
            && self.blocks.len() == usize::from(cores)
            && self.blocks.iter().all(|blocks| blocks.room() == room)
            && self.merge.cores() == cores
    }
}

/// So many keys of no access, each with so much room.
fn empty_blocks(alloc: Global, cores: u16, room: u32) -> Result<Vec<Blocks>, NoMemory>
    ensures count { IfOk result (λ blocks. length blocks.items ≡ cores) }
    ensures room { IfOk result (λ blocks. All (λ b. b.room ≡ room) blocks.items) }
{
    let mut blocks = Vec::with_capacity(alloc, usize::from(cores))?;
    for _ in 0..cores {
        blocks.push_reserved(Blocks::with_room(alloc, room)?);
    }
    Ok(blocks)
}

/// Memory that one bound phase leaves to the next.
#[derive(Drop)]
pub struct WorkBuffers {
    tools: Option<Tools>,
    turns: Option<Vec<u16>>,
}

impl WorkBuffers {
    /// No memory, as before the first bound phase.
    pub fn none() -> Self {
        WorkBuffers {
            tools: None,
            turns: None,
        }
    }

    /// Those that an earlier bound phase left, if they are for as many workers and cores, and as
    /// many accesses. Or new ones.
    pub(crate) fn take(
        &mut self,
        alloc: Global,
        workers: u16,
        cores: u16,
        room: u32,
    ) -> Result<Tools, NoMemory>
        ensures { IfOk result (λ t. AreToolsFor workers cores room t.teams.items t.blocks.items t.merge) }
    {
        match self.tools.take() {
            Some(tools) if tools.are_for(workers, cores, room) => Ok(tools),
            _ => Tools::new(alloc, workers, cores, room),
        }
    }

    /// Leaves the memory of a list of turns to the next bound phase, if there is one.
    pub fn keep_turns(&mut self, turns: Option<Vec<u16>>) {
        if turns.is_some() {
            self.turns = turns;
        }
    }

    /// Room for a list of so many turns: what an earlier bound phase left, or new memory.
    pub(crate) fn take_turns(&mut self, alloc: Global, count: usize) -> Result<Vec<u16>, NoMemory>
        ensures { IfOk result (λ turns. count ≤ vec_capacity turns) }
    {
        match self.turns.take() {
            Some(turns) if turns.capacity() >= count => Ok(turns),
            _ => Ok(Vec::with_capacity(alloc, count)?),
        }
    }

    /// Leaves them to the next bound phase.
    pub(crate) fn put(&mut self, tools: Tools) {
        self.tools = Some(tools);
    }
}
