//! The bytes of each line that each core read and wrote.
ghost use Rattle.std.specs.Prelude.{◌≡◌, []};
ghost use Rattle.line_use.specs.Bytes.{HasBits};
ghost use Rattle.line_use.specs.Uses.{is_read, is_written};

use crate::line_bytes::{LineBytes, UNUSED};
use crate::uses::add_use;
use event_graph::{FiredList, Graph};
use shard::Leaving;
use sparse_table::SparseTable;
use sparse_table::by_core::value_at;
use std::alloc::Global;
use std::marker::Model;
use trace::Tracer;
use tracers::Told;
use zs_num::{Entries, Entry, NoMemory};

/// Which bytes of each line each core read and wrote in the steps that it was told.
#[derive(Drop)]
pub struct LineUse {
    alloc: Global,
    told: Told,
    uses: Vec<SparseTable<LineBytes>>,
}

impl Model for LineUse {
    ghost use Rattle.std.specs.Prelude.{List};
    ghost use Rattle.trace.specs.Trace.{Step};
    ghost use Rattle.line_use.specs.Right.{IsRight};

    ghost Value = { List Step };

    ghost view = { λ u. u.told.steps };

    ghost invariant = { λ u. IsRight u.told.steps u.uses.items };
}

impl LineUse {
    /// That of no steps.
    pub fn new(alloc: Global) -> Self
        ensures { result ≡ [] }
    {
        LineUse {
            alloc,
            told: Told::new(),
            uses: Vec::new(alloc),
        }
    }

    /// The bytes of a line that a core read: bit i for byte i.
    pub fn read(&self, core: u16, line: u64) -> u64
        ensures { HasBits result (is_read self.now core line) }
    {
        value_at(&self.uses, UNUSED, core, line).read
    }

    /// Those that it wrote, or may have written: a store-conditional that failed is among these.
    pub fn written(&self, core: u16, line: u64) -> u64
        ensures { HasBits result (is_written self.now core line) }
    {
        value_at(&self.uses, UNUSED, core, line).written
    }
}

impl Tracer for LineUse {
    ghost steps = { λ steps. steps };

    ghost fixed = { λ _. tt };

    #[inline(always)]
    fn executed(&mut self, core: u16, pc: u64) -> Result<(), NoMemory> {
        self.told = self.told.then_executed(&core, &pc);
        Ok(())
    }

    #[inline(always)]
    fn executed_all(&mut self, core: u16, pc: u64, count: u64) -> Result<(), NoMemory> {
        self.told = self.told.then_executed_all(&core, &pc, &count);
        Ok(())
    }

    #[inline(always)]
    fn accessed(&mut self, pc: u64, entry: &Entry, leaving: Leaving) -> Result<(), NoMemory> {
        add_use(self.alloc, &mut self.uses, entry.core, &entry.request)?;
        self.told = self.told.then_accessed(&pc, entry, &leaving);
        Ok(())
    }

    fn ended(
        &mut self,
        entries: &Entries,
        graph: &Graph,
        fired: &FiredList,
        delays: &[u64],
    ) -> Result<(), NoMemory> {
        self.told = self.told.then_ended(entries, graph, fired, delays);
        Ok(())
    }
}
