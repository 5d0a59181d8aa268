//! Steps that only contracts see.
ghost use Rattle.std.specs.Prelude.{◌≡◌, ◌++◌, ◌∷◌, [], List};
ghost use Rattle.trace.specs.Trace.{Accessed, Ended, Executed, Step, stretch_steps};
ghost use base.Fml.{ftrue};

use event_graph::{FiredList, Graph};
use shard::Leaving;
use std::marker::Model;
use zs_num::{Entries, Entry};

/// A list of steps that has no bytes: a tracer keeps in it which steps it was told.
#[derive(Drop)]
pub struct Told {
    ghost steps: { List Step },
}

impl Model for Told {
    ghost also_owns = { λ _. ftrue };
}

impl Told {
    /// No step.
    pub fn new() -> Told
        ensures { result.steps ≡ [] }
    {
        Told {}
    }

    /// The steps and an instruction.
    #[inline(always)]
    pub fn then_executed(&self, _core: &u16, _pc: &u64) -> Told
        ensures { result.steps ≡ self.now.steps ++ Executed _core.now _pc.now ∷ [] }
    {
        Told {}
    }

    /// The steps and instructions that follow each other.
    #[inline(always)]
    pub fn then_executed_all(&self, _core: &u16, _pc: &u64, _count: &u64) -> Told
        ensures { result.steps ≡ self.now.steps ++ stretch_steps _core.now _pc.now _count.now }
    {
        Told {}
    }

    /// The steps and an access.
    pub fn then_accessed(&self, _pc: &u64, _entry: &Entry, _leaving: &Leaving) -> Told
        ensures { result.steps ≡ self.now.steps ++ Accessed _pc.now _entry.now _leaving.now ∷ [] }
    {
        Told {}
    }

    /// The steps and the end of an interval.
    pub fn then_ended(
        &self,
        _entries: &Entries,
        _graph: &Graph,
        _fired: &FiredList,
        _delays: &[u64],
    ) -> Told
        ensures { result.steps ≡ self.now.steps ++ Ended (record { entries = _entries.now; events = _graph.now; fired = _fired.now; delays = _delays.now }) ∷ [] }
    {
        Told {}
    }
}
