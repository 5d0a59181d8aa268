//! Two tracers that are told the same.
ghost use Rattle.std.specs.Prelude.{◌≡◌, true};

use event_graph::{FiredList, Graph};
use shard::Leaving;
use std::marker::Model;
use trace::Tracer;
use zs_num::{Entries, Entry, NoMemory};

/// Two tracers, of which each is told every step, so that one replay serves both. Where memory ran
/// out for one of them they are whole no more, and only of the first is it known what it was told.
#[derive(Drop)]
pub struct Both<A: Tracer, B: Tracer> {
    first: A,
    second: B,
    is_whole: bool,
}

impl<A: Tracer, B: Tracer> Model for Both<A, B> {
    ghost use Rattle.std.specs.Prelude.{◌≡◌, true};
    ghost use Rattle.tracers.specs.TwoTold.{TwoTold};

    ghost Value = { TwoTold A B };

    ghost view = { λ b. record { first = b.first; second = b.second; is_whole = b.is_whole } };

    ghost invariant = { λ b. b.is_whole ≡ true → A.steps b.first ≡ B.steps b.second };
}

impl<A: Tracer, B: Tracer> Both<A, B> {
    /// Both of them, of which neither was told more than the other.
    pub fn new(first: A, second: B) -> Self
        requires { A.steps first ≡ B.steps second }
        ensures { result ≡ record { first = first; second = second; is_whole = true } }
    {
        Both {
            first,
            second,
            is_whole: true,
        }
    }

    /// Whether both were told the same.
    pub fn is_whole(&self) -> bool
        ensures value { result ≡ self.now.is_whole }
        ensures same { result ≡ true → A.steps self.now.first ≡ B.steps self.now.second }
    {
        self.is_whole
    }

    /// The first one.
    pub fn first(&self) -> &A
        ensures { result.now ≡ self.now.first }
    {
        &self.first
    }

    /// The second one.
    pub fn second(&self) -> &B
        ensures { result.now ≡ self.now.second }
    {
        &self.second
    }
}

impl<A: Tracer, B: Tracer> Tracer for Both<A, B> {
    ghost steps = { λ b. A.steps b.first };

    ghost Fixed = { A.Fixed × B.Fixed };

    ghost fixed = { λ b. (A.fixed b.first, B.fixed b.second) };

    #[inline(always)]
    fn executed(&mut self, core: u16, pc: u64) -> Result<(), NoMemory> {
        if let Err(no_memory) = self.first.executed(core, pc) {
            self.is_whole = false;
            return Err(no_memory);
        }
        if let Err(no_memory) = self.second.executed(core, pc) {
            self.is_whole = false;
            return Err(no_memory);
        }
        Ok(())
    }

    #[inline(always)]
    fn executed_all(&mut self, core: u16, pc: u64, count: u64) -> Result<(), NoMemory> {
        if let Err(no_memory) = self.first.executed_all(core, pc, count) {
            self.is_whole = false;
            return Err(no_memory);
        }
        if let Err(no_memory) = self.second.executed_all(core, pc, count) {
            self.is_whole = false;
            return Err(no_memory);
        }
        Ok(())
    }

    #[inline(always)]
    fn accessed(&mut self, pc: u64, entry: &Entry, leaving: Leaving) -> Result<(), NoMemory> {
        if let Err(no_memory) = self.first.accessed(pc, entry, leaving) {
            self.is_whole = false;
            return Err(no_memory);
        }
        if let Err(no_memory) = self.second.accessed(pc, entry, leaving) {
            self.is_whole = false;
            return Err(no_memory);
        }
        Ok(())
    }

    fn ended(
        &mut self,
        entries: &Entries,
        graph: &Graph,
        fired: &FiredList,
        delays: &[u64],
    ) -> Result<(), NoMemory> {
        if let Err(no_memory) = self.first.ended(entries, graph, fired, delays) {
            self.is_whole = false;
            return Err(no_memory);
        }
        if let Err(no_memory) = self.second.ended(entries, graph, fired, delays) {
            self.is_whole = false;
            return Err(no_memory);
        }
        Ok(())
    }
}
