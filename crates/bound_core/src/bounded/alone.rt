//! What a core does by itself in an interval, one step at a time.
ghost use Rattle.std.specs.Prelude.{◌≡◌, ◌+◌, ◌<◌, ◌≤◌, ◌^◌, max, false, None, IfNone, IfSome, IsTrue};
ghost use Rattle.rv_core.specs.Executions.{LeadsTo, at};
ghost use Rattle.rv_core.specs.Step.{is_free};
ghost use Rattle.reference.specs.Ahead.{ahead};
ghost use Rattle.reference.specs.IntervalBounds.{latest_clock, most_accesses, steps_left};
ghost use Rattle.reference.specs.TimedCore.{after_instruction, goes_on_alone};

use super::BoundCore;
use super::local::is_counted;
use crate::paced::executes;
use rv_core::Program;
use zs_num::Cycle;

impl BoundCore {
    /// The next of its local instructions in the interval that ends at cycle `end`, up to its first
    /// access if it has one, or the fetch that it asks for. Some: how many instructions that counted,
    /// which is 0 for a fetch and for an instruction that halts the core by a fault, and 1 for any
    /// other. None: the core goes on by itself no more. It waits for an access, has halted or came to
    /// the interval's end, and nothing changes.
    pub fn step_alone<P: Program>(&mut self, program: &P, end: Cycle) -> Option<u64>
        requires { max self.old.timed.clock end ≤ 2 ^ 61 }
        ensures goes_on { IfSome result (λ counted. IsTrue (goes_on_alone end self.old.timed)) }
        ensures value { IfSome result (λ counted. self.new.timed ≡ after_instruction (P.image program.now) self.old.timed) }
        ensures counted { IfSome result (λ counted. self.new.timed.instructions ≡ self.old.timed.instructions + counted) }
        ensures stops { IfNone result (goes_on_alone end self.old.timed ≡ false) }
        ensures none { IfNone result (self.new ≡ self.old) }
        ensures few { IfSome result (λ counted. counted ≤ 1) }
        ensures nearer { IfSome result (λ counted. steps_left end self.new.timed < steps_left end self.old.timed) }
        ensures begun { self.old.timed.clock ≤ self.new.timed.clock }
        ensures latest { latest_clock end self.new.timed ≤ latest_clock end self.old.timed }
        ensures no_more { most_accesses end self.new.timed ≤ most_accesses end self.old.timed }
        ensures number { self.new.number ≡ self.old.number }
        ensures memory { self.new.timed.core.memory ≡ self.old.timed.core.memory }
        ensures fetching { self.new.timed.core.fetching ≡ self.old.timed.core.fetching }
        ensures spare { self.new.spare ≡ self.old.spare }
    {
        self.keeps_sound();
        if !self.goes_on(end) {
            return None;
        }
        let before = self.instructions();
        self.step_any(program);
        let counted = self.instructions() - before;
        Some(counted)
    }

    /// The same, with a pipeline or without one.
    #[inline(always)]
    fn step_any<P: Program>(&mut self, program: &P)
        requires free { IsTrue (is_free self.old.timed.core) }
        requires clock { self.old.timed.clock ≤ 2 ^ 61 }
        ensures value { self.new.timed ≡ after_instruction (P.image program.now) self.old.timed }
        ensures number { self.new.number ≡ self.old.number }
        ensures memory { self.new.timed.core.memory ≡ self.old.timed.core.memory }
        ensures fetching { self.new.timed.core.fetching ≡ self.old.timed.core.fetching }
        ensures spare { self.new.spare ≡ self.old.spare }
    {
        if self.pace.is_some() {
            self.step_paced(program);
        } else {
            self.step_unpaced(program);
        }
    }

    /// The next step of a core without a pipeline: it asks for its next instruction, or executes it,
    /// and counts it, which costs a cycle.
    #[inline(always)]
    #[tactic(auto, unfolding(reference::specs::TimedCore::after_instruction))]
    fn step_unpaced<P: Program>(&mut self, program: &P)
        requires free { IsTrue (is_free self.old.timed.core) }
        requires clock { self.old.timed.clock ≤ 2 ^ 61 }
        requires pace { self.old.timed.pace ≡ None }
        ensures value { self.new.timed ≡ after_instruction (P.image program.now) self.old.timed }
        ensures number { self.new.number ≡ self.old.number }
        ensures memory { self.new.timed.core.memory ≡ self.old.timed.core.memory }
        ensures fetching { self.new.timed.core.fetching ≡ self.old.timed.core.fetching }
        ensures spare { self.new.spare ≡ self.old.spare }
    {
        if executes(&mut self.core, program) && is_counted(self.core.halted()) {
            self.clock += 1;
            self.instructions += 1;
        }
    }

    /// Executes local instructions that change registers and pc alone, as far as the program has them
    /// at hand: `most` at most, and no more than there are cycles before the interval's end. The answer
    /// is how many: none where the core fetches its instructions or has a pipeline.
    pub fn run_plain<P: Program>(&mut self, program: &P, end: Cycle, most: u64) -> u64
        requires { max self.old.timed.clock end ≤ 2 ^ 61 }
        ensures few { result ≤ most }
        ensures early { self.old.timed.clock + result ≤ max self.old.timed.clock end }
        ensures ran { LeadsTo None result (P.image program.now) self.old.timed.core.registers self.old.timed.core.pc self.new.timed.core.registers self.new.timed.core.pc }
        ensures value { self.new.timed ≡ ahead result (record self.old.timed { core = at self.old.timed.core self.new.timed.core.registers self.new.timed.core.pc }) }
        ensures free { 0 < result → IsTrue (is_free self.old.timed.core) }
        ensures unfetched { 0 < result → self.old.timed.core.is_fetched ≡ false }
        ensures fetching { 0 < result → self.old.timed.core.fetching ≡ false }
        ensures pace { 0 < result → self.old.timed.pace ≡ None }
        ensures number { self.new.number ≡ self.old.number }
        ensures spare { self.new.spare ≡ self.old.spare }
    {
        if self.pace.is_some() || self.core.is_fetching() || !self.goes_on(end) {
            return 0;
        }
        let cycles = end.saturating_sub(self.clock);
        let count = self.core.run_blocks(program, most.min(cycles)).count;
        self.clock += count;
        self.instructions += count;
        count
    }
}
