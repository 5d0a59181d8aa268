//! The pace of a core, kept instruction by instruction.
ghost use Rattle.std.specs.Prelude.{◌≡◌, ◌+◌, ◌≤◌, ◌<◌, ◌^◌, slice_index, IfOk};
ghost use Rattle.machine_desc.specs.Machine.{IsPipe};
ghost use Rattle.pipe_core.specs.Pace.{counter_at, counters_after, counters_behind, first_pace, is_right, issued, issues_at, latency_of, penalty_of, ready_after, waits_until};

use crate::latency::{latency, latest, writes_rd};
use crate::prediction::{counter_after, is_right};
use machine_desc::Pipe;
use rv_decode::{Inst, Name};
use std::alloc::Global;
use std::marker::Model;
use zs_num::{Cycle, NoMemory};

/// What a pipelined core keeps: the cycle from which on each register is ready, and the counters
/// that predict its branches. Contracts see it as a `PaceState`.
#[derive(Drop)]
pub struct Pace {
    pipe: Pipe,
    ready: [u64; 32],
    counters: Vec<u8>,
}

impl Model for Pace {
    ghost use Rattle.pipe_core.specs.Pace.{PaceState};
    ghost use Rattle.pipe_core.specs.PaceLaws.{IsPace};

    ghost Value = { PaceState };

    ghost view = { λ p. record { pipe = p.pipe; ready = p.ready; counters = p.counters.items } };

    ghost invariant = { λ p. IsPace (record { pipe = p.pipe; ready = p.ready; counters = p.counters.items }) };
}

impl Pace {
    /// The pace of a core at the start: each register is ready from cycle 0 on, and each counter
    /// is 1.
    pub fn new(alloc: Global, pipe: &Pipe) -> Result<Self, NoMemory>
        requires { IsPipe pipe.now }
        ensures { IfOk result (λ pace. pace ≡ first_pace pipe.now) }
    {
        Ok(Pace {
            pipe: *pipe,
            ready: [0; 32],
            counters: vec![in alloc; 1; pipe.entries as usize]?,
        })
    }

    /// The clock behind an instruction that is counted, in cycles, and the pace goes on from there.
    /// `pc` is its address, `clock` the cycle from which on it can issue, and `taken` says of a
    /// branch whether it is taken; of others it is not read. Its registers are below 32, as those of
    /// every decoded instruction are, and no sum passes 2^62. An instruction that halts its core by
    /// a fault does not issue.
    pub fn issue(&mut self, i: Inst, pc: u64, taken: bool, clock: Cycle) -> Cycle
        requires registers { (i.rd < 32) × (i.rs1 < 32) × (i.rs2 < 32) }
        requires clock { (issued self.old i pc taken clock).clock ≤ 2 ^ 62 }
        requires ready { issues_at self.old i clock + latency_of self.old.pipe i.name ≤ 2 ^ 62 }
        ensures clock { result ≡ (issued self.old i pc taken clock).clock }
        ensures pace { self.new ≡ (issued self.old i pc taken clock).pace }
    {
        let issue = clock.max(self.waits_until(i));
        let penalty = self.penalty(i.name, pc, taken);
        self.write(i, issue);
        issue + 1 + penalty
    }

    /// A counter, 0 to 3, by its place in the table, which is below `entries`.
    pub fn counter(&self, place: u32) -> u8
        requires { place < self.now.pipe.entries }
        ensures { result ≡ slice_index self.now.counters place }
    {
        self.counters[place as usize]
    }

    /// The cycle from which on a register, 0 to 31, is ready; 0 for x0.
    pub fn ready(&self, register: u8) -> Cycle
        requires { register < 32 }
        ensures value { result ≡ slice_index self.now.ready register }
        ensures zero { register ≡ 0 → result ≡ 0 }
    {
        self.ready[register as usize]
    }

    // The cycle from which on the registers are ready for which an instruction waits.
    #[tactic(auto, unfolding(crate::specs::Pace::waits_until))]
    fn waits_until(&self, i: Inst) -> Cycle
        requires { (i.rd < 32) × (i.rs1 < 32) × (i.rs2 < 32) }
        ensures { result ≡ waits_until i.name self.now i }
    {
        match i.name {
            Name::Fence => 0,
            Name::Ecall => latest(&self.ready),
            _ => self
                .ready(i.rs1)
                .max(self.ready(i.rs2).max(self.ready(i.rd))),
        }
    }

    // What an instruction costs beside its cycle; the counter of a branch moves.
    #[tactic(auto, unfolding(crate::specs::Pace::penalty_of, crate::specs::Pace::counters_after))]
    fn penalty(&mut self, name: Name, pc: u64, taken: bool) -> u64
        ensures value { result ≡ penalty_of name self.old pc taken }
        ensures counters { self.new ≡ record self.old { counters = counters_after name self.old pc taken } }
    {
        match name {
            Name::Jalr => u64::from(self.pipe.penalty),
            Name::Beq | Name::Bne | Name::Blt | Name::Bge | Name::Bltu | Name::Bgeu => {
                if self.predicted(pc, taken) {
                    0
                } else {
                    u64::from(self.pipe.penalty)
                }
            }
            _ => 0,
        }
    }

    // Whether the branch at pc was predicted rightly. Its counter moves behind that.
    fn predicted(&mut self, pc: u64, taken: bool) -> bool
        ensures value { result ≡ is_right taken (counter_at self.old pc) }
        ensures counters { self.new ≡ record self.old { counters = counters_behind self.old pc taken } }
    {
        let place = (pc / 4 % u64::from(self.pipe.entries)) as usize;
        let counter = self.counters[place];
        self.counters[place] = counter_after(taken, counter);
        is_right(taken, counter)
    }

    // The register that an instruction writes is ready its latency after the issue.
    #[tactic(auto, unfolding(crate::specs::Pace::ready_after))]
    fn write(&mut self, i: Inst, issue: Cycle)
        requires register { i.rd < 32 }
        requires ready { issue + latency_of self.old.pipe i.name ≤ 2 ^ 62 }
        ensures { self.new ≡ record self.old { ready = ready_after self.old i issue } }
    {
        if i.rd != 0 && writes_rd(i.name) {
            self.ready[i.rd as usize] = issue + latency(&self.pipe, i.name);
        }
    }
}
