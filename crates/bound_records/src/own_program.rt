//! A program as a type of its own.
ghost use Rattle.std.specs.Prelude.{◌≡◌};

use rv_core::{Came, Fetched, MemoryRange, Port, Program, Ran, Stint};
use rv_decode::Inst;

/// A program as a type of its own. What is compiled for it is compiled for one loop over
/// instructions, so that the compiler sets the arms of all instructions into that loop; where
/// several loops share them, it keeps them apart, and each loop is slower.
#[derive(Drop)]
pub struct OwnProgram<'a, P: Program> {
    pub program: &'a P,
}

impl<'a, P: Program> Program for OwnProgram<'a, P> {
    ghost image = { λ p. P.image p.program.now };

    #[inline(always)]
    fn decoded_at(&self, near: usize, pc: u64) -> Option<&Inst> {
        self.program.decoded_at(near, pc)
    }

    #[inline(always)]
    fn fetch(&self, near: &mut usize, pc: u64) -> Fetched {
        self.program.fetch(near, pc)
    }

    #[inline(always)]
    fn run_blocks(
        &self,
        registers: &mut [u64; 32],
        pc: u64,
        most: u64,
        memory: &MemoryRange,
    ) -> Ran {
        self.program.run_blocks(registers, pc, most, memory)
    }

    #[inline(always)]
    fn run_in_line(
        &self,
        registers: &mut [u64; 32],
        pc: u64,
        most: u64,
        memory: &MemoryRange,
        line: u64,
    ) -> Ran {
        self.program.run_in_line(registers, pc, most, memory, line)
    }

    #[inline(always)]
    fn run_hits<Q: Port>(
        &self,
        registers: &mut [u64; 32],
        pc: u64,
        line: Option<u64>,
        memory: &MemoryRange,
        stint: &Stint,
        port: &mut Q,
    ) -> Came {
        self.program
            .run_hits(registers, pc, line, memory, stint, port)
    }
}
