//! The calls of the environment.
ghost use Rattle.std.specs.Prelude.{◌≡◌, IsTrue};
ghost use Rattle.rv_core.specs.Effect.{calls, writes};
ghost use Rattle.rv_core.specs.Step.{is_free};
ghost use Rattle.rv_core.specs.Asked.{is_idle};

use crate::state::A0;
use crate::{Core, Why};

const A1: u8 = 11;

const A2: u8 = 12;

const A7: u8 = 17;

/// The calls that are known, with the numbers of Linux on RISC-V.
const WRITE: u64 = 64;

const EXIT: u64 = 93;

const EXIT_GROUP: u64 = 94;

/// The files that a write goes to.
const STANDARD_OUTPUT: u64 = 1;

const STANDARD_ERROR: u64 = 2;

/// The bytes that one write call writes at most.
const WRITE_MOST: u64 = 256;

/// The buffer is not in memory: -14.
const EFAULT: u64 = 0u64.wrapping_sub(14);

/// There is no such call: -38.
const ENOSYS: u64 = 0u64.wrapping_sub(38);

impl Core {
    /// A call of the environment by its number in a7.
    #[tactic(auto, unfolding(crate::specs::Effect::calls))]
    pub(crate) fn call(&mut self) -> bool
        requires { IsTrue (is_idle self.old) }
        ensures value { self.new ≡ calls self.old }
        ensures free { result ≡ is_free self.new }
    {
        let first = self.reg(A0);
        match (self.reg(A7), first) {
            (EXIT | EXIT_GROUP, _) => self.stop(Why::Exit(first)),
            (WRITE, STANDARD_OUTPUT | STANDARD_ERROR) => self.write_call(),
            _ => self.write_register(A0, ENOSYS),
        }
    }

    /// The write call: its bytes are loaded one by one.
    #[tactic(auto, unfolding(crate::specs::Effect::writes))]
    fn write_call(&mut self) -> bool
        requires { IsTrue (is_idle self.old) }
        ensures value { self.new ≡ writes self.old }
        ensures free { result ≡ is_free self.new }
    {
        let addr = self.reg(A1);
        let count = self.reg(A2).min(WRITE_MOST);
        if count == 0 {
            self.write_register(A0, 0)
        } else if self.has(addr, count) {
            self.begin_write(addr, count);
            false
        } else {
            self.write_register(A0, EFAULT)
        }
    }
}
