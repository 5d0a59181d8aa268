//! The instructions that transfer control: jumps and branches.
ghost use Rattle.std.specs.Prelude.{◌≡◌, ◌<◌, IsTrue};
ghost use Rattle.rv_alu.specs.Computing.{is_branch};
ghost use Rattle.rv_core.specs.Effect.{address, branches, even, jumps, relative};
ghost use Rattle.rv_core.specs.Step.{is_free};
ghost use Rattle.rv_core.specs.Asked.{is_idle};

use crate::{Core, Why};
use rv_alu::taken;
use rv_decode::{Inst, Name};

impl Core {
    /// JAL.
    #[inline(always)]
    pub(crate) fn jump(&mut self, inst: &Inst) -> bool
        requires idle { IsTrue (is_idle self.old) }
        requires rd { inst.now.rd < 32 }
        ensures value { self.new ≡ jumps inst.now.rd (relative inst.now self.old) self.old }
        ensures free { result ≡ is_free self.new }
    {
        self.jump_to(inst.rd, self.pc().wrapping_add(inst.imm.cast_unsigned()))
    }

    /// JALR, which clears the lowest bit of its target.
    #[inline(always)]
    pub(crate) fn jump_by_register(&mut self, inst: &Inst) -> bool
        requires idle { IsTrue (is_idle self.old) }
        requires rd { inst.now.rd < 32 }
        requires rs1 { inst.now.rs1 < 32 }
        ensures value { self.new ≡ jumps inst.now.rd (even (address inst.now self.old)) self.old }
        ensures free { result ≡ is_free self.new }
    {
        let target = self.reg(inst.rs1).wrapping_add(inst.imm.cast_unsigned());
        self.jump_to(inst.rd, target - target % 2)
    }

    /// The branch of this name. Where it is not taken, its target is not looked at.
    #[inline(always)]
    #[tactic(auto, unfolding(crate::specs::Effect::branches))]
    pub(crate) fn branch(&mut self, name: Name, inst: &Inst) -> bool
        requires name { IsTrue (is_branch name) }
        requires idle { IsTrue (is_idle self.old) }
        requires rd { inst.now.rd < 32 }
        requires rs1 { inst.now.rs1 < 32 }
        requires rs2 { inst.now.rs2 < 32 }
        ensures value { self.new ≡ branches name inst.now self.old }
        ensures free { result ≡ is_free self.new }
    {
        if taken(name, self.reg(inst.rs1), self.reg(inst.rs2)) {
            self.jump_to(0, self.pc().wrapping_add(inst.imm.cast_unsigned()))
        } else {
            self.write_register(0, 0)
        }
    }

    /// Jumps, and writes the address of the next instruction to a register. Where the target is not
    /// a multiple of 4 the core halts.
    #[inline(always)]
    #[tactic(auto, unfolding(crate::specs::Effect::jumps))]
    fn jump_to(&mut self, rd: u8, target: u64) -> bool
        requires idle { IsTrue (is_idle self.old) }
        requires rd { rd < 32 }
        ensures value { self.new ≡ jumps rd target self.old }
        ensures free { result ≡ is_free self.new }
    {
        if target % 4 == 0 {
            self.go_to(rd, self.pc().wrapping_add(4), target);
            true
        } else {
            self.stop(Why::Misaligned { target })
        }
    }
}
