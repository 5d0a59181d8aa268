//! The instructions that compute: of registers, of immediates, and of the "M" extension.
ghost use Rattle.std.specs.Prelude.{◌≡◌, ◌<◌, IsTrue};
ghost use Rattle.rv_alu.specs.Computing.{is_arithmetic};
ghost use Rattle.rv_core.specs.Effect.{computes, computes_immediate};
ghost use Rattle.rv_core.specs.Step.{is_free};
ghost use Rattle.rv_core.specs.Asked.{is_idle};

use crate::Core;
use rv_alu::alu;
use rv_decode::{Inst, Name};

impl Core {
    /// The operation of this name, of rs1 and the immediate.
    #[inline(always)]
    pub(crate) fn compute_with_immediate(&mut self, name: Name, inst: &Inst) -> bool
        requires name { IsTrue (is_arithmetic name) }
        requires idle { IsTrue (is_idle self.old) }
        requires rd { inst.now.rd < 32 }
        requires rs1 { inst.now.rs1 < 32 }
        requires rs2 { inst.now.rs2 < 32 }
        ensures value { self.new ≡ computes_immediate name inst.now self.old }
        ensures free { result ≡ is_free self.new }
    {
        let result = alu(name, self.reg(inst.rs1), inst.imm.cast_unsigned());
        self.write_register(inst.rd, result)
    }

    /// The operation of this name, of rs1 and rs2.
    #[inline(always)]
    pub(crate) fn compute(&mut self, name: Name, inst: &Inst) -> bool
        requires name { IsTrue (is_arithmetic name) }
        requires idle { IsTrue (is_idle self.old) }
        requires rd { inst.now.rd < 32 }
        requires rs1 { inst.now.rs1 < 32 }
        requires rs2 { inst.now.rs2 < 32 }
        ensures value { self.new ≡ computes name inst.now self.old }
        ensures free { result ≡ is_free self.new }
    {
        let result = alu(name, self.reg(inst.rs1), self.reg(inst.rs2));
        self.write_register(inst.rd, result)
    }
}
