//! What each instruction does, by its name.
ghost use Rattle.std.specs.Prelude.{◌≡◌, ◌<◌, IsTrue};
ghost use Rattle.rv_core.specs.Effect.{effect};
ghost use Rattle.rv_core.specs.Step.{is_free};
ghost use Rattle.rv_core.specs.Asked.{is_idle};

use crate::{Core, Why};
use rv_decode::{Inst, Name};
use zs_num::AmoOp;

impl Core {
    /// Executes an instruction, up to its first access if it has one. Each name has an arm of its
    /// own, so that what depends on the name is settled there. The type `T` means nothing: each
    /// caller takes another, and the compiler then sets all arms into the loop of the one that has
    /// a loop.
    #[inline(always)]
    #[tactic(auto, unfolding(crate::specs::Effect::effect))]
    pub(crate) fn execute<T>(&mut self, inst: &Inst) -> bool
        requires idle { IsTrue (is_idle self.old) }
        requires rd { inst.now.rd < 32 }
        requires rs1 { inst.now.rs1 < 32 }
        requires rs2 { inst.now.rs2 < 32 }
        ensures value { self.new ≡ effect inst.now.name inst.now self.old }
        ensures free { result ≡ is_free self.new }
    {
        match inst.name {
            Name::Lui => self.write_register(inst.rd, inst.imm.cast_unsigned()),
            Name::Auipc => {
                let target = self.pc().wrapping_add(inst.imm.cast_unsigned());
                self.write_register(inst.rd, target)
            }
            Name::Jal => self.jump(inst),
            Name::Jalr => self.jump_by_register(inst),
            Name::Beq => self.branch(Name::Beq, inst),
            Name::Bne => self.branch(Name::Bne, inst),
            Name::Blt => self.branch(Name::Blt, inst),
            Name::Bge => self.branch(Name::Bge, inst),
            Name::Bltu => self.branch(Name::Bltu, inst),
            Name::Bgeu => self.branch(Name::Bgeu, inst),
            Name::Lb => self.load(1, true, inst),
            Name::Lh => self.load(2, true, inst),
            Name::Lw => self.load(4, true, inst),
            Name::Ld => self.load(8, true, inst),
            Name::Lbu => self.load(1, false, inst),
            Name::Lhu => self.load(2, false, inst),
            Name::Lwu => self.load(4, false, inst),
            Name::Sb => self.store(1, inst),
            Name::Sh => self.store(2, inst),
            Name::Sw => self.store(4, inst),
            Name::Sd => self.store(8, inst),
            Name::Addi => self.compute_with_immediate(Name::Addi, inst),
            Name::Slti => self.compute_with_immediate(Name::Slti, inst),
            Name::Sltiu => self.compute_with_immediate(Name::Sltiu, inst),
            Name::Xori => self.compute_with_immediate(Name::Xori, inst),
            Name::Ori => self.compute_with_immediate(Name::Ori, inst),
            Name::Andi => self.compute_with_immediate(Name::Andi, inst),
            Name::Slli => self.compute_with_immediate(Name::Slli, inst),
            Name::Srli => self.compute_with_immediate(Name::Srli, inst),
            Name::Srai => self.compute_with_immediate(Name::Srai, inst),
            Name::Addiw => self.compute_with_immediate(Name::Addiw, inst),
            Name::Slliw => self.compute_with_immediate(Name::Slliw, inst),
            Name::Srliw => self.compute_with_immediate(Name::Srliw, inst),
            Name::Sraiw => self.compute_with_immediate(Name::Sraiw, inst),
            Name::Fence => self.write_register(0, 0),
            Name::Ecall => self.call(),
            Name::Ebreak => self.stop(Why::Break),
            Name::Add => self.compute(Name::Add, inst),
            Name::Sub => self.compute(Name::Sub, inst),
            Name::Sll => self.compute(Name::Sll, inst),
            Name::Slt => self.compute(Name::Slt, inst),
            Name::Sltu => self.compute(Name::Sltu, inst),
            Name::Xor => self.compute(Name::Xor, inst),
            Name::Srl => self.compute(Name::Srl, inst),
            Name::Sra => self.compute(Name::Sra, inst),
            Name::Or => self.compute(Name::Or, inst),
            Name::And => self.compute(Name::And, inst),
            Name::Addw => self.compute(Name::Addw, inst),
            Name::Subw => self.compute(Name::Subw, inst),
            Name::Sllw => self.compute(Name::Sllw, inst),
            Name::Srlw => self.compute(Name::Srlw, inst),
            Name::Sraw => self.compute(Name::Sraw, inst),
            Name::Mul => self.compute(Name::Mul, inst),
            Name::Mulh => self.compute(Name::Mulh, inst),
            Name::Mulhsu => self.compute(Name::Mulhsu, inst),
            Name::Mulhu => self.compute(Name::Mulhu, inst),
            Name::Div => self.compute(Name::Div, inst),
            Name::Divu => self.compute(Name::Divu, inst),
            Name::Rem => self.compute(Name::Rem, inst),
            Name::Remu => self.compute(Name::Remu, inst),
            Name::Mulw => self.compute(Name::Mulw, inst),
            Name::Divw => self.compute(Name::Divw, inst),
            Name::Divuw => self.compute(Name::Divuw, inst),
            Name::Remw => self.compute(Name::Remw, inst),
            Name::Remuw => self.compute(Name::Remuw, inst),
            Name::LrW => self.load_reserved(4, inst),
            Name::ScW => self.store_conditional(4, inst),
            Name::AmoswapW => self.update(AmoOp::Swap, 4, inst),
            Name::AmoaddW => self.update(AmoOp::Add, 4, inst),
            Name::AmoxorW => self.update(AmoOp::Xor, 4, inst),
            Name::AmoandW => self.update(AmoOp::And, 4, inst),
            Name::AmoorW => self.update(AmoOp::Or, 4, inst),
            Name::AmominW => self.update(AmoOp::Min, 4, inst),
            Name::AmomaxW => self.update(AmoOp::Max, 4, inst),
            Name::AmominuW => self.update(AmoOp::Minu, 4, inst),
            Name::AmomaxuW => self.update(AmoOp::Maxu, 4, inst),
            Name::LrD => self.load_reserved(8, inst),
            Name::ScD => self.store_conditional(8, inst),
            Name::AmoswapD => self.update(AmoOp::Swap, 8, inst),
            Name::AmoaddD => self.update(AmoOp::Add, 8, inst),
            Name::AmoxorD => self.update(AmoOp::Xor, 8, inst),
            Name::AmoandD => self.update(AmoOp::And, 8, inst),
            Name::AmoorD => self.update(AmoOp::Or, 8, inst),
            Name::AmominD => self.update(AmoOp::Min, 8, inst),
            Name::AmomaxD => self.update(AmoOp::Max, 8, inst),
            Name::AmominuD => self.update(AmoOp::Minu, 8, inst),
            Name::AmomaxuD => self.update(AmoOp::Maxu, 8, inst),
        }
    }
}
