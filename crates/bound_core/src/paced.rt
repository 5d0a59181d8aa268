//! An instruction of a core that may have a pipeline.
ghost use Rattle.std.specs.Prelude.{◌≡◌, ◌≤◌, ◌^◌, false, not, IfOk, IfSome, IsTrue, option_map};
ghost use Rattle.machine_desc.specs.Machine.{IsPipe};
ghost use Rattle.pipe_core.specs.Pace.{first_pace};
ghost use Rattle.pipe_core.specs.PaceLaws.{GoesOnFrom};
ghost use Rattle.rv_core.specs.Asked.{stepped};
ghost use Rattle.rv_core.specs.Decoded.{HasRegisters};
ghost use Rattle.rv_core.specs.Step.{is_free, needs_fetch};
ghost use Rattle.reference.specs.TimedCore.{paced, takes};

use crate::loops::Paced;
use machine_desc::Pipe;
use pipe_core::Pace;
use rv_alu::{is_branch, taken};
use rv_core::{Core, Fetched, Program, Stepped};
use std::alloc::Global;
use zs_num::{Cycle, NoMemory};

/// The pace of a core at the start, or none where it has no pipeline.
pub(crate) fn first_pace(alloc: Global, pipe: &Option<Pipe>) -> Result<Option<Pace>, NoMemory>
    requires { IfSome pipe.now IsPipe }
    ensures pace { IfOk result (λ pace. pace ≡ option_map first_pace pipe.now) }
    ensures soon { IfOk result (λ pace. IfSome pace (GoesOnFrom 0)) }
{
    match pipe {
        Some(pipe) => Ok(Some(Pace::new(alloc, pipe)?)),
        None => Ok(None),
    }
}

/// Whether a core takes the branch that stands at its pc, where the program has `upcoming`. Of what
/// is no branch the answer is false.
pub(crate) fn takes(core: &Core, upcoming: Fetched) -> bool
    requires { HasRegisters upcoming }
    ensures { result ≡ takes core.now upcoming }
{
    match upcoming {
        Fetched::Instruction(inst) => {
            is_branch(inst.name) && taken(inst.name, core.reg(inst.rs1), core.reg(inst.rs2))
        }
        Fetched::NoInstruction { .. } | Fetched::Outside => false,
    }
}

/// Executes the next instruction of a core, up to its first access if it has one; or asks for its
/// fetch, where it has to be fetched, and answers false.
pub(crate) fn executes<P: Program>(core: &mut Core, program: &P) -> bool
    requires free { IsTrue (is_free core.old) }
    ensures value { core.new ≡ stepped (P.image program.now) core.old }
    ensures executes { result ≡ not (needs_fetch (P.image program.now) core.old) }
    ensures unfetched { core.new.is_fetched ≡ false }
    ensures memory { core.new.memory ≡ core.old.memory }
    ensures fetching { core.new.fetching ≡ core.old.fetching }
{
    if core.is_fetching() {
        return match core.step_fetching(program) {
            Stepped::Executed { .. } => true,
            Stepped::Fetches => false,
        };
    }
    core.step::<P, Paced>(program);
    true
}

/// The clock behind an instruction that is counted, in cycles, where the program had `upcoming` at
/// `pc` and the core's clock was `clock`; and the pace goes on from there. Without a pipeline it
/// costs a cycle. `taken` is what `takes` answered.
pub(crate) fn behind(
    pace: &mut Option<Pace>,
    upcoming: Fetched,
    pc: u64,
    taken: bool,
    clock: Cycle,
) -> Cycle
    requires registers { HasRegisters upcoming }
    requires soon { IfSome pace.old (GoesOnFrom clock) }
    requires clock { clock ≤ 2 ^ 61 }
    ensures clock { result ≡ (paced pace.old 1 upcoming pc taken clock).clock }
    ensures pace { pace.new ≡ (paced pace.old 1 upcoming pc taken clock).pace }
{
    if let Some(pace) = pace {
        if let Fetched::Instruction(inst) = upcoming {
            return pace.issue(inst, pc, taken, clock);
        }
    }
    clock + 1
}
