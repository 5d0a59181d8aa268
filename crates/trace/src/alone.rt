//! What a core does by itself, leg by leg.
ghost use Rattle.std.specs.Prelude.{◌≡◌, ◌+◌, ◌-◌, ◌*◌, ◌<◌, ◌≤◌, ◌^◌, ◌++◌, ℕ, [], All, false, true, if◌then◌else◌, IfOk, OnOk};
ghost use Rattle.bound_core.specs.IntervalBounds.{latest_clock, most_accesses, steps_left};
ghost use Rattle.bound_core.specs.TimedCore.{after_instruction, goes_on_alone, ran_to};
ghost use Rattle.trace.specs.EachCore.{untold_steps};
ghost use Rattle.trace.specs.Trace.{executed_by, steps_alone, stretch_steps};
ghost use Rattle.trace.specs.Ways.{FitsLeg};

use bound_core::BoundCore;
use rv_blocks::DecodedProgram;
use rv_core::Leg;
use zs_num::{Cycle, NoMemory};

/// Has a core go on by itself, up to an access, a halt or the end of the interval. The legs of its
/// way, which tell each instruction that it executes, come behind those that are there.
pub fn run_alone(
    program: &DecodedProgram<'_>,
    end: Cycle,
    core: &mut BoundCore,
    way: &mut Vec<Leg>,
) -> Result<(), NoMemory>
    requires end { end ≤ 10 * 2 ^ 30 }
    requires clock { latest_clock end core.old.timed ≤ 2 ^ 57 }
    ensures ran { OnOk result (core.new.timed ≡ ran_to program.now end core.old.timed) }
    ensures tells { OnOk result ((number : ℕ) → untold_steps number way.new.items ≡ untold_steps number way.old.items ++ steps_alone program.now end number core.old.timed) }
    ensures fits { All FitsLeg way.old.items → All FitsLeg way.new.items }
    ensures latest { latest_clock end core.new.timed ≤ latest_clock end core.old.timed }
    ensures no_more { most_accesses end core.new.timed ≤ most_accesses end core.old.timed }
    ensures number { core.new.number ≡ core.old.number }
    ensures memory { core.new.timed.core.memory ≡ core.old.timed.core.memory }
    ensures fetching { core.new.timed.core.fetching ≡ core.old.timed.core.fetching }
    ensures spare { core.new.spare ≡ core.old.spare }
{
    let mut goes_on = true;
    while goes_on {
        let more = run_more(program, end, core, way)?;
        goes_on = more && core.core().is_free();
    }
    Ok(())
}

/// Instructions that follow each other, or else the next one. Answers whether the core went on.
#[inline(always)]
fn run_more(
    program: &DecodedProgram<'_>,
    end: Cycle,
    core: &mut BoundCore,
    way: &mut Vec<Leg>,
) -> Result<bool, NoMemory>
    requires end { end ≤ 10 * 2 ^ 30 }
    requires clock { latest_clock end core.old.timed ≤ 2 ^ 57 }
    ensures same_end { OnOk result (ran_to program.now end core.new.timed ≡ ran_to program.now end core.old.timed) }
    ensures tells { OnOk result ((number : ℕ) → untold_steps number way.new.items ++ steps_alone program.now end number core.new.timed ≡ untold_steps number way.old.items ++ steps_alone program.now end number core.old.timed) }
    ensures stopped { IfOk result (λ on. on ≡ false → goes_on_alone end core.new.timed ≡ false) }
    ensures nearer { IfOk result (λ on. on ≡ true → steps_left end core.new.timed < steps_left end core.old.timed) }
    ensures stays { IfOk result (λ on. on ≡ false → core.new ≡ core.old) }
    ensures fits { All FitsLeg way.old.items → All FitsLeg way.new.items }
    ensures latest { latest_clock end core.new.timed ≤ latest_clock end core.old.timed }
    ensures no_more { most_accesses end core.new.timed ≤ most_accesses end core.old.timed }
    ensures number { core.new.number ≡ core.old.number }
    ensures memory { core.new.timed.core.memory ≡ core.old.timed.core.memory }
    ensures fetching { core.new.timed.core.fetching ≡ core.old.timed.core.fetching }
    ensures spare { core.new.spare ≡ core.old.spare }
{
    if run_stretch(program, end, core, way)? {
        return Ok(true);
    }
    let goes_on = run_step(program, end, core, way)?;
    Ok(goes_on)
}

/// Instructions that follow each other and change registers alone, as far as the program knows
/// them: they are one leg. Answers whether there were any.
#[inline(always)]
fn run_stretch(
    program: &DecodedProgram<'_>,
    end: Cycle,
    core: &mut BoundCore,
    way: &mut Vec<Leg>,
) -> Result<bool, NoMemory>
    requires end { end ≤ 10 * 2 ^ 30 }
    requires clock { latest_clock end core.old.timed ≤ 2 ^ 57 }
    ensures same_end { OnOk result (ran_to program.now end core.new.timed ≡ ran_to program.now end core.old.timed) }
    ensures tells { OnOk result ((number : ℕ) → untold_steps number way.new.items ++ steps_alone program.now end number core.new.timed ≡ untold_steps number way.old.items ++ steps_alone program.now end number core.old.timed) }
    ensures nearer { IfOk result (λ some. some ≡ true → steps_left end core.new.timed < steps_left end core.old.timed) }
    ensures stays { IfOk result (λ some. some ≡ false → core.new ≡ core.old) }
    ensures fits { All FitsLeg way.old.items → All FitsLeg way.new.items }
    ensures latest { latest_clock end core.new.timed ≤ latest_clock end core.old.timed }
    ensures no_more { most_accesses end core.new.timed ≤ most_accesses end core.old.timed }
    ensures number { core.new.number ≡ core.old.number }
    ensures memory { core.new.timed.core.memory ≡ core.old.timed.core.memory }
    ensures fetching { core.new.timed.core.fetching ≡ core.old.timed.core.fetching }
    ensures spare { core.new.spare ≡ core.old.spare }
{
    let pc = core.core().pc();
    let known = program.stretch(pc);
    let count = core.run_plain(program, end, known);
    if count == 0 {
        return Ok(false);
    }
    add_leg(way, pc, count)?;
    Ok(true)
}

/// The next instruction of a core that goes on by itself, a leg where it was counted. Answers
/// whether the core went on.
fn run_step(
    program: &DecodedProgram<'_>,
    end: Cycle,
    core: &mut BoundCore,
    way: &mut Vec<Leg>,
) -> Result<bool, NoMemory>
    requires end { end ≤ 10 * 2 ^ 30 }
    requires clock { latest_clock end core.old.timed ≤ 2 ^ 57 }
    ensures goes_on { IfOk result (λ on. goes_on_alone end core.old.timed ≡ on) }
    ensures next { IfOk result (λ on. on ≡ true → core.new.timed ≡ after_instruction program.now core.old.timed) }
    ensures stays { IfOk result (λ on. on ≡ false → core.new ≡ core.old) }
    ensures tells { IfOk result (λ on. (number : ℕ) → untold_steps number way.new.items ≡ untold_steps number way.old.items ++ (if on then executed_by number core.old.timed core.new.timed else [])) }
    ensures fits { All FitsLeg way.old.items → All FitsLeg way.new.items }
    ensures nearer { IfOk result (λ on. on ≡ true → steps_left end core.new.timed < steps_left end core.old.timed) }
    ensures latest { latest_clock end core.new.timed ≤ latest_clock end core.old.timed }
    ensures no_more { most_accesses end core.new.timed ≤ most_accesses end core.old.timed }
    ensures number { core.new.number ≡ core.old.number }
    ensures memory { core.new.timed.core.memory ≡ core.old.timed.core.memory }
    ensures fetching { core.new.timed.core.fetching ≡ core.old.timed.core.fetching }
    ensures spare { core.new.spare ≡ core.old.spare }
{
    let pc = core.core().pc();
    match core.step_alone(program, end) {
        Some(counted) => {
            if counted == 1 {
                add_leg(way, pc, 1)?;
            }
            Ok(true)
        }
        None => Ok(false),
    }
}

/// Adds the leg of so many instructions that follow each other, the first of them at `pc`.
fn add_leg(way: &mut Vec<Leg>, pc: u64, count: u64) -> Result<(), NoMemory>
    requires some { 0 < count }
    requires fits { pc + 4 * (count - 1) < 2 ^ 64 }
    ensures tells { OnOk result ((number : ℕ) → untold_steps number way.new.items ≡ untold_steps number way.old.items ++ stretch_steps number pc count) }
    ensures fits { All FitsLeg way.old.items → All FitsLeg way.new.items }
{
    way.push(Leg {
        pc,
        count,
        made: false,
    })?;
    Ok(())
}
