//! The turns of an interval core after core, as they are told.
ghost use Rattle.std.specs.Prelude.{◌≡◌, ◌+◌, ◌*◌, ◌++◌, ◌<◌, ◌≤◌, ◌^◌, ℕ, [], All, false, length, map, min, replicate, true, IfOk, OnOk, Ok};
ghost use Rattle.zs_num.specs.declared.entry.Entry.{Entry};
ghost use Rattle.bound_core.specs.ReferenceMachine.{bound_phase};
ghost use Rattle.bound_core.specs.ShardWorld.{shards_serve};
ghost use Rattle.bound_core.specs.ShardPort.{base_of, l1i_of, room_of, size_of};
ghost use Rattle.bound_core.specs.IntervalBounds.{most_accesses};
ghost use Rattle.bound_core.specs.NumberedCores.{timed_of};
ghost use Rattle.bound_core.specs.Turn.{IsOver};
ghost use Rattle.bound_records.specs.Turns.{time_by_net};
ghost use Rattle.trace.specs.EachCore.{IsCoreAfterCore, IsUnderWay, TakesOwn, TellsOwn, untold_from, untold_steps};
ghost use Rattle.trace.specs.Port.{leaves_shards, phase_of};
ghost use Rattle.trace.specs.Trace.{phase_steps, steps_alone, turn_steps};
ghost use Rattle.trace.specs.Turns.{HaveTaken, IsOnItsWay, TakesAccess, TakesNone, chosen};
ghost use Rattle.trace.specs.Ways.{FitsLeg};

use crate::Tracer;
use crate::alone::run_alone;
use crate::logged_port::LoggedPort;
use crate::telling::{tell_legs, tell_made};
use crate::turns::take_access;
use bound_core::BoundCore;
use noc_mesh::Net;
use rv_blocks::DecodedProgram;
use rv_core::Leg;
use zs_num::{Cycle, NoMemory};

/// Takes all turns of the cores in this interval, those of one core after those of the other, and has
/// each end it. The list of the turns, each the number of its core, comes to `turns`. What a core
/// executes behind its last access is told behind the turns of all cores: until then its legs stand
/// in `untold`, which has a list for each core.
pub fn take_each<T: Tracer>(
    program: &DecodedProgram<'_>,
    net: &Net,
    end: Cycle,
    cores: &mut [BoundCore],
    port: &mut LoggedPort,
    way: &mut Vec<Leg>,
    untold: &mut [Vec<Leg>],
    turns: &mut Vec<u16>,
    tracer: &mut T,
) -> Result<(), NoMemory>
    requires end { end ≤ 10 * 2 ^ 30 }
    requires cores { length cores.old < 2 ^ 16 }
    requires lists { length untold.old ≡ length cores.old }
    requires none { turns.old.items ≡ [] }
    requires begins { (most : ℕ) × HaveTaken (time_by_net net.now) program.now end most (phase_of cores.old port.old) [] cores.old port.old }
    ensures legal { OnOk result (bound_phase shards_serve (time_by_net net.now) program.now end turns.new.items (phase_of cores.old port.old) ≡ Ok (phase_of cores.new port.new)) }
    ensures taken { OnOk result ((most : ℕ) → HaveTaken (time_by_net net.now) program.now end most (phase_of cores.old port.old) [] cores.old port.old → HaveTaken (time_by_net net.now) program.now end most (phase_of cores.old port.old) turns.new.items cores.new port.new) }
    ensures told { OnOk result (T.steps tracer.new ≡ T.steps tracer.old ++ phase_steps shards_serve leaves_shards program.now end (time_by_net net.now) turns.new.items (phase_of cores.old port.old)) }
    ensures fixed { T.fixed tracer.new ≡ T.fixed tracer.old }
    ensures over { OnOk result (All (IsOver end) (timed_of cores.new)) }
    ensures count { length cores.new ≡ length cores.old }
    ensures lists { length untold.new ≡ length untold.old }
    ensures known { OnOk result (All (λ number. number < length cores.old) turns.new.items) }
    ensures many { OnOk result (length port.old.entries + length turns.new.items ≡ length port.new.entries) }
    ensures in_turn { OnOk result (IsCoreAfterCore turns.new.items) }
{
    for (number, core) in cores.iter_mut().enumerate() {
        let legs = &mut untold[number];
        let taken = take_own(
            program,
            net,
            end,
            number as u16,
            core,
            port,
            way,
            legs,
            tracer,
        )?;
        add_turns(turns, number as u16, taken)?;
    }
    tell_untold(untold, tracer)?;
    Ok(())
}

/// Adds so many turns of the core of this number.
fn add_turns(turns: &mut Vec<u16>, number: u16, count: usize) -> Result<(), NoMemory>
    ensures { OnOk result (turns.new.items ≡ turns.old.items ++ replicate count number) }
{
    for _ in 0..count {
        turns.push(number)?;
    }
    Ok(())
}

/// Tells what is untold of each core, core after core.
fn tell_untold<T: Tracer>(untold: &[Vec<Leg>], tracer: &mut T) -> Result<(), NoMemory>
    requires few { length untold.now < 2 ^ 16 }
    requires fits { All (λ legs. All FitsLeg legs.items) untold.now }
    ensures told { OnOk result (T.steps tracer.new ≡ T.steps tracer.old ++ untold_from 0 (map (λ legs. legs.items) untold.now)) }
    ensures fixed { T.fixed tracer.new ≡ T.fixed tracer.old }
{
    for (number, legs) in untold.iter().enumerate() {
        tell_legs(number as u16, legs, tracer)?;
    }
    Ok(())
}

/// Takes all turns of a core, which has this number, and has it end its interval. Answers how many
/// there were. The legs of what it executed behind its last access come to `untold`.
fn take_own<T: Tracer>(
    program: &DecodedProgram<'_>,
    net: &Net,
    end: Cycle,
    number: u16,
    core: &mut BoundCore,
    port: &mut LoggedPort,
    way: &mut Vec<Leg>,
    untold: &mut Vec<Leg>,
    tracer: &mut T,
) -> Result<usize, NoMemory>
    requires end { end ≤ 10 * 2 ^ 30 }
    requires number { core.old.number ≡ number }
    requires taken { IsUnderWay (time_by_net net.now) program.now end number core.old port.old }
    ensures taken { IfOk result (λ count. TakesOwn (time_by_net net.now) program.now end number count port.old port.new core.old core.new) }
    ensures told { IfOk result (λ count. TellsOwn (time_by_net net.now) program.now end number count port.old port.new core.old.timed core.new.timed [] untold.new.items (T.steps tracer.old) (T.steps tracer.new)) }
    ensures over { OnOk result (IsOver end core.new.timed) }
    ensures fits { OnOk result (All FitsLeg untold.new.items) }
    ensures many { IfOk result (λ count. length port.old.entries + count ≡ length port.new.entries) }
    ensures fixed { T.fixed tracer.new ≡ T.fixed tracer.old }
{
    untold.clear();
    let so_far = port.count();
    let mut goes_on = true;
    while goes_on {
        take_own_hits(program, net, end, number, core, port, way, untold, tracer)?;
        let took = take_own_turn(program, net, end, number, core, port, untold, tracer)?;
        goes_on = took;
    }
    Ok(port.count() - so_far)
}

/// Takes turns of a core, which has this number, whose accesses are hits that are at hand. Answers
/// how many, which may be 0. What the core executed behind the last one comes to `untold`; what stood
/// there is told before the first, if there is one.
fn take_own_hits<T: Tracer>(
    program: &DecodedProgram<'_>,
    net: &Net,
    end: Cycle,
    number: u16,
    core: &mut BoundCore,
    port: &mut LoggedPort,
    way: &mut Vec<Leg>,
    untold: &mut Vec<Leg>,
    tracer: &mut T,
) -> Result<usize, NoMemory>
    requires end { end ≤ 10 * 2 ^ 30 }
    requires number { core.old.number ≡ number }
    requires fits { All FitsLeg untold.old.items }
    requires taken { IsUnderWay (time_by_net net.now) program.now end number core.old port.old }
    ensures taken { IfOk result (λ count. TakesOwn (time_by_net net.now) program.now end number count port.old port.new core.old core.new) }
    ensures told { IfOk result (λ count. TellsOwn (time_by_net net.now) program.now end number count port.old port.new core.old.timed core.new.timed untold.old.items untold.new.items (T.steps tracer.old) (T.steps tracer.new)) }
    ensures fits { OnOk result (All FitsLeg untold.new.items) }
    ensures number { core.new.number ≡ core.old.number }
    ensures many { IfOk result (λ count. length port.old.entries + count ≡ length port.new.entries) }
    ensures less { IfOk result (λ count. count + most_accesses end core.new.timed ≤ most_accesses end core.old.timed) }
    ensures fixed { T.fixed tracer.new ≡ T.fixed tracer.old }
{
    if core.halted().is_some() || core.clock() >= end {
        return Ok(0);
    }
    port.choose(number);
    // The address of its next instruction is one of 64 bits.
    let _pc = core.core().pc();
    let so_far = port.count();
    way.clear();
    let count = core.take_told_hits(program, net, end, u64::MAX, port, way);
    tell_made(number, way, port.behind(so_far), untold, tracer)?;
    Ok(count as usize)
}

/// A turn of a core, which has this number: its local instructions, and then one access. Answers
/// whether it had one before it ended its interval. Where it had none, the instructions come to
/// `untold`; else they are told behind what stood there, and nothing is untold.
fn take_own_turn<T: Tracer>(
    program: &DecodedProgram<'_>,
    net: &Net,
    end: Cycle,
    number: u16,
    core: &mut BoundCore,
    port: &mut LoggedPort,
    untold: &mut Vec<Leg>,
    tracer: &mut T,
) -> Result<bool, NoMemory>
    requires end { end ≤ 10 * 2 ^ 30 }
    requires number { core.old.number ≡ number }
    requires known { number < length port.old.world.stamps }
    requires room { 1 ≤ min (room_of port.old.world) port.old.room }
    requires way { (left : ℕ) × IsOnItsWay end (base_of port.old.world) (size_of port.old.world) (l1i_of port.old.world) left core.old }
    requires fits { All FitsLeg untold.old.items }
    ensures took { IfOk result (λ took. took ≡ true → (e : Entry) × TakesAccess (time_by_net net.now) program.now end (chosen port.old number) port.new core.old core.new e) }
    ensures none { IfOk result (λ took. took ≡ false → TakesNone program.now end (chosen port.old number) port.new core.old core.new) }
    ensures told { IfOk result (λ took. took ≡ true → T.steps tracer.new ≡ T.steps tracer.old ++ (untold_steps number untold.old.items ++ turn_steps shards_serve leaves_shards program.now end port.old.world number core.old.timed)) }
    ensures emptied { IfOk result (λ took. took ≡ true → untold.new.items ≡ []) }
    ensures silent { IfOk result (λ took. took ≡ false → T.steps tracer.new ≡ T.steps tracer.old) }
    ensures held { IfOk result (λ took. took ≡ false → untold_steps number untold.new.items ≡ untold_steps number untold.old.items ++ steps_alone program.now end number core.old.timed) }
    ensures fits { OnOk result (All FitsLeg untold.new.items) }
    ensures less { IfOk result (λ took. took ≡ false → most_accesses end core.new.timed ≤ most_accesses end core.old.timed) }
    ensures fixed { T.fixed tracer.new ≡ T.fixed tracer.old }
{
    port.choose(number);
    run_alone(program, end, core, untold)?;
    match core.core().request() {
        Some(request) => {
            tell_legs(number, untold, tracer)?;
            untold.clear();
            take_access(program, net, end, request, core, port, tracer)?;
            Ok(true)
        }
        None => Ok(false),
    }
}
