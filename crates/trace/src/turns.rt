//! The turns of an interval in the order of a list, as they are told.
ghost use Rattle.std.specs.Prelude.{◌≡◌, ◌+◌, ◌*◌, ◌++◌, ◌∷◌, ◌<◌, ◌≤◌, ◌^◌, ℕ, List, [], All, false, length, min, replicate, slice_get, slice_index, take, true, Err, IfErr, IfOk, IsTrue, OnOk, Ok, Some};
ghost use Rattle.zs_num.specs.declared.entry.Entry.{Entry};
ghost use Rattle.bound_core.specs.ReferenceMachine.{BoundState, bound_phase};
ghost use Rattle.bound_core.specs.ShardWorld.{ShardWorld, shards_serve};
ghost use Rattle.bound_core.specs.ShardPort.{base_of, l1i_of, room_of, size_of};
ghost use Rattle.bound_core.specs.IntervalBounds.{latest_clock, most_accesses};
ghost use Rattle.bound_core.specs.NumberedCores.{NumberedCore, timed_of};
ghost use Rattle.bound_core.specs.TimedCore.{asks, ran_to};
ghost use Rattle.bound_core.specs.Turn.{IsOver};
ghost use Rattle.bound_records.specs.Turns.{time_by_net};
ghost use Rattle.replay.specs.Replay.{IfIllegal};
ghost use Rattle.trace.specs.Port.{leaves_shards, phase_of};
ghost use Rattle.trace.specs.Trace.{access_step, last_from, phase_steps, turn_steps};
ghost use Rattle.trace.specs.Turns.{GoesAhead, HaveTaken, IsOnItsWay, TakesAccess, TakesHits, TakesNone, chosen};

use crate::Tracer;
use crate::alone::run_alone;
use crate::logged_port::LoggedPort;
use crate::telling::{tell_legs, tell_way};
use bound_core::{BoundCore, Turned};
use noc_mesh::Net;
use replay::ReplayFail;
use rv_blocks::DecodedProgram;
use rv_core::Leg;
use zs_num::{Cycle, NoMemory, Request};

/// How often a core goes on by itself, at most, before its last turn. There is room for a thousand
/// legs of its way, an interval has at most 10,000 cycles, and each leg takes one at least.
const PASSES: u64 = 10;

/// Takes the turns of a list in this interval, and then has each core end it. Where the list is not
/// legal, it answers the first place that is not: the core there has no access before it ends its
/// interval; or it is the place after the last, and a core still has one. The legs of the cores' ways
/// are put into `way`.
pub fn take_turns<T: Tracer>(
    program: &DecodedProgram<'_>,
    net: &Net,
    end: Cycle,
    interval: u32,
    turns: &[u16],
    cores: &mut [BoundCore],
    port: &mut LoggedPort,
    way: &mut Vec<Leg>,
    tracer: &mut T,
) -> Result<(), ReplayFail>
    requires end { end ≤ 10 * 2 ^ 30 }
    requires cores { length cores.old < 2 ^ 16 }
    requires known { All (λ number. number < length cores.old) turns.now }
    requires few { length turns.now < 2 ^ 32 }
    requires begins { (most : ℕ) × HaveTaken (time_by_net net.now) program.now end most (phase_of cores.old port.old) [] cores.old port.old }
    ensures legal { IfOk result (λ _. bound_phase shards_serve (time_by_net net.now) program.now end turns.now (phase_of cores.old port.old) ≡ Ok (phase_of cores.new port.new)) }
    ensures illegal { IfErr result (λ fail. IfIllegal fail (λ at. (at.interval ≡ interval) × (bound_phase shards_serve (time_by_net net.now) program.now end turns.now (phase_of cores.old port.old) ≡ Err at.place))) }
    ensures taken { IfOk result (λ _. (most : ℕ) → HaveTaken (time_by_net net.now) program.now end most (phase_of cores.old port.old) [] cores.old port.old → HaveTaken (time_by_net net.now) program.now end most (phase_of cores.old port.old) turns.now cores.new port.new) }
    ensures told { IfOk result (λ _. T.steps tracer.new ≡ T.steps tracer.old ++ phase_steps shards_serve leaves_shards program.now end (time_by_net net.now) turns.now (phase_of cores.old port.old)) }
    ensures fixed { T.fixed tracer.new ≡ T.fixed tracer.old }
    ensures over { IfOk result (λ _. All (IsOver end) (timed_of cores.new)) }
    ensures count { length cores.new ≡ length cores.old }
{
    let mut place = 0;
    while place < turns.len() {
        let number = turns[place];
        let count = stretch(turns, place);
        let taken = take_stretch(program, net, end, number, count, cores, port, way, tracer)?;
        place += taken;
        if taken < count {
            return Err(ReplayFail::Illegal {
                interval,
                place: place as u32,
            });
        }
    }
    let ended = end_all(program, net, end, cores, port, way, tracer)?;
    if ended {
        Ok(())
    } else {
        Err(ReplayFail::Illegal {
            interval,
            place: turns.len() as u32,
        })
    }
}

/// How many turns of one core stand in the list one after the other, from this place on.
fn stretch(turns: &[u16], place: usize) -> usize
    requires place { place < length turns.now }
    ensures some { 0 < result }
    ensures within { place + result ≤ length turns.now }
    ensures same { take (place + result) turns.now ≡ take place turns.now ++ replicate result (slice_index turns.now place) }
{
    let mut count = 1;
    while place + count < turns.len() && turns[place + count] == turns[place] {
        count += 1;
    }
    count
}

/// Takes so many turns of the core of this number, one after the other, and answers how many it
/// took: where they are fewer, the core has no access before it ends its interval. Of the last one
/// nothing that comes behind its access is told.
fn take_stretch<T: Tracer>(
    program: &DecodedProgram<'_>,
    net: &Net,
    end: Cycle,
    number: u16,
    count: usize,
    cores: &mut [BoundCore],
    port: &mut LoggedPort,
    way: &mut Vec<Leg>,
    tracer: &mut T,
) -> Result<usize, NoMemory>
    requires end { end ≤ 10 * 2 ^ 30 }
    requires known { number < length cores.old }
    requires taken { (most : ℕ) × (first : BoundState ShardWorld) × (turns : List ℕ) × HaveTaken (time_by_net net.now) program.now end most first turns cores.old port.old }
    ensures few { IfOk result (λ taken. taken ≤ count) }
    ensures taken { IfOk result (λ taken. (most : ℕ) (first : BoundState ShardWorld) (turns : List ℕ) → HaveTaken (time_by_net net.now) program.now end most first turns cores.old port.old → HaveTaken (time_by_net net.now) program.now end most first (turns ++ replicate taken number) cores.new port.new) }
    ensures told { IfOk result (λ taken. taken ≡ count → (rest : List ℕ) → T.steps tracer.new ++ phase_steps shards_serve leaves_shards program.now end (time_by_net net.now) rest (phase_of cores.new port.new) ≡ T.steps tracer.old ++ phase_steps shards_serve leaves_shards program.now end (time_by_net net.now) (replicate count number ++ rest) (phase_of cores.old port.old)) }
    ensures fixed { T.fixed tracer.new ≡ T.fixed tracer.old }
    ensures over { IfOk result (λ taken. taken < count → (core : NumberedCore) → slice_get cores.new number ≡ Some core → IsOver end core.timed) }
    ensures count { length cores.new ≡ length cores.old }
{
    let mut taken = 0;
    while taken < count {
        let most = count - taken;
        let hits = take_hits(program, net, end, number, most, cores, port, way, tracer)?;
        taken += hits;
        if taken == count {
            return Ok(taken);
        }
        let core = &mut cores[usize::from(number)];
        let took = take_turn(program, net, end, number, core, port, way, tracer)?;
        if !took {
            return Ok(taken);
        }
        taken += 1;
    }
    Ok(taken)
}

/// Takes turns of the core of this number whose accesses are hits that are at hand, `most` at most,
/// and instructions of the turn that follows, and tells them. Answers how many turns it took, which
/// may be 0. Where it took `most`, if any, nothing that comes behind the last access is told.
fn take_hits<T: Tracer>(
    program: &DecodedProgram<'_>,
    net: &Net,
    end: Cycle,
    number: u16,
    most: usize,
    cores: &mut [BoundCore],
    port: &mut LoggedPort,
    way: &mut Vec<Leg>,
    tracer: &mut T,
) -> Result<usize, NoMemory>
    requires end { end ≤ 10 * 2 ^ 30 }
    requires known { number < length cores.old }
    requires taken { (most : ℕ) × (first : BoundState ShardWorld) × (turns : List ℕ) × HaveTaken (time_by_net net.now) program.now end most first turns cores.old port.old }
    ensures few { IfOk result (λ taken. taken ≤ most) }
    ensures taken { IfOk result (λ taken. (most : ℕ) (first : BoundState ShardWorld) (turns : List ℕ) → HaveTaken (time_by_net net.now) program.now end most first turns cores.old port.old → HaveTaken (time_by_net net.now) program.now end most first (turns ++ replicate taken number) cores.new port.new) }
    ensures told { IfOk result (λ taken. (rest : List ℕ) → T.steps tracer.new ++ phase_steps shards_serve leaves_shards program.now end (time_by_net net.now) (number ∷ rest) (phase_of cores.new port.new) ≡ T.steps tracer.old ++ phase_steps shards_serve leaves_shards program.now end (time_by_net net.now) (replicate taken number ++ number ∷ rest) (phase_of cores.old port.old)) }
    ensures whole { IfOk result (λ taken. 0 < most → taken ≡ most → (rest : List ℕ) → T.steps tracer.new ++ phase_steps shards_serve leaves_shards program.now end (time_by_net net.now) rest (phase_of cores.new port.new) ≡ T.steps tracer.old ++ phase_steps shards_serve leaves_shards program.now end (time_by_net net.now) (replicate taken number ++ rest) (phase_of cores.old port.old)) }
    ensures fixed { T.fixed tracer.new ≡ T.fixed tracer.old }
    ensures count { length cores.new ≡ length cores.old }
{
    let core = &mut cores[usize::from(number)];
    if core.halted().is_some() || core.clock() >= end {
        return Ok(0);
    }
    let most = most_hits(core, most);
    let taken = take_told_hits(program, net, end, number, most, core, port, way, tracer)?;
    Ok(taken)
}

/// How many of so many turns may be taken as hits. Of those of a core that fetches one is left over:
/// where its last hit is a fetch, it goes on to take the instruction that it fetched, and does not
/// stand behind the turn.
fn most_hits(core: &BoundCore, turns: usize) -> usize
    ensures few { result ≤ turns }
    ensures all { 0 < turns → result ≡ turns → core.now.timed.core.fetching ≡ false }
{
    if core.core().is_fetching() {
        turns.saturating_sub(1)
    } else {
        turns
    }
}

/// The same of a core, which has this number.
fn take_told_hits<T: Tracer>(
    program: &DecodedProgram<'_>,
    net: &Net,
    end: Cycle,
    number: u16,
    most: usize,
    core: &mut BoundCore,
    port: &mut LoggedPort,
    way: &mut Vec<Leg>,
    tracer: &mut T,
) -> Result<usize, NoMemory>
    requires end { end ≤ 10 * 2 ^ 30 }
    requires number { core.old.number ≡ number }
    requires known { number < length port.old.world.stamps }
    requires base { base_of port.old.world ≡ core.old.timed.core.memory.base }
    requires size { size_of port.old.world ≡ core.old.timed.core.memory.size }
    requires l1i { IsTrue core.old.timed.core.fetching → IsTrue (l1i_of port.old.world) }
    requires room { most_accesses end core.old.timed ≤ min (room_of port.old.world) port.old.room }
    requires clock { core.old.timed.clock ≤ 2 ^ 61 }
    ensures few { IfOk result (λ taken. taken ≤ most) }
    ensures hits { IfOk result (λ taken. TakesHits (time_by_net net.now) program.now end most taken (chosen port.old number) port.new core.old core.new (T.steps tracer.old) (T.steps tracer.new)) }
    ensures fixed { T.fixed tracer.new ≡ T.fixed tracer.old }
{
    port.choose(number);
    // The address of its next instruction is one of 64 bits.
    let _pc = core.core().pc();
    let so_far = port.count();
    way.clear();
    let taken = core.take_told_hits(program, net, end, most as u64, port, way);
    tell_way(number, way, port.behind(so_far), tracer)?;
    Ok(taken as usize)
}

/// Has each core end its interval. Answers false where one still has an access.
fn end_all<T: Tracer>(
    program: &DecodedProgram<'_>,
    net: &Net,
    end: Cycle,
    cores: &mut [BoundCore],
    port: &mut LoggedPort,
    way: &mut Vec<Leg>,
    tracer: &mut T,
) -> Result<bool, NoMemory>
    requires end { end ≤ 10 * 2 ^ 30 }
    requires few { length cores.old < 2 ^ 16 }
    requires taken { (most : ℕ) × (first : BoundState ShardWorld) × (turns : List ℕ) × HaveTaken (time_by_net net.now) program.now end most first turns cores.old port.old }
    ensures taken { IfOk result (λ ended. ended ≡ true → (most : ℕ) (first : BoundState ShardWorld) (turns : List ℕ) → HaveTaken (time_by_net net.now) program.now end most first turns cores.old port.old → HaveTaken (time_by_net net.now) program.now end most first turns cores.new port.new) }
    ensures over { IfOk result (λ ended. ended ≡ true → All (IsOver end) (timed_of cores.new)) }
    ensures illegal { IfOk result (λ ended. ended ≡ false → (most : ℕ) (first : BoundState ShardWorld) (turns : List ℕ) → HaveTaken (time_by_net net.now) program.now end most first turns cores.old port.old → bound_phase shards_serve (time_by_net net.now) program.now end turns first ≡ Err (length turns)) }
    ensures told { IfOk result (λ ended. ended ≡ true → T.steps tracer.new ≡ T.steps tracer.old ++ last_from program.now end 0 (timed_of cores.old)) }
    ensures fixed { T.fixed tracer.new ≡ T.fixed tracer.old }
    ensures count { length cores.new ≡ length cores.old }
{
    for (number, core) in cores.iter_mut().enumerate() {
        go_ahead(program, net, end, number as u16, core, port, way, tracer)?;
        let took = take_turn(program, net, end, number as u16, core, port, way, tracer)?;
        if took {
            return Ok(false);
        }
    }
    Ok(true)
}

/// Has a core, which has this number, go on by itself without an access, as far as it goes, and tells
/// where it went by the legs of its way.
fn go_ahead<T: Tracer>(
    program: &DecodedProgram<'_>,
    net: &Net,
    end: Cycle,
    number: u16,
    core: &mut BoundCore,
    port: &mut LoggedPort,
    way: &mut Vec<Leg>,
    tracer: &mut T,
) -> Result<(), NoMemory>
    requires end { end ≤ 10 * 2 ^ 30 }
    requires number { core.old.number ≡ number }
    requires known { number < length port.old.world.stamps }
    requires way { (left : ℕ) × (left ≤ min (room_of port.old.world) port.old.room) × IsOnItsWay end (base_of port.old.world) (size_of port.old.world) (l1i_of port.old.world) left core.old }
    ensures goes { OnOk result (GoesAhead program.now end port.old port.new core.old core.new (T.steps tracer.old) (T.steps tracer.new)) }
    ensures fixed { T.fixed tracer.new ≡ T.fixed tracer.old }
{
    if core.halted().is_some() || core.clock() >= end {
        return Ok(());
    }
    for _ in 0..PASSES {
        take_told_hits(program, net, end, number, 0, core, port, way, tracer)?;
        // The legs of its whole way had room.
        if way.len() < way.capacity() {
            return Ok(());
        }
    }
    Ok(())
}

/// A turn of a core, which has this number: its local instructions, and then one access. Answers
/// whether it had one before it ended its interval.
fn take_turn<T: Tracer>(
    program: &DecodedProgram<'_>,
    net: &Net,
    end: Cycle,
    number: u16,
    core: &mut BoundCore,
    port: &mut LoggedPort,
    way: &mut Vec<Leg>,
    tracer: &mut T,
) -> Result<bool, NoMemory>
    requires end { end ≤ 10 * 2 ^ 30 }
    requires number { core.old.number ≡ number }
    requires known { number < length port.old.world.stamps }
    requires room { 1 ≤ min (room_of port.old.world) port.old.room }
    requires way { (left : ℕ) × IsOnItsWay end (base_of port.old.world) (size_of port.old.world) (l1i_of port.old.world) left core.old }
    ensures took { IfOk result (λ took. took ≡ true → (e : Entry) × TakesAccess (time_by_net net.now) program.now end (chosen port.old number) port.new core.old core.new e) }
    ensures none { IfOk result (λ took. took ≡ false → TakesNone program.now end (chosen port.old number) port.new core.old core.new) }
    ensures told { IfOk result (λ _. T.steps tracer.new ≡ T.steps tracer.old ++ turn_steps shards_serve leaves_shards program.now end port.old.world number core.old.timed) }
    ensures fixed { T.fixed tracer.new ≡ T.fixed tracer.old }
{
    port.choose(number);
    way.clear();
    run_alone(program, end, core, way)?;
    tell_legs(number, way, tracer)?;
    match core.core().request() {
        Some(request) => {
            take_access(program, net, end, request, core, port, tracer)?;
            Ok(true)
        }
        None => Ok(false),
    }
}

/// The access of a core that stands there.
pub fn take_access<T: Tracer>(
    program: &DecodedProgram<'_>,
    net: &Net,
    end: Cycle,
    request: Request,
    core: &mut BoundCore,
    port: &mut LoggedPort,
    tracer: &mut T,
) -> Result<(), NoMemory>
    requires end { end ≤ 10 * 2 ^ 30 }
    requires clock { latest_clock end core.old.timed ≤ 2 ^ 57 }
    requires stands { ran_to program.now end core.old.timed ≡ core.old.timed }
    requires asked { asks core.old.timed ≡ Some request }
    requires chosen { port.old.core ≡ core.old.number }
    requires base { base_of port.old.world ≡ core.old.timed.core.memory.base }
    requires size { size_of port.old.world ≡ core.old.timed.core.memory.size }
    requires l1i { IsTrue core.old.timed.core.fetching → IsTrue (l1i_of port.old.world) }
    requires room { 1 ≤ min (room_of port.old.world) port.old.room }
    requires spare { 1 ≤ core.old.spare }
    ensures took { OnOk result ((e : Entry) × TakesAccess (time_by_net net.now) program.now end port.old port.new core.old core.new e) }
    ensures told { OnOk result (T.steps tracer.new ≡ T.steps tracer.old ++ access_step shards_serve leaves_shards program.now end port.old.world core.old.number core.old.timed request ∷ []) }
    ensures fixed { T.fixed tracer.new ≡ T.fixed tracer.old }
{
    let pc = core.core().pc();
    let leaving = port.leaving(request);
    match core.turn(program, net, end, port) {
        Turned::Took(entry) => tracer.accessed(pc, &entry, leaving),
        Turned::Ended => unreachable!(),
    }
}
