//! The turns of an interval in the order of a list.
ghost use Rattle.std.specs.Prelude.{◌≡◌, ◌+◌, ◌*◌, ◌-◌, ◌<◌, ◌≤◌, ◌^◌, ◌++◌, ℕ, List, [], All, false, length, min, replicate, slice_get, slice_index, take, true, Err, IfErr, IfOk, Ok, Some};
ghost use Rattle.zs_num.specs.declared.entry.Entry.{Entry};
ghost use Rattle.bound_core.specs.ReferenceMachine.{BoundState, bound_phase};
ghost use Rattle.bound_core.specs.ShardWorld.{ShardWorld, shards_serve};
ghost use Rattle.bound_core.specs.ShardPort.{base_of, l1i_of, room_of, size_of};
ghost use Rattle.bound_core.specs.NumberedCores.{NumberedCore, timed_of};
ghost use Rattle.bound_core.specs.Turn.{IsOver};
ghost use Rattle.weave_chains.specs.Listed.{list_of};
ghost use Rattle.bound_records.specs.CoreRuns.{phase_in};
ghost use Rattle.bound_records.specs.Recorders.{RecorderState};
ghost use Rattle.bound_records.specs.Turns.{HaveTaken, IsOnItsWay, TakesAccess, TakesNone, chosen, time_by_net};

use crate::turn_port::TurnPort;
use bound_core::{BoundCore, Turned};
use noc_mesh::Net;
use rv_blocks::DecodedProgram;
use zs_num::Cycle;

/// Takes the turns of a list, and then has each core end its interval. Where the list is not legal,
/// it answers the first place that is not: the core there has no access before it ends its
/// interval; or it is the place after the last, and a core still has one.
pub(crate) fn take_turns(
    program: &DecodedProgram<'_>,
    net: &Net,
    end: Cycle,
    turns: &[u16],
    cores: &mut [BoundCore],
    port: &mut TurnPort,
) -> Result<(), u32>
    requires end { end ≤ 10 * 2 ^ 30 }
    requires cores { length cores.old < 2 ^ 16 }
    requires known { All (λ number. number < length cores.old) turns.now }
    requires few { length turns.now < 2 ^ 32 }
    requires begins { (most : ℕ) × HaveTaken (time_by_net net.now) program.now end most port.old.recorder (phase_in cores.old port.old.recorder) [] cores.old port.old.recorder }
    ensures illegal { IfErr result (λ place. bound_phase shards_serve (time_by_net net.now) program.now end turns.now (phase_in cores.old port.old.recorder) ≡ Err place) }
    ensures taken { IfOk result (λ _. (most : ℕ) → HaveTaken (time_by_net net.now) program.now end most port.old.recorder (phase_in cores.old port.old.recorder) [] cores.old port.old.recorder → HaveTaken (time_by_net net.now) program.now end most port.old.recorder (phase_in cores.old port.old.recorder) turns.now cores.new port.new.recorder) }
    ensures over { IfOk result (λ _. All (IsOver end) (timed_of cores.new)) }
    ensures count { length cores.new ≡ length cores.old }
{
    let mut place = 0;
    while place < turns.len() {
        let number = turns[place];
        let count = stretch(turns, place);
        let taken = take_stretch(program, net, end, number, count, cores, port);
        place += taken;
        if taken < count {
            return Err(place as u32);
        }
    }
    if end_all(program, net, end, cores, port) {
        Ok(())
    } else {
        Err(turns.len() as u32)
    }
}

/// How many turns of one core stand in the list one after the other, from this place on.
fn stretch(turns: &[u16], place: usize) -> usize
    requires place { place < length turns.now }
    ensures some { 0 < result }
    ensures within { place + result ≤ length turns.now }
    ensures same { take (place + result) turns.now ≡ take place turns.now ++ replicate result (slice_index turns.now place) }
{
    let mut count = 1;
    while place + count < turns.len() && turns[place + count] == turns[place] {
        count += 1;
    }
    count
}

/// Takes so many turns of the core of this number, one after the other, and answers how many it
/// took: where they are fewer, the core has no access before it ends its interval.
fn take_stretch(
    program: &DecodedProgram<'_>,
    net: &Net,
    end: Cycle,
    number: u16,
    count: usize,
    cores: &mut [BoundCore],
    port: &mut TurnPort,
) -> usize
    requires end { end ≤ 10 * 2 ^ 30 }
    requires known { number < length cores.old }
    requires taken { (most : ℕ) × (r : RecorderState) × (first : BoundState ShardWorld) × (turns : List ℕ) × HaveTaken (time_by_net net.now) program.now end most r first turns cores.old port.old.recorder }
    ensures few { result ≤ count }
    ensures taken { (most : ℕ) (r : RecorderState) (first : BoundState ShardWorld) (turns : List ℕ) → HaveTaken (time_by_net net.now) program.now end most r first turns cores.old port.old.recorder → HaveTaken (time_by_net net.now) program.now end most r first (turns ++ replicate result number) cores.new port.new.recorder }
    ensures over { result < count → (core : NumberedCore) → slice_get cores.new number ≡ Some core → IsOver end core.timed }
    ensures count { length cores.new ≡ length cores.old }
{
    let mut taken = 0;
    while taken < count {
        taken += take_hits(program, net, end, number, count - taken, cores, port);
        if taken < count {
            let core = &mut cores[usize::from(number)];
            if !take_turn(program, net, end, number, core, port) {
                return taken;
            }
            taken += 1;
        }
    }
    taken
}

/// Takes turns of the core of this number whose accesses are hits that are at hand, `most` at most,
/// and answers how many it took, which may be 0.
fn take_hits(
    program: &DecodedProgram<'_>,
    net: &Net,
    end: Cycle,
    number: u16,
    most: usize,
    cores: &mut [BoundCore],
    port: &mut TurnPort,
) -> usize
    requires end { end ≤ 10 * 2 ^ 30 }
    requires known { number < length cores.old }
    requires taken { (most : ℕ) × (r : RecorderState) × (first : BoundState ShardWorld) × (turns : List ℕ) × HaveTaken (time_by_net net.now) program.now end most r first turns cores.old port.old.recorder }
    ensures few { result ≤ most }
    ensures taken { (most : ℕ) (r : RecorderState) (first : BoundState ShardWorld) (turns : List ℕ) → HaveTaken (time_by_net net.now) program.now end most r first turns cores.old port.old.recorder → HaveTaken (time_by_net net.now) program.now end most r first (turns ++ replicate result number) cores.new port.new.recorder }
    ensures count { length cores.new ≡ length cores.old }
{
    let core = &mut cores[usize::from(number)];
    if core.halted().is_some() || core.clock() >= end {
        return 0;
    }
    port.choose(number);
    core.take_hits(program, net, end, most as u64, port) as usize
}

/// Has each core end its interval. Answers false where one still has an access.
fn end_all(
    program: &DecodedProgram<'_>,
    net: &Net,
    end: Cycle,
    cores: &mut [BoundCore],
    port: &mut TurnPort,
) -> bool
    requires end { end ≤ 10 * 2 ^ 30 }
    requires few { length cores.old < 2 ^ 16 }
    requires taken { (most : ℕ) × (r : RecorderState) × (first : BoundState ShardWorld) × (turns : List ℕ) × HaveTaken (time_by_net net.now) program.now end most r first turns cores.old port.old.recorder }
    ensures taken { result ≡ true → (most : ℕ) (r : RecorderState) (first : BoundState ShardWorld) (turns : List ℕ) → HaveTaken (time_by_net net.now) program.now end most r first turns cores.old port.old.recorder → HaveTaken (time_by_net net.now) program.now end most r first turns cores.new port.new.recorder }
    ensures over { result ≡ true → All (IsOver end) (timed_of cores.new) }
    ensures illegal { result ≡ false → (most : ℕ) (r : RecorderState) (first : BoundState ShardWorld) (turns : List ℕ) → HaveTaken (time_by_net net.now) program.now end most r first turns cores.old port.old.recorder → bound_phase shards_serve (time_by_net net.now) program.now end turns first ≡ Err (length turns) }
    ensures count { length cores.new ≡ length cores.old }
{
    for (number, core) in cores.iter_mut().enumerate() {
        if take_turn(program, net, end, number as u16, core, port) {
            return false;
        }
    }
    true
}

/// A turn of a core, which has this number: its local instructions, and then one access. Answers
/// whether it had one before it ended its interval.
fn take_turn(
    program: &DecodedProgram<'_>,
    net: &Net,
    end: Cycle,
    number: u16,
    core: &mut BoundCore,
    port: &mut TurnPort,
) -> bool
    requires end { end ≤ 10 * 2 ^ 30 }
    requires number { core.old.number ≡ number }
    requires known { number < length port.old.recorder.world.stamps }
    requires room { 1 ≤ min (room_of port.old.recorder.world) (port.old.recorder.room - length (list_of port.old.recorder.lists number)) }
    requires way { (begin : ℕ) × (left : ℕ) × IsOnItsWay begin end (base_of port.old.recorder.world) (size_of port.old.recorder.world) (l1i_of port.old.recorder.world) left core.old }
    ensures took { result ≡ true → (e : Entry) × TakesAccess (time_by_net net.now) program.now end (chosen port.old number) port.new core.old core.new e }
    ensures none { result ≡ false → TakesNone program.now end (chosen port.old number) port.new core.old core.new }
{
    port.choose(number);
    match core.turn(program, net, end, port) {
        Turned::Took(_entry) => true,
        Turned::Ended => false,
    }
}
