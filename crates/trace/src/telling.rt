//! What is told of the way of a core whose accesses are hits.
ghost use Rattle.std.specs.Prelude.{◌≡◌, ◌+◌, ◌-◌, ◌*◌, ◌^◌, ◌<◌, ◌≤◌, ◌++◌, ◌∷◌, ℕ, [], All, false, length, OnOk, Some, slice_get, true};
ghost use Rattle.rv_core.specs.declared.leg.Leg.{Leg};
ghost use Rattle.rv_core.specs.Told.{told_of};
ghost use Rattle.trace.specs.EachCore.{TellsUpTo, untold_steps};
ghost use Rattle.trace.specs.Trace.{Accessed, stretch_steps};
ghost use Rattle.trace.specs.Ways.{FitsLeg, nothing_leaves, told_steps};

use crate::Tracer;
use rv_core::Leg;
use shard::Leaving;
use zs_num::{Entry, NoMemory};

/// Up to this address instructions that follow each other are told at once, and one by one from there
/// on. Memory ends at twice this address at most.
const FAR: u64 = 1 << 47;

/// Tells the way of the core of this number by its legs. These are the entries of its accesses, one
/// after the other: hits, for which no line left a cache.
pub fn tell_way<T: Tracer>(
    number: u16,
    way: &[Leg],
    entries: &[Entry],
    tracer: &mut T,
) -> Result<(), NoMemory>
    requires fits { All FitsLeg way.now }
    ensures told { OnOk result (T.steps tracer.new ≡ T.steps tracer.old ++ told_steps number (told_of way.now) entries.now) }
    ensures fixed { T.fixed tracer.new ≡ T.fixed tracer.old }
{
    let mut place = 0;
    for leg in way {
        tell_instructions(number, leg, tracer)?;
        if leg.made && place < entries.len() {
            tell_access(leg, &entries[place], tracer)?;
            place += 1;
        }
    }
    Ok(())
}

/// Tells legs of the core of this number, without their accesses.
pub fn tell_legs<T: Tracer>(number: u16, legs: &[Leg], tracer: &mut T) -> Result<(), NoMemory>
    requires fits { All FitsLeg legs.now }
    ensures told { OnOk result (T.steps tracer.new ≡ T.steps tracer.old ++ untold_steps number legs.now) }
    ensures fixed { T.fixed tracer.new ≡ T.fixed tracer.old }
{
    tell_way(number, legs, &[], tracer)
}

/// Tells the way of the core of this number up to its last access, if it made any, and before it the
/// legs that are untold so far. What comes behind that access stays untold.
pub fn tell_made<T: Tracer>(
    number: u16,
    way: &[Leg],
    entries: &[Entry],
    untold: &mut Vec<Leg>,
    tracer: &mut T,
) -> Result<(), NoMemory>
    requires way { All FitsLeg way.now }
    requires untold { All FitsLeg untold.old.items }
    ensures made { OnOk result ((made : ℕ) × TellsUpTo number way.now made entries.now untold.old.items untold.new.items (T.steps tracer.old) (T.steps tracer.new)) }
    ensures fixed { T.fixed tracer.new ≡ T.fixed tracer.old }
{
    let made = legs_made(way);
    if made > 0 {
        tell_legs(number, untold, tracer)?;
        untold.clear();
        tell_way(number, &way[..made], entries, tracer)?;
    }
    for leg in &way[made..] {
        untold.push(*leg)?;
    }
    Ok(())
}

/// How many legs a way has up to the last one with an access.
fn legs_made(way: &[Leg]) -> usize
    ensures within { result ≤ length way.now }
    ensures last { 0 < result → (leg : Leg) → slice_get way.now (result - 1) ≡ Some leg → leg.made ≡ true }
    ensures behind { (i : ℕ) (leg : Leg) → result ≤ i → slice_get way.now i ≡ Some leg → leg.made ≡ false }
{
    let mut count = way.len();
    while count > 0 && !way[count - 1].made {
        count -= 1;
    }
    count
}

/// The instructions of a leg.
fn tell_instructions<T: Tracer>(number: u16, leg: &Leg, tracer: &mut T) -> Result<(), NoMemory>
    requires fits { FitsLeg leg.now }
    ensures told { OnOk result (T.steps tracer.new ≡ T.steps tracer.old ++ stretch_steps number leg.now.pc leg.now.count) }
    ensures fixed { T.fixed tracer.new ≡ T.fixed tracer.old }
{
    if leg.count > 1 && leg.pc <= FAR && leg.count <= FAR / 4 {
        return tracer.executed_all(number, leg.pc, leg.count);
    }
    for k in 0..leg.count {
        tracer.executed(number, leg.pc + 4 * k)?;
    }
    Ok(())
}

/// The access of a leg's last instruction, or of the fetch of the next one, if the leg has no
/// instruction.
fn tell_access<T: Tracer>(leg: &Leg, entry: &Entry, tracer: &mut T) -> Result<(), NoMemory>
    requires fits { FitsLeg leg.now }
    ensures told { OnOk result (T.steps tracer.new ≡ T.steps tracer.old ++ Accessed (leg.now.pc + 4 * (leg.now.count - 1)) entry.now nothing_leaves ∷ []) }
    ensures fixed { T.fixed tracer.new ≡ T.fixed tracer.old }
{
    let pc = leg.pc + 4 * leg.count.saturating_sub(1);
    let nothing = Leaving {
        own: None,
        shared: None,
    };
    tracer.accessed(pc, entry, nothing)
}
