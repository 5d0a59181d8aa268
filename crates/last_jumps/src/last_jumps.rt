//! The last jumps of all cores.
ghost use Rattle.std.specs.Prelude.{◌≡◌, [], ℕ, ◌+◌, ◌*◌, ◌<◌, ◌^◌, ◌==◌, ◌≤◌, if◌then◌else◌, IfOk, OnErr, OnOk, length};
ghost use Rattle.last_jumps.specs.Jumps.{last_jumps};
ghost use Rattle.last_jumps.specs.Kept.{jumps_with, kept_at, with_one_more, with_stretch};

use crate::core_jumps::CoreJumps;
use event_graph::{FiredList, Graph};
use profile_rows::Jump;
use shard::Leaving;
use std::alloc::Global;
use std::marker::Model;
use trace::Tracer;
use tracers::Told;
use zs_num::{Entries, Entry, NoMemory};

/// The last 16 jumps of each core in the steps that it was told.
#[derive(Drop)]
pub struct LastJumps {
    alloc: Global,
    told: Told,
    /// How many cores there are.
    expected: u16,
    /// What is kept of each, from the first step on.
    cores: Vec<CoreJumps>,
}

impl Model for LastJumps {
    ghost use Rattle.std.specs.Prelude.{List};
    ghost use Rattle.trace.specs.Trace.{Step};
    ghost use Rattle.last_jumps.specs.Kept.{AreKept};

    ghost Value = { List Step };

    ghost view = { λ j. j.told.steps };

    ghost invariant = { λ j. AreKept j.told.steps j.cores.items };
}

impl LastJumps {
    /// Those of no steps, of so many cores. The first step takes memory for all of them, and a step of
    /// another core for those up to it.
    pub fn new(alloc: Global, cores: u16) -> Self
        ensures { result ≡ [] }
    {
        LastJumps {
            alloc,
            told: Told::new(),
            expected: cores,
            cores: Vec::new(alloc),
        }
    }

    /// The last 16 jumps of a core that is to go on at `next`, or nowhere where it halted in the
    /// instruction that it executed last. The oldest one is first.
    pub fn jumps(&self, alloc: Global, core: u16, next: Option<u64>) -> Result<Vec<Jump>, NoMemory>
        ensures { IfOk result (λ jumps. jumps.items ≡ last_jumps core self.now next) }
    {
        jumps_at(alloc, &self.cores, core, next)
    }
}

impl Tracer for LastJumps {
    ghost steps = { λ steps. steps };

    ghost fixed = { λ _. tt };

    #[inline(always)]
    fn executed(&mut self, core: u16, pc: u64) -> Result<(), NoMemory> {
        execute(self.alloc, &mut self.cores, self.expected, core, pc)?;
        self.told = self.told.then_executed(&core, &pc);
        Ok(())
    }

    #[inline(always)]
    fn executed_all(&mut self, core: u16, pc: u64, count: u64) -> Result<(), NoMemory> {
        execute_all(self.alloc, &mut self.cores, self.expected, core, pc, count)?;
        self.told = self.told.then_executed_all(&core, &pc, &count);
        Ok(())
    }

    #[inline(always)]
    fn accessed(&mut self, pc: u64, entry: &Entry, leaving: Leaving) -> Result<(), NoMemory> {
        self.told = self.told.then_accessed(&pc, entry, &leaving);
        Ok(())
    }

    fn ended(
        &mut self,
        entries: &Entries,
        graph: &Graph,
        fired: &FiredList,
        delays: &[u64],
    ) -> Result<(), NoMemory> {
        self.told = self.told.then_ended(entries, graph, fired, delays);
        Ok(())
    }
}

/// A core executed an instruction.
#[inline(always)]
fn execute(
    alloc: Global,
    cores: &mut Vec<CoreJumps>,
    expected: u16,
    core: u16,
    pc: u64,
) -> Result<(), NoMemory>
    ensures ok { OnOk result ((c : ℕ) → kept_at cores.new.items c ≡ (if core == c then with_one_more pc (kept_at cores.old.items c) else kept_at cores.old.items c)) }
    ensures err { OnErr result ((c : ℕ) → kept_at cores.new.items c ≡ kept_at cores.old.items c) }
{
    let place = place_of(alloc, cores, expected, core)?;
    execute_there(cores, place, pc);
    Ok(())
}

/// A core executed so many instructions that follow each other.
#[inline(always)]
fn execute_all(
    alloc: Global,
    cores: &mut Vec<CoreJumps>,
    expected: u16,
    core: u16,
    pc: u64,
    count: u64,
) -> Result<(), NoMemory>
    requires { pc + 4 * count ≤ 2 ^ 48 }
    ensures ok { OnOk result ((c : ℕ) → kept_at cores.new.items c ≡ (if core == c then with_stretch pc count (kept_at cores.old.items c) else kept_at cores.old.items c)) }
    ensures err { OnErr result ((c : ℕ) → kept_at cores.new.items c ≡ kept_at cores.old.items c) }
{
    let place = place_of(alloc, cores, expected, core)?;
    execute_all_there(cores, place, pc, count);
    Ok(())
}

/// The place of a core, which is there from then on.
#[inline(always)]
fn place_of(
    alloc: Global,
    cores: &mut Vec<CoreJumps>,
    expected: u16,
    core: u16,
) -> Result<usize, NoMemory>
    ensures place { IfOk result (λ place. place ≡ core) }
    ensures there { OnOk result (core < length cores.new.items) }
    ensures same { (c : ℕ) → kept_at cores.new.items c ≡ kept_at cores.old.items c }
{
    let place = usize::from(core);
    if place >= cores.len() {
        add_cores(alloc, cores, usize::from(expected).max(place + 1))?;
    }
    Ok(place)
}

/// The same of a core that is there.
#[inline(always)]
fn execute_there(cores: &mut Vec<CoreJumps>, core: usize, pc: u64)
    requires { core < length cores.old.items }
    ensures { (c : ℕ) → kept_at cores.new.items c ≡ (if core == c then with_one_more pc (kept_at cores.old.items c) else kept_at cores.old.items c) }
{
    let kept = &mut cores[core];
    kept.execute(pc);
}

/// The same of so many instructions that follow each other.
#[inline(always)]
fn execute_all_there(cores: &mut Vec<CoreJumps>, core: usize, pc: u64, count: u64)
    requires core { core < length cores.old.items }
    requires pc { pc + 4 * count ≤ 2 ^ 48 }
    ensures { (c : ℕ) → kept_at cores.new.items c ≡ (if core == c then with_stretch pc count (kept_at cores.old.items c) else kept_at cores.old.items c) }
{
    let kept = &mut cores[core];
    kept.execute_all(pc, count);
}

/// Adds cores, of which nothing is kept, until there are so many.
#[inline(never)]
fn add_cores(alloc: Global, cores: &mut Vec<CoreJumps>, count: usize) -> Result<(), NoMemory>
    requires { count ≤ 2 ^ 16 }
    ensures there { OnOk result (count ≤ length cores.new.items) }
    ensures same { (c : ℕ) → kept_at cores.new.items c ≡ kept_at cores.old.items c }
{
    while cores.len() < count {
        cores.push(CoreJumps::new(alloc)?)?;
    }
    Ok(())
}

/// The last jumps of a core.
fn jumps_at(
    alloc: Global,
    cores: &Vec<CoreJumps>,
    core: u16,
    next: Option<u64>,
) -> Result<Vec<Jump>, NoMemory>
    ensures { IfOk result (λ jumps. jumps.items ≡ jumps_with next (kept_at cores.now.items core)) }
{
    match cores.get(usize::from(core)) {
        Some(kept) => kept.jumps(alloc, next),
        None => Ok(Vec::new(alloc)),
    }
}
