//! What is kept of a core.
ghost use Rattle.std.specs.Prelude.{◌≡◌, ◌+◌, ◌*◌, ◌≤◌, ◌^◌, ◌++◌, ◌∷◌, [], IfOk, option_to_list};
ghost use Rattle.last_jumps.specs.Jumps.{behind, last_of};
ghost use Rattle.last_jumps.specs.Kept.{jump_to, jumps_with, nothing_kept, with_one_more, with_stretch};

use circular_buffer::HeapCircularBuffer;
use profile_rows::Jump;
use std::alloc::Global;
use std::marker::Model;
use zs_num::NoMemory;

/// How many jumps are kept.
const KEPT: usize = 16;

/// How many bytes an instruction has.
const INSTRUCTION: u64 = 4;

/// Where a core was last, and its last jumps.
#[derive(Drop)]
pub(crate) struct CoreJumps {
    latest: Option<u64>,
    jumps: HeapCircularBuffer<Jump>,
}

impl Model for CoreJumps {
    ghost use Rattle.std.specs.Prelude.{◌≡◌, ◌≤◌, length};
    ghost use Rattle.last_jumps.specs.Kept.{Kept};

    ghost Value = { Kept };

    ghost view = { λ k. record { latest = k.latest; jumps = k.jumps.items } };

    ghost invariant = { λ k. (k.jumps.capacity ≡ 16) × (length k.jumps.items ≤ 16) };
}

impl CoreJumps {
    /// It was nowhere. No other call but that of its jumps takes memory.
    pub(crate) fn new(alloc: Global) -> Result<CoreJumps, NoMemory>
        ensures { IfOk result (λ kept. kept ≡ nothing_kept) }
    {
        Ok(CoreJumps {
            latest: None,
            jumps: HeapCircularBuffer::with_capacity(alloc, KEPT)?,
        })
    }

    /// It executed an instruction.
    #[inline(always)]
    pub(crate) fn execute(&mut self, pc: u64)
        ensures { self.new ≡ with_one_more pc self.old }
    {
        if let Some(jump) = jump_to(self.latest, pc) {
            self.keep(jump);
        }
        self.latest = Some(pc);
    }

    /// It jumped: where 16 jumps are kept, the oldest one gives way.
    #[inline(never)]
    fn keep(&mut self, jump: Jump)
        ensures { self.new ≡ record { latest = self.old.latest; jumps = last_of 16 (self.old.jumps ++ jump ∷ []) } }
    {
        let _ = self.jumps.push_back(jump);
    }

    /// It executed so many instructions that follow each other, the first of them at `pc`.
    #[inline(always)]
    pub(crate) fn execute_all(&mut self, pc: u64, count: u64)
        requires { pc + 4 * count ≤ 2 ^ 48 }
        ensures { self.new ≡ with_stretch pc count self.old }
    {
        if count > 0 {
            self.execute(pc);
            self.latest = Some(pc + INSTRUCTION * (count - 1));
        }
    }

    /// Its last jumps, where it is to go on at `next`, or nowhere.
    pub(crate) fn jumps(&self, alloc: Global, next: Option<u64>) -> Result<Vec<Jump>, NoMemory>
        ensures { IfOk result (λ jumps. jumps.items ≡ jumps_with next self.now) }
    {
        let mut jumps = self.jumps.to_vec(alloc)?;
        if let Some(jump) = next.and_then(|pc| jump_to(self.latest, pc)) {
            if jumps.len() == KEPT {
                jumps.remove(0);
            }
            jumps.push(jump)?;
        }
        Ok(jumps)
    }
}

/// The jump to an instruction from the one before, if there is one.
#[inline(always)]
fn jump_to(latest: Option<u64>, to: u64) -> Option<Jump>
    ensures { option_to_list result ≡ jump_to latest to }
{
    match latest {
        Some(from) if to != behind(from) => Some(Jump { from, to }),
        _ => None,
    }
}

/// The address behind an instruction.
#[inline(always)]
fn behind(pc: u64) -> u64
    ensures { result ≡ behind pc }
{
    pc.wrapping_add(INSTRUCTION)
}
