//! What a core reads its instructions from.
ghost use Rattle.std.specs.Prelude.{◌≡◌, ◌+◌, ◌%◌, ◌<◌, ◌≤◌, ◌^◌, ◌++◌, IfSome, IsSome, IsTrue, List, None, Some};
ghost use Rattle.elf_load.specs.MemoryImage.{MemoryImage};
ghost use Rattle.rv_decode.specs.InstructionTable.{decoded};
ghost use Rattle.rv_core.specs.Fetch.{fetched_at, of_decoded};
ghost use Rattle.rv_core.specs.Decoded.{HasRegisters};
ghost use Rattle.rv_core.specs.Executions.{LeadsTo, LiesIn, Meets};
ghost use Rattle.rv_core.specs.Hits.{HasGoneOn};
ghost use Rattle.rv_core.specs.Told.{told_of, HasToldGoing, Told};

use crate::{Came, Leg, MemoryRange, Port, Ran, Stint};
use elf_load::Image;
use rv_decode::{Inst, decode};

/// What a program has at an address.
#[derive(Clone, Copy)]
pub enum Fetched {
    /// The four bytes are not in one executable segment.
    Outside,
    /// They are a word that is no instruction.
    NoInstruction { word: u32 },
    Instruction(Inst),
}

/// A program in memory, as it was loaded. Stores do not change it.
pub trait Program {
    ghost image: { Self → MemoryImage };

    /// The instruction at an address, if it is decoded already. `near` is what `fetch` keeps.
    fn decoded_at(&self, near: usize, pc: u64) -> Option<&Inst>
        ensures value { IfSome result (λ inst. fetched_at (image self.now) pc ≡ Fetched.Instruction inst.now) }
        ensures registers { IfSome result (λ inst. HasRegisters (Fetched.Instruction inst.now)) };

    /// What the program has at an address. `near` is any number: the program keeps in it where it
    /// looks first.
    fn fetch(&self, near: &mut usize, pc: u64) -> Fetched
        ensures value { result ≡ fetched_at (image self.now) pc }
        ensures registers { HasRegisters result };

    /// Executes instructions that change registers and pc alone, from the one at `pc` on: `most` at
    /// most, or fewer, or none. How many, the program chooses. Where they come to a load or a store
    /// before so many, it may answer the access, for a core whose memory lies there.
    fn run_blocks(&self, registers: &mut [u64; 32], pc: u64, most: u64, memory: &MemoryRange) -> Ran
        requires reach { memory.now.base + memory.now.size ≤ 2 ^ 48 }
        ensures few { result.count ≤ most }
        ensures ran { LeadsTo None result.count (image self.now) registers.old pc registers.new result.pc }
        ensures early { IfSome result.met (λ single. result.count < most) }
        ensures met { IfSome result.met (λ single. Meets (image self.now) memory.now registers.new result.pc single) };

    /// The same of instructions that all lie in one line, the number of which is given.
    fn run_in_line(
        &self,
        registers: &mut [u64; 32],
        pc: u64,
        most: u64,
        memory: &MemoryRange,
        line: u64,
    ) -> Ran
        requires reach { memory.now.base + memory.now.size ≤ 2 ^ 48 }
        ensures few { result.count ≤ most }
        ensures ran { LeadsTo (Some line) result.count (image self.now) registers.old pc registers.new result.pc }
        ensures early { IfSome result.met (λ single. result.count < most) }
        ensures met { IfSome result.met (λ single. Meets (image self.now) memory.now registers.new result.pc single) }
        ensures lies { IfSome result.met (λ single. LiesIn (Some line) result.pc) };

    /// Executes such instructions, and loads and stores that the port serves at once as hits, from
    /// the one at `pc` on, or none: how many, the program chooses. For a core that fetches, and whose
    /// latest fetch was of a line, which is given, it makes the fetches that are hits, too. Where it
    /// comes to a load or a store before the end, it may answer the access.
    fn run_hits<Q: Port>(
        &self,
        registers: &mut [u64; 32],
        pc: u64,
        line: Option<u64>,
        memory: &MemoryRange,
        stint: &Stint,
        port: &mut Q,
    ) -> Came
        requires reach { memory.now.base + memory.now.size ≤ 2 ^ 48 }
        requires base { Q.base port.old ≡ memory.now.base }
        requires size { Q.size port.old ≡ memory.now.size }
        requires l1i { IsSome line → IsTrue (Q.l1i port.old) }
        requires aligned { IsSome line → pc % 4 ≡ 0 }
        requires room { stint.now.accesses ≤ Q.room port.old }
        requires begins { stint.now.clock ≤ stint.now.end }
        ensures gone { HasGoneOn (image self.now) memory.now stint.now Q.gives Q.core Q.logged Q.room result.accesses (record { registers = registers.old; pc = pc; line = line; clock = stint.now.clock; count = 0; port = port.old }) (record { registers = registers.new; pc = result.pc; line = result.line; clock = result.clock; count = result.count; port = port.new }) }
        ensures early { IfSome result.met (λ single. result.clock < stint.now.end) }
        ensures met { IfSome result.met (λ single. Meets (image self.now) memory.now registers.new result.pc single) }
        ensures lies { IfSome result.met (λ single. LiesIn result.line result.pc) }
        ensures aligned { IsSome line → result.pc % 4 ≡ 0 }
        ensures line { IsSome line → IsSome result.line }
        ensures no_line { line ≡ None → result.line ≡ None }
        ensures port_core { Q.core port.new ≡ Q.core port.old }
        ensures port_base { Q.base port.new ≡ Q.base port.old }
        ensures port_size { Q.size port.new ≡ Q.size port.old }
        ensures port_l1i { Q.l1i port.new ≡ Q.l1i port.old };

    /// The same, which tells where the core went: the legs of its way come behind those that are
    /// there, as long as there is room for them. It does not answer an access to which it comes, and
    /// where it made as many accesses as it may, if any, it stops with the last one.
    #[inline(always)]
    fn run_told_hits<Q: Port>(
        &self,
        _registers: &mut [u64; 32],
        _pc: u64,
        _line: Option<u64>,
        _memory: &MemoryRange,
        _stint: &Stint,
        _port: &mut Q,
        _way: &mut Vec<Leg>,
    ) -> Came
        requires reach { _memory.now.base + _memory.now.size ≤ 2 ^ 48 }
        requires base { Q.base _port.old ≡ _memory.now.base }
        requires size { Q.size _port.old ≡ _memory.now.size }
        requires l1i { IsSome _line → IsTrue (Q.l1i _port.old) }
        requires aligned { IsSome _line → _pc % 4 ≡ 0 }
        requires room { _stint.now.accesses ≤ Q.room _port.old }
        requires begins { _stint.now.clock ≤ _stint.now.end }
        ensures gone { (told : List Told) × HasToldGoing (image self.now) _memory.now _stint.now Q.gives Q.core Q.logged Q.room result.accesses (record { registers = _registers.old; pc = _pc; line = _line; clock = _stint.now.clock; count = 0; port = _port.old }) (record { registers = _registers.new; pc = result.pc; line = result.line; clock = result.clock; count = result.count; port = _port.new }) told × (told_of _way.new.items ≡ told_of _way.old.items ++ told) }
        ensures aligned { IsSome _line → result.pc % 4 ≡ 0 }
        ensures line { IsSome _line → IsSome result.line }
        ensures no_line { _line ≡ None → result.line ≡ None }
        ensures port_core { Q.core _port.new ≡ Q.core _port.old }
        ensures port_base { Q.base _port.new ≡ Q.base _port.old }
        ensures port_size { Q.size _port.new ≡ Q.size _port.old }
        ensures port_l1i { Q.l1i _port.new ≡ Q.l1i _port.old }
    {
        Came::nowhere(_pc, _line, _stint.clock)
    }
}

impl Program for Image {
    ghost image = { λ i. i };

    #[inline(always)]
    fn decoded_at(&self, _near: usize, _pc: u64) -> Option<&Inst> {
        None
    }

    #[inline(always)]
    #[tactic(auto, unfolding(crate::specs::Fetch::fetched_at))]
    fn fetch(&self, near: &mut usize, pc: u64) -> Fetched {
        match self.word_near(near, pc) {
            Some(word) => of_word(word),
            None => Fetched::Outside,
        }
    }

    #[inline(always)]
    fn run_blocks(
        &self,
        _registers: &mut [u64; 32],
        pc: u64,
        _most: u64,
        _memory: &MemoryRange,
    ) -> Ran {
        Ran::nowhere(pc)
    }

    #[inline(always)]
    fn run_in_line(
        &self,
        _registers: &mut [u64; 32],
        pc: u64,
        _most: u64,
        _memory: &MemoryRange,
        _line: u64,
    ) -> Ran {
        Ran::nowhere(pc)
    }

    #[inline(always)]
    fn run_hits<Q: Port>(
        &self,
        _registers: &mut [u64; 32],
        pc: u64,
        line: Option<u64>,
        _memory: &MemoryRange,
        stint: &Stint,
        _port: &mut Q,
    ) -> Came {
        Came::nowhere(pc, line, stint.clock)
    }
}

/// The instruction that a word is, if it is one.
fn of_word(word: u32) -> Fetched
    ensures value { result ≡ of_decoded word (decoded word) }
    ensures registers { HasRegisters result }
{
    match decode(word) {
        Some(inst) => Fetched::Instruction(inst),
        None => Fetched::NoInstruction { word },
    }
}
