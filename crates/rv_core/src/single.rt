//! Loads and stores that make one access.
ghost use Rattle.std.specs.Prelude.{◌≡◌, ◌+◌, ◌<◌, ◌≤◌, ◌^◌, IfSome};
ghost use Rattle.rv_core.specs.Accesses.{load_requests, store_requests};
ghost use Rattle.rv_core.specs.CoreState.{CoreState, ToNothing, ToRegister};
ghost use Rattle.rv_core.specs.Effect.{accesses, effect, loads, stores};
ghost use Rattle.rv_core.specs.Single.{access_of, begun, is_single, single_load, single_store};

use crate::loads_stores::is_in_line;
use crate::replies::low_bytes;
use crate::{Core, Destination, MemoryRange};
use rv_decode::{Inst, Name};
use zs_num::Request;

/// The one access of a load or a store, in memory and within a line.
#[derive(Clone, Copy)]
pub enum Single {
    /// A load from an address on, to a register.
    Load { addr: u64, destination: Destination },
    /// A store of so many bytes, 1 to 8, from an address on.
    Store { addr: u64, width: u8, value: u64 },
}

impl Single {
    /// The access of a load of so many bytes as its destination has, of a core whose memory lies
    /// there: None where the bytes are not all in memory, or not in one line.
    #[inline(always)]
    #[tactic(auto, unfolding(crate::specs::Accesses::load_requests, crate::specs::Effect::accesses))]
    pub fn load(memory: &MemoryRange, addr: u64, destination: Destination) -> Option<Self>
        requires reach { memory.now.base + memory.now.size ≤ 2 ^ 48 }
        ensures value { result ≡ single_load memory.now addr destination }
        ensures begins { IfSome result (λ single. (core : CoreState) → core.memory ≡ memory.now → begun single core ≡ accesses addr destination.width (load_requests addr destination.width) (ToRegister destination) core) }
    {
        if is_single(memory, addr, destination.width) {
            Some(Single::Load { addr, destination })
        } else {
            None
        }
    }

    /// That of a store of so many of a number's lowest bytes, 8 at most.
    #[inline(always)]
    #[tactic(auto, unfolding(crate::specs::Accesses::store_requests, crate::specs::Effect::accesses))]
    pub fn store(memory: &MemoryRange, addr: u64, width: u8, number: u64) -> Option<Self>
        requires reach { memory.now.base + memory.now.size ≤ 2 ^ 48 }
        requires few { width ≤ 8 }
        ensures value { result ≡ single_store memory.now addr width number }
        ensures begins { IfSome result (λ single. (core : CoreState) → core.memory ≡ memory.now → begun single core ≡ accesses addr width (store_requests addr width number) ToNothing core) }
    {
        if is_single(memory, addr, width) {
            let value = low_bytes(width, number);
            Some(Single::Store { addr, width, value })
        } else {
            None
        }
    }

    /// The access.
    #[inline(always)]
    pub fn request(self) -> Request
        ensures { result ≡ access_of self }
    {
        match self {
            Single::Load { addr, destination } => Request::Load {
                addr,
                width: destination.width,
            },
            Single::Store { addr, width, value } => Request::Store { addr, width, value },
        }
    }
}

impl Core {
    /// The access of a load or a store, where it is one. The core is not changed: an instruction
    /// that is to make no other access is not put down as in progress, to be read back for its
    /// reply.
    #[inline(always)]
    #[tactic(auto, unfolding(crate::specs::Effect::effect))]
    pub(crate) fn single(&self, inst: &Inst) -> Option<Single>
        requires rs1 { inst.now.rs1 < 32 }
        requires rs2 { inst.now.rs2 < 32 }
        ensures { IfSome result (λ single. begun single self.now ≡ effect inst.now.name inst.now self.now) }
    {
        match inst.name {
            Name::Lb => self.single_load(1, true, inst),
            Name::Lh => self.single_load(2, true, inst),
            Name::Lw => self.single_load(4, true, inst),
            Name::Ld => self.single_load(8, true, inst),
            Name::Lbu => self.single_load(1, false, inst),
            Name::Lhu => self.single_load(2, false, inst),
            Name::Lwu => self.single_load(4, false, inst),
            Name::Sb => self.single_store(1, inst),
            Name::Sh => self.single_store(2, inst),
            Name::Sw => self.single_store(4, inst),
            Name::Sd => self.single_store(8, inst),
            _ => None,
        }
    }

    /// The access of a load of so many bytes, where it is one.
    #[inline(always)]
    fn single_load(&self, width: u8, signed: bool, inst: &Inst) -> Option<Single>
        requires rs1 { inst.now.rs1 < 32 }
        ensures { IfSome result (λ single. begun single self.now ≡ loads width signed inst.now self.now) }
    {
        let addr = self.reg(inst.rs1).wrapping_add(inst.imm.cast_unsigned());
        let rd = u16::from(inst.rd);
        Single::load(self.memory(), addr, Destination { rd, width, signed })
    }

    /// The access of a store of the lowest bytes of rs2, where it is one.
    #[inline(always)]
    fn single_store(&self, width: u8, inst: &Inst) -> Option<Single>
        requires few { width ≤ 8 }
        requires rs1 { inst.now.rs1 < 32 }
        requires rs2 { inst.now.rs2 < 32 }
        ensures { IfSome result (λ single. begun single self.now ≡ stores width inst.now self.now) }
    {
        let addr = self.reg(inst.rs1).wrapping_add(inst.imm.cast_unsigned());
        Single::store(self.memory(), addr, width, self.reg(inst.rs2))
    }
}

/// Whether so many bytes from an address on are in memory, and in one line.
#[inline(always)]
pub fn is_single(memory: &MemoryRange, addr: u64, width: u8) -> bool
    requires { memory.now.base + memory.now.size ≤ 2 ^ 48 }
    ensures { result ≡ is_single memory.now addr width }
{
    memory.has(addr, u64::from(width)) && is_in_line(addr, width)
}
