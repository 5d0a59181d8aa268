//! Memory as one list of bytes.
ghost use Rattle.std.specs.Prelude.{◌≡◌, ◌+◌, ◌-◌, ◌≤◌, ◌<◌, true, length, slice_index, IfOk, IsTrue};
ghost use Rattle.zs_num.specs.Servable.{IsServable};
ghost use Rattle.flat_memory.specs.FlatMemory.{is_reserved as is_reserved_by, loaded, memory_after, memory_number, memory_reply, written};

use crate::numbers;
use crate::reservation::{Reservation, end_others, is_reserved};
use elf_load::Image;
use rv_alu::amo;
use std::alloc::Global;
use std::marker::Model;
use zs_num::{NoMemory, Request};

/// The memory of a machine, from its first address on, and what each core has reserved.
#[derive(Drop)]
pub struct FlatMemory {
    base: u64,
    bytes: Vec<u8>,
    reservations: Vec<Option<Reservation>>,
}

impl Model for FlatMemory {
    ghost use Rattle.flat_memory.specs.FlatMemory.{MemoryState};

    ghost Value = { MemoryState };

    ghost view = { λ m. record { base = m.base; bytes = m.bytes.items; reservations = m.reservations.items } };
}

impl FlatMemory {
    /// What memory holds when an executable was loaded.
    pub fn loaded(alloc: Global, image: &Image, cores: u16) -> Result<Self, NoMemory>
        ensures value { IfOk result (λ memory. memory ≡ loaded image.now cores) }
        ensures base { IfOk result (λ memory. memory.base ≡ image.now.base) }
        ensures size { IfOk result (λ memory. length memory.bytes ≡ image.now.size) }
        ensures cores { IfOk result (λ memory. length memory.reservations ≡ cores) }
    {
        let base = image.base();
        let mut bytes = vec![in alloc; 0; image.size() as usize]?;
        image.copy_to(base, &mut bytes);
        let reservations = vec![in alloc; None; usize::from(cores)]?;
        Ok(FlatMemory {
            base,
            bytes,
            reservations,
        })
    }

    /// The byte at an address.
    pub fn byte(&self, addr: u64) -> u8
        requires begins { self.now.base ≤ addr }
        requires ends { addr < self.now.base + length self.now.bytes }
        ensures { result ≡ slice_index self.now.bytes (addr - self.now.base) }
    {
        self.bytes[(addr - self.base) as usize]
    }

    /// Serves an access of a core, and answers its reply.
    #[inline]
    pub fn serve(&mut self, core: u16, request: Request) -> u64
        requires core { core < length self.old.reservations }
        requires servable { IsServable self.old.base (length self.old.bytes) true request }
        ensures reply { result ≡ memory_reply self.old core request }
        ensures after { self.new ≡ memory_after self.old core request }
        ensures base { self.new.base ≡ self.old.base }
        ensures size { length self.new.bytes ≡ length self.old.bytes }
        ensures cores { length self.new.reservations ≡ length self.old.reservations }
    {
        match request {
            Request::Load { addr, width } => self.number(addr, width),
            Request::Store { addr, width, value } => {
                self.write(core, addr, width, value);
                0
            }
            Request::Lr { addr, width } => {
                self.reservations[usize::from(core)] = Some(Reservation { addr, width });
                self.number(addr, width)
            }
            Request::Sc {
                addr,
                width,
                value,
                ..
            } => self.store_conditional(core, addr, width, value),
            Request::Amo {
                op,
                addr,
                width,
                value,
            } => {
                let old = self.number(addr, width);
                self.write(core, addr, width, amo(op, width, old, value));
                old
            }
            Request::Fetch { .. } => 0,
        }
    }

    /// Stores where the core has reserved the bytes, and ends what it has reserved.
    #[tactic(auto, unfolding(crate::specs::FlatMemory::is_reserved))]
    fn store_conditional(&mut self, core: u16, addr: u64, width: u8, value: u64) -> u64
        requires core { core < length self.old.reservations }
        requires few { width ≤ 8 }
        requires begins { self.old.base ≤ addr }
        requires ends { addr + width ≤ self.old.base + length self.old.bytes }
        ensures reply { (paired : _) → result ≡ memory_reply self.old core (Request.Sc width paired addr value) }
        ensures after { (paired : _) → self.new ≡ memory_after self.old core (Request.Sc width paired addr value) }
        ensures base { self.new.base ≡ self.old.base }
        ensures size { length self.new.bytes ≡ length self.old.bytes }
        ensures cores { length self.new.reservations ≡ length self.old.reservations }
    {
        let stores = is_reserved(self.reservations[usize::from(core)], addr, width);
        if stores {
            self.write(core, addr, width, value);
        }
        self.reservations[usize::from(core)] = None;
        if stores { 0 } else { 1 }
    }

    /// The number in so many bytes from an address on.
    fn number(&self, addr: u64, width: u8) -> u64
        requires some { 1 ≤ width }
        requires few { width ≤ 8 }
        requires begins { self.now.base ≤ addr }
        requires ends { addr + width ≤ self.now.base + length self.now.bytes }
        ensures { result ≡ memory_number self.now addr width }
    {
        numbers::read(&self.bytes, (addr - self.base) as usize, width)
    }

    /// Stores the low bytes of a number for a core.
    #[tactic(auto, unfolding(crate::specs::FlatMemory::written))]
    fn write(&mut self, core: u16, addr: u64, width: u8, value: u64)
        requires few { width ≤ 8 }
        requires begins { self.old.base ≤ addr }
        requires ends { addr + width ≤ self.old.base + length self.old.bytes }
        ensures value { self.new ≡ written self.old core addr width value }
        ensures base { self.new.base ≡ self.old.base }
        ensures size { length self.new.bytes ≡ length self.old.bytes }
        ensures cores { length self.new.reservations ≡ length self.old.reservations }
    {
        numbers::write(&mut self.bytes, (addr - self.base) as usize, width, value);
        end_others(&mut self.reservations, core, addr);
    }
}
