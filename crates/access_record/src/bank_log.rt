//! The log of a core's accesses, a byte for each.
ghost use Rattle.std.specs.Prelude.{◌≡◌, ◌+◌, ◌<◌, ◌≤◌, ◌%◌, ◌^◌, ◌++◌, ◌∷◌, [], All, Some, slice_get, map, length, if◌then◌else◌, IfOk, nat_le};
ghost use Rattle.zs_num.specs.declared.entry.Entry.{Entry};
ghost use Rattle.access_log.specs.History.{bank_of_entry};
ghost use Rattle.access_record.specs.BankLogs.{byte_of, makes_events};
ghost use Rattle.access_record.specs.Restamped.{AreSameButStamps, list_like, lists_of_stamped};

use crate::listed::Listed;
use crate::stamped::Stamped;
use std::alloc::Global;
use std::marker::Model;
use zs_num::{Entry, NoMemory, Outcome};

/// The accesses of one core in an interval, in its order, with room for so many. It keeps a byte of
/// each. Contracts see the entries.
#[derive(Drop)]
pub struct BankLog {
    core: u16,
    banks: u16,
    room: u32,
    bytes: Vec<u8>,
    pub(crate) list: Listed,
}

impl Model for BankLog {
    ghost use Rattle.std.specs.Prelude.{◌≤◌, vec_capacity};
    ghost use Rattle.access_record.specs.BankLogs.{BankLogState, IsKept};

    ghost Value = { BankLogState };

    ghost view = { λ l. record { core = l.core; banks = l.banks; entries = l.list.entries; room = l.room } };

    ghost invariant = { λ l. IsKept (record { core = l.core; banks = l.banks; entries = l.list.entries; room = l.room }) l.bytes.items × (l.room ≤ vec_capacity l.bytes) };
}

impl BankLog {
    /// The log of a core that has made no access, where there are so many banks, 1 to 64. It has
    /// room for so many accesses: no other call takes memory.
    pub fn with_room(alloc: Global, core: u16, banks: u16, room: u32) -> Result<Self, NoMemory>
        requires some { 0 < banks }
        requires few { banks ≤ 64 }
        ensures { IfOk result (λ log. log ≡ record { core = core; banks = banks; entries = []; room = room }) }
    {
        Ok(BankLog {
            core,
            banks,
            room,
            bytes: Vec::with_capacity(alloc, room as usize)?,
            list: Listed::new(),
        })
    }

    /// A log without room, which stands where none is.
    pub fn none(alloc: Global) -> Self
        ensures { result ≡ record { core = 0; banks = 1; entries = []; room = 0 } }
    {
        BankLog {
            core: 0,
            banks: 1,
            room: 0,
            bytes: Vec::new(alloc),
            list: Listed::new(),
        }
    }

    /// Adds an access of the core to this bank at the end.
    #[inline(always)]
    pub fn put(&mut self, bank: u16, entry: &Entry)
        requires core { entry.now.core ≡ self.old.core }
        requires bank { bank ≡ bank_of_entry self.old.banks entry.now }
        requires room { length self.old.entries < self.old.room }
        ensures { self.new ≡ record self.old { entries = self.old.entries ++ entry.now ∷ [] } }
    {
        self.bytes.push_reserved(byte(bank, entry.outcome));
        self.list = self.list.then(entry);
    }

    /// How many banks there are.
    #[inline(always)]
    pub fn banks(&self) -> u16
        ensures banks { result ≡ self.now.banks }
        ensures some { 0 < self.now.banks }
        ensures few { self.now.banks ≤ 64 }
        ensures short { self.now.room < 2 ^ 32 }
    {
        self.banks
    }

    /// The core.
    pub fn core(&self) -> u16
        ensures { result ≡ self.now.core }
    {
        self.core
    }

    /// For how many accesses there is room.
    pub fn room(&self) -> u32
        ensures { result ≡ self.now.room }
    {
        self.room
    }

    /// How many accesses there are.
    pub fn len(&self) -> u32
        ensures count { result ≡ length self.now.entries }
        ensures own { All (λ e. e.core ≡ self.now.core) self.now.entries }
    {
        self.bytes.len() as u32
    }

    /// A byte for each access, which `bank_of_byte` and `has_events` read.
    pub fn bytes(&self) -> &[u8]
        ensures bytes { result.now ≡ map (byte_of self.now.banks) self.now.entries }
        ensures own { All (λ e. e.core ≡ self.now.core) self.now.entries }
        ensures some { 0 < self.now.banks }
        ensures few { self.now.banks ≤ 64 }
        ensures room { length self.now.entries ≤ self.now.room }
        ensures short { length self.now.entries < 2 ^ 32 }
    {
        &self.bytes
    }

    /// Whether the access at a place makes events.
    #[inline(always)]
    pub fn has_events_at(&self, place: u32) -> bool
        requires { place < length self.now.entries }
        ensures events { (e : Entry) → slice_get self.now.entries place ≡ Some e → result ≡ makes_events e.outcome }
        ensures few { length self.now.entries < 2 ^ 32 }
    {
        has_events(self.bytes[place as usize])
    }

    /// The bank of the access at a place.
    #[inline(always)]
    pub fn bank_at(&self, place: u32) -> u16
        requires { place < length self.now.entries }
        ensures bank { (e : Entry) → slice_get self.now.entries place ≡ Some e → result ≡ bank_of_entry self.now.banks e }
        ensures own { All (λ e. e.core ≡ self.now.core) self.now.entries }
        ensures some { 0 < self.now.banks }
        ensures few { length self.now.entries < 2 ^ 32 }
    {
        bank_of_byte(self.bytes[place as usize])
    }

    /// The accesses get their stamps, which only contracts see.
    pub fn restamp(&mut self, stamped: &Stamped)
        requires { AreSameButStamps self.old.entries (list_like (lists_of_stamped stamped.now) self.old.entries) }
        ensures { self.new ≡ record self.old { entries = list_like (lists_of_stamped stamped.now) self.old.entries } }
    {
        self.list = self.list.restamped(stamped);
    }

    /// Forgets the accesses, and keeps the room.
    pub fn clear(&mut self)
        ensures { self.new ≡ record self.old { entries = [] } }
    {
        self.bytes.clear();
        self.list = Listed::new();
    }
}

/// The byte of an access to a bank, below 64, with this outcome.
#[inline(always)]
fn byte(bank: u16, outcome: Outcome) -> u8
    requires { bank < 64 }
    ensures { result ≡ bank + (if makes_events outcome then 128 else 0) }
{
    match outcome {
        Outcome::Hit => bank as u8,
        _ => bank as u8 + 128,
    }
}

/// The bank of an access, by its byte.
#[inline(always)]
pub fn bank_of_byte(byte: u8) -> u16
    ensures { result ≡ byte % 64 }
{
    u16::from(byte & 63)
}

/// Whether an access makes events, by its byte.
#[inline(always)]
pub fn has_events(byte: u8) -> bool
    ensures { result ≡ nat_le 128 byte }
{
    byte >= 128
}
