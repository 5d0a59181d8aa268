//! The numbers in the 64 bytes of an event, and whether they stand for one.
ghost use Rattle.std.specs.Prelude.{◌≡◌, ◌+◌, ◌*◌, ◌≤◌, false, is_some, slice_get, length, drop};
ghost use Rattle.std.specs.Option.{option_map_or};
ghost use Rattle.byteorder.specs.Endian.{little_number};
ghost use Rattle.component.specs.Serving.{comp_serves};
ghost use Rattle.certify.specs.EventsFile as file;
ghost use Rattle.certify.specs.EventsFile.{event_of, kind_of_code};
ghost use Rattle.certify.specs.Records as interval;

use crate::record::RECORD_LEN;
use byteorder::{ByteOrder, LittleEndian};
use component::{Comp, Component, Kind};

/// What a cycle or a delay of a file is below.
pub(crate) const CYCLES: u64 = 1 << 60;

/// The code of the kind that names a bank and a row.
const ROW_READ: u8 = 6;

/// The numbers in the 64 bytes of an event.
#[derive(Clone, Copy)]
pub(crate) struct Numbers {
    pub(crate) component: u16,
    pub(crate) core: u16,
    pub(crate) kind: u8,
    pub(crate) flags: u8,
    pub(crate) bank: u16,
    pub(crate) row: u64,
    pub(crate) min_start: u64,
    pub(crate) first: u32,
    pub(crate) second: u32,
    pub(crate) first_delay: u64,
    pub(crate) second_delay: u64,
    pub(crate) start: u64,
    pub(crate) finish: u64,
}

/// The numbers in these bytes.
#[tactic(auto, unfolding(crate::specs::EventsFile::numbers_of))]
pub(crate) fn numbers_of(bytes: &[u8]) -> Numbers
    requires { length bytes.now ≡ 64 }
    ensures { result ≡ file.numbers_of bytes.now }
{
    Numbers {
        component: short_at(bytes, 0),
        core: short_at(bytes, 2),
        kind: bytes[4],
        flags: bytes[5],
        bank: short_at(bytes, 6),
        row: long_at(bytes, 8),
        min_start: long_at(bytes, 16),
        first: number_at(bytes, 24),
        second: number_at(bytes, 28),
        first_delay: long_at(bytes, 32),
        second_delay: long_at(bytes, 40),
        start: long_at(bytes, 48),
        finish: long_at(bytes, 56),
    }
}

/// The numbers of the record at a place among those of an interval.
#[tactic(auto, unfolding(crate::specs::Records::record_at))]
pub(crate) fn record_at(records: &[u8], place: u32) -> Numbers
    requires { 64 * place + 64 ≤ length records.now }
    ensures { result ≡ interval.record_at records.now place }
{
    let at = RECORD_LEN * place as usize;
    numbers_of(&records[at..at + RECORD_LEN])
}

/// The number of two bytes at a place.
fn short_at(bytes: &[u8], at: usize) -> u16
    requires { at + 2 ≤ length bytes.now }
    ensures { result ≡ little_number 2 (drop at bytes.now) }
{
    LittleEndian::read_u16(&bytes[at..])
}

/// The number of four bytes at a place.
pub(crate) fn number_at(bytes: &[u8], at: usize) -> u32
    requires { at + 4 ≤ length bytes.now }
    ensures { result ≡ little_number 4 (drop at bytes.now) }
{
    LittleEndian::read_u32(&bytes[at..])
}

/// The number of eight bytes at a place.
fn long_at(bytes: &[u8], at: usize) -> u64
    requires { at + 8 ≤ length bytes.now }
    ensures { result ≡ little_number 8 (drop at bytes.now) }
{
    LittleEndian::read_u64(&bytes[at..])
}

impl Numbers {
    /// Whether it has a first parent.
    pub(crate) fn has_first(&self) -> bool
        ensures { result ≡ file.has_first self.now }
    {
        2 <= self.flags % 4
    }

    /// Whether it has a second parent.
    pub(crate) fn has_second(&self) -> bool
        ensures { result ≡ file.has_second self.now }
    {
        4 <= self.flags
    }

    /// Its kind, if its code is that of one. A bank and a row that have no meaning are 0.
    pub(crate) fn kind(&self) -> Option<Kind>
        ensures { result ≡ file.kind_in self.now }
    {
        if self.kind == ROW_READ {
            Some(Kind::RowRead {
                bank: self.bank,
                row: self.row,
            })
        } else if self.bank == 0 && self.row == 0 {
            kind_of(self.kind)
        } else {
            None
        }
    }

    /// Whether the numbers of the event at a place have a meaning.
    #[tactic(auto, unfolding(crate::specs::EventsFile::has_meaning))]
    fn has_meaning(&self, place: u32) -> bool
        ensures { result ≡ file.has_meaning place self.now }
    {
        self.flags < 8
            && is_parent(self.has_first(), place, self.first, self.first_delay)
            && is_parent(self.has_second(), place, self.second, self.second_delay)
            && self.min_start < CYCLES
            && self.start < CYCLES
            && self.finish < CYCLES
    }

    /// Whether the numbers at a place stand for an event that one of the components serves.
    pub(crate) fn is_event(&self, comps: &[Comp], place: u32) -> bool
        ensures { result ≡ is_some (event_of comps.now place self.now) }
    {
        match self.kind() {
            Some(kind) => self.has_meaning(place) && is_served(comps, self.component, kind),
            None => false,
        }
    }
}

/// Whether the component of this number is there and serves the kind.
fn is_served(comps: &[Comp], component: u16, kind: Kind) -> bool
    ensures { result ≡ option_map_or (λ c. comp_serves c kind) (slice_get comps.now component) false }
{
    match comps.get(component as usize) {
        Some(component) => component.serves(kind),
        None => false,
    }
}

/// Whether a parent that is there comes before its child; one that is not has no number and no
/// delay.
fn is_parent(there: bool, place: u32, number: u32, delay: u64) -> bool
    ensures { result ≡ file.is_parent there place number delay }
{
    if there {
        number < place && delay < CYCLES
    } else {
        number == 0 && delay == 0
    }
}

/// The kind of a code, where it names no bank and no row.
fn kind_of(code: u8) -> Option<Kind>
    ensures { result ≡ kind_of_code code }
{
    match code {
        0 => Some(Kind::Lookup),
        1 => Some(Kind::Remote),
        2 => Some(Kind::Fill),
        3 => Some(Kind::Read),
        4 => Some(Kind::Write),
        5 => Some(Kind::Hop),
        _ => None,
    }
}
