//! The 64 bytes of an event.
ghost use Rattle.std.specs.Prelude.{◌≡◌};
ghost use Rattle.certify.specs.EventsFile as file;
ghost use Rattle.certify.specs.EventsFile.{parent_delay, parent_number, record_bytes, with_time};

use byteorder::{ByteOrder, LittleEndian};
use component::Kind;
use event_graph::{Event, Fired, Parent};

/// How many bytes an event has.
pub(crate) const RECORD_LEN: usize = 64;

/// The bytes of an event that fired so.
#[tactic(auto, unfolding(crate::specs::EventsFile::record_bytes))]
pub(crate) fn record_of(event: &Event, fired: &Fired) -> [u8; RECORD_LEN]
    ensures { result ≡ record_bytes (with_time event.now fired.now) }
{
    let mut record = [0; RECORD_LEN];
    LittleEndian::write_u16(&mut record, event.component);
    LittleEndian::write_u16(&mut record[2..], event.core);
    record[4] = code_of(event.kind);
    record[5] = flags_of(event);
    LittleEndian::write_u16(&mut record[6..], bank_of(event.kind));
    LittleEndian::write_u64(&mut record[8..], row_of(event.kind));
    LittleEndian::write_u64(&mut record[16..], event.min_start);
    LittleEndian::write_u32(&mut record[24..], number_of(event.first));
    LittleEndian::write_u32(&mut record[28..], number_of(event.second));
    LittleEndian::write_u64(&mut record[32..], delay_of(event.first));
    LittleEndian::write_u64(&mut record[40..], delay_of(event.second));
    LittleEndian::write_u64(&mut record[48..], fired.start);
    LittleEndian::write_u64(&mut record[56..], fired.finish);
    record
}

/// The code of a kind.
fn code_of(kind: Kind) -> u8
    ensures { result ≡ file.kind_code kind }
{
    match kind {
        Kind::Lookup => 0,
        Kind::Remote => 1,
        Kind::Fill => 2,
        Kind::Read => 3,
        Kind::Write => 4,
        Kind::Hop => 5,
        Kind::RowRead { .. } => 6,
    }
}

/// The bank that a kind names, 0 where it names none.
fn bank_of(kind: Kind) -> u16
    ensures { result ≡ file.bank_of kind }
{
    match kind {
        Kind::RowRead { bank, .. } => bank,
        _ => 0,
    }
}

/// The row that a kind names, 0 where it names none.
fn row_of(kind: Kind) -> u64
    ensures { result ≡ file.row_of kind }
{
    match kind {
        Kind::RowRead { row, .. } => row,
        _ => 0,
    }
}

/// Whether an event is critical, and which of its parents there are.
fn flags_of(event: &Event) -> u8
    ensures { result ≡ file.flags_of event.now }
{
    u8::from(event.critical)
        + 2 * u8::from(event.first.is_some())
        + 4 * u8::from(event.second.is_some())
}

/// A parent's number, 0 where there is none.
fn number_of(parent: Option<Parent>) -> u32
    ensures { result ≡ parent_number parent }
{
    match parent {
        None => 0,
        Some(parent) => parent.number,
    }
}

/// A parent's delay in cycles, 0 where there is none.
fn delay_of(parent: Option<Parent>) -> u64
    ensures { result ≡ parent_delay parent }
{
    match parent {
        None => 0,
        Some(parent) => parent.delay,
    }
}
