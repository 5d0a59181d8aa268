//! What is kept of an access that makes events.
ghost use Rattle.std.specs.Prelude.{◌≡◌, ◌+◌, ◌*◌, ◌<◌, ◌≤◌, ◌^◌, ◌/◌, Bool, if◌then◌else◌};
ghost use Rattle.zs_num.specs.declared.request.Request.TheVariants.{Fetch, Load};
ghost use Rattle.access_record.specs.Records.{entry_of, record_of};

use crate::outcomes::{number_of, outcome_of};
use std::marker::Model;
use zs_num::{Cycle, Entry, LINE, Request};

/// What the weave needs of an access that makes events, in 8 bytes. Whose access it is, when the
/// interval began and where memory begins are the same for many, and are known beside it.
#[derive(Drop)]
pub struct Record {
    // How many cycles after the interval's begin.
    start: u32,
    // The line, counted from that of the first byte of memory, in 28 bits, the number of the outcome
    // in 3, and a bit for a fetch.
    place: u32,
}

impl Model for Record {
    ghost use Rattle.std.specs.Prelude.{◌/◌, ◌%◌, ◌==◌};
    ghost use Rattle.access_record.specs.Outcomes.{outcome_of};
    ghost use Rattle.access_record.specs.Records.{RecordState};

    ghost Value = { RecordState };

    ghost view = { λ r. record { start = r.start; line = r.place / 16; outcome = outcome_of (r.place / 2 % 8); fetch = r.place % 2 == 1 } };
}

impl Record {
    /// The record of an access, in an interval that began at this cycle, where memory begins at
    /// this address.
    #[inline(always)]
    pub fn of(entry: &Entry, begin: Cycle, base: u64) -> Record
        ensures { result ≡ record_of begin base entry.now }
    {
        let start = entry.start.saturating_sub(begin) % (1 << 32);
        let line = entry.request.line().saturating_sub(base / LINE) % (1 << 28);
        let met = number_of(entry.outcome) * 2 + u32::from(entry.request.is_fetch());
        Record {
            start: start as u32,
            place: line as u32 * 16 + met,
        }
    }

    /// An access of this core for which it stands, in that interval and that memory: it makes the
    /// same events.
    #[inline(always)]
    pub fn entry(&self, core: u16, begin: Cycle, base: u64) -> Entry
        requires begin { begin < 2 ^ 63 }
        requires base { base < 2 ^ 63 }
        ensures { result ≡ entry_of core begin base self.now }
    {
        let line = base / LINE + u64::from(self.place / 16);
        Entry {
            core,
            stamp: 0,
            start: begin + u64::from(self.start),
            request: request(line * LINE, self.place % 2 == 1),
            reply: 0,
            outcome: outcome_of(self.place / 2 % 8),
        }
    }
}

/// The load or the fetch of a byte.
#[inline(always)]
fn request(addr: u64, fetch: bool) -> Request
    ensures { result ≡ (if fetch then Fetch addr else Load 1 addr) }
{
    if fetch {
        Request::Fetch { addr }
    } else {
        Request::Load { addr, width: 1 }
    }
}
