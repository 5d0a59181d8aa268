//! What is kept of accesses where their entries are not: bytes, orders and records by hand.
ghost use Rattle.std.specs.Prelude.{◌≡◌, ◌%◌, ◌/◌, [], ◌∷◌, IfOk};
ghost use Rattle.zs_num.specs.declared.entry.Outcome.TheVariants.{Hit};
ghost use Rattle.zs_num.specs.declared.request.Request.TheVariants.{Load};

use access_record::{
    BankLog, OrderBuffers, Record, RecordLog, Turns, bank_of_byte, has_events, recorded_cores,
};
use std::alloc::Global;
use std::process::Abort;
use std::test::Fail;
use zs_num::{Entry, NoMemory, Outcome, Request, Stamp};

const MISS: Outcome = Outcome::Miss { dirty_victim: true };

/// A load of a core.
fn load(core: u16, stamp: Stamp, addr: u64, outcome: Outcome) -> Entry
    ensures { result ≡ record { core = core; stamp = stamp; start = 10005; request = Load 8 addr; reply = 7; outcome = outcome } }
{
    Entry {
        core,
        stamp,
        start: 10_005,
        request: Request::Load { addr, width: 8 },
        reply: 7,
        outcome,
    }
}

/// Accesses of core 3 to banks 0, 1 and 3 of four.
fn on_four_banks(alloc: Global) -> Result<BankLog, NoMemory> {
    let mut log = BankLog::with_room(alloc, 3, 4, 3)?;
    log.put(0, &load(3, 1, 65_536, Outcome::Hit));
    log.put(1, &load(3, 2, 65_600, MISS));
    log.put(3, &load(3, 3, 65_728, Outcome::Upgrade { others: false }));
    Ok(log)
}

/// Checks bytes.
fn are_bytes(rt: &impl Abort, found: &[u8], wanted: &[u8]) {
    assert!(rt; found == wanted);
}

#[test]
fn a_byte_is_the_bank_and_a_bit_for_events(rt: HostRuntime) -> Result<(), Fail> {
    let mut log = on_four_banks(rt.alloc())?;
    are_bytes(&rt, log.bytes(), &[0, 129, 131]);
    assert!(&rt; log.core() == 3 && log.banks() == 4 && log.len() == 3);
    log.clear();
    are_bytes(&rt, log.bytes(), &[]);
    Ok(())
}

#[test]
fn a_byte_is_read_back(rt: HostRuntime) {
    assert!(&rt; bank_of_byte(131) == 3 && has_events(131));
    assert!(&rt; bank_of_byte(63) == 63 && !has_events(63));
}

/// The log of a core with one access to a bank of two.
fn one_access(
    alloc: Global,
    core: u16,
    bank: u16,
    stamp: Stamp,
    addr: u64,
) -> Result<BankLog, NoMemory>
    requires { bank ≡ addr / 64 % 2 }
    ensures { IfOk result (λ log. log ≡ record { core = core; banks = 2; entries = record { core = core; stamp = stamp; start = 10005; request = Load 8 addr; reply = 7; outcome = Hit } ∷ []; room = 1 }) }
{
    let mut log = BankLog::with_room(alloc, core, 2, 1)?;
    log.put(bank, &load(core, stamp, addr, Outcome::Hit));
    Ok(log)
}

/// The cores in recorded order, where core 1 took its turn first and both went to one bank.
fn on_one_bank(alloc: Global, buffers: &mut OrderBuffers) -> Result<Vec<u16>, NoMemory> {
    let first = one_access(alloc, 0, 0, 2, 65_536)?;
    let second = one_access(alloc, 1, 0, 1, 65_536)?;
    recorded_cores(alloc, &[first, second], Turns::Listed(&[1, 0]), 2, buffers)
}

/// The same, where they went to different banks.
fn on_two_banks(alloc: Global, buffers: &mut OrderBuffers) -> Result<Vec<u16>, NoMemory> {
    let first = one_access(alloc, 0, 1, 1, 65_600)?;
    let second = one_access(alloc, 1, 0, 1, 65_536)?;
    recorded_cores(alloc, &[first, second], Turns::Listed(&[1, 0]), 2, buffers)
}

/// Checks cores.
fn are_cores(rt: &impl Abort, found: &[u16], wanted: &[u16]) {
    assert!(rt; found == wanted);
}

#[test]
fn turns_count_only_at_one_bank(rt: HostRuntime) -> Result<(), Fail> {
    // What the first leaves goes on to the second.
    let mut buffers = OrderBuffers::none();
    are_cores(&rt, &on_one_bank(rt.alloc(), &mut buffers)?, &[1, 0]);
    are_cores(&rt, &on_two_banks(rt.alloc(), &mut buffers)?, &[0, 1]);
    Ok(())
}

/// What the log of core 2 gives back of a load, in an interval that begins at 10,000.
fn kept(rt: &(impl Abort + AllocGlobal)) -> Entry {
    let mut log = RecordLog::with_room(rt.alloc(), 2, 65_536, 1).expect(rt, "memory");
    log.begin(10_000);
    log.put(&load(2, 4, 65_612, MISS));
    log.entry(0)
}

/// Checks an entry.
fn is_entry(rt: &impl Abort, found: &Entry, wanted: &Entry) {
    assert!(rt; *found == *wanted);
}

/// A load of the first byte of line 1025.
static OF_THE_LINE: Entry = Entry {
    core: 2,
    stamp: 0,
    start: 10_005,
    request: Request::Load {
        addr: 65_600,
        width: 1,
    },
    reply: 0,
    outcome: MISS,
};

#[test]
fn a_record_keeps_start_line_and_outcome(rt: HostRuntime) {
    is_entry(&rt, &kept(&rt), &OF_THE_LINE);
}

/// A fetch of core 1 from the last line that a record reaches, as late as one does.
static FAR: Entry = Entry {
    core: 1,
    stamp: 0,
    start: 4_294_967_295,
    request: Request::Fetch {
        addr: 17_179_934_656,
    },
    reply: 0,
    outcome: Outcome::L2 { others: true },
};

#[test]
fn a_record_keeps_what_is_far_and_late(rt: HostRuntime) {
    is_entry(&rt, &Record::of(&FAR, 0, 65_536).entry(1, 0, 65_536), &FAR);
}
