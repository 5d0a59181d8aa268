//! Accesses of two cores to one shard, with outcomes, letters and stamps worked by hand on the
//! numbers of the built-in machine: two sets of one way in each core's own cache, and four of two
//! ways in the shared one.
ghost use Rattle.std.specs.Prelude.{◌≡◌, ◌%◌, ◌<◌, ◌≤◌, Bool, length, IfOk, IfSome, IsTrue, is_some};
ghost use Rattle.machine_desc.specs.Machine.{IsL1};
ghost use Rattle.zs_num.specs.Request.{addr_of, bank_of_line, line_at};
ghost use Rattle.zs_num.specs.Servable.{IsServable, MayFetch};
ghost use Rattle.shard.specs.HaveL1i.{have_l1i};

use crate::checks::is_number;
use crate::machines::two_cores;
use Access::{Fetch, Load, Reserve, Store, StoreIf};
use cache_set::Letter;
use cache_set::Letter::{E, I, M, S};
use elf_load::{Image, load};
use machine_desc::L1;
use shard::Shard;
use std::alloc::Global;
use std::process::Abort;
use std::test::Fail;
use zs_num::{Entry, LINE, Outcome, Request, Stamp};

/// Where memory begins, and its size.
const BASE: u64 = 0x10000;

const SIZE: u64 = 0x100000;

/// An executable of one instruction, 0x00000073, which lies at 0x10000.
static FILE: [u8; 124] = [
    0x7f, 0x45, 0x4c, 0x46, 2, 1, 1, 0, 0, 0, 0, 0, 0, 0, 0, 0, 2, 0, 243, 0, 1, 0, 0, 0, 0, 0, 1,
    0, 0, 0, 0, 0, 64, 0, 0, 0, 0, 0, 0, 0, 0, 0, 0, 0, 0, 0, 0, 0, 0, 0, 0, 0, 64, 0, 56, 0, 1, 0,
    0, 0, 0, 0, 0, 0, 1, 0, 0, 0, 7, 0, 0, 0, 120, 0, 0, 0, 0, 0, 0, 0, 0, 0, 1, 0, 0, 0, 0, 0, 0,
    0, 1, 0, 0, 0, 0, 0, 4, 0, 0, 0, 0, 0, 0, 0, 4, 0, 0, 0, 0, 0, 0, 0, 1, 0, 0, 0, 0, 0, 0, 0,
    0x73, 0, 0, 0,
];

/// The executable in memory.
pub(crate) fn image(alloc: Global) -> Result<Image, Fail>
    ensures base { IfOk result (λ image. image.base ≡ 65536) }
    ensures size { IfOk result (λ image. image.size ≡ 1048576) }
{
    Ok(load(alloc, &FILE, BASE, SIZE)?)
}

/// An access to eight bytes, or the fetch of four.
#[derive(Clone, Copy)]
enum Access {
    Fetch(u64),
    Load(u64),
    Store(u64, u64),
    Reserve(u64),
    /// A store-conditional, and whether it says that it is paired.
    StoreIf(u64, u64, bool),
}

impl Access {
    fn request(self) -> Request
        ensures { (l1i : Bool) → MayFetch l1i result → addr_of result % 8 ≡ 0 → 65536 ≤ addr_of result → addr_of result < 1114112 → IsServable 65536 1048576 l1i result }
    {
        match self {
            Fetch(addr) => Request::Fetch { addr },
            Load(addr) => Request::Load { addr, width: 8 },
            Store(addr, value) => Request::Store {
                addr,
                width: 8,
                value,
            },
            Reserve(addr) => Request::Lr { addr, width: 8 },
            StoreIf(addr, value, paired) => Request::Sc {
                addr,
                width: 8,
                value,
                paired,
            },
        }
    }
}

/// An access of a core, its outcome and its reply, and what line 0x440 then is, which begins at
/// 0x11000: its letters for core 0 and core 1, and whether it is dirty in the shared cache.
type Step = (u16, Access, Outcome, u64, (Letter, Letter), Option<bool>);

/// The number of a shard, a core with its own last stamp, its access, and the stamp of the access.
type Stamped = (u16, u16, Stamp, Access, Stamp);

/// One shard of a machine of two cores, in memory from 0x10000 to 0x110000.
#[derive(Drop)]
struct Tested {
    shard: Shard,
    banks: u16,
    // Whether the machine has instruction caches.
    l1i: bool,
    ghost base: { shard.base ≡ 65536 },
    ghost size: { shard.size ≡ 1048576 },
    ghost cores: { length shard.marks ≡ 2 },
    ghost shards: { shard.caches.shards ≡ banks },
    ghost caches: { have_l1i shard.caches ≡ l1i },
}

impl Tested {
    /// The shard of a number, of so many, with instruction caches if they are given.
    fn fresh(alloc: Global, banks: u16, number: u16, l1i: Option<L1>) -> Result<Self, Fail>
        requires some { 1 ≤ banks }
        requires few { banks ≤ 64 }
        requires l1 { 2 % banks ≡ 0 }
        requires l2 { 4 % banks ≡ 0 }
        requires number { number < banks }
        requires l1i { IfSome l1i (IsL1 banks) }
    {
        let machine = two_cores(alloc, banks, l1i)?;
        let image = image(alloc)?;
        let shard = Shard::new(alloc, &machine, number, &image)?;
        let l1i = l1i.is_some();
        Ok(Tested { shard, banks, l1i })
    }

    /// The line of an address is one of the shard's.
    fn has(&self, addr: u64) -> bool
        ensures { IsTrue result → bank_of_line self.now.shard.caches.shards (line_at addr) ≡ self.now.shard.number }
    {
        self.banks > 0 && addr / LINE % u64::from(self.banks) == u64::from(self.shard.number())
    }

    /// The machine has an instruction cache for an access that wants one.
    fn may_be_asked(&self, request: &Request) -> bool
        ensures { IsTrue result → MayFetch (have_l1i self.now.shard.caches) request.now }
    {
        match *request {
            Request::Fetch { .. } => self.l1i,
            Request::Load { .. } | Request::Lr { .. } => true,
            Request::Store { .. } | Request::Sc { .. } | Request::Amo { .. } => true,
        }
    }

    /// The entry of an access of a core whose own last stamp is `last`.
    #[tactic(auto, unfolding(shard::specs::Served::CanServe))]
    fn ask<R: Abort>(&mut self, rt: &R, core: u16, last: Stamp, access: Access) -> Entry {
        let request = access.request();
        let addr = request.addr();
        assert!(rt; core < 2 && last < 1000 && self.shard.last() < 1000);
        assert!(rt; addr % 8 == 0 && addr >= BASE && addr < BASE + SIZE && self.has(addr));
        assert!(rt; self.may_be_asked(&request));
        self.shard.serve(core, 0, last, request)
    }

    /// The byte at an address of the shard.
    fn byte<R: Abort>(&self, rt: &R, addr: u64) -> u8 {
        assert!(rt; addr >= BASE && addr - BASE < SIZE && self.has(addr));
        self.shard.byte(addr)
    }

    /// The bytes at these addresses are these.
    fn holds<R: Abort>(&self, rt: &R, bytes: &[(u64, u8)]) {
        for &(addr, byte) in bytes {
            is_number(rt, self.byte(rt, addr).into(), byte.into());
        }
    }

    /// Those of the accesses that are to this shard get their stamps, and the latest is `last`.
    fn stamps<R: Abort>(&mut self, rt: &R, list: &[Stamped], last: Stamp) {
        for &(number, core, own_last, access, stamp) in list {
            if number == self.shard.number() {
                let entry = self.ask(rt, core, own_last, access);
                is_number(rt, entry.stamp, stamp);
            }
        }
        self.has_last(rt, last);
    }

    /// The latest stamp is `last`.
    fn has_last<R: Abort>(&self, rt: &R, last: Stamp) {
        is_number(rt, self.shard.last(), last);
    }

    /// It is of a number, and has answered no access.
    fn begins<R: Abort>(&self, rt: &R, number: u16) {
        is_number(rt, self.shard.number().into(), number.into());
        self.has_last(rt, 0);
    }

    /// It goes on with the last stamp of an earlier interval, or with none.
    fn goes_on<R: Abort>(&mut self, rt: &R, earlier: Option<Stamp>) {
        match earlier {
            Some(last) => self.shard.resume(last),
            None => self.shard.restart(),
        }
        self.has_last(rt, earlier.unwrap_or(0));
    }

    /// The letters of line 0x440 for core 0 and core 1, and whether it is dirty in the shared
    /// cache.
    fn line(&self) -> ((Letter, Letter), Option<bool>) {
        let letters = (self.shard.letter(0, 0x440), self.shard.letter(1, 0x440));
        (letters, self.shard.l2_dirty(0x440))
    }

    /// The steps are answered as they say, one after the other.
    fn answers<R: Abort>(&mut self, rt: &R, steps: &[Step]) {
        for &(core, access, outcome, reply, letters, dirty) in steps {
            let entry = self.ask(rt, core, 0, access);
            assert!(rt; (entry.outcome, entry.reply) == (outcome, reply));
            assert!(rt; self.line() == (letters, dirty));
        }
    }
}

const HIT: Outcome = Outcome::Hit;

const UPGRADE: Outcome = Outcome::Upgrade { others: true };

/// No other core has a copy that has to change.
const L2_ALONE: Outcome = Outcome::L2 { others: false };

/// Another core has one.
const L2_OTHERS: Outcome = Outcome::L2 { others: true };

const MISS: Outcome = Outcome::Miss {
    dirty_victim: false,
};

const MISS_DIRTY: Outcome = Outcome::Miss { dirty_victim: true };

const CLEAN: Option<bool> = Some(false);

const DIRTY: Option<bool> = Some(true);

static TURNS: [Step; 4] = [
    (0, Load(0x11000), MISS, 0, (E, I), CLEAN),
    (0, Load(0x11100), MISS, 0, (I, I), CLEAN),
    (0, Load(0x11000), L2_ALONE, 0, (E, I), CLEAN),
    (0, Load(0x11100), L2_ALONE, 0, (I, I), CLEAN),
];

static MODIFIED: [Step; 4] = [
    (0, Store(0x11000, 5), MISS, 0, (M, I), CLEAN),
    (1, Load(0x11100), MISS, 0, (M, I), CLEAN),
    (1, Load(0x11200), MISS_DIRTY, 0, (I, I), None),
    (0, Load(0x11000), MISS, 5, (E, I), CLEAN),
];

static SHARED: [Step; 5] = [
    (0, Load(0x11000), MISS, 0, (E, I), CLEAN),
    (1, Load(0x11008), L2_OTHERS, 0, (S, S), CLEAN),
    (0, Store(0x11008, 7), UPGRADE, 0, (M, I), CLEAN),
    (1, Load(0x11008), L2_OTHERS, 7, (S, S), DIRTY),
    (1, Store(0x11000, 5), UPGRADE, 0, (I, M), DIRTY),
];

static PAIR: [Step; 4] = [
    (0, Reserve(0x11000), MISS, 0, (E, I), CLEAN),
    (0, StoreIf(0x11000, 9, true), HIT, 0, (M, I), CLEAN),
    (0, Load(0x11000), HIT, 9, (M, I), CLEAN),
    (0, StoreIf(0x11000, 9, false), HIT, 1, (M, I), CLEAN),
];

static AFTER_PAIR: [Step; 3] = [
    (1, Store(0x11000, 5), L2_OTHERS, 0, (I, M), DIRTY),
    (0, StoreIf(0x11000, 9, true), L2_OTHERS, 1, (M, I), DIRTY),
    (0, Load(0x11000), HIT, 5, (M, I), DIRTY),
];

static PARTED: [Step; 4] = [
    (0, Reserve(0x11000), MISS, 0, (E, I), CLEAN),
    (1, Store(0x11000, 5), L2_OTHERS, 0, (I, M), CLEAN),
    (0, StoreIf(0x11000, 9, true), L2_OTHERS, 1, (M, I), DIRTY),
    (0, Load(0x11000), HIT, 5, (M, I), DIRTY),
];

static STAMPED: [Stamped; 5] = [
    (0, 0, 0, Load(0x11000), 1),
    (0, 0, 1, Store(0x11080, 3), 2),
    (1, 1, 0, Store(0x11040, 4), 1),
    (0, 1, 1, Load(0x11000), 3),
    (1, 1, 3, Load(0x11040), 4),
];

/// Addresses, and the bytes there at the beginning.
static FIRST_BYTES: [(u64, u8); 3] = [(0x10000, 0x73), (0x10001, 0), (0x10ffff, 0)];

/// A new shard, which is alone, has the number 0 and gave no stamp. It answers the first steps;
/// then it has the bytes, and then it answers the later steps.
fn plays<R: Abort>(
    rt: &R,
    alloc: Global,
    first: &[Step],
    bytes: &[(u64, u8)],
    later: &[Step],
) -> Result<(), Fail> {
    let mut t = Tested::fresh(alloc, 1, 0, None)?;
    t.begins(rt, 0);
    t.answers(rt, first);
    t.holds(rt, bytes);
    t.answers(rt, later);
    Ok(())
}

/// Instruction caches of two sets of one way.
const L1I: L1 = L1 {
    sets: 2,
    ways: 1,
    latency: 1,
};

static FETCHED: [Step; 5] = [
    (0, Fetch(0x11000), MISS, 0, (I, I), CLEAN),
    (0, Fetch(0x11000), HIT, 0, (I, I), CLEAN),
    (0, Store(0x11000, 5), L2_ALONE, 0, (M, I), CLEAN),
    (0, Fetch(0x11000), HIT, 0, (M, I), CLEAN),
    (1, Fetch(0x11000), L2_ALONE, 0, (M, I), CLEAN),
];

static THEN_LOADED: [Step; 2] = [
    (1, Load(0x11100), MISS, 0, (M, I), CLEAN),
    (1, Load(0x11200), MISS_DIRTY, 0, (I, I), None),
];

/// Whether the instruction caches of core 0 and core 1 have line 0x440.
fn has_fetched<R: Abort>(rt: &R, t: &Tested, holds: bool) {
    assert!(rt; t.shard.fetch_holds(0, 0x440) == holds && t.shard.fetch_holds(1, 0x440) == holds);
}

#[test]
fn a_fetched_line_stays_where_it_is_written_and_leaves_with_the_shared_cache(
    rt: HostRuntime,
) -> Result<(), Fail> {
    let mut t = Tested::fresh(rt.alloc(), 1, 0, Some(L1I))?;
    has_fetched(&rt, &t, false);
    t.answers(&rt, &FETCHED);
    has_fetched(&rt, &t, true);
    t.answers(&rt, &THEN_LOADED);
    has_fetched(&rt, &t, false);
    Ok(())
}

#[test]
fn a_shard_begins_with_the_executable(rt: HostRuntime) -> Result<(), Fail> {
    plays(&rt, rt.alloc(), &[], &FIRST_BYTES, &[])
}

#[test]
fn a_line_far_from_the_executable_is_zeros_and_then_what_was_written(
    rt: HostRuntime,
) -> Result<(), Fail> {
    let mut t = Tested::fresh(rt.alloc(), 1, 0, None)?;
    t.holds(&rt, &[(0x8_003f, 0), (0x8_0040, 0), (0x8_0080, 0)]);
    t.ask(&rt, 0, 0, Store(0x8_0040, 0x0102_0304_0506_0708));
    // It takes the way of the line that was written, which comes home.
    t.ask(&rt, 0, 0, Load(0x8_00c0));
    t.holds(&rt, &[(0x8_0040, 8), (0x8_0047, 1), (0x8_0048, 0)]);
    t.holds(
        &rt,
        &[
            (0x8_003f, 0),
            (0x8_0080, 0),
            (0x9_0040, 0),
            (0x1_0000, 0x73),
        ],
    );
    Ok(())
}

#[test]
fn two_lines_of_a_set_of_one_way_take_turns(rt: HostRuntime) -> Result<(), Fail> {
    plays(&rt, rt.alloc(), &TURNS, &[], &[])
}

#[test]
fn a_modified_line_that_is_evicted_is_written_back(rt: HostRuntime) -> Result<(), Fail> {
    plays(&rt, rt.alloc(), &MODIFIED, &[], &[])
}

#[test]
fn two_cores_share_a_line_and_write_it_in_turns(rt: HostRuntime) -> Result<(), Fail> {
    plays(&rt, rt.alloc(), &SHARED, &[], &[])
}

#[test]
fn a_pair_stores_once_and_a_store_conditional_that_fails_is_a_write(
    rt: HostRuntime,
) -> Result<(), Fail> {
    plays(&rt, rt.alloc(), &PAIR, &[(0x11000, 9)], &AFTER_PAIR)
}

#[test]
fn a_store_of_another_core_ends_a_pair(rt: HostRuntime) -> Result<(), Fail> {
    plays(&rt, rt.alloc(), &PARTED, &[], &[])
}

/// The shard of a number, of two, gives the accesses to it their stamps, of which the latest is
/// `last`, and goes on with the last stamp of an earlier interval, or with none.
fn stamps<R: Abort>(
    rt: &R,
    alloc: Global,
    number: u16,
    last: Stamp,
    earlier: Option<Stamp>,
) -> Result<(), Fail>
    requires { number < 2 }
{
    let mut t = Tested::fresh(alloc, 2, number, None)?;
    t.stamps(rt, &STAMPED, last);
    t.goes_on(rt, earlier);
    Ok(())
}

#[test]
fn a_stamp_passes_those_of_the_shard_and_of_the_core(rt: HostRuntime) -> Result<(), Fail> {
    stamps(&rt, rt.alloc(), 0, 3, None)?;
    stamps(&rt, rt.alloc(), 1, 4, Some(9))
}
