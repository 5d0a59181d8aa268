//! A hold of a shard: the shard is taken, serves an access, and is given back.
ghost use Rattle.std.specs.Prelude.{◌≡◌, ◌≢◌, ℕ, ◌+◌, ◌*◌, ◌-◌, ◌<◌, ◌≤◌, ◌^◌, [], ◌∷◌, length, Some, None, IfOk, IfErr, OnOk, IsOk};
ghost use Rattle.zs_num.specs.Request.{bank_of};
ghost use Rattle.shard.specs.Served.{CanServe, KnowsCore, IsServedBy, ShardState, shard_after};
ghost use Rattle.shard_table.specs.declared.view.CoreAccesses.{CoreAccesses};
ghost use Rattle.shard_table.specs.declared.view.ShardAccesses.{ShardAccesses};
ghost use Rattle.shard_table.specs.Access.{IsAccess, IsHeld, IsSameSeat, IsSeatOf};
ghost use Rattle.shard_table.specs.Lives.{MayAsk};
ghost use Rattle.shard_table.specs.Steps.{IsEntryOf, gave_at, taken_at};

use crate::plays::{Ends, Give, Take};
use crate::rule::{Bench, TableSeat};
use crate::seat::{CoreSeat, Held};
use crate::table::ShardTable;
use std::marker::Brand;
use std::sync::Wait;
use std::{hint, thread};
use zs_num::{Cycle, Entry, Request, Stamp};

/// How many words apart the words of two shards are: 128 bytes, so that no two share a pair of
/// cache lines of the host.
pub(crate) const APART: usize = 16;

/// How often a word is looked at before other threads are let run: for less than a microsecond.
const LOOKS: u32 = 200;

impl ShardTable {
    /// Serves an access of the seat's core that starts then, unless another core holds the shard.
    /// The error names that core; the seat's list of accesses is then as before.
    pub fn try_access(
        &self,
        seat: &mut CoreSeat,
        start: Cycle,
        request: Request,
    ) -> Result<Entry, Held>
        requires table { IsSeatOf self.now seat.old }
        requires room { length seat.old.entries < self.now.room }
        requires ask { MayAsk self.now.shards seat.old.core request }
        ensures same { IsSameSeat seat.old seat.new }
        ensures access { IfOk result (λ e. IsAccess seat.old seat.new start request e) }
        ensures found { OnOk result (seat.new.knows.found ≡ seat.old.knows.found) }
        ensures held { IfErr result (λ held. IsHeld seat.old seat.new request held.holder) }
        ensures alone { self.now.cores ≡ 1 → IsOk result }
    {
        shard::laws::cores_stay();
        shard::laws::still_serves();
        let bench = &self.words.shared;
        let bank = self.bank(request);
        let found = take(bench, &mut seat.place, bank, seat.core);
        if found != 0 {
            return Err(Held {
                holder: (found - 1) as u16,
            });
        }
        let entry = serve(
            bench,
            &mut seat.place,
            bank,
            seat.core,
            start,
            seat.last,
            request,
        );
        give::<Brand>(bench, &mut seat.place, bank, entry);
        seat.log.push(entry);
        seat.last = entry.stamp;
        Ok(entry)
    }

    /// Serves an access of the seat's core that starts then. It waits until nobody else holds the
    /// shard.
    pub fn access<R: Wait>(
        &self,
        rt: &R,
        seat: &mut CoreSeat,
        start: Cycle,
        request: Request,
    ) -> Entry
        requires table { IsSeatOf self.now seat.old }
        requires room { length seat.old.entries < self.now.room }
        requires ask { MayAsk self.now.shards seat.old.core request }
        ensures same { IsSameSeat seat.old seat.new }
        ensures access { IsAccess seat.old seat.new start request result }
    {
        for _ in rt.forever() {
            if let Ok(entry) = self.try_access(seat, start, request) {
                return entry;
            }
            self.pause(request);
        }
        unreachable!()
    }

    /// Lets a while pass: until nobody holds the shard of the request, or else until others ran.
    fn pause(&self, request: Request) {
        let word = APART * self.bank(request);
        for _ in 0..LOOKS {
            if self.words.shared.peek(word) == 0 {
                return;
            }
            hint::spin_loop();
        }
        thread::yield_now();
    }
}

/// Takes the shard of a bank, and answers 0. Where another core holds it, answers that core's
/// number plus 1.
fn take(bench: &Bench, place: &mut TableSeat, bank: usize, core: u16) -> u64
    requires table { place.old.table_id ≡ bench.now.table_id }
    requires word { (16 * bank < bench.now.table_id.words) × (16 * bank < 2 ^ 32) }
    requires shard { bank < length bench.now.key.shards.value.items }
    requires slots { place.old.me.1 ≡ [] }
    requires hold { place.old.me.0.hold ≡ None }
    requires part { (part : CoreAccesses) × (place.old.me.0.parts ≡ part ∷ []) × (part.core ≡ core) }
    ensures table { (place.new.table_id ≡ place.old.table_id) × (place.new.id ≡ place.old.id) }
    ensures taken { taken_at bank (core + 1) place.old.me result place.new.me }
{
    shard::laws::last_is_stamp();
    bench.compare_exchange::<Take>(place, APART * bank, 0, core as u64 + 1)
}

/// Serves an access by the shard that the seat has in hand.
fn serve(
    bench: &Bench,
    place: &mut TableSeat,
    bank: usize,
    core: u16,
    start: Cycle,
    last: Stamp,
    request: Request,
) -> Entry
    requires table { place.old.table_id ≡ bench.now.table_id }
    requires hand { (x : ShardState) × (place.old.me.1 ≡ (bank, x) ∷ []) × KnowsCore x core × CanServe x request × (x.last < 2 ^ 62 - 1) }
    requires stamp { last < 2 ^ 62 - 1 }
    ensures table { (place.new.table_id ≡ place.old.table_id) × (place.new.id ≡ place.old.id) }
    ensures served { (x : ShardState) → place.old.me.1 ≡ (bank, x) ∷ []
        → IsServedBy x core start last request result × (place.new.me ≡ (place.old.me.0, (bank, shard_after x result) ∷ [])) }
{
    place
        .slot_mut(bench, bank)
        .serve(core, start, last, request)
}

/// Gives a shard back, after an access.
fn give<E: Ends>(bench: &Bench, place: &mut TableSeat, bank: usize, entry: Entry)
    requires named { entry ≡ E.entry }
    requires table { place.old.table_id ≡ bench.now.table_id }
    requires word { (16 * bank < bench.now.table_id.words) × (16 * bank < 2 ^ 32) }
    requires ends { (part : CoreAccesses) × (served : ShardAccesses) × (x : ShardState) × (place.old.me.0.parts ≡ part ∷ []) × (place.old.me.0.hold ≡ Some served) × (served.shard ≡ bank)
        × (place.old.me.1 ≡ (bank, x) ∷ []) × IsEntryOf place.old.me.0 bank part served entry x }
    ensures table { (place.new.table_id ≡ place.old.table_id) × (place.new.id ≡ place.old.id) }
    ensures gave { gave_at entry bank place.old.me place.new.me }
{
    access_log::laws::one_more_is_stamped();
    bench.store::<Give<E>>(place, APART * bank, 0);
}
