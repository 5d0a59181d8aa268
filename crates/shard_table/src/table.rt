//! The table: it is made of shards, and closed when nobody holds a shard.
ghost use Rattle.std.specs.Prelude.{◌≡◌, ℕ, ◌<◌, ◌≤◌, ◌^◌, [], length, map, slice_get, vec_capacity, Some, IfOk, IfErr};
ghost use Rattle.std.specs.Mem.Slots.{slots_items, slots_len, IsFull};
ghost use Rattle.zs_num.specs.Request.{bank_of};
ghost use Rattle.shard.specs.Served.{ShardState, resumed};
ghost use Rattle.shard_table.specs.Access.{AreAllSeats, AreNewSeats, AreWhole, recorded_entries, restarted_shards};
ghost use Rattle.shard_table.specs.Lives.{AreNew};
ghost use Rattle.shard_table.specs.Buffers.{new_logs};
ghost use Rattle.shard_table.specs.Tables.{resumed_all, table_state_of};
ghost use Rattle.shard_table.specs.Views.{first_view};

use crate::buffers::Buffers;
use crate::plays::Glue;
use crate::rule::{Bench, Opening, TableSeat, Words};
use crate::seat::CoreSeat;
use access_log::CoreLog;
use atomic_table::Closed;
use division::remainder;
use shard::Shard;
use std::alloc::Global;
use std::marker::Model;
use std::snapshot::Snapshot;
use zs_num::{NoMemory, Request, Stamp};

/// Shards that cores share, each core in a thread of its own.
#[derive(Drop)]
pub struct ShardTable {
    pub(crate) words: Words,
    // How many shards there are.
    count: u64,
    // Room for the shards and the logs when the table is closed.
    shards: Vec<Shard>,
    logs: Vec<CoreLog>,
}

impl Model for ShardTable {
    ghost use Rattle.shard_table.specs.Access.{TableState};
    ghost use Rattle.shard_table.specs.Tables.{IsTable, table_state_of};

    ghost Value = { TableState };

    ghost view = { λ t. table_state_of t.words.shared.table_id t.words.shared.key };

    ghost invariant = { λ t. IsTable (table_state_of t.words.shared.table_id t.words.shared.key) t.count t.shards t.logs };
}

impl ShardTable {
    /// A table of shards that so many cores share, of which each makes at most `room` accesses, and
    /// the seat of each core, in order. All last stamps are 0. Where memory runs out, the shards
    /// come back as they were.
    pub fn make(
        alloc: Global,
        shards: Vec<Shard>,
        cores: u16,
        room: u32,
    ) -> Result<(Self, Vec<CoreSeat>), (NoMemory, Vec<Shard>)>
        requires numbers { (number : ℕ) (shard : ShardState) → slice_get shards.items number ≡ Some shard → shard.number ≡ number }
        requires some { 0 < length shards.items }
        requires few { length shards.items < 2 ^ 16 }
        requires cores { 0 < cores }
        ensures table { IfOk result (λ made. (made.0.shards ≡ restarted_shards shards.items) × (made.0.cores ≡ cores) × (made.0.room ≡ room)) }
        ensures seats { IfOk result (λ made. AreNewSeats made.0 made.1.items) }
        ensures err { IfErr result (λ back. back.1.items ≡ shards.items) }
    {
        ShardTable::make_over(alloc, shards, cores, room, Vec::new(alloc))
    }

    /// A table of shards that so many cores share, of which each makes at most `room` accesses, and
    /// the seat of each core, in order. All last stamps are 0. Where memory runs out, the shards
    /// come back as they were. The memory of the logs that an earlier table handed back is taken
    /// first.
    pub fn make_over(
        alloc: Global,
        mut shards: Vec<Shard>,
        cores: u16,
        room: u32,
        earlier: Vec<CoreLog>,
    ) -> Result<(Self, Vec<CoreSeat>), (NoMemory, Vec<Shard>)>
        requires numbers { (number : ℕ) (shard : ShardState) → slice_get shards.items number ≡ Some shard → shard.number ≡ number }
        requires some { 0 < length shards.items }
        requires few { length shards.items < 2 ^ 16 }
        requires cores { 0 < cores }
        ensures table { IfOk result (λ made. (made.0.shards ≡ restarted_shards shards.items) × (made.0.cores ≡ cores) × (made.0.room ≡ room)) }
        ensures seats { IfOk result (λ made. AreNewSeats made.0 made.1.items) }
        ensures err { IfErr result (λ back. back.1.items ≡ shards.items) }
    {
        let memory = match Buffers::new(alloc, &shards, cores, room, earlier) {
            Ok(memory) => memory,
            Err(error) => return Err((error, shards)),
        };
        let Buffers {
            words,
            stamps,
            logs,
            seats: no_seats,
            shards: no_shards,
            closed,
        } = memory;
        restart_all(&mut shards);
        let opening = Opening {
            shards: Snapshot::of(&shards),
            cores,
            room,
        };
        let count = shards.len() as u64;
        match Words::new(alloc, &words, shards, &opening) {
            Ok((words, place)) => {
                let table = ShardTable {
                    words,
                    count,
                    shards: no_shards,
                    logs: closed,
                };
                let seats = seats(&table.words.shared, place, logs, no_seats, cores);
                Ok((table, seats))
            }
            Err(refused) => Err((NoMemory, resume_all(refused.slots, stamps, no_shards))),
        }
    }

    /// The shards in order of their numbers, and the logs in the order of the seats handed in, when
    /// all cores have made their accesses.
    pub fn close(self, mut seats: Vec<CoreSeat>) -> (Vec<Shard>, Vec<CoreLog>)
        requires { AreAllSeats self seats.items }
        ensures logs { map (λ log. log.entries) result.1.items ≡ map (λ seat. seat.entries) seats.items }
        ensures whole { AreWhole self (recorded_entries seats.items) seats.items result.0.items }
    {
        access_log::laws::stamps_rise();
        access_log::laws::cores_decide_the_order();
        access_log::laws::recorded_order_keeps_the_stamps();
        access_log::laws::each_has_its_own::<Shard>();
        let ShardTable {
            words,
            count: _,
            shards,
            mut logs,
        } = self;
        let CoreSeat { mut place, log, .. } = seats.remove(0);
        logs.push_reserved(log);
        while !seats.is_empty() {
            let CoreSeat {
                place: other,
                log,
                ..
            } = seats.remove(0);
            words.shared.join_seat::<Glue>(&mut place, other);
            logs.push_reserved(log);
        }
        (taken_out(words.close_with(place), shards), logs)
    }

    /// The bank of a request, which is the number of the shard that has its line.
    pub(crate) fn bank(&self, request: Request) -> usize
        ensures bank { result ≡ bank_of (length self.now.shards) request }
        ensures within { result < length self.now.shards }
    {
        remainder(request.line(), self.count) as usize
    }
}

/// The seats of all cores, in order, of which this is the first.
fn seats(
    bench: &Bench,
    place: TableSeat,
    mut logs: Vec<CoreLog>,
    mut seats: Vec<CoreSeat>,
    cores: u16,
) -> Vec<CoreSeat>
    requires table { place.table_id ≡ bench.now.table_id }
    requires words { 0 < bench.now.table_id.words }
    requires key { AreNew bench.now.key.shards.value.items × (bench.now.key.cores ≡ cores) × (0 < cores) }
    requires first { place.me ≡ (first_view bench.now.key.shards.value.items cores bench.now.key.room, []) }
    requires logs { logs.items ≡ new_logs cores bench.now.key.room }
    requires room { (seats.items ≡ []) × (cores ≤ vec_capacity seats) }
    ensures { AreNewSeats (table_state_of bench.now.table_id bench.now.key) result.items }
{
    seats.push_reserved(CoreSeat {
        place,
        log: logs.remove(0),
        last: 0,
        core: 0,
    });
    for core in 1..cores {
        let seat = seats[0].next(bench, logs.remove(0), core);
        seats.push_reserved(seat);
    }
    seats
}

/// Sets the last stamps of all shards to 0.
fn restart_all(shards: &mut [Shard])
    ensures { shards.new ≡ restarted_shards shards.old }
{
    for shard in shards {
        shard.restart();
    }
}

/// Sets the last stamps of shards to what they were, and puts the shards into another list with
/// room.
fn resume_all(mut shards: Vec<Shard>, mut stamps: Vec<Stamp>, mut back: Vec<Shard>) -> Vec<Shard>
    requires stamps { length stamps.items ≡ length shards.items }
    requires room { (back.items ≡ []) × (length shards.items ≤ vec_capacity back) }
    ensures { result.items ≡ resumed_all shards.items stamps.items }
{
    while !shards.is_empty() {
        let mut shard = shards.remove(0);
        shard.resume(stamps.remove(0));
        back.push_reserved(shard);
    }
    back
}

/// Takes the shards out of a table that nobody shares any more, and puts them into a list with
/// room.
fn taken_out(mut closed: Closed<Shard, Global>, mut shards: Vec<Shard>) -> Vec<Shard>
    requires full { IsFull closed.slots }
    requires room { (shards.items ≡ []) × (slots_len closed.slots ≤ vec_capacity shards) }
    ensures { result.items ≡ slots_items closed.slots }
{
    for number in 0..closed.slot_count() {
        shards.push_reserved(closed.take(number));
    }
    closed.free();
    shards
}
