//! The table: it is made of homes and L1s, and closed when no core is at work.
ghost use Rattle.std.specs.Prelude.{◌≡◌, ℕ, ◌+◌, ◌*◌, ◌<◌, ◌≤◌, ◌^◌, All, [], length, map, replicate, slice_get, vec_capacity, Some, IfOk, IfErr};
ghost use Rattle.shard.specs.PartsLaws.{AreAllParts};
ghost use Rattle.shard.specs.Seen.{shards_seen};
ghost use Rattle.shard.specs.Served.{CanServe, KnowsCore, ShardState, resumed};
ghost use Rattle.zs_num.specs.Request.{bank_of};
ghost use Rattle.zs_num.specs.declared.request.Request.{Request};
ghost use Rattle.parts_table.specs.Access.{AreAllSeats, AreNewSeats, AreWhole, opening_shards};
ghost use Rattle.parts_table.specs.Rule.{HasOpened};
ghost use Rattle.parts_table.specs.Slots.{slots_of};
ghost use Rattle.parts_table.specs.Tables.{HasPlaces, table_state_of};
ghost use Rattle.parts_table.specs.TurnOrder.{key_of};
ghost use Rattle.parts_table.specs.Views.{first_view};
ghost use Rattle.parts_table.specs.World.{MayAsk, world_of};

use crate::blocks::Blocks;
use crate::buffers::Buffers;
use crate::laws;
use crate::part::TimedPart;
use crate::plays::Glue;
use crate::rule::{Bench, Opening, TableSeat, Words};
use crate::seat::CoreSeat;
use crate::slots::{put_homes, put_l1s, taken_back, taken_out};
use home::Home;
use l1_cache::L1;
use shard::Parts;
use std::alloc::Global;
use std::marker::Model;
use std::snapshot::Snapshot;
use zs_num::{NoMemory, Stamp};

/// The homes and L1s of a machine that cores share, each core in a thread of its own.
#[derive(Drop)]
pub struct PartsTable {
    pub(crate) words: Words,
    pub(crate) cores: u16,
    pub(crate) banks: u16,
    // Room for what comes back when the table is closed, and the last stamps then, which are 0.
    homes: Vec<Home>,
    l1s: Vec<L1>,
    lasts: Vec<Stamp>,
    blocks: Vec<Blocks>,
}

impl Model for PartsTable {
    ghost use Rattle.parts_table.specs.Access.{TableState};
    ghost use Rattle.parts_table.specs.Tables.{IsTable, table_state_of};

    ghost Value = { TableState };

    ghost view = { λ t. table_state_of t.words.shared.table_id t.words.shared.key };

    ghost invariant = { λ t. IsTable (table_state_of t.words.shared.table_id t.words.shared.key) t.cores t.banks t.homes t.l1s t.lasts t.blocks };
}

impl PartsTable {
    /// A table of the homes and L1s that stand for shards, and the seat of each core, in order. A
    /// core makes at most `room` accesses; their keys go into its `Blocks`, which are empty at
    /// first. All last stamps are 0. Where memory runs out, the parts come back as they were.
    pub fn make(
        alloc: Global,
        parts: Parts,
        room: u32,
        blocks: Vec<Blocks>,
    ) -> Result<(Self, Vec<CoreSeat>), (NoMemory, Parts)>
        requires few { length parts < 2 ^ 16 }
        requires cores { (shard : ShardState) → slice_get parts 0 ≡ Some shard → length shard.marks ≡ length blocks.items }
        requires room { All (λ b. b.room ≡ room) blocks.items }
        ensures shards { IfOk result (λ made. opening_shards made.0 ≡ map (λ shard. resumed shard 0) parts) }
        ensures counts { IfOk result (λ made. (made.0.cores ≡ length blocks.items) × (made.0.banks ≡ length parts) × (made.0.room ≡ room)) }
        ensures seats { IfOk result (λ made. AreNewSeats made.0 made.1.items) }
        ensures err { IfErr result (λ back. back.1 ≡ parts) }
    {
        let (homes, l1s, lasts) = parts.take_apart();
        let memory = match Buffers::new(alloc, l1s.len(), homes.len()) {
            Ok(memory) => memory,
            Err(error) => return Err((error, Parts::of(homes, l1s, lasts))),
        };
        PartsTable::fill(alloc, memory, (homes, l1s, lasts), room, blocks)
    }

    /// Puts the parts into the table.
    fn fill(
        alloc: Global,
        memory: Buffers,
        parts: (Vec<Home>, Vec<L1>, Vec<Stamp>),
        room: u32,
        mut blocks: Vec<Blocks>,
    ) -> Result<(Self, Vec<CoreSeat>), (NoMemory, Parts)>
        requires parts { AreAllParts (record { homes = parts.0.items; l1s = parts.1.items; lasts = parts.2.items }) }
        requires few { length parts.0.items < 2 ^ 16 }
        requires cores { length parts.1.items ≡ length blocks.items }
        requires room { All (λ b. b.room ≡ room) blocks.items }
        requires words { memory.words.items ≡ replicate (16 * (length parts.1.items + length parts.0.items + length parts.1.items)) 0 }
        requires slots { (memory.slots.items ≡ []) × (length parts.1.items + length parts.0.items ≤ vec_capacity memory.slots) }
        requires seats { (memory.seats.items ≡ []) × (length parts.1.items ≤ vec_capacity memory.seats) }
        ensures table { IfOk result (λ made. (made.0.opening ≡ slots_of parts.0.items parts.1.items) × (made.0.cores ≡ length parts.1.items) × (made.0.banks ≡ length parts.0.items) × (made.0.room ≡ room)) }
        ensures seats { IfOk result (λ made. AreNewSeats made.0 made.1.items) }
        ensures err { IfErr result (λ back. back.1 ≡ shards_seen (record { homes = parts.0.items; l1s = parts.1.items; lasts = parts.2.items })) }
    {
        let (mut homes, mut l1s, mut lasts) = parts;
        let Buffers {
            words,
            mut slots,
            seats,
        } = memory;
        let cores = l1s.len() as u16;
        let banks = homes.len() as u16;
        put_l1s(&mut slots, &mut l1s);
        put_homes(&mut slots, &mut homes);
        match opened(alloc, &words, slots, cores, banks, room) {
            Ok((words, place)) => {
                set_to_zero(&mut lasts);
                let seats = seats_of(&words.shared, place, &mut blocks, seats, cores);
                let table = PartsTable {
                    words,
                    cores,
                    banks,
                    homes,
                    l1s,
                    lasts,
                    blocks,
                };
                Ok((table, seats))
            }
            Err(slots) => {
                let (homes, l1s) = taken_back(slots, homes, l1s);
                Err((NoMemory, Parts::of(homes, l1s, lasts)))
            }
        }
    }

    /// Whatever a core may ask of the shard that keeps its line, it may ask of the parts. A law: it
    /// does nothing.
    pub fn may_ask(&self)
        ensures { (core : ℕ) (request : Request) (shard : ShardState) → slice_get (opening_shards self.now) (bank_of self.now.banks request) ≡ Some shard
            → KnowsCore shard core → CanServe shard request → MayAsk self.now.cores self.now.banks (world_of self.now.opening) core request }
    {
        let _cores = self.cores;
    }

    /// The parts, when all cores have made their accesses, with all last stamps 0, and the keys of
    /// what each core made, in the order of the seats handed in.
    pub fn close(self, mut seats: Vec<CoreSeat>) -> (Parts, Vec<Blocks>)
        requires { AreAllSeats self seats.items }
        ensures keys { map (λ b. b.keys) result.1.items ≡ map (λ seat. map key_of seat.made) seats.items }
        ensures whole { AreWhole self seats.items result.0 }
    {
        laws::machine_laws();
        let PartsTable {
            words,
            homes,
            l1s,
            lasts,
            mut blocks,
            ..
        } = self;
        let (mut place, keys) = seats.remove(0).into_place();
        blocks.push_reserved(keys);
        while !seats.is_empty() {
            let (other, keys) = seats.remove(0).into_place();
            words.shared.join_seat::<Glue>(&mut place, other);
            blocks.push_reserved(keys);
        }
        let (homes, l1s) = taken_out(words.close_with(place), homes, l1s);
        (Parts::of(homes, l1s, lasts), blocks)
    }
}

/// The words over these slots, and the first seat. Where memory runs out, the slots come back.
fn opened(
    alloc: Global,
    words: &[u64],
    slots: Vec<Option<TimedPart>>,
    cores: u16,
    banks: u16,
    room: u32,
) -> Result<(Words, TableSeat), Vec<Option<TimedPart>>>
    requires parts { HasOpened slots.items cores banks room }
    requires cores { (0 < cores) × (cores ≤ 256) }
    requires words { words.now ≡ replicate (16 * (cores + banks + cores)) 0 }
    ensures places { IfOk result (λ made. HasPlaces made.0.shared.table_id cores banks) }
    ensures key { IfOk result (λ made. (made.0.shared.key.parts.value.items ≡ slots.items) × (made.0.shared.key.cores ≡ cores) × (made.0.shared.key.banks ≡ banks) × (made.0.shared.key.room ≡ room)) }
    ensures seat { IfOk result (λ made. (made.1.table_id ≡ made.0.shared.table_id) × (made.1.me ≡ (first_view slots.items cores banks room, []))) }
    ensures err { IfErr result (λ back. back.items ≡ slots.items) }
{
    let opening = Opening {
        parts: Snapshot::of(&slots),
        cores,
        banks,
        room,
    };
    match Words::new(alloc, words, slots, &opening) {
        Ok(made) => Ok(made),
        Err(refused) => Err(refused.slots),
    }
}

/// The seats of all cores, in order, of which this is the first.
fn seats_of(
    bench: &Bench,
    place: TableSeat,
    blocks: &mut Vec<Blocks>,
    mut seats: Vec<CoreSeat>,
    cores: u16,
) -> Vec<CoreSeat>
    requires table { place.table_id ≡ bench.now.table_id }
    requires places { HasPlaces bench.now.table_id bench.now.key.cores bench.now.key.banks }
    requires key { (bench.now.key.cores ≡ cores) × (0 < cores) × (cores ≤ 256) }
    requires ranges { (bench.now.key.banks < 2 ^ 16) × (bench.now.key.room < 2 ^ 32) }
    requires first { place.me ≡ (first_view bench.now.key.parts.value.items cores bench.now.key.banks bench.now.key.room, []) }
    requires blocks { (length blocks.old.items ≡ cores) × All (λ b. b.room ≡ bench.now.key.room) blocks.old.items }
    requires room { (seats.items ≡ []) × (cores ≤ vec_capacity seats) }
    ensures seats { AreNewSeats (table_state_of bench.now.table_id bench.now.key) result.items }
    ensures blocks { (blocks.new.items ≡ []) × (vec_capacity blocks.new ≡ vec_capacity blocks.old) }
{
    seats.push_reserved(CoreSeat::new(place, next_blocks(blocks), 0));
    for core in 1..cores {
        let seat = seats[0].next(bench, next_blocks(blocks), core);
        seats.push_reserved(seat);
    }
    seats
}

/// The next of these, emptied.
fn next_blocks(blocks: &mut Vec<Blocks>) -> Blocks
    requires { 0 < length blocks.old.items }
    ensures next { (room : ℕ) → All (λ b. b.room ≡ room) blocks.old.items → (result ≡ record { keys = []; now = 1; made = 0; room = room }) × All (λ b. b.room ≡ room) blocks.new.items }
    ensures length { length blocks.new.items + 1 ≡ length blocks.old.items }
    ensures capacity { vec_capacity blocks.new ≡ vec_capacity blocks.old }
{
    let mut next = blocks.remove(0);
    next.clear();
    next
}

/// Sets stamps to 0.
fn set_to_zero(stamps: &mut Vec<Stamp>)
    ensures stamps { stamps.new.items ≡ replicate (length stamps.old.items) 0 }
{
    stamps.fill(0);
}
