//! A port through which cores access caches and memory, and which logs what they do.
ghost use Rattle.std.specs.Prelude.{◌≡◌, ◌+◌, ◌-◌, ◌≤◌, ◌<◌, ◌&&◌, [], ◌∷◌, ◌++◌, drop, length, map, min, nat_lt, true, Some, IfNone, IfOk, IfSome, OnOk};
ghost use Rattle.machine_desc.specs.Machine.{IsMachine};
ghost use Rattle.zs_num.specs.Servable.{IsServable};
ghost use Rattle.rv_core.specs.Port.{IsHit};
ghost use Rattle.shard.specs.StandsFor.{new_shards};
ghost use Rattle.access_log.specs.History.{AreRising};
ghost use Rattle.access_log.specs.Logs.{HaveDistinctKeys};
ghost use Rattle.access_log.specs.RecordedOrder.{recorded_order};
ghost use Rattle.bound_core.specs.ShardPort.{base_of, l1i_of, room_of, size_of};
ghost use Rattle.bound_core.specs.ShardWorld.{begun_world, restarted};
ghost use Rattle.trace.specs.Port.{Gives, leaves_shards};

use bound_core::{PartsPort, Port};
use elf_load::Image;
use machine_desc::Machine;
use shard::{Leaving, Parts};
use std::alloc::Global;
use std::marker::Model;
use std::mem;
use zs_num::{Cycle, Entries, Entry, NoMemory, Request, Stamp};

/// The hits of loads, those of stores and those of fetches: what is compiled for each is compiled for
/// one call.
struct Loads;

struct Stores;

struct Fetches;

/// The caches and the memory of a machine, and the accesses that they have served in the interval
/// so far, in the order of the turns. It knows whether the stamps of these have risen from each to
/// the next: then the order of the turns is the recorded order.
#[derive(Drop)]
pub struct LoggedPort {
    port: PartsPort,
    entries: Vec<Entry>,
    // The stamp of the latest access, 0 before the first.
    last: Stamp,
    rises: bool,
}

impl Model for LoggedPort {
    ghost use Rattle.std.specs.Prelude.{◌-◌, vec_len, vec_capacity};
    ghost use Rattle.trace.specs.Port.{LoggedPortState};
    ghost use Rattle.trace.specs.Port.{KnowsItsOrder};

    ghost Value = { LoggedPortState };

    ghost view = { λ p. record { world = p.port.world; core = p.port.core; entries = p.entries.items; room = vec_capacity p.entries - vec_len p.entries } };

    ghost invariant = { λ p. KnowsItsOrder p.last p.rises p.entries.items };
}

impl LoggedPort {
    /// A port for the cores of a machine into which an executable was loaded, before the first
    /// access of an interval, with no room for accesses yet.
    pub fn new(alloc: Global, machine: &Machine, image: &Image) -> Result<Self, NoMemory>
        requires machine { IsMachine machine.now }
        requires base { image.now.base ≡ machine.now.memory.base }
        requires size { image.now.size ≡ machine.now.memory.size }
        ensures { IfOk result (λ p. p.world ≡ begun_world machine.now.cores (map restarted (new_shards machine.now image.now))) }
    {
        let parts = Parts::new(alloc, machine, image)?;
        match PartsPort::new(alloc, parts, machine.cores) {
            Ok(port) => Ok(LoggedPort {
                port,
                entries: Vec::new(alloc),
                last: 0,
                rises: true,
            }),
            Err((NoMemory, _parts)) => Err(NoMemory),
        }
    }

    /// Makes the port ready for an interval: it then has no access, and room for so many, in the
    /// memory of `list`.
    pub fn begin(&mut self, room: usize, mut list: Vec<Entry>) -> Result<(), NoMemory>
        ensures world { OnOk result (self.new.world ≡ begun_world (length self.old.world.stamps) (map restarted self.old.world.shards)) }
        ensures none { OnOk result (self.new.entries ≡ []) }
        ensures room { OnOk result (room ≤ self.new.room) }
    {
        list.clear();
        list.reserve(room)?;
        self.port.restart();
        self.entries = list;
        self.last = 0;
        self.rises = true;
        Ok(())
    }

    /// Names the core whose accesses follow.
    pub fn choose(&mut self, core: u16)
        requires { core < length self.old.world.stamps }
        ensures { self.new ≡ record self.old { core = core } }
    {
        self.port.choose(core);
    }

    /// Which lines leave caches for this request of the chosen core.
    #[inline(always)]
    pub fn leaving(&self, request: Request) -> Leaving
        ensures { result ≡ leaves_shards self.now.world self.now.core request }
    {
        self.port.leaving(request)
    }

    /// How many accesses there are so far.
    pub fn count(&self) -> usize
        ensures { result ≡ length self.now.entries }
    {
        self.entries.len()
    }

    /// The accesses behind so many.
    pub fn behind(&self, count: usize) -> &[Entry]
        requires { count ≤ length self.now.entries }
        ensures { result.now ≡ drop count self.now.entries }
    {
        &self.entries[count..]
    }

    /// Serves an access of the chosen core that starts then, where the core's own L1 can serve it
    /// alone: a hit. The answer is the reply. None: nothing changes.
    #[inline(always)]
    fn hit<T>(&mut self, start: Cycle, request: Request) -> Option<u64>
        requires room { 1 ≤ min (room_of self.old.world) self.old.room }
        requires servable { IsServable (base_of self.old.world) (size_of self.old.world) (l1i_of self.old.world) request }
        ensures hit { IfSome result (λ reply. IsHit Gives (λ p. p.core) (λ p. Some p.entries) self.old start request reply self.new) }
        ensures none { IfNone result (self.new ≡ self.old) }
        ensures same_core { self.new.core ≡ self.old.core }
        ensures same_base { base_of self.new.world ≡ base_of self.old.world }
        ensures same_size { size_of self.new.world ≡ size_of self.old.world }
        ensures same_l1i { l1i_of self.new.world ≡ l1i_of self.old.world }
        ensures room { min (room_of self.old.world) self.old.room ≤ min (room_of self.new.world) self.new.room + 1 }
    {
        let entry = self.port.access_alone::<T>(start, request)?;
        self.log::<T>(&entry);
        Some(entry.reply)
    }

    /// Logs an access, behind those that there are. What is compiled for `T`, any type, is compiled
    /// for the callers that name it.
    #[inline(always)]
    fn log<T>(&mut self, entry: &Entry)
        requires { 0 < self.old.room }
        ensures { self.new ≡ record self.old { entries = self.old.entries ++ entry.now ∷ []; room = self.old.room - 1 } }
    {
        self.rises = rises_to(self.rises, self.last, entry.stamp);
        self.last = entry.stamp;
        self.entries.push_reserved(anew(entry));
    }

    /// Hands out the accesses, in recorded order, and keeps none.
    pub fn take_sorted(&mut self, alloc: Global) -> Result<Entries, NoMemory>
        requires { HaveDistinctKeys self.old.entries }
        ensures entries { IfOk result (λ entries. entries ≡ recorded_order self.old.entries) }
        ensures none { self.new.entries ≡ [] }
        ensures world { self.new.world ≡ self.old.world }
    {
        let mut entries = mem::replace(&mut self.entries, Vec::new(alloc));
        let rises = self.rises;
        self.last = 0;
        self.rises = true;
        put_in_order(&mut entries, rises)?;
        Ok(Entries::of(entries))
    }
}

impl Port for LoggedPort {
    ghost core = { λ p. p.core };

    ghost base = { λ p. base_of p.world };

    ghost size = { λ p. size_of p.world };

    ghost l1i = { λ p. l1i_of p.world };

    ghost room = { λ p. min (room_of p.world) p.room };

    ghost gives = { Gives };

    ghost logged = { λ p. Some p.entries };

    #[inline(always)]
    fn access(&mut self, start: Cycle, request: Request) -> Entry {
        let entry = self.port.access(start, request);
        self.log::<LoggedPort>(&entry);
        anew(&entry)
    }

    #[inline(always)]
    fn load_hit(&mut self, start: Cycle, addr: u64, width: u8) -> Option<u64> {
        self.hit::<Loads>(start, Request::Load { addr, width })
    }

    #[inline(always)]
    fn store_hit(&mut self, start: Cycle, addr: u64, width: u8, value: u64) -> bool {
        self.hit::<Stores>(start, Request::Store { addr, width, value })
            .is_some()
    }

    #[inline(always)]
    fn fetch_hit(&mut self, start: Cycle, addr: u64) -> bool {
        self.hit::<Fetches>(start, Request::Fetch { addr })
            .is_some()
    }
}

/// Whether stamps that rose up to the last one, if they did, have risen with the next one too.
#[inline(always)]
fn rises_to(rose: bool, last: Stamp, next: Stamp) -> bool
    ensures { result ≡ (rose && nat_lt last next) }
{
    rose && last < next
}

/// Puts accesses into recorded order. Where their stamps rise, they stand in it. The sort is a stable
/// one, since that merges what rises, as the accesses of each core do.
fn put_in_order(entries: &mut Vec<Entry>, rises: bool) -> Result<(), NoMemory>
    requires keys { HaveDistinctKeys entries.old.items }
    requires rising { rises ≡ true → AreRising 0 entries.old.items }
    ensures { OnOk result (entries.new.items ≡ recorded_order entries.old.items) }
{
    if rises {
        return Ok(());
    }
    entries.sort_by_key(|e| (e.stamp, e.core))?;
    Ok(())
}

/// The same entry, made anew of its fields. An entry that is moved as a whole takes along the
/// unused bytes between its fields, in pieces that the processor waits for.
#[inline(always)]
fn anew(entry: &Entry) -> Entry
    ensures { result ≡ entry.now }
{
    Entry {
        core: entry.core,
        stamp: entry.stamp,
        start: entry.start,
        request: entry.request,
        reply: entry.reply,
        outcome: entry.outcome,
    }
}
