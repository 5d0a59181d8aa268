//! Places for the L1s of all cores.
ghost use Rattle.std.specs.Prelude.{◌≡◌, ◌≢◌, ℕ, ◌+◌, ◌<◌, ◌≤◌, ◌^◌, ◌⊎◌, IsTrue, false, true, is_some, length, nat_eq, IfNone, IfOk, IfSome};
ghost use Rattle.std.specs.Set.{is_member};
ghost use Rattle.l1_cache.specs.L1State.{is_private, place_in_line, L1State};
ghost use Rattle.mesi_dir.specs.CoreSets.{cores_in};
ghost use Rattle.shard.specs.SharedStep.{bank_after, bank_reply, met_at_bank};
ghost use Rattle.shard.specs.Touched.{HasTouched};
ghost use Rattle.zs_num.specs.Request.{addr_of, line_bytes, width_of};
ghost use Rattle.parts_table.specs.Places.{bank_of_places, in_place, is_in, l1_at, time_at, IsMetAlone, IsMetByAll};
ghost use Rattle.parts_table.specs.declared.part.Part.{Part};

use crate::part::{Part, TimedPart};
use crate::view::Made;
use home::Home;
use l1_cache::L1;
use mesi_dir::CoreSet;
use shard::serve_at;
use std::alloc::Global;
use std::marker::Model;
use std::mem;
use zs_num::{Cycle, Entry, NoMemory, Outcome, Request};

/// How many places can be filled: as many as there can be cores.
const MOST: usize = 256;

/// Places for the L1s of all cores, of which a core at work fills those that it holds. In the others
/// stands something that no access reads. One worker has them, and hands them from core to core.
#[derive(Drop)]
pub struct Places {
    l1s: Vec<L1>,
    /// The time of each L1 that is there.
    times: Vec<u64>,
    /// What stood where L1s are now.
    spares: Vec<L1>,
}

impl Model for Places {
    ghost use Rattle.std.specs.Prelude.{◌≡◌, ◌≤◌, length, vec_capacity};
    ghost use Rattle.parts_table.specs.Places.{PlacesState};

    ghost Value = { PlacesState };

    ghost view = { λ p. record { l1s = p.l1s.items; times = p.times.items; filled = length p.spares.items } };

    ghost invariant = { λ p. (length p.times.items ≡ length p.l1s.items) × (256 ≤ vec_capacity p.spares) };
}

impl Places {
    /// Places for so many cores, none of which is filled. No other call takes memory.
    pub fn new(alloc: Global, cores: u16) -> Result<Self, NoMemory>
        ensures cores { IfOk result (λ places. length places.l1s ≡ cores) }
        ensures empty { IfOk result (λ places. places.filled ≡ 0) }
    {
        let mut l1s = Vec::with_capacity(alloc, usize::from(cores))?;
        for _ in 0..cores {
            l1s.push_reserved(L1::stand_in(alloc)?);
        }
        Ok(Places {
            l1s,
            times: vec![in alloc; 0; usize::from(cores)]?,
            spares: Vec::with_capacity(alloc, MOST)?,
        })
    }

    /// How many cores they are for.
    pub fn cores(&self) -> usize
        ensures { result ≡ length self.now.l1s }
    {
        self.l1s.len()
    }

    /// Whether none is filled.
    pub fn are_empty(&self) -> bool
        ensures { IsTrue result → self.now.filled ≡ 0 }
    {
        self.spares.is_empty()
    }

    /// Puts the L1 of a core into its place.
    pub(crate) fn put(&mut self, core: u16, part: TimedPart)
        requires core { core < length self.old.l1s }
        requires room { self.old.filled < 256 }
        requires l1 { (l1 : L1State) × (part.part ≡ Part.L1 l1) }
        ensures there { in_place self.new core ≡ part }
        ensures others { (c : ℕ) → c ≢ core → in_place self.new c ≡ in_place self.old c }
        ensures count { length self.new.l1s ≡ length self.old.l1s }
        ensures filled { self.new.filled ≡ self.old.filled + 1 }
    {
        let TimedPart { time, part } = part;
        let Part::L1(l1) = part else {
            unreachable!();
        };
        let spare = mem::replace(&mut self.l1s[usize::from(core)], l1);
        self.times[usize::from(core)] = time;
        self.spares.push_reserved(spare);
    }

    /// Takes the L1 of a core out of its place.
    pub(crate) fn take_out(&mut self, core: u16) -> TimedPart
        requires core { core < length self.old.l1s }
        requires some { 0 < self.old.filled }
        ensures was { result ≡ in_place self.old core }
        ensures others { (c : ℕ) → c ≢ core → in_place self.new c ≡ in_place self.old c }
        ensures count { length self.new.l1s ≡ length self.old.l1s }
        ensures filled { self.old.filled ≡ self.new.filled + 1 }
    {
        let Some(spare) = self.spares.pop() else {
            unreachable!();
        };
        let l1 = mem::replace(&mut self.l1s[usize::from(core)], spare);
        TimedPart {
            time: self.times[usize::from(core)],
            part: Part::L1(l1),
        }
    }

    /// The time of the L1 in the place of a core.
    #[inline(always)]
    pub(crate) fn time(&self, core: u16) -> u64
        requires { core < length self.now.l1s }
        ensures { result ≡ time_at self.now core }
    {
        self.times[usize::from(core)]
    }

    /// Serves an access that the L1 in the place of its core can serve alone: the answer is the
    /// reply. None: nothing changes.
    #[inline(always)]
    pub(crate) fn serve_alone<T>(
        &mut self,
        core: u16,
        start: Cycle,
        request: Request,
    ) -> Option<Made>
        requires core { core < length self.old.l1s }
        requires some { 1 ≤ width_of request }
        requires few { width_of request ≤ 8 }
        requires within { place_in_line (addr_of request) + width_of request ≤ line_bytes }
        ensures met { IfSome result (λ made. IsMetAlone self.old core start request made self.new) }
        ensures private { is_some result ≡ is_private (l1_at self.old core) request }
        ensures none { IfNone result (self.new ≡ self.old) }
        ensures count { length self.new.l1s ≡ length self.old.l1s }
        ensures filled { self.new.filled ≡ self.old.filled }
    {
        let reply = self.l1s[usize::from(core)].serve_alone::<T>(request)?;
        let time = self.times[usize::from(core)];
        Some(Made {
            entry: Entry {
                core,
                stamp: 0,
                start,
                request,
                reply,
                outcome: Outcome::Hit,
            },
            time,
            shared: false,
        })
    }

    /// Serves an access by a home with this time, and by the L1s of these cores: all that it touches,
    /// if the core's own L1 doesn't serve it alone.
    pub(crate) fn serve(
        &mut self,
        home: &mut Home,
        time: u64,
        cores: CoreSet,
        core: u16,
        start: Cycle,
        request: Request,
    ) -> Made
        requires some { 1 ≤ width_of request }
        requires few { width_of request ≤ 8 }
        requires within { place_in_line (addr_of request) + width_of request ≤ line_bytes }
        requires touched { is_private (l1_at self.old core) request ≡ false → HasTouched (bank_of_places home.old self.old) core request }
        requires own { is_in (cores_in cores.words) core }
        requires known { (c : ℕ) → is_in (cores_in cores.words) c → c < length self.old.l1s }
        requires low { (time < 2 ^ 54) × ((c : ℕ) → is_in (cores_in cores.words) c → time_at self.old c < 2 ^ 54) }
        ensures alone { result.shared ≡ false → IsMetAlone self.old core start request result self.new × (home.new ≡ home.old) }
        ensures shared { result.shared ≡ true → IsMetByAll self.old home.old time (cores_in cores.words) core start request result self.new home.new }
        ensures count { length self.new.l1s ≡ length self.old.l1s }
        ensures filled { self.new.filled ≡ self.old.filled }
    {
        if let Some(made) = self.serve_alone::<Home>(core, start, request) {
            return made;
        }
        self.serve_shared(home, time, cores, core, start, request)
    }

    /// Serves one that the core's own L1 doesn't serve alone.
    fn serve_shared(
        &mut self,
        home: &mut Home,
        time: u64,
        cores: CoreSet,
        core: u16,
        start: Cycle,
        request: Request,
    ) -> Made
        requires touched { HasTouched (bank_of_places home.old self.old) core request }
        requires shared { is_private (l1_at self.old core) request ≡ false }
        requires own { is_in (cores_in cores.words) core }
        requires known { (c : ℕ) → is_in (cores_in cores.words) c → c < length self.old.l1s }
        requires low { (time < 2 ^ 54) × ((c : ℕ) → is_in (cores_in cores.words) c → time_at self.old c < 2 ^ 54) }
        ensures met { IsMetByAll self.old home.old time (cores_in cores.words) core start request result self.new home.new }
        ensures count { length self.new.l1s ≡ length self.old.l1s }
        ensures filled { self.new.filled ≡ self.old.filled }
    {
        let time = self.latest(cores, time) + 1;
        let (reply, outcome) = serve_at(home, &mut self.l1s, core, request);
        self.raise(cores, time);
        Made {
            entry: Entry {
                core,
                stamp: 0,
                start,
                request,
                reply,
                outcome,
            },
            time,
            shared: true,
        }
    }

    /// The latest of a time and those of the L1s of these cores.
    fn latest(&self, mut cores: CoreSet, mut time: u64) -> u64
        requires known { (c : ℕ) → is_in (cores_in cores.words) c → c < length self.now.l1s }
        ensures past { (time ≤ result) × ((c : ℕ) → is_in (cores_in cores.words) c → time_at self.now c ≤ result) }
        ensures one { (result ≡ time) ⊎ ((c : ℕ) × is_in (cores_in cores.words) c × (result ≡ time_at self.now c)) }
    {
        while let Some(core) = cores.take_first() {
            time = time.max(self.times[usize::from(core)]);
        }
        time
    }

    /// The L1s of these cores get a time.
    fn raise(&mut self, mut cores: CoreSet, time: u64)
        requires known { (c : ℕ) → is_in (cores_in cores.words) c → c < length self.old.l1s }
        ensures raised { (c : ℕ) → is_in (cores_in cores.words) c → time_at self.new c ≡ time }
        ensures kept { (c : ℕ) → is_member nat_eq (cores_in cores.words) c ≡ false → time_at self.new c ≡ time_at self.old c }
        ensures others { (self.new.l1s ≡ self.old.l1s) × (self.new.filled ≡ self.old.filled) }
    {
        while let Some(core) = cores.take_first() {
            self.times[usize::from(core)] = time;
        }
    }
}
