//! One core in an interval.
ghost use Rattle.std.specs.Prelude.{◌≡◌, ◌+◌, ◌-◌, ◌≤◌, ◌<◌, ◌^◌, List, length, max, min, true, false, ◌∷◌, [], Some, None, IfOk, IfSome, OnOk, IsSome, IsTrue};
ghost use Rattle.machine_desc.specs.InstructionCaches.{has_l1i};
ghost use Rattle.zs_num.specs.declared.entry.Entry.{Entry};
ghost use Rattle.zs_num.specs.Servable.{IsServable};
ghost use Rattle.machine_desc.specs.Machine.{IsMachine};
ghost use Rattle.rv_core.specs.Asked.{is_idle};
ghost use Rattle.rv_core.specs.Single.{begun_if};
ghost use Rattle.rv_core.specs.Sound.{IsServableIn, IsSoundCore};
ghost use Rattle.rv_core.specs.Port.{Gains};
ghost use Rattle.reference.specs.TimedCore.{asks, beside_cycles, core_after_access, delayed, first_core, ran_to};
ghost use Rattle.reference.specs.Pacing.{IsSoon};
ghost use Rattle.reference.specs.IntervalBounds.{latest_clock, most_accesses};
ghost use Rattle.reference.specs.Ahead.{ahead};
ghost use Rattle.bound_core.specs.Met.{answered_in_time, begun_in_time};
ghost use Rattle.bound_core.specs.Stints.{IsStint};
ghost use Rattle.bound_core.specs.Taken.{HasTaken, TakesThese};
ghost use Rattle.bound_core.specs.ToldTurns.{TakesTold};
ghost use Rattle.reference.specs.Turn.{EndsInterval, IsOver, RunsToEnd, TookOne};
ghost use Rattle.bound_core.specs.Turned.{IfTook, TurnsAs};

mod alone;
mod local;

use crate::Turned;
use crate::paced::first_pace;
use elf_load::Image;
use event_graph::Expand;
use machine_desc::Machine;
use pipe_core::Pace;
use rv_core::{Came, Core, Leg, Port, Program, Single, Stint, Why};
use std::alloc::Global;
use std::marker::Model;
use zs_num::{Cycle, Entry, NoMemory, Request};

/// The room for accesses of a core in an interval beside one for each cycle, and so for bytes that
/// it writes: `beside_cycles`.
pub const BESIDE_CYCLES: u64 = 258;

/// A core in time: its state, its clock in cycles, the bytes that it wrote on its console, and the
/// pace of its pipeline, if it has one.
#[derive(Drop)]
pub struct BoundCore {
    core: Core,
    number: u16,
    clock: Cycle,
    instructions: u64,
    console: Vec<u8>,
    pace: Option<Pace>,
}

impl Model for BoundCore {
    ghost use Rattle.std.specs.Prelude.{◌≤◌, ◌-◌, IfSome, vec_len, vec_capacity};
    ghost use Rattle.pipe_core.specs.PaceLaws.{GoesOnFrom};
    ghost use Rattle.bound_core.specs.NumberedCores.{NumberedCore};

    ghost Value = { NumberedCore };

    ghost view = { λ b. record { number = b.number; timed = record { core = b.core; clock = b.clock; instructions = b.instructions; console = b.console.items; pace = b.pace }; spare = vec_capacity b.console - vec_len b.console } };

    ghost invariant = { λ b. (b.instructions ≤ b.clock) × IfSome b.pace (GoesOnFrom b.clock) };
}

impl BoundCore {
    /// The core of this number at the start.
    #[tactic(auto, unfolding(rv_core::specs::Step::initial_core))]
    pub fn new(
        alloc: Global,
        machine: &Machine,
        image: &Image,
        number: u16,
    ) -> Result<Self, NoMemory>
        requires machine { IsMachine machine.now }
        requires number { number < machine.now.cores }
        ensures timed { IfOk result (λ b. b.timed ≡ first_core machine.now image.now number) }
        ensures number { IfOk result (λ b. b.number ≡ number) }
        ensures base { IfOk result (λ b. b.timed.core.memory.base ≡ machine.now.memory.base) }
        ensures size { IfOk result (λ b. b.timed.core.memory.size ≡ machine.now.memory.size) }
        ensures fetching { IfOk result (λ b. b.timed.core.fetching ≡ has_l1i machine.now) }
    {
        // The address of the first instruction is a multiple of 4, as that of every image.
        let _sound = image.base();
        let memory = &machine.memory;
        let sp = memory.base + memory.size - u64::from(number) * memory.stack;
        let core = Core::new(
            number,
            machine.cores,
            image.entry(),
            sp,
            memory.base,
            memory.size,
            machine.l1i.is_some(),
        );
        Ok(BoundCore {
            core,
            number,
            clock: 0,
            instructions: 0,
            console: Vec::new(alloc),
            pace: first_pace(alloc, &machine.pipe)?,
        })
    }

    /// Makes room on the console for what the core can write in an interval of so many cycles.
    pub fn reserve(&mut self, interval: u64) -> Result<(), NoMemory>
        requires { interval ≤ 10000 }
        ensures room { OnOk result (interval + beside_cycles ≤ self.new.spare) }
        ensures spare { self.old.spare ≤ self.new.spare }
        ensures timed { self.new.timed ≡ self.old.timed }
        ensures number { self.new.number ≡ self.old.number }
    {
        self.console.reserve((interval + BESIDE_CYCLES) as usize)?;
        Ok(())
    }

    /// The clock, in cycles.
    pub fn clock(&self) -> Cycle
        ensures { result ≡ self.now.timed.clock }
    {
        self.clock
    }

    /// The core waited so many cycles.
    pub fn delay(&mut self, by: u64)
        requires { self.old.timed.clock + by < 2 ^ 64 }
        ensures timed { self.new.timed ≡ delayed by self.old.timed }
        ensures number { self.new.number ≡ self.old.number }
        ensures spare { self.new.spare ≡ self.old.spare }
    {
        self.clock += by;
    }

    /// How many instructions were counted: those that did not halt the core by a fault.
    pub fn instructions(&self) -> u64
        ensures value { result ≡ self.now.timed.instructions }
        ensures few { result ≤ self.now.timed.clock }
    {
        self.instructions
    }

    /// The bytes that it wrote.
    pub fn console(&self) -> &[u8]
        ensures { result.now ≡ self.now.timed.console }
    {
        &self.console
    }

    /// Why it halted, or None where it did not.
    pub fn halted(&self) -> Option<Why>
        ensures { result ≡ self.now.timed.core.halted }
    {
        self.core.halted()
    }

    /// What its program sees.
    pub fn core(&self) -> &Core
        ensures value { result.now ≡ self.now.timed.core }
        ensures sound { IsSoundCore self.now.timed.core }
    {
        self.keeps_sound();
        &self.core
    }

    /// All that the core asks for can be served, and its pipeline goes on from its clock.
    #[inline(always)]
    fn keeps_sound(&self)
        ensures sound { IsSoundCore self.now.timed.core }
        ensures soon { IsSoon self.now.timed }
    {
        let _request = self.core.request();
    }

    /// A turn in the interval that ends at cycle `end`: local instructions, and then one access
    /// through the port. Ended exactly where the core halted, or its clock reached the end with no
    /// instruction in progress.
    #[inline(always)]
    pub fn turn<P: Program, X: Expand, Q: Port>(
        &mut self,
        program: &P,
        expansion: &X,
        end: Cycle,
        port: &mut Q,
    ) -> Turned
        requires core { Q.core port.old ≡ self.old.number }
        requires base { Q.base port.old ≡ self.old.timed.core.memory.base }
        requires size { Q.size port.old ≡ self.old.timed.core.memory.size }
        requires l1i { IsTrue self.old.timed.core.fetching → IsTrue (Q.l1i port.old) }
        requires room { 1 ≤ Q.room port.old }
        requires spare { 1 ≤ self.old.spare }
        requires clock { self.old.timed.clock ≤ 2 ^ 61 }
        requires end { end ≤ 2 ^ 61 }
        ensures turn { TurnsAs (X.time expansion.now) (P.image program.now) end Q.gives port.old port.new self.old.timed self.new.timed result }
        ensures over { result ≡ Turned.Ended → IsOver end self.new.timed }
        ensures core { IfTook result (λ e. e.core ≡ self.old.number) }
        ensures start { IfTook result (λ e. e.start ≡ (ran_to (P.image program.now) end self.old.timed).clock) }
        ensures request { IfTook result (λ e. asks (ran_to (P.image program.now) end self.old.timed) ≡ Some e.request) }
        ensures starts { IfTook result (λ e. e.start ≤ max self.old.timed.clock end + 192) }
        ensures starts_by_latest { IfTook result (λ e. e.start ≤ latest_clock end self.old.timed) }
        ensures fewer { IfTook result (λ e. most_accesses end self.new.timed < most_accesses end self.old.timed) }
        ensures few { most_accesses end self.old.timed ≤ end - self.old.timed.clock + 257 }
        ensures begun { self.old.timed.clock ≤ self.new.timed.clock }
        ensures within { self.new.timed.clock ≤ max self.old.timed.clock end + 2 ^ 20 + 192 }
        ensures latest { latest_clock end self.new.timed ≤ latest_clock end self.old.timed }
        ensures number { self.new.number ≡ self.old.number }
        ensures memory { self.new.timed.core.memory ≡ self.old.timed.core.memory }
        ensures fetching { self.new.timed.core.fetching ≡ self.old.timed.core.fetching }
        ensures spare { self.old.spare ≤ self.new.spare + 1 }
        ensures same_spare { result ≡ Turned.Ended → self.new.spare ≡ self.old.spare }
        ensures port_core { Q.core port.new ≡ Q.core port.old }
        ensures port_base { Q.base port.new ≡ Q.base port.old }
        ensures port_size { Q.size port.new ≡ Q.size port.old }
        ensures port_l1i { Q.l1i port.new ≡ Q.l1i port.old }
        ensures port_room { Q.room port.old ≤ Q.room port.new + 1 }
        ensures port_logged { IfTook result (λ e. Gains (Q.logged port.old) (e ∷ []) (Q.logged port.new)) }
    {
        let met = self.run_local(program, end);
        match self.asked(met) {
            Some(request) => Turned::Took(self.make(expansion, port, request, met)),
            None => Turned::Ended,
        }
    }

    /// Runs to the end of the interval: turns until Ended. The accesses go through the port, which
    /// logs their entries where it keeps a list of them.
    pub fn run_one<P: Program, X: Expand, Q: Port>(
        &mut self,
        program: &P,
        expansion: &X,
        end: Cycle,
        port: &mut Q,
    )
        requires core { Q.core port.old ≡ self.old.number }
        requires base { Q.base port.old ≡ self.old.timed.core.memory.base }
        requires size { Q.size port.old ≡ self.old.timed.core.memory.size }
        requires l1i { IsTrue self.old.timed.core.fetching → IsTrue (Q.l1i port.old) }
        requires room { end - self.old.timed.clock + beside_cycles ≤ Q.room port.old }
        requires spare { end - self.old.timed.clock + beside_cycles ≤ self.old.spare }
        requires clock { self.old.timed.clock ≤ 2 ^ 60 }
        requires end { end ≤ 2 ^ 60 }
        ensures turns { RunsToEnd (X.time expansion.now) (P.image program.now) end Q.gives Q.logged self.old.number port.old port.new self.old.timed self.new.timed }
        ensures over { IsOver end self.new.timed }
        ensures few { most_accesses end self.old.timed ≤ end - self.old.timed.clock + 257 }
        ensures begun { self.old.timed.clock ≤ self.new.timed.clock }
        ensures within { self.new.timed.clock ≤ max self.old.timed.clock end + 2 ^ 30 }
        ensures latest { latest_clock end self.new.timed ≤ latest_clock end self.old.timed }
        ensures number { self.new.number ≡ self.old.number }
        ensures memory { self.new.timed.core.memory ≡ self.old.timed.core.memory }
        ensures fetching { self.new.timed.core.fetching ≡ self.old.timed.core.fetching }
        ensures spare { self.old.spare ≤ self.new.spare + most_accesses end self.old.timed }
        ensures port_core { Q.core port.new ≡ Q.core port.old }
        ensures port_base { Q.base port.new ≡ Q.base port.old }
        ensures port_size { Q.size port.new ≡ Q.size port.old }
        ensures port_l1i { Q.l1i port.new ≡ Q.l1i port.old }
        ensures port_room { Q.room port.old ≤ Q.room port.new + most_accesses end self.old.timed }
    {
        self.keeps_sound();
        while self.take_turns(program, expansion, end, port) {}
    }

    /// Takes turns whose accesses are hits that the port has at hand, and then one turn more:
    /// whether that took an entry. If it did not, the interval has ended.
    #[inline(always)]
    fn take_turns<P: Program, X: Expand, Q: Port>(
        &mut self,
        program: &P,
        expansion: &X,
        end: Cycle,
        port: &mut Q,
    ) -> bool
        requires core { Q.core port.old ≡ self.old.number }
        requires base { Q.base port.old ≡ self.old.timed.core.memory.base }
        requires size { Q.size port.old ≡ self.old.timed.core.memory.size }
        requires l1i { IsTrue self.old.timed.core.fetching → IsTrue (Q.l1i port.old) }
        requires room { most_accesses end self.old.timed + 1 ≤ Q.room port.old }
        requires spare { 1 ≤ self.old.spare }
        requires clock { self.old.timed.clock ≤ 2 ^ 61 }
        requires end { end ≤ 2 ^ 61 }
        ensures taken { result ≡ true → HasTaken (X.time expansion.now) (P.image program.now) end Q.gives Q.logged self.old.number port.old port.new self.old.timed self.new.timed }
        ensures fewer { result ≡ true → most_accesses end self.new.timed < most_accesses end self.old.timed }
        ensures ended { result ≡ false → RunsToEnd (X.time expansion.now) (P.image program.now) end Q.gives Q.logged self.old.number port.old port.new self.old.timed self.new.timed }
        ensures over { result ≡ false → IsOver end self.new.timed }
        ensures begun { self.old.timed.clock ≤ self.new.timed.clock }
        ensures latest { latest_clock end self.new.timed ≤ latest_clock end self.old.timed }
        ensures number { self.new.number ≡ self.old.number }
        ensures memory { self.new.timed.core.memory ≡ self.old.timed.core.memory }
        ensures fetching { self.new.timed.core.fetching ≡ self.old.timed.core.fetching }
        ensures spare { self.old.spare ≤ self.new.spare + 1 }
        ensures same_spare { result ≡ false → self.new.spare ≡ self.old.spare }
        ensures port_core { Q.core port.new ≡ Q.core port.old }
        ensures port_base { Q.base port.new ≡ Q.base port.old }
        ensures port_size { Q.size port.new ≡ Q.size port.old }
        ensures port_l1i { Q.l1i port.new ≡ Q.l1i port.old }
        ensures port_room { result ≡ true → Q.room port.old + most_accesses end self.new.timed ≤ Q.room port.new + most_accesses end self.old.timed }
        ensures room_left { Q.room port.old ≤ Q.room port.new + most_accesses end self.old.timed }
    {
        let met = self.go_by_hits(program, expansion, end, u64::MAX, port).met;
        self.take_turn(program, expansion, end, met, port)
    }

    /// Takes turns of the interval that ends at cycle `end` whose accesses are hits that the port
    /// has at hand, as far as the program takes them, but `most` at most, and executes instructions
    /// of the turn that follows. It answers how many turns it took, which may be 0.
    #[inline(always)]
    pub fn take_hits<P: Program, X: Expand, Q: Port>(
        &mut self,
        program: &P,
        expansion: &X,
        end: Cycle,
        most: u64,
        port: &mut Q,
    ) -> u64
        requires core { Q.core port.old ≡ self.old.number }
        requires base { Q.base port.old ≡ self.old.timed.core.memory.base }
        requires size { Q.size port.old ≡ self.old.timed.core.memory.size }
        requires l1i { IsTrue self.old.timed.core.fetching → IsTrue (Q.l1i port.old) }
        requires room { min most (most_accesses end self.old.timed) ≤ Q.room port.old }
        requires clock { self.old.timed.clock ≤ 2 ^ 61 }
        requires end { end ≤ 2 ^ 61 }
        ensures few { result ≤ most }
        ensures these { (entries : List Entry) × ((length entries ≡ result) × TakesThese (X.time expansion.now) (P.image program.now) end Q.gives Q.logged self.old.number entries port.old port.new self.old.timed self.new.timed) }
        ensures begun { self.old.timed.clock ≤ self.new.timed.clock }
        ensures within { self.new.timed.clock ≤ max self.old.timed.clock end }
        ensures latest { latest_clock end self.new.timed ≤ latest_clock end self.old.timed }
        ensures number { self.new.number ≡ self.old.number }
        ensures memory { self.new.timed.core.memory ≡ self.old.timed.core.memory }
        ensures fetching { self.new.timed.core.fetching ≡ self.old.timed.core.fetching }
        ensures spare { self.new.spare ≡ self.old.spare }
        ensures port_core { Q.core port.new ≡ Q.core port.old }
        ensures port_base { Q.base port.new ≡ Q.base port.old }
        ensures port_size { Q.size port.new ≡ Q.size port.old }
        ensures port_l1i { Q.l1i port.new ≡ Q.l1i port.old }
        ensures port_room { Q.room port.old ≤ Q.room port.new + result }
    {
        let came = self.go_by_hits(program, expansion, end, most, port);
        came.accesses
    }

    /// The same, and it tells where the core went: the legs of its way come behind those that are
    /// there, as long as there is room for them. Where it took `most` turns, and these are not 0, a
    /// core that does not fetch stands behind the last one. One that fetches may have gone on: behind
    /// a fetch it has taken the instruction that it fetched.
    #[inline(always)]
    pub fn take_told_hits<P: Program, X: Expand, Q: Port>(
        &mut self,
        program: &P,
        expansion: &X,
        end: Cycle,
        most: u64,
        port: &mut Q,
        way: &mut Vec<Leg>,
    ) -> u64
        requires core { Q.core port.old ≡ self.old.number }
        requires base { Q.base port.old ≡ self.old.timed.core.memory.base }
        requires size { Q.size port.old ≡ self.old.timed.core.memory.size }
        requires l1i { IsTrue self.old.timed.core.fetching → IsTrue (Q.l1i port.old) }
        requires room { min most (most_accesses end self.old.timed) ≤ Q.room port.old }
        requires clock { self.old.timed.clock ≤ 2 ^ 61 }
        requires end { end ≤ 2 ^ 61 }
        ensures few { result ≤ most }
        ensures told { TakesTold (X.time expansion.now) (P.image program.now) end Q.gives Q.logged self.old.number most result way.old.items way.new.items port.old port.new self.old.timed self.new.timed }
        ensures begun { self.old.timed.clock ≤ self.new.timed.clock }
        ensures within { self.new.timed.clock ≤ max self.old.timed.clock end }
        ensures latest { latest_clock end self.new.timed ≤ latest_clock end self.old.timed }
        ensures number { self.new.number ≡ self.old.number }
        ensures memory { self.new.timed.core.memory ≡ self.old.timed.core.memory }
        ensures fetching { self.new.timed.core.fetching ≡ self.old.timed.core.fetching }
        ensures spare { self.new.spare ≡ self.old.spare }
        ensures port_core { Q.core port.new ≡ Q.core port.old }
        ensures port_base { Q.base port.new ≡ Q.base port.old }
        ensures port_size { Q.size port.new ≡ Q.size port.old }
        ensures port_l1i { Q.l1i port.new ≡ Q.l1i port.old }
        ensures port_room { Q.room port.old ≤ Q.room port.new + result }
    {
        if self.may_go_on(end) {
            let stint = self.stint(expansion, end, most);
            let came = self.core.run_told_hits(program, &stint, port, way);
            self.clock = came.clock;
            self.instructions += came.count;
            came.accesses
        } else {
            0
        }
    }

    /// Takes turns as `take_hits` does. It answers also the access to which the core came, if the next
    /// instruction makes one that is no hit.
    #[inline(always)]
    fn go_by_hits<P: Program, X: Expand, Q: Port>(
        &mut self,
        program: &P,
        expansion: &X,
        end: Cycle,
        most: u64,
        port: &mut Q,
    ) -> Came
        requires core { Q.core port.old ≡ self.old.number }
        requires base { Q.base port.old ≡ self.old.timed.core.memory.base }
        requires size { Q.size port.old ≡ self.old.timed.core.memory.size }
        requires l1i { IsTrue self.old.timed.core.fetching → IsTrue (Q.l1i port.old) }
        requires room { min most (most_accesses end self.old.timed) ≤ Q.room port.old }
        requires clock { self.old.timed.clock ≤ 2 ^ 61 }
        requires end { end ≤ 2 ^ 61 }
        ensures few { result.accesses ≤ most }
        ensures these { (entries : List Entry) × ((length entries ≡ result.accesses) × TakesThese (X.time expansion.now) (P.image program.now) end Q.gives Q.logged self.old.number entries port.old port.new self.old.timed self.new.timed) }
        ensures met { IfSome result.met (λ single. begun_in_time (Some single) (ahead 1 self.new.timed) ≡ ran_to (P.image program.now) end self.new.timed) }
        ensures early { IsSome result.met → self.new.timed.clock < end }
        ensures pace { IsSome result.met → self.new.timed.pace ≡ None }
        ensures begun { self.old.timed.clock ≤ self.new.timed.clock }
        ensures within { self.new.timed.clock ≤ max self.old.timed.clock end }
        ensures latest { latest_clock end self.new.timed ≤ latest_clock end self.old.timed }
        ensures number { self.new.number ≡ self.old.number }
        ensures memory { self.new.timed.core.memory ≡ self.old.timed.core.memory }
        ensures fetching { self.new.timed.core.fetching ≡ self.old.timed.core.fetching }
        ensures spare { self.new.spare ≡ self.old.spare }
        ensures port_core { Q.core port.new ≡ Q.core port.old }
        ensures port_base { Q.base port.new ≡ Q.base port.old }
        ensures port_size { Q.size port.new ≡ Q.size port.old }
        ensures port_l1i { Q.l1i port.new ≡ Q.l1i port.old }
        ensures port_room { Q.room port.old ≤ Q.room port.new + result.accesses }
    {
        if self.may_go_on(end) {
            let stint = self.stint(expansion, end, most);
            let came = self.core.run_hits(program, &stint, port);
            self.clock = came.clock;
            self.instructions += came.count;
            came
        } else {
            Came::nowhere(0, None, 0)
        }
    }

    /// Whether the core may go on by itself to the end of the interval: only one without a pipeline
    /// does.
    #[inline(always)]
    fn may_go_on(&self, end: Cycle) -> bool
        ensures early { IsTrue result → self.now.timed.clock < end }
        ensures pace { IsTrue result → self.now.timed.pace ≡ None }
        ensures idle { IsTrue result → IsTrue (is_idle self.now.timed.core) }
        ensures line { IsTrue result → IsTrue self.now.timed.core.fetching → IsSome self.now.timed.core.fetched_line }
    {
        self.clock < end && self.pace.is_none() && self.core.may_go_on()
    }

    /// How long it goes on by itself: to the end of the interval, with `most` accesses at most.
    #[inline(always)]
    fn stint<X: Expand>(&self, expansion: &X, end: Cycle, most: u64) -> Stint
        requires early { self.now.timed.clock < end }
        requires pace { self.now.timed.pace ≡ None }
        requires idle { IsTrue (is_idle self.now.timed.core) }
        requires line { IsTrue self.now.timed.core.fetching → IsSome self.now.timed.core.fetched_line }
        ensures is { IsStint (X.time expansion.now) end self.now.timed result }
        ensures begins { result.clock ≤ result.end }
        ensures accesses { result.accesses ≡ min most (end - self.now.timed.clock) }
    {
        Stint {
            clock: self.clock,
            end,
            hit: expansion.hit_time(false),
            fetch_hit: expansion.hit_time(true),
            accesses: most.min(end - self.clock),
        }
    }

    /// A turn, without its entry: whether it took one. `met` is the access to which the core came, if
    /// it came to one before. An entry that is handed out is copied whole, with the unused bytes
    /// between its fields, for which the processor waits.
    #[inline(always)]
    fn take_turn<P: Program, X: Expand, Q: Port>(
        &mut self,
        program: &P,
        expansion: &X,
        end: Cycle,
        met: Option<Single>,
        port: &mut Q,
    ) -> bool
        requires core { Q.core port.old ≡ self.old.number }
        requires base { Q.base port.old ≡ self.old.timed.core.memory.base }
        requires size { Q.size port.old ≡ self.old.timed.core.memory.size }
        requires l1i { IsTrue self.old.timed.core.fetching → IsTrue (Q.l1i port.old) }
        requires met { IfSome met (λ single. begun_in_time (Some single) (ahead 1 self.old.timed) ≡ ran_to (P.image program.now) end self.old.timed) }
        requires early { IsSome met → self.old.timed.clock < end }
        requires pace { IsSome met → self.old.timed.pace ≡ None }
        requires room { 1 ≤ Q.room port.old }
        requires spare { 1 ≤ self.old.spare }
        requires clock { self.old.timed.clock ≤ 2 ^ 61 }
        requires end { end ≤ 2 ^ 61 }
        ensures took { result ≡ true → TookOne (X.time expansion.now) (P.image program.now) end Q.gives Q.logged self.old.number port.old port.new self.old.timed self.new.timed }
        ensures ended { result ≡ false → EndsInterval (P.image program.now) end port.old port.new self.old.timed self.new.timed }
        ensures over { result ≡ false → IsOver end self.new.timed }
        ensures same_spare { result ≡ false → self.new.spare ≡ self.old.spare }
        ensures begun { self.old.timed.clock ≤ self.new.timed.clock }
        ensures latest { latest_clock end self.new.timed ≤ latest_clock end self.old.timed }
        ensures number { self.new.number ≡ self.old.number }
        ensures memory { self.new.timed.core.memory ≡ self.old.timed.core.memory }
        ensures fetching { self.new.timed.core.fetching ≡ self.old.timed.core.fetching }
        ensures spare { self.old.spare ≤ self.new.spare + 1 }
        ensures port_core { Q.core port.new ≡ Q.core port.old }
        ensures port_base { Q.base port.new ≡ Q.base port.old }
        ensures port_size { Q.size port.new ≡ Q.size port.old }
        ensures port_l1i { Q.l1i port.new ≡ Q.l1i port.old }
        ensures port_room { Q.room port.old ≤ Q.room port.new + 1 }
    {
        let met = self.run_to_access(program, end, met);
        match self.asked(met) {
            Some(request) => {
                self.make(expansion, port, request, met);
                true
            }
            None => false,
        }
    }

    /// The access that the core makes next: the one to which it came, or that of the instruction in
    /// progress.
    #[inline(always)]
    fn asked(&self, met: Option<Single>) -> Option<Request>
        requires { IsSoundCore (begun_if met self.now.timed.core) }
        ensures value { result ≡ asks (begun_in_time met self.now.timed) }
        ensures served { IfSome result (IsServableIn self.now.timed.core.memory self.now.timed.core.fetching) }
    {
        match met {
            Some(single) => Some(single.request()),
            None => self.core.request(),
        }
    }

    /// Makes the access to which the core came, and ends its instruction, which it has not begun; or
    /// the access that the core waits for. Both are one call of the port, so that what this does is
    /// compiled once, into the loop over turns.
    #[inline(always)]
    fn make<X: Expand, Q: Port>(
        &mut self,
        expansion: &X,
        port: &mut Q,
        request: Request,
        met: Option<Single>,
    ) -> Entry
        requires asked { asks (begun_in_time met self.old.timed) ≡ Some request }
        requires begun { IsSoundCore (begun_if met self.old.timed.core) }
        requires core { Q.core port.old ≡ self.old.number }
        requires room { 1 ≤ Q.room port.old }
        requires spare { 1 ≤ self.old.spare }
        requires clock { self.old.timed.clock ≤ 2 ^ 62 }
        requires servable { IsServable (Q.base port.old) (Q.size port.old) (Q.l1i port.old) request }
        ensures given { Q.gives port.old self.old.timed.clock request result port.new }
        ensures left { self.new.timed ≡ core_after_access (X.time expansion.now) result (begun_in_time met self.old.timed) }
        ensures core { result.core ≡ self.old.number }
        ensures start { result.start ≡ self.old.timed.clock }
        ensures request { result.request ≡ request }
        ensures later { self.old.timed.clock < self.new.timed.clock }
        ensures within { self.new.timed.clock ≤ self.old.timed.clock + 2 ^ 20 }
        ensures number { self.new.number ≡ self.old.number }
        ensures memory { self.new.timed.core.memory ≡ self.old.timed.core.memory }
        ensures fetching { self.new.timed.core.fetching ≡ self.old.timed.core.fetching }
        ensures sound { IsSoundCore self.new.timed.core }
        ensures spare { self.old.spare ≤ self.new.spare + 1 }
        ensures port_core { Q.core port.new ≡ Q.core port.old }
        ensures port_base { Q.base port.new ≡ Q.base port.old }
        ensures port_size { Q.size port.new ≡ Q.size port.old }
        ensures port_l1i { Q.l1i port.new ≡ Q.l1i port.old }
        ensures port_room { Q.room port.old ≤ Q.room port.new + 1 }
        ensures port_logged { Gains (Q.logged port.old) (result ∷ []) (Q.logged port.new) }
    {
        let entry = port.access(self.clock, request);
        self.take_reply(met, entry.reply);
        self.clock += expansion.time(&entry);
        entry
    }

    /// Takes the reply to an access: of the instruction to which the core came, which ends, or of the
    /// one in progress.
    #[inline(always)]
    fn take_reply(&mut self, met: Option<Single>, reply: u64)
        requires asked { IsSome (asks (begun_in_time met self.old.timed)) }
        requires begun { IsSoundCore (begun_if met self.old.timed.core) }
        requires spare { 1 ≤ self.old.spare }
        ensures left { self.new.timed ≡ answered_in_time reply (begun_in_time met self.old.timed) }
        ensures number { self.new.number ≡ self.old.number }
        ensures memory { self.new.timed.core.memory ≡ self.old.timed.core.memory }
        ensures fetching { self.new.timed.core.fetching ≡ self.old.timed.core.fetching }
        ensures sound { IsSoundCore self.new.timed.core }
        ensures spare { self.old.spare ≤ self.new.spare + 1 }
    {
        if let Some(single) = met {
            self.core.complete(single, reply);
            return;
        }
        if let Some(byte) = self.core.answer(reply) {
            self.console.push_reserved(byte);
        }
    }
}
