//! A step of a core: its next instruction, up to its first access if it has one.
ghost use Rattle.std.specs.Prelude.{◌≡◌, ◌+◌, ◌<◌, ◌≤◌, Bool, false, IfNone, IfSome, IsTrue, OnSome, is_some};
ghost use Rattle.elf_load.specs.MemoryImage.{fetched_word};
ghost use Rattle.rv_core.specs.Effect.{effect, goes_on, halts};
ghost use Rattle.rv_core.specs.Fetch.{fetched_at};
ghost use Rattle.rv_core.specs.Decoded.{HasRegisters};
ghost use Rattle.rv_core.specs.Sound.{IsServableAsk, IsSoundCore};
ghost use Rattle.rv_core.specs.Single.{begun_if, comes_to_next, met_by};
ghost use Rattle.rv_core.specs.Step.{executed, is_free, needs_fetch};
ghost use Rattle.rv_core.specs.Asked.{advanced, asked, is_idle, stepped};

use crate::{Ask, Core, Did, Fetched, Program, Why};
use elf_load::Image;
use rv_decode::Inst;

/// What a core that fetches did in a step.
#[derive(Clone, Copy)]
pub enum Stepped {
    /// It asks for its next instruction.
    Fetches,
    /// It executed its next instruction, up to the first access if it has one. `goes_on`: it comes
    /// to another one.
    Executed { goes_on: bool },
}

/// What [`Core::next`] and [`Core::step_fetching`] take in place of a loop's type (see [`Core::step`]).
pub(crate) struct Asking;

pub(crate) struct Fetching;

impl Core {
    /// Executes the next instruction, up to its next access, of which its fetch is the first if it
    /// has to be fetched. Where an access waits for its reply, or the core has halted, it asks again
    /// for what it asked.
    pub fn next<P: Program>(&mut self, program: &P) -> Ask
        ensures value { self.new ≡ advanced (P.image program.now) self.old }
        ensures ask { result ≡ asked self.new.halted self.new.instruction }
        ensures served { IsServableAsk self.new.memory self.new.fetching result }
        ensures sound { IsSoundCore self.new }
        ensures memory { self.new.memory ≡ self.old.memory }
        ensures fetching { self.new.fetching ≡ self.old.fetching }
    {
        if self.is_free() {
            if self.is_fetching() {
                self.step_fetching(program);
            } else {
                self.has_none_fetched();
                self.step::<P, Asking>(program);
            }
        }
        self.ask()
    }

    /// What the core asks for.
    fn ask(&self) -> Ask
        ensures value { result ≡ asked self.now.halted self.now.instruction }
        ensures served { IsServableAsk self.now.memory self.now.fetching result }
        ensures sound { IsSoundCore self.now }
    {
        match (self.halted(), self.request()) {
            (Some(why), _) => Ask::Halted(why),
            (None, Some(request)) => Ask::Access(request),
            (None, None) => Ask::Local,
        }
    }

    /// Executes the next instruction, which does not have to be fetched first, up to its first access
    /// if it has one. It answers whether the core comes to a next instruction: it has not halted, and
    /// has no access to make. The type `T` means nothing: each loop over instructions takes one of its
    /// own, and the compiler then sets into it what executes an instruction.
    #[inline(always)]
    pub fn step<P: Program, T>(&mut self, program: &P) -> bool
        requires free { IsTrue (is_free self.old) }
        requires unfetched { self.old.is_fetched ≡ false }
        requires there { needs_fetch (P.image program.now) self.old ≡ false }
        ensures value { self.new ≡ stepped (P.image program.now) self.old }
        ensures free { result ≡ is_free self.new }
        ensures unfetched { self.new.is_fetched ≡ false }
        ensures sound { IsSoundCore self.new }
        ensures memory { self.new.memory ≡ self.old.memory }
        ensures fetching { self.new.fetching ≡ self.old.fetching }
    {
        rv_decode::laws::fields_are_in_range();
        self.fetch_and_execute::<P, T>(program)
    }

    /// Does as `step` does, but for a load or a store that the program has decoded, in memory and
    /// within a line: it answers the access, and leaves the core as it is. [`Core::complete`] then
    /// takes the reply.
    #[inline(always)]
    pub fn step_or_meet<P: Program, T>(&mut self, program: &P) -> Did
        requires free { IsTrue (is_free self.old) }
        requires unfetched { self.old.is_fetched ≡ false }
        requires there { needs_fetch (P.image program.now) self.old ≡ false }
        ensures value { begun_if (met_by result) self.new ≡ stepped (P.image program.now) self.old }
        ensures next { comes_to_next result ≡ is_free (begun_if (met_by result) self.new) }
        ensures same { IfSome (met_by result) (λ single. self.new ≡ self.old) }
        ensures unfetched { self.new.is_fetched ≡ false }
        ensures sound { IsSoundCore (begun_if (met_by result) self.new) }
        ensures memory { self.new.memory ≡ self.old.memory }
        ensures fetching { self.new.fetching ≡ self.old.fetching }
    {
        rv_decode::laws::fields_are_in_range();
        self.execute_or_meet::<P, T>(program)
    }

    /// The next step of a core that fetches: it asks for its next instruction, where it has to, or
    /// executes it.
    #[inline(never)]
    pub fn step_fetching<P: Program>(&mut self, program: &P) -> Stepped
        requires free { IsTrue (is_free self.old) }
        requires fetching { IsTrue self.old.fetching }
        ensures value { self.new ≡ stepped (P.image program.now) self.old }
        ensures fetches { result ≡ Stepped.Fetches → IsTrue (needs_fetch (P.image program.now) self.old) }
        ensures executes { (goes_on : Bool) → result ≡ Stepped.Executed goes_on → (needs_fetch (P.image program.now) self.old ≡ false) × (goes_on ≡ is_free self.new) }
        ensures unfetched { self.new.is_fetched ≡ false }
        ensures sound { IsSoundCore self.new }
        ensures memory { self.new.memory ≡ self.old.memory }
        ensures fetching { self.new.fetching ≡ self.old.fetching }
    {
        rv_decode::laws::fields_are_in_range();
        if self.needs_fetch(program) {
            self.begin_fetch();
            return Stepped::Fetches;
        }
        self.begin_execution();
        Stepped::Executed {
            goes_on: self.fetch_and_execute::<P, Fetching>(program),
        }
    }

    /// Whether the instruction at pc has to be fetched.
    #[tactic(auto, unfolding(crate::specs::Step::needs_fetch))]
    fn needs_fetch<P: Program>(&mut self, program: &P) -> bool
        requires { IsTrue self.old.fetching }
        ensures value { result ≡ needs_fetch (P.image program.now) self.old }
        ensures begins { IsTrue result → self.old.memory.base ≤ self.old.pc }
        ensures ends { IsTrue result → self.old.pc + 4 ≤ self.old.memory.base + self.old.memory.size }
        ensures unfetched { IsTrue result → self.old.is_fetched ≡ false }
        ensures same { self.new ≡ self.old }
        ensures sound { IsSoundCore self.old }
    {
        !self.is_in_latest_line() && self.has_word(program) && self.has(self.pc(), 4)
    }

    /// Whether the four bytes at pc are in one executable segment.
    #[inline(always)]
    fn has_word<P: Program>(&mut self, program: &P) -> bool
        ensures value { result ≡ is_some (fetched_word (P.image program.now).segments self.old.pc) }
        ensures same { self.new ≡ self.old }
        ensures sound { IsSoundCore self.old }
    {
        match self.decoded(program) {
            Some(_) => true,
            None => self.has_undecoded_word(program),
        }
    }

    /// The same, where the program does not have them decoded.
    #[inline(never)]
    fn has_undecoded_word<P: Program>(&mut self, program: &P) -> bool
        ensures value { result ≡ is_some (fetched_word (P.image program.now).segments self.old.pc) }
        ensures same { self.new ≡ self.old }
        ensures sound { IsSoundCore self.old }
    {
        !matches!(self.upcoming(program), Fetched::Outside)
    }

    #[inline(always)]
    fn fetch_and_execute<P: Program, T>(&mut self, program: &P) -> bool
        requires { IsTrue (is_idle self.old) }
        ensures value { self.new ≡ executed (P.image program.now) self.old }
        ensures free { result ≡ is_free self.new }
        ensures sound { IsSoundCore self.old }
    {
        match self.decoded(program) {
            Some(inst) => self.execute::<(P, T)>(inst),
            None => self.fetch_undecoded(program),
        }
    }

    /// Executes the next instruction, where the program does not have it decoded.
    #[inline(always)]
    fn fetch_undecoded<P: Program>(&mut self, program: &P) -> bool
        requires { IsTrue (is_idle self.old) }
        ensures value { self.new ≡ executed (P.image program.now) self.old }
        ensures free { result ≡ is_free self.new }
    {
        match self.decode(program) {
            Some(inst) => self.execute_apart(&inst),
            None => false,
        }
    }

    /// Executes the next instruction, or answers its access where it makes that alone.
    #[inline(always)]
    fn execute_or_meet<P: Program, T>(&mut self, program: &P) -> Did
        requires { IsTrue (is_idle self.old) }
        ensures value { begun_if (met_by result) self.new ≡ executed (P.image program.now) self.old }
        ensures next { comes_to_next result ≡ is_free (begun_if (met_by result) self.new) }
        ensures same { IfSome (met_by result) (λ single. self.new ≡ self.old) }
        ensures sound { IsSoundCore self.old }
    {
        match self.decoded(program) {
            Some(inst) => match self.single(inst) {
                Some(single) => Did::Meets(single),
                None => Did::of(self.execute::<(P, T)>(inst)),
            },
            None => Did::of(self.fetch_undecoded(program)),
        }
    }

    /// Executes an instruction that the program does not have decoded.
    #[inline(never)]
    fn execute_apart(&mut self, inst: &Inst) -> bool
        requires idle { IsTrue (is_idle self.old) }
        requires registers { HasRegisters (Fetched.Instruction inst.now) }
        ensures value { self.new ≡ effect inst.now.name inst.now self.old }
        ensures free { result ≡ is_free self.new }
    {
        self.execute::<Image>(inst)
    }

    /// The instruction at pc, where the program does not have it decoded. Where there is none, the
    /// core halts.
    #[cold]
    #[inline(never)]
    fn decode<P: Program>(&mut self, program: &P) -> Option<Inst>
        requires { IsTrue (is_idle self.old) }
        ensures found { IfSome result (λ inst. fetched_at (P.image program.now) self.old.pc ≡ Fetched.Instruction inst) }
        ensures registers { IfSome result (λ inst. HasRegisters (Fetched.Instruction inst)) }
        ensures same { OnSome result (self.new ≡ self.old) }
        ensures halts { IfNone result (self.new ≡ executed (P.image program.now) self.old) }
        ensures stops { IfNone result (is_free self.new ≡ false) }
    {
        match self.upcoming(program) {
            Fetched::Instruction(inst) => return Some(inst),
            Fetched::NoInstruction { word } => self.halt(Why::Illegal { word }),
            Fetched::Outside => self.halt(Why::Fetch { addr: self.pc() }),
        }
        None
    }

    /// Halts, and answers that the core comes to no next instruction.
    pub(crate) fn stop(&mut self, why: Why) -> bool
        requires { IsTrue (is_idle self.old) }
        ensures value { self.new ≡ halts why self.old }
        ensures free { result ≡ false }
    {
        self.halt(why);
        false
    }

    /// Writes a register, and answers that the core comes to its next instruction.
    #[inline(always)]
    pub(crate) fn write_register(&mut self, rd: u8, value: u64) -> bool
        requires idle { IsTrue (is_idle self.old) }
        requires rd { rd < 32 }
        ensures value { self.new ≡ goes_on self.old rd value }
        ensures free { result ≡ is_free self.new }
    {
        self.go_on(rd, value);
        true
    }
}
