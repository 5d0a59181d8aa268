//! The state of a core.
ghost use Rattle.std.specs.Prelude.{◌≡◌, ◌+◌, ◌%◌, ◌<◌, ◌≤◌, ◌^◌, ◌++◌, [], ◌∷◌, false, None, Some, IsTrue, IsSome, IfSome, List, option_map, option_to_list};
ghost use Rattle.zs_num.specs.PairedRight.{ArePairedRight, IsPairedRight};
ghost use Rattle.zs_num.specs.Pairing.{is_paired};
ghost use Rattle.zs_num.specs.Request.{line_at, width_of};
ghost use Rattle.rv_core.specs.Accesses.{byte_loads, is_in_memory};
ghost use Rattle.rv_core.specs.Sound.{IsServableIn, EndsInRegister, IsSoundCore};
ghost use Rattle.rv_core.specs.CoreState.{ToConsole};
ghost use Rattle.rv_core.specs.Effect.{ended, goes_on, goes_through, goes_to, halts, register};
ghost use Rattle.rv_core.specs.Fetch.{fetched_at};
ghost use Rattle.rv_core.specs.Decoded.{HasRegisters};
ghost use Rattle.rv_core.specs.Executions.{at, LeadsTo, LiesIn};
ghost use Rattle.rv_core.specs.Hits.{line_of, may_go_on, moment_of, HasGoneOn, IsOnItsWay};
ghost use Rattle.rv_core.specs.Told.{told_of, HasToldGoing, Told};
ghost use Rattle.rv_core.specs.Progress.{ending_of, IsNarrow};
ghost use Rattle.rv_core.specs.Asked.{is_idle, is_in_progress};
ghost use Rattle.rv_core.specs.Single.{begun};
ghost use Rattle.rv_core.specs.Step.{answered, asks_for_instruction, console_byte, executed, initial_core, is_free, is_latest, replies_with, unfetched};

use crate::pairing::{is_paired, pair};
use crate::progress::{Progress, Reply};
use crate::replies::{received, reply_to};
use crate::{Came, Destination, Fetched, Leg, MemoryRange, Port, Program, Ran, Single, Stint, Why};
use rv_decode::Inst;
use std::marker::Model;
use zs_num::{LINE, Pairing, Request};

/// The register a0.
pub(crate) const A0: u8 = 10;

/// The registers of a core, the address of its next instruction, and what it is about.
#[derive(Drop)]
pub struct Core {
    registers: [u64; 32],
    pc: u64,
    // Where the program looks first for the next instruction.
    near: usize,
    progress: Progress,
    halted: Option<Why>,
    pairing: Option<Pairing>,
    memory: MemoryRange,
    // Whether it fetches its instructions, and the line of its latest fetch.
    fetching: bool,
    line: Option<u64>,
}

impl Model for Core {
    ghost use Rattle.rv_core.specs.CoreState.{CoreState};
    ghost use Rattle.rv_core.specs.Progress.{in_progress, is_fetched, IsBounded};
    ghost use Rattle.rv_core.specs.Sound.{IsSoundCore};

    ghost Value = { CoreState };

    ghost view = { λ c. record { registers = c.registers; pc = c.pc; memory = c.memory; pairing = c.pairing; instruction = in_progress c.progress; fetching = c.fetching; fetched_line = c.line; is_fetched = is_fetched c.progress; halted = c.halted } };

    ghost invariant = { λ c. IsSoundCore (record { registers = c.registers; pc = c.pc; memory = c.memory; pairing = c.pairing; instruction = in_progress c.progress; fetching = c.fetching; fetched_line = c.line; is_fetched = is_fetched c.progress; halted = c.halted }) × IsBounded c.memory c.progress };
}

impl Core {
    /// The core of this number at the start: `cores` is how many there are, and memory has `size`
    /// bytes from `base` on. `fetching` says whether it fetches its instructions, by accesses.
    #[tactic(auto, unfolding(crate::specs::Step::initial_core))]
    pub fn new(
        number: u16,
        cores: u16,
        entry: u64,
        sp: u64,
        base: u64,
        size: u64,
        fetching: bool,
    ) -> Self
        requires memory { base + size ≤ 2 ^ 48 }
        requires aligned { IsTrue fetching → entry % 4 ≡ 0 }
        ensures { result ≡ initial_core number cores entry sp (record { base = base; size = size }) fetching }
    {
        let mut registers = [0; 32];
        registers[2] = sp;
        registers[10] = u64::from(number);
        registers[11] = u64::from(cores);
        Core {
            registers,
            pc: entry,
            near: 0,
            progress: Progress::Idle,
            halted: None,
            pairing: None,
            memory: MemoryRange { base, size },
            fetching,
            line: None,
        }
    }

    /// The number in a register, 0 to 31.
    #[inline(always)]
    pub fn reg(&self, number: u8) -> u64
        requires { number < 32 }
        ensures value { result ≡ register self.now number }
        ensures zero { number ≡ 0 → result ≡ 0 }
    {
        self.registers[number as usize]
    }

    /// The address of the instruction that comes next or is in progress.
    #[inline(always)]
    pub fn pc(&self) -> u64
        ensures { result ≡ self.now.pc }
    {
        self.pc
    }

    /// Why it halted, or None where it did not.
    #[inline(always)]
    pub fn halted(&self) -> Option<Why>
        ensures { result ≡ self.now.halted }
    {
        self.halted
    }

    /// The access that the instruction in progress needs next, or None where it waits for none.
    #[inline(always)]
    pub fn request(&self) -> Option<Request>
        ensures value { result ≡ option_map (λ now. now.next) self.now.instruction }
        ensures served { IfSome result (IsServableIn self.now.memory self.now.fetching) }
        ensures sound { IsSoundCore self.now }
    {
        match self.progress {
            Progress::Idle | Progress::Fetched => None,
            Progress::Fetch { addr } => Some(Request::Fetch { addr }),
            Progress::Lower { next, .. } | Progress::Last { next, .. } => Some(next),
            Progress::Write { addr, .. } => Some(Request::Load { addr, width: 1 }),
        }
    }

    /// Whether the core goes on by itself: it has not halted, and waits for no reply.
    #[inline(always)]
    pub fn is_free(&self) -> bool
        ensures { result ≡ is_free self.now }
    {
        self.halted.is_none() && matches!(self.progress, Progress::Idle | Progress::Fetched)
    }

    /// Whether the core fetches its instructions.
    #[inline(always)]
    pub fn is_fetching(&self) -> bool
        ensures value { result ≡ self.now.fetching }
        ensures sound { IsSoundCore self.now }
    {
        self.fetching
    }

    /// Whether the instruction at pc was fetched and is to be executed.
    #[inline(always)]
    pub fn is_fetched(&self) -> bool
        ensures { result ≡ self.now.is_fetched }
    {
        matches!(self.progress, Progress::Fetched)
    }

    /// A core that does not fetch has no instruction that was fetched.
    #[inline(always)]
    pub(crate) fn has_none_fetched(&self)
        requires { self.now.fetching ≡ false }
        ensures fetched { self.now.is_fetched ≡ false }
        ensures sound { IsSoundCore self.now }
    {
        let _ = &self.fetching;
    }

    /// Whether the next instruction stands in the line of the latest fetch, so that it does not have
    /// to be fetched.
    #[inline(always)]
    pub fn is_in_latest_line(&self) -> bool
        ensures value { result ≡ is_latest self.now.fetched_line (line_at self.now.pc) }
        ensures sound { IsSoundCore self.now }
    {
        self.has_line(self.pc / LINE)
    }

    /// Whether an instruction is in progress: it needs a further access, or was fetched and is to be
    /// executed.
    #[inline(always)]
    pub fn in_progress(&self) -> bool
        ensures { result ≡ is_in_progress self.now }
    {
        !matches!(self.progress, Progress::Idle)
    }

    /// The instruction at pc, if the program has it decoded already.
    #[inline(always)]
    pub(crate) fn decoded<'p, P: Program>(&self, program: &'p P) -> Option<&'p Inst>
        ensures value { IfSome result (λ inst. fetched_at (P.image program.now) self.now.pc ≡ Fetched.Instruction inst.now) }
        ensures registers { IfSome result (λ inst. HasRegisters (Fetched.Instruction inst.now)) }
        ensures sound { IsSoundCore self.now }
    {
        program.decoded_at(self.near, self.pc)
    }

    /// What the program has at pc, where the instruction stands that comes next.
    #[inline(always)]
    pub fn upcoming<P: Program>(&mut self, program: &P) -> Fetched
        ensures value { result ≡ fetched_at (P.image program.now) self.old.pc }
        ensures registers { HasRegisters result }
        ensures same { self.new ≡ self.old }
        ensures sound { IsSoundCore self.old }
    {
        program.fetch(&mut self.near, self.pc)
    }

    /// Lets the program execute instructions that change registers and pc alone, `most` at most, and
    /// answers how many it executed. Where the core came to a load or a store before so many, it may
    /// meet the access: its instruction is not begun, and [`Core::complete`] takes the reply.
    #[inline(always)]
    pub fn run_blocks<P: Program>(&mut self, program: &P, most: u64) -> Ran
        requires { IsTrue (is_idle self.old) }
        ensures few { result.count ≤ most }
        ensures ran { LeadsTo None result.count (P.image program.now) self.old.registers self.old.pc self.new.registers self.new.pc }
        ensures pc { result.pc ≡ self.new.pc }
        ensures early { IfSome result.met (λ single. result.count < most) }
        ensures met { IfSome result.met (λ single. executed (P.image program.now) self.new ≡ begun single self.new) }
        ensures same { self.new ≡ at self.old self.new.registers self.new.pc }
        ensures sound { IsSoundCore self.new }
    {
        rv_decode::laws::fields_are_in_range();
        let ran = program.run_blocks(&mut self.registers, self.pc, most, &self.memory);
        self.pc = ran.pc;
        ran
    }

    /// The same of instructions in the line in which the next one stands.
    #[inline(always)]
    pub fn run_in_line<P: Program>(&mut self, program: &P, most: u64) -> Ran
        requires { IsTrue (is_idle self.old) }
        ensures few { result.count ≤ most }
        ensures ran { LeadsTo (Some (line_at self.old.pc)) result.count (P.image program.now) self.old.registers self.old.pc self.new.registers self.new.pc }
        ensures pc { result.pc ≡ self.new.pc }
        ensures early { IfSome result.met (λ single. result.count < most) }
        ensures met { IfSome result.met (λ single. executed (P.image program.now) self.new ≡ begun single self.new) }
        ensures lies { IfSome result.met (λ single. line_at self.new.pc ≡ line_at self.old.pc) }
        ensures same { self.new ≡ at self.old self.new.registers self.new.pc }
        ensures sound { IsSoundCore self.new }
    {
        rv_decode::laws::fields_are_in_range();
        let line = self.pc / LINE;
        let ran = program.run_in_line(&mut self.registers, self.pc, most, &self.memory, line);
        self.pc = ran.pc;
        ran
    }

    /// Whether the core may go on by itself: nothing is in progress, and it has fetched a line, if it
    /// fetches.
    #[inline(always)]
    pub fn may_go_on(&self) -> bool
        ensures value { result ≡ may_go_on self.now }
        ensures idle { IsTrue result → IsTrue (is_idle self.now) }
        ensures line { IsTrue result → IsTrue self.now.fetching → IsSome self.now.fetched_line }
    {
        self.is_free()
            && !matches!(self.progress, Progress::Fetched)
            && (!self.fetching || self.line.is_some())
    }

    /// Lets the program go on with what the port serves at once: instructions without an access, and
    /// accesses that are hits. How far, the program chooses.
    #[inline(always)]
    pub fn run_hits<P: Program, Q: Port>(
        &mut self,
        program: &P,
        stint: &Stint,
        port: &mut Q,
    ) -> Came
        requires idle { IsTrue (is_idle self.old) }
        requires line { IsTrue self.old.fetching → IsSome self.old.fetched_line }
        requires base { Q.base port.old ≡ self.old.memory.base }
        requires size { Q.size port.old ≡ self.old.memory.size }
        requires l1i { IsTrue self.old.fetching → IsTrue (Q.l1i port.old) }
        requires room { stint.now.accesses ≤ Q.room port.old }
        requires begins { stint.now.clock ≤ stint.now.end }
        ensures gone { HasGoneOn (P.image program.now) self.old.memory stint.now Q.gives Q.core Q.logged Q.room result.accesses (moment_of self.old stint.now.clock 0 port.old) (moment_of self.new result.clock result.count port.new) }
        ensures early { IfSome result.met (λ single. result.clock < stint.now.end) }
        ensures met { IfSome result.met (λ single. executed (P.image program.now) self.new ≡ begun single self.new) }
        ensures lies { IfSome result.met (λ single. LiesIn (line_of self.new) self.new.pc) }
        ensures same { IsOnItsWay self.old self.new }
        ensures idle { IsTrue (is_idle self.new) }
        ensures line { IsTrue self.new.fetching → IsSome self.new.fetched_line }
        ensures sound { IsSoundCore self.new }
        ensures port_core { Q.core port.new ≡ Q.core port.old }
        ensures port_base { Q.base port.new ≡ Q.base port.old }
        ensures port_size { Q.size port.new ≡ Q.size port.old }
        ensures port_l1i { Q.l1i port.new ≡ Q.l1i port.old }
    {
        rv_decode::laws::fields_are_in_range();
        let line = if self.fetching { self.line } else { None };
        let came = program.run_hits(
            &mut self.registers,
            self.pc,
            line,
            &self.memory,
            stint,
            port,
        );
        self.pc = came.pc;
        self.line = if self.fetching { came.line } else { self.line };
        came
    }

    /// The same, which tells where the core went: the legs of its way come behind those that are
    /// there, as long as there is room for them. It answers no access to which the core came.
    #[inline(always)]
    pub fn run_told_hits<P: Program, Q: Port>(
        &mut self,
        program: &P,
        stint: &Stint,
        port: &mut Q,
        way: &mut Vec<Leg>,
    ) -> Came
        requires idle { IsTrue (is_idle self.old) }
        requires line { IsTrue self.old.fetching → IsSome self.old.fetched_line }
        requires base { Q.base port.old ≡ self.old.memory.base }
        requires size { Q.size port.old ≡ self.old.memory.size }
        requires l1i { IsTrue self.old.fetching → IsTrue (Q.l1i port.old) }
        requires room { stint.now.accesses ≤ Q.room port.old }
        requires begins { stint.now.clock ≤ stint.now.end }
        ensures gone { (told : List Told) × HasToldGoing (P.image program.now) self.old.memory stint.now Q.gives Q.core Q.logged Q.room result.accesses (moment_of self.old stint.now.clock 0 port.old) (moment_of self.new result.clock result.count port.new) told × (told_of way.new.items ≡ told_of way.old.items ++ told) }
        ensures same { IsOnItsWay self.old self.new }
        ensures idle { IsTrue (is_idle self.new) }
        ensures sound { IsSoundCore self.new }
        ensures port_core { Q.core port.new ≡ Q.core port.old }
        ensures port_base { Q.base port.new ≡ Q.base port.old }
        ensures port_size { Q.size port.new ≡ Q.size port.old }
        ensures port_l1i { Q.l1i port.new ≡ Q.l1i port.old }
    {
        rv_decode::laws::fields_are_in_range();
        let line = if self.fetching { self.line } else { None };
        let came = program.run_told_hits(
            &mut self.registers,
            self.pc,
            line,
            &self.memory,
            stint,
            port,
            way,
        );
        self.pc = came.pc;
        self.line = if self.fetching { came.line } else { self.line };
        came
    }

    /// Writes a register, unless it is x0, and goes on at an address.
    #[inline(always)]
    #[tactic(auto, unfolding(crate::specs::Effect::goes_to))]
    pub(crate) fn go_to(&mut self, rd: u8, value: u64, target: u64)
        requires rd { rd < 32 }
        requires aligned { IsTrue self.old.fetching → target % 4 ≡ 0 }
        requires fetched { self.old.is_fetched ≡ false }
        ensures value { self.new ≡ goes_to self.old rd value target }
        ensures free { is_free self.new ≡ is_free self.old }
    {
        if rd != 0 {
            self.registers[rd as usize] = value;
        }
        self.pc = target;
    }

    /// Writes a register, unless it is x0, and goes on at the next instruction.
    #[inline(always)]
    pub(crate) fn go_on(&mut self, rd: u8, value: u64)
        requires rd { rd < 32 }
        requires fetched { self.old.is_fetched ≡ false }
        ensures value { self.new ≡ goes_on self.old rd value }
        ensures free { is_free self.new ≡ is_free self.old }
    {
        self.go_to(rd, value, self.pc.wrapping_add(4));
    }

    /// Halts.
    pub(crate) fn halt(&mut self, why: Why)
        requires { IsTrue (is_idle self.old) }
        ensures { self.new ≡ halts why self.old }
    {
        self.halted = Some(why);
    }

    /// Where memory lies.
    #[inline(always)]
    pub(crate) fn memory(&self) -> &MemoryRange
        ensures value { result.now ≡ self.now.memory }
        ensures reach { self.now.memory.base + self.now.memory.size ≤ 2 ^ 48 }
    {
        &self.memory
    }

    /// Whether so many bytes from an address on lie in memory.
    #[inline(always)]
    pub(crate) fn has(&self, addr: u64, width: u64) -> bool
        ensures value { result ≡ is_in_memory self.now.memory addr width }
        ensures begins { IsTrue result → self.now.memory.base ≤ addr }
        ensures ends { IsTrue result → addr + width ≤ self.now.memory.base + self.now.memory.size }
        ensures reach { self.now.memory.base + self.now.memory.size ≤ 2 ^ 48 }
    {
        self.memory.has(addr, width)
    }

    /// Whether a store-conditional of this address and width is paired.
    pub(crate) fn is_paired(&self, addr: u64, width: u8) -> bool
        ensures { result ≡ is_paired self.now.pairing addr width }
    {
        is_paired(self.pairing, addr, width)
    }

    /// Begins the instruction at pc with its fetch.
    pub(crate) fn begin_fetch(&mut self)
        requires idle { IsTrue (is_idle self.old) }
        requires fetching { IsTrue self.old.fetching }
        requires begins { self.old.memory.base ≤ self.old.pc }
        requires ends { self.old.pc + 4 ≤ self.old.memory.base + self.old.memory.size }
        ensures { self.new ≡ asks_for_instruction self.old }
    {
        self.progress = Progress::Fetch { addr: self.pc };
    }

    /// The instruction that was fetched is executed next, as one that does not have to be fetched.
    #[inline(always)]
    pub fn begin_execution(&mut self)
        requires { IsTrue (is_free self.old) }
        ensures value { self.new ≡ unfetched self.old }
        ensures idle { IsTrue (is_idle self.new) }
    {
        self.progress = Progress::Idle;
    }

    /// Whether a line is that of the latest fetch.
    #[inline(always)]
    fn has_line(&self, line: u64) -> bool
        ensures value { result ≡ is_latest self.now.fetched_line line }
        ensures sound { IsSoundCore self.now }
    {
        self.line == Some(line)
    }

    /// Begins an instruction of one access.
    pub(crate) fn begin(&mut self, next: Request, destination: Option<Destination>)
        requires idle { IsTrue (is_idle self.old) }
        requires served { IsServableIn self.old.memory self.old.fetching next }
        requires paired { IsPairedRight self.old.pairing next }
        requires ending { EndsInRegister (ending_of destination) }
        ensures { self.new ≡ goes_through (next ∷ []) [] (ending_of destination) self.old }
    {
        self.progress = Progress::Last {
            next,
            lower: None,
            destination,
        };
    }

    /// Begins an instruction of two accesses, the lower line first.
    pub(crate) fn begin_crossing(
        &mut self,
        next: Request,
        upper: Request,
        destination: Option<Destination>,
    )
        requires idle { IsTrue (is_idle self.old) }
        requires served { IsServableIn self.old.memory self.old.fetching next × IsServableIn self.old.memory self.old.fetching upper }
        requires narrow { width_of next < 8 }
        requires paired { ArePairedRight self.old.pairing (next ∷ upper ∷ []) }
        requires ending { EndsInRegister (ending_of destination) }
        ensures { self.new ≡ goes_through (next ∷ upper ∷ []) [] (ending_of destination) self.old }
    {
        self.progress = Progress::Lower {
            next,
            upper,
            destination,
        };
    }

    /// Begins a write call of so many bytes from an address on.
    #[tactic(auto, using(crate::proofs::ByteLoads::loads_first))]
    pub(crate) fn begin_write(&mut self, addr: u64, count: u64)
        requires idle { IsTrue (is_idle self.old) }
        requires some { 0 < count }
        requires begins { self.old.memory.base ≤ addr }
        requires ends { addr + count ≤ self.old.memory.base + self.old.memory.size }
        requires few { count ≤ 256 }
        ensures { self.new ≡ goes_through (byte_loads addr count) [] (ToConsole count) self.old }
    {
        self.progress = Progress::Write {
            addr,
            later: count - 1,
            count,
        };
    }

    /// Takes the reply to the access that the instruction in progress needs next. Where that was
    /// the last, the instruction ends, and the core comes to the next one. Of a reply the lowest
    /// bytes count, as many as the access has; that to a fetch has no effect, and the instruction is
    /// executed next. The answer is the byte that goes to the console, where the access belongs to a
    /// write call.
    #[inline(always)]
    pub fn answer(&mut self, reply: u64) -> Option<u8>
        requires { IsSome self.old.instruction }
        ensures value { self.new ≡ answered reply self.old }
        ensures byte { result ≡ console_byte self.old.instruction reply }
        ensures sound { IsSoundCore self.new }
        ensures memory { self.new.memory ≡ self.old.memory }
        ensures fetching { self.new.fetching ≡ self.old.fetching }
    {
        self.take(reply)
    }

    /// Takes the reply to the one access of the next instruction, which then ends: what the core does
    /// where it has begun the instruction.
    #[inline(always)]
    pub fn complete(&mut self, single: Single, reply: u64)
        requires { IsSoundCore (begun single self.old) }
        ensures value { self.new ≡ answered reply (begun single self.old) }
        ensures sound { IsSoundCore self.new }
        ensures memory { self.new.memory ≡ self.old.memory }
        ensures fetching { self.new.fetching ≡ self.old.fetching }
    {
        self.finish(single, reply);
    }

    #[inline(always)]
    #[tactic(auto, unfolding(crate::specs::Effect::ended, crate::specs::Step::answered))]
    fn finish(&mut self, single: Single, reply: u64)
        requires { IsSoundCore (begun single self.old) }
        ensures { self.new ≡ answered reply (begun single self.old) }
    {
        self.progress = Progress::Idle;
        match single {
            Single::Load { destination, .. } => {
                let last = reply_to(&single.request(), reply);
                self.go_on(destination.rd as u8, received(None, last, destination));
            }
            Single::Store { .. } => self.go_on(0, 0),
        }
    }

    #[tactic(auto, unfolding(crate::specs::Step::answered))]
    fn take(&mut self, reply: u64) -> Option<u8>
        requires { IsSome self.old.instruction }
        ensures value { self.new ≡ answered reply self.old }
        ensures byte { result ≡ console_byte self.old.instruction reply }
        ensures sound { IsSoundCore self.old }
    {
        match self.progress {
            Progress::Idle | Progress::Fetched => unreachable!(),
            Progress::Fetch { .. } => {
                self.line = Some(self.pc / LINE);
                self.progress = Progress::Fetched;
                None
            }
            Progress::Lower {
                next,
                upper,
                destination,
            } => {
                pair(&mut self.pairing, next);
                self.progress = Progress::Last {
                    next: upper,
                    lower: kept(destination, reply_to(&next, reply)),
                    destination,
                };
                None
            }
            Progress::Last {
                next,
                lower,
                destination,
            } => {
                self.progress = Progress::Idle;
                pair(&mut self.pairing, next);
                self.end(lower, reply_to(&next, reply), destination);
                None
            }
            Progress::Write { addr, later, count } => {
                self.progress = Progress::Idle;
                self.wrote(addr + 1, later, count);
                Some((reply % 256) as u8)
            }
        }
    }

    /// Ends an instruction with its last reply, beside the one from the lower line.
    #[tactic(auto, unfolding(crate::specs::Effect::ended))]
    fn end(&mut self, lower: Option<Reply>, reply: Reply, destination: Option<Destination>)
        requires fetched { self.old.is_fetched ≡ false }
        requires narrow { IsNarrow lower }
        requires ending { EndsInRegister (ending_of destination) }
        ensures { self.new ≡ ended (ending_of destination) (replies_with (ending_of destination) (option_to_list lower) reply) self.old }
    {
        match destination {
            Some(destination) => self.go_on(
                destination.rd as u8,
                received(lower, reply, destination),
            ),
            None => self.go_on(0, 0),
        }
    }

    /// A byte was written, and so many are left from an address on.
    #[tactic(auto, using(crate::proofs::ByteLoads::loads_first), unfolding(crate::specs::Effect::ended))]
    fn wrote(&mut self, addr: u64, left: u64, count: u64)
        requires idle { IsTrue (is_idle self.old) }
        requires begins { self.old.memory.base ≤ addr }
        requires ends { addr + left ≤ self.old.memory.base + self.old.memory.size }
        requires few { left ≤ 256 }
        ensures { self.new ≡ goes_through (byte_loads addr left) [] (ToConsole count) self.old }
    {
        if left == 0 {
            self.go_on(A0, count);
        } else {
            self.progress = Progress::Write {
                addr,
                later: left - 1,
                count,
            };
        }
    }
}

/// The reply from the lower line, which only a load keeps.
fn kept(destination: Option<Destination>, reply: Reply) -> Option<Reply>
    ensures value { option_to_list result ≡ replies_with (ending_of destination) [] reply }
    ensures narrow { reply.width < 8 → IsNarrow result }
{
    match destination {
        Some(_) => Some(reply),
        None => None,
    }
}
