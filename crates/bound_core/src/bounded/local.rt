//! What a core executes by itself in an interval: the instructions before its next access.
ghost use Rattle.std.specs.Prelude.{◌≡◌, ◌+◌, ◌-◌, ◌*◌, ◌≤◌, ◌<◌, ◌^◌, max, false, Some, None, is_none, IfSome, IsSome, IsTrue, if◌then◌else◌};
ghost use Rattle.zs_num.specs.Request.{line_at};
ghost use Rattle.rv_core.specs.Single.{begun, begun_if, comes_to_next, met_by};
ghost use Rattle.rv_core.specs.Sound.{IsSoundCore};
ghost use Rattle.rv_core.specs.Step.{cost, is_free, is_latest, needs_fetch};
ghost use Rattle.reference.specs.TimedCore.{after_instruction, goes_on_alone, ran_to};
ghost use Rattle.reference.specs.Pacing.{IsSoon};
ghost use Rattle.reference.specs.Ahead.{ahead, going};
ghost use Rattle.bound_core.specs.Met.{begun_in_time, met_count};

use super::BoundCore;
use crate::loops::OneByOne;
use crate::paced::{behind, executes, takes};
use rv_core::{Did, Program, Ran, Single, Stepped, Why};
use zs_num::Cycle;

impl BoundCore {
    /// Executes its local instructions, as `run_local` does. `met` is the access to which the core
    /// came, if it came to one before: then its instruction is the only one that is left.
    #[inline(always)]
    pub(super) fn run_to_access<P: Program>(
        &mut self,
        program: &P,
        end: Cycle,
        met: Option<Single>,
    ) -> Option<Single>
        requires late { max self.old.timed.clock end ≤ 2 ^ 61 }
        requires met { IfSome met (λ single. begun_in_time (Some single) (ahead 1 self.old.timed) ≡ ran_to (P.image program.now) end self.old.timed) }
        requires early { IsSome met → self.old.timed.clock < end }
        requires pace { IsSome met → self.old.timed.pace ≡ None }
        ensures value { begun_in_time result self.new.timed ≡ ran_to (P.image program.now) end self.old.timed }
        ensures begun_sound { IsSoundCore (begun_if result self.new.timed.core) }
        ensures sound { IsSoundCore self.old.timed.core }
        ensures soon { IsSoon self.old.timed }
        ensures begun { self.old.timed.clock ≤ self.new.timed.clock }
        ensures within { self.new.timed.clock ≤ max self.old.timed.clock end + 192 }
        ensures number { self.new.number ≡ self.old.number }
        ensures memory { self.new.timed.core.memory ≡ self.old.timed.core.memory }
        ensures fetching { self.new.timed.core.fetching ≡ self.old.timed.core.fetching }
        ensures spare { self.new.spare ≡ self.old.spare }
    {
        match met {
            Some(single) => {
                self.comes_to(program, end, single);
                Some(single)
            }
            None => self.run_local(program, end),
        }
    }

    /// Counts the instruction to whose access it came.
    #[inline(always)]
    fn comes_to<P: Program>(&mut self, _program: &P, _end: Cycle, _single: Single)
        requires met { begun_in_time (Some _single) (ahead 1 self.old.timed) ≡ ran_to (P.image _program.now) _end self.old.timed }
        requires early { self.old.timed.clock < _end }
        requires late { _end ≤ 2 ^ 61 }
        requires pace { self.old.timed.pace ≡ None }
        ensures value { self.new.timed ≡ ahead 1 self.old.timed }
        ensures begun_sound { IsSoundCore (begun _single self.new.timed.core) }
        ensures sound { IsSoundCore self.old.timed.core }
        ensures soon { IsSoon self.old.timed }
        ensures number { self.new.number ≡ self.old.number }
        ensures spare { self.new.spare ≡ self.old.spare }
    {
        rv_core::laws::cores_stay_sound();
        rv_core::laws::accesses_are_paired_right();
        self.keeps_sound();
        self.clock += 1;
        self.instructions += 1;
    }

    /// Executes its local instructions: up to an access, a halt or the end of the interval. It answers
    /// the access that the core met there and has not begun, if it met one: its instruction is
    /// counted.
    #[inline(always)]
    pub(super) fn run_local<P: Program>(&mut self, program: &P, end: Cycle) -> Option<Single>
        requires { max self.old.timed.clock end ≤ 2 ^ 61 }
        ensures value { begun_in_time result self.new.timed ≡ ran_to (P.image program.now) end self.old.timed }
        ensures begun_sound { IsSoundCore (begun_if result self.new.timed.core) }
        ensures sound { IsSoundCore self.old.timed.core }
        ensures soon { IsSoon self.old.timed }
        ensures begun { self.old.timed.clock ≤ self.new.timed.clock }
        ensures within { self.new.timed.clock ≤ max self.old.timed.clock end + 192 }
        ensures number { self.new.number ≡ self.old.number }
        ensures memory { self.new.timed.core.memory ≡ self.old.timed.core.memory }
        ensures fetching { self.new.timed.core.fetching ≡ self.old.timed.core.fetching }
        ensures spare { self.new.spare ≡ self.old.spare }
    {
        rv_core::laws::cores_stay_sound();
        rv_core::laws::accesses_are_paired_right();
        self.run_by_kind(program, end)
    }

    /// The same, by the loop for its kind: with a pipeline, or one that fetches, or neither.
    #[inline(always)]
    fn run_by_kind<P: Program>(&mut self, program: &P, end: Cycle) -> Option<Single>
        requires { max self.old.timed.clock end ≤ 2 ^ 61 }
        ensures value { begun_in_time result self.new.timed ≡ ran_to (P.image program.now) end self.old.timed }
        ensures sound { IsSoundCore self.old.timed.core }
        ensures soon { IsSoon self.old.timed }
        ensures begun { self.old.timed.clock ≤ self.new.timed.clock }
        ensures within { self.new.timed.clock ≤ max self.old.timed.clock end + 192 }
        ensures number { self.new.number ≡ self.old.number }
        ensures memory { self.new.timed.core.memory ≡ self.old.timed.core.memory }
        ensures fetching { self.new.timed.core.fetching ≡ self.old.timed.core.fetching }
        ensures spare { self.new.spare ≡ self.old.spare }
    {
        self.keeps_sound();
        if self.pace.is_some() {
            self.run_paced(program, end);
            None
        } else if self.core.is_fetching() {
            self.run_fetching(program, end)
        } else {
            self.run_in_blocks(program, end)
        }
    }

    /// Those of a core with a pipeline.
    #[inline(never)]
    fn run_paced<P: Program>(&mut self, program: &P, end: Cycle)
        requires { max self.old.timed.clock end ≤ 2 ^ 61 }
        ensures value { self.new.timed ≡ ran_to (P.image program.now) end self.old.timed }
        ensures number { self.new.number ≡ self.old.number }
        ensures memory { self.new.timed.core.memory ≡ self.old.timed.core.memory }
        ensures fetching { self.new.timed.core.fetching ≡ self.old.timed.core.fetching }
        ensures spare { self.new.spare ≡ self.old.spare }
    {
        while self.goes_on(end) {
            self.step_paced(program);
        }
    }

    /// Whether it goes on by itself: it comes to an instruction before the interval ends, or has
    /// fetched one.
    #[inline(always)]
    pub(super) fn goes_on(&self, end: Cycle) -> bool
        ensures { result ≡ goes_on_alone end self.now.timed }
    {
        self.core.is_free() && (self.core.is_fetched() || self.clock < end)
    }

    /// Those of a core that fetches. One that has fetched an instruction executes it also behind the
    /// end.
    #[inline(always)]
    fn run_fetching<P: Program>(&mut self, program: &P, end: Cycle) -> Option<Single>
        requires fetching { IsTrue self.old.timed.core.fetching }
        requires clock { max self.old.timed.clock end < 2 ^ 63 }
        requires pace { self.old.timed.pace ≡ None }
        ensures value { begun_in_time result self.new.timed ≡ ran_to (P.image program.now) end self.old.timed }
        ensures number { self.new.number ≡ self.old.number }
        ensures memory { self.new.timed.core.memory ≡ self.old.timed.core.memory }
        ensures fetching { IsTrue self.new.timed.core.fetching }
        ensures spare { self.new.spare ≡ self.old.spare }
        ensures pace { self.new.timed.pace ≡ None }
    {
        self.take_fetched(program, end);
        match self.run_in_line(program, end) {
            Some(single) => Some(single),
            None => self.run_past_line(program, end),
        }
    }

    /// Before the end, an instruction that was fetched is but the next one in the line of its fetch.
    #[inline(always)]
    fn take_fetched<P: Program>(&mut self, program: &P, end: Cycle)
        requires { self.old.timed.pace ≡ None }
        ensures same_end { ran_to (P.image program.now) end self.new.timed ≡ ran_to (P.image program.now) end self.old.timed }
        ensures number { self.new.number ≡ self.old.number }
        ensures memory { self.new.timed.core.memory ≡ self.old.timed.core.memory }
        ensures fetching { self.new.timed.core.fetching ≡ self.old.timed.core.fetching }
        ensures clock { self.new.timed.clock ≡ self.old.timed.clock }
        ensures spare { self.new.spare ≡ self.old.spare }
        ensures pace { self.new.timed.pace ≡ None }
    {
        if self.has_fetched_before(program, end) {
            self.core.begin_execution();
        }
    }

    /// Whether it has fetched an instruction, which it executes before the end.
    #[inline(always)]
    fn has_fetched_before<P: Program>(&self, program: &P, end: Cycle) -> bool
        ensures free { IsTrue result → IsTrue (is_free self.now.timed.core) }
        ensures early { IsTrue result → self.now.timed.clock < end }
        ensures there { IsTrue result → needs_fetch (P.image program.now) self.now.timed.core ≡ false }
    {
        self.core.is_fetched() && self.core.is_free() && self.clock < end && self.is_there(program)
    }

    /// Those from where the next instruction was fetched, or has to be.
    #[inline(always)]
    fn run_past_line<P: Program>(&mut self, program: &P, end: Cycle) -> Option<Single>
        requires fetching { IsTrue self.old.timed.core.fetching }
        requires clock { max self.old.timed.clock end < 2 ^ 63 }
        requires pace { self.old.timed.pace ≡ None }
        ensures value { begun_in_time result self.new.timed ≡ ran_to (P.image program.now) end self.old.timed }
        ensures number { self.new.number ≡ self.old.number }
        ensures memory { self.new.timed.core.memory ≡ self.old.timed.core.memory }
        ensures fetching { IsTrue self.new.timed.core.fetching }
        ensures spare { self.new.spare ≡ self.old.spare }
        ensures pace { self.new.timed.pace ≡ None }
    {
        let mut met = None;
        while met.is_none() && self.core.is_free() && (self.core.is_fetched() || self.clock < end) {
            self.step_fetching(program);
            met = self.run_in_line(program, end);
        }
        met
    }

    /// Those that stand in the line of its latest fetch, unless an instruction was fetched that is
    /// still to be executed.
    #[inline(never)]
    fn run_in_line<P: Program>(&mut self, program: &P, end: Cycle) -> Option<Single>
        requires fetching { IsTrue self.old.timed.core.fetching }
        requires pace { self.old.timed.pace ≡ None }
        ensures same_end { ran_to (P.image program.now) end (begun_in_time result self.new.timed) ≡ ran_to (P.image program.now) end self.old.timed }
        ensures fetched { self.new.timed.core.is_fetched ≡ self.old.timed.core.is_fetched }
        ensures begun { self.old.timed.clock ≤ self.new.timed.clock }
        ensures within { self.new.timed.clock ≤ max self.old.timed.clock end }
        ensures nearer { 2 * (end - self.new.timed.clock) + going (is_free (begun_if result self.new.timed.core)) ≤ 2 * (end - self.old.timed.clock) + going (is_free self.old.timed.core) }
        ensures number { self.new.number ≡ self.old.number }
        ensures memory { self.new.timed.core.memory ≡ self.old.timed.core.memory }
        ensures fetching { IsTrue self.new.timed.core.fetching }
        ensures spare { self.new.spare ≡ self.old.spare }
        ensures pace { self.new.timed.pace ≡ None }
    {
        if self.core.is_fetched() {
            None
        } else {
            self.run_on(program, end)
        }
    }

    /// Those of a core that does not fetch: blocks of them where the program has them at hand, and
    /// the others one by one.
    #[inline(always)]
    fn run_in_blocks<P: Program>(&mut self, program: &P, end: Cycle) -> Option<Single>
        requires fetching { self.old.timed.core.fetching ≡ false }
        requires unfetched { self.old.timed.core.is_fetched ≡ false }
        requires pace { self.old.timed.pace ≡ None }
        ensures same_end { ran_to (P.image program.now) end (begun_in_time result self.new.timed) ≡ ran_to (P.image program.now) end self.old.timed }
        ensures stops { goes_on_alone end (begun_in_time result self.new.timed) ≡ false }
        ensures begun { self.old.timed.clock ≤ self.new.timed.clock }
        ensures within { self.new.timed.clock ≤ max self.old.timed.clock end }
        ensures number { self.new.number ≡ self.old.number }
        ensures memory { self.new.timed.core.memory ≡ self.old.timed.core.memory }
        ensures fetching { self.new.timed.core.fetching ≡ false }
        ensures spare { self.new.spare ≡ self.old.spare }
    {
        let cycles = end.saturating_sub(self.clock);
        let mut counted = 0;
        let mut did = Did::of(self.core.is_free());
        while did.goes_on() && counted < cycles {
            did = self.advance(program, end, cycles, &mut counted);
        }
        self.clock += counted;
        self.instructions += counted;
        did.met()
    }

    /// Executes blocks of instructions, and then the next instruction where they led to no access
    /// and the interval has not ended. `most` may be counted before the end.
    #[inline(always)]
    fn advance<P: Program>(&mut self, program: &P, end: Cycle, most: u64, counted: &mut u64) -> Did
        requires free { IsTrue (is_free self.old.timed.core) }
        requires fetching { self.old.timed.core.fetching ≡ false }
        requires unfetched { self.old.timed.core.is_fetched ≡ false }
        requires pace { self.old.timed.pace ≡ None }
        requires few { counted.old < most }
        requires end { self.old.timed.clock + most ≤ end }
        ensures same_end { ran_to (P.image program.now) end (begun_in_time (met_by result) (ahead counted.new self.new.timed)) ≡ ran_to (P.image program.now) end (ahead counted.old self.old.timed) }
        ensures next { comes_to_next result ≡ is_free (begun_if (met_by result) self.new.timed.core) }
        ensures unfetched { self.new.timed.core.is_fetched ≡ false }
        ensures few { counted.new ≤ most }
        ensures nearer { 2 * (most - counted.new) + going (comes_to_next result) ≤ 2 * (most - counted.old) }
        ensures clock { self.new.timed.clock ≡ self.old.timed.clock }
        ensures number { self.new.number ≡ self.old.number }
        ensures memory { self.new.timed.core.memory ≡ self.old.timed.core.memory }
        ensures fetching { self.new.timed.core.fetching ≡ false }
        ensures spare { self.new.spare ≡ self.old.spare }
        ensures pace { self.new.timed.pace ≡ None }
    {
        if let Some(single) = self.run_blocks(program, end, most, counted) {
            return Did::Meets(single);
        }
        if *counted < most {
            self.step(program, counted)
        } else {
            Did::GoesOn
        }
    }

    /// Executes blocks of instructions, as far as the program has them at hand, and counts them, as
    /// `step` does. Of an access that the core met the instruction is counted, and not begun.
    #[inline(always)]
    fn run_blocks<P: Program>(
        &mut self,
        program: &P,
        _end: Cycle,
        most: u64,
        counted: &mut u64,
    ) -> Option<Single>
        requires free { IsTrue (is_free self.old.timed.core) }
        requires fetching { self.old.timed.core.fetching ≡ false }
        requires unfetched { self.old.timed.core.is_fetched ≡ false }
        requires pace { self.old.timed.pace ≡ None }
        requires few { counted.old ≤ most }
        requires end { self.old.timed.clock + most ≤ _end }
        ensures same_end { ran_to (P.image program.now) _end (begun_in_time result (ahead counted.new self.new.timed)) ≡ ran_to (P.image program.now) _end (ahead counted.old self.old.timed) }
        ensures free { IsTrue (is_free self.new.timed.core) }
        ensures unfetched { self.new.timed.core.is_fetched ≡ false }
        ensures few { counted.new ≤ most }
        ensures more { counted.old ≤ counted.new }
        ensures clock { self.new.timed.clock ≡ self.old.timed.clock }
        ensures number { self.new.number ≡ self.old.number }
        ensures memory { self.new.timed.core.memory ≡ self.old.timed.core.memory }
        ensures fetching { self.new.timed.core.fetching ≡ false }
        ensures spare { self.new.spare ≡ self.old.spare }
        ensures pace { self.new.timed.pace ≡ None }
    {
        let ran = self.core.run_blocks(program, most - *counted);
        *counted += counted_of(ran);
        ran.met
    }

    /// Executes the instructions of a core that fetches, as far as they stand in the line of its
    /// latest fetch: those that the program has at hand, and the others one by one. It ends at an
    /// access that the core met, which is counted and not begun.
    #[inline(always)]
    fn run_on<P: Program>(&mut self, program: &P, end: Cycle) -> Option<Single>
        requires fetching { IsTrue self.old.timed.core.fetching }
        requires unfetched { self.old.timed.core.is_fetched ≡ false }
        requires pace { self.old.timed.pace ≡ None }
        ensures same_end { ran_to (P.image program.now) end (begun_in_time result self.new.timed) ≡ ran_to (P.image program.now) end self.old.timed }
        ensures unfetched { self.new.timed.core.is_fetched ≡ false }
        ensures begun { self.old.timed.clock ≤ self.new.timed.clock }
        ensures within { self.new.timed.clock ≤ max self.old.timed.clock end }
        ensures nearer { 2 * (end - self.new.timed.clock) + going (is_free (begun_if result self.new.timed.core)) ≤ 2 * (end - self.old.timed.clock) + going (is_free self.old.timed.core) }
        ensures number { self.new.number ≡ self.old.number }
        ensures memory { self.new.timed.core.memory ≡ self.old.timed.core.memory }
        ensures fetching { IsTrue self.new.timed.core.fetching }
        ensures spare { self.new.spare ≡ self.old.spare }
        ensures pace { self.new.timed.pace ≡ None }
    {
        let most = end.saturating_sub(self.clock);
        let mut counted = 0;
        let mut did = self.run_line(program, end, most, &mut counted);
        while did.goes_on() && counted < most && self.is_there(program) {
            did = self.step(program, &mut counted);
        }
        self.clock += counted;
        self.instructions += counted;
        did.met()
    }

    /// The same as far as the program has them at hand, as `run_blocks` does. `most` may be counted
    /// before the end.
    #[inline(always)]
    fn run_line<P: Program>(
        &mut self,
        program: &P,
        _end: Cycle,
        most: u64,
        counted: &mut u64,
    ) -> Did
        requires fetching { IsTrue self.old.timed.core.fetching }
        requires unfetched { self.old.timed.core.is_fetched ≡ false }
        requires pace { self.old.timed.pace ≡ None }
        requires few { counted.old ≤ most }
        requires end { counted.old < most → self.old.timed.clock + most ≤ _end }
        ensures same_end { ran_to (P.image program.now) _end (begun_in_time (met_by result) (ahead counted.new self.new.timed)) ≡ ran_to (P.image program.now) _end (ahead counted.old self.old.timed) }
        ensures next { comes_to_next result ≡ is_free (begun_if (met_by result) self.new.timed.core) }
        ensures unfetched { self.new.timed.core.is_fetched ≡ false }
        ensures few { counted.new ≤ most }
        ensures nearer { 2 * (most - counted.new) + going (comes_to_next result) ≤ 2 * (most - counted.old) + going (is_free self.old.timed.core) }
        ensures clock { self.new.timed.clock ≡ self.old.timed.clock }
        ensures number { self.new.number ≡ self.old.number }
        ensures memory { self.new.timed.core.memory ≡ self.old.timed.core.memory }
        ensures fetching { IsTrue self.new.timed.core.fetching }
        ensures spare { self.new.spare ≡ self.old.spare }
        ensures pace { self.new.timed.pace ≡ None }
    {
        let free = self.core.is_free();
        if *counted < most && free && self.is_there(program) {
            let ran = self.core.run_in_line(program, most - *counted);
            *counted += counted_of(ran);
            return did_by(ran.met);
        }
        Did::of(free)
    }

    /// Whether the next instruction does not have to be fetched, by the line in which it stands.
    #[inline(always)]
    fn is_there<P: Program>(&self, _program: &P) -> bool
        ensures latest { IsTrue result → IsTrue (is_latest self.now.timed.core.fetched_line (line_at self.now.timed.core.pc)) }
        ensures there { IsTrue result → needs_fetch (P.image _program.now) self.now.timed.core ≡ false }
    {
        self.core.is_in_latest_line()
    }

    /// The next step of a core with a pipeline: it asks for its next instruction, or executes it,
    /// counts it and lets it issue. The registers are read before it is executed.
    #[inline(always)]
    #[tactic(auto, unfolding(reference::specs::TimedCore::after_instruction))]
    pub(super) fn step_paced<P: Program>(&mut self, program: &P)
        requires free { IsTrue (is_free self.old.timed.core) }
        requires clock { self.old.timed.clock ≤ 2 ^ 61 }
        ensures value { self.new.timed ≡ after_instruction (P.image program.now) self.old.timed }
        ensures unfetched { self.new.timed.core.is_fetched ≡ false }
        ensures within { self.new.timed.clock ≤ self.old.timed.clock + 192 }
        ensures number { self.new.number ≡ self.old.number }
        ensures memory { self.new.timed.core.memory ≡ self.old.timed.core.memory }
        ensures fetching { self.new.timed.core.fetching ≡ self.old.timed.core.fetching }
        ensures spare { self.new.spare ≡ self.old.spare }
    {
        let pc = self.core.pc();
        let upcoming = self.core.upcoming(program);
        let taken = takes(&self.core, upcoming);
        if executes(&mut self.core, program) && is_counted(self.core.halted()) {
            self.clock = behind(&mut self.pace, upcoming, pc, taken, self.clock);
            self.instructions += 1;
        }
    }

    /// The next step of a core that fetches: it asks for its next instruction, or executes it and
    /// counts it.
    #[tactic(auto, unfolding(reference::specs::TimedCore::after_instruction))]
    fn step_fetching<P: Program>(&mut self, program: &P)
        requires free { IsTrue (is_free self.old.timed.core) }
        requires fetching { IsTrue self.old.timed.core.fetching }
        requires clock { self.old.timed.clock < 2 ^ 64 - 1 }
        requires pace { self.old.timed.pace ≡ None }
        ensures value { self.new.timed ≡ after_instruction (P.image program.now) self.old.timed }
        ensures unfetched { self.new.timed.core.is_fetched ≡ false }
        ensures number { self.new.number ≡ self.old.number }
        ensures memory { self.new.timed.core.memory ≡ self.old.timed.core.memory }
        ensures fetching { IsTrue self.new.timed.core.fetching }
        ensures spare { self.new.spare ≡ self.old.spare }
        ensures pace { self.new.timed.pace ≡ None }
    {
        if let Stepped::Executed { .. } = self.core.step_fetching(program) {
            if is_counted(self.core.halted()) {
                self.clock += 1;
                self.instructions += 1;
            }
        }
    }

    /// Executes one instruction, up to its first access if it has one, or comes to its one access,
    /// and counts it. The clock and the count of instructions stay behind, by what was counted. It
    /// is seldom called, and stands apart, so that the loops and what serves accesses are one
    /// function.
    #[inline(never)]
    #[tactic(auto, unfolding(reference::specs::TimedCore::after_instruction))]
    fn step<P: Program>(&mut self, program: &P, counted: &mut u64) -> Did
        requires free { IsTrue (is_free self.old.timed.core) }
        requires unfetched { self.old.timed.core.is_fetched ≡ false }
        requires there { needs_fetch (P.image program.now) self.old.timed.core ≡ false }
        requires few { counted.old < 2 ^ 64 - 1 }
        requires pace { self.old.timed.pace ≡ None }
        ensures value { begun_in_time (met_by result) (ahead counted.new self.new.timed) ≡ after_instruction (P.image program.now) (ahead counted.old self.old.timed) }
        ensures next { comes_to_next result ≡ is_free (begun_if (met_by result) self.new.timed.core) }
        ensures unfetched { self.new.timed.core.is_fetched ≡ false }
        ensures clock { self.new.timed.clock ≡ self.old.timed.clock }
        ensures number { self.new.number ≡ self.old.number }
        ensures memory { self.new.timed.core.memory ≡ self.old.timed.core.memory }
        ensures fetching { self.new.timed.core.fetching ≡ self.old.timed.core.fetching }
        ensures spare { self.new.spare ≡ self.old.spare }
        ensures pace { self.new.timed.pace ≡ None }
    {
        let did = self.core.step_or_meet::<P, OneByOne>(program);
        if !matches!(did, Did::Stops) || is_counted(self.core.halted()) {
            *counted += 1;
        }
        did
    }
}

/// What came of instructions that a program executed, by the access that was met behind them.
#[inline(always)]
fn did_by(met: Option<Single>) -> Did
    ensures met { met_by result ≡ met }
    ensures next { comes_to_next result ≡ is_none met }
{
    match met {
        Some(single) => Did::Meets(single),
        None => Did::GoesOn,
    }
}

/// How many instructions are counted of those that were executed, and one whose access was met.
#[inline(always)]
fn counted_of(ran: Ran) -> u64
    requires { ran.count + met_count ran.met < 2 ^ 64 }
    ensures { result ≡ ran.count + met_count ran.met }
{
    ran.count + u64::from(ran.met.is_some())
}

/// Whether the instruction that left a core halted for this reason, or not halted, is counted.
#[inline]
pub(super) fn is_counted(halted: Option<Why>) -> bool
    ensures { cost halted ≡ (if result then 1 else 0) }
{
    matches!(halted, None | Some(Why::Exit(_)))
}
