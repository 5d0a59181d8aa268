//! Laws over the definitions alone, each the contract of a function that does nothing.
ghost use Rattle.pipe_core.specs.PaceLaws.{FirstGoesOn, InstructionsCostACycle, IssuesAreSoon, SoonHasRoom};

/// An instruction costs a cycle at least.
pub fn instructions_cost_a_cycle()
    ensures { InstructionsCostACycle }
{}

/// While a pace is kept beside a clock, an instruction costs at most 192 cycles, and each register
/// is ready at most 127 cycles after the clock. So there is room for any instruction up to 2^61.
pub fn issues_are_soon()
    ensures first { FirstGoesOn }
    ensures soon { IssuesAreSoon }
    ensures room { SoonHasRoom }
{}
