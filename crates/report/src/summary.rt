//! The seven lines of the summary.
ghost use Rattle.std.specs.Prelude.{◌≡◌, ◌++◌, OnOk, map, string_bytes};
ghost use Rattle.report.specs.ReportText.{all_instructions, greatest_clock, summary, summary_of};

use crate::fields::write_labelled;
use bound_core::BoundCore;
use stats::Counters;
use std::alloc::AllocError;
use zs_num::Cycle;

/// Writes the summary, but for its last newline. Its first line has the version of the machine's
/// description.
pub fn write_summary(
    text: &mut String,
    version: u32,
    counters: &Counters,
    cores: &[BoundCore],
    intervals: u32,
) -> Result<(), AllocError>
    ensures { OnOk result (string_bytes text.new ≡ string_bytes text.old
        ++ summary_of version counters.now (map (λ c. c.timed) cores.now) intervals) }
{
    write_numbers(
        text,
        u128::from(version),
        cores.len() as u128,
        u128::from(intervals),
        all_instructions(cores),
        u128::from(greatest_clock(cores)),
        u128::from(counters.accesses()),
        u128::from(counters.events()),
    )
}

#[tactic(auto, unfolding(crate::specs::ReportText::summary))]
fn write_numbers(
    text: &mut String,
    version: u128,
    cores: u128,
    intervals: u128,
    instructions: u128,
    cycles: u128,
    accesses: u128,
    events: u128,
) -> Result<(), AllocError>
    ensures { OnOk result (string_bytes text.new ≡ string_bytes text.old
        ++ summary version cores intervals instructions cycles accesses events) }
{
    let fields = [
        ("zsim report ", version),
        ("\ncores ", cores),
        ("\nintervals ", intervals),
        ("\ninstructions ", instructions),
        ("\ncycles ", cycles),
        ("\naccesses ", accesses),
        ("\nevents ", events),
    ];
    write_labelled(text, &fields)
}

/// How many instructions all cores executed.
fn all_instructions(cores: &[BoundCore]) -> u128
    ensures { result ≡ all_instructions (map (λ c. c.timed) cores.now) }
{
    let mut sum: u128 = 0;
    for core in cores {
        sum += u128::from(core.instructions());
    }
    sum
}

/// The greatest clock of a core.
fn greatest_clock(cores: &[BoundCore]) -> Cycle
    ensures { result ≡ greatest_clock (map (λ c. c.timed) cores.now) }
{
    let mut greatest = 0;
    for core in cores {
        greatest = core.clock().max(greatest);
    }
    greatest
}
