//! The two lines of each core: what was counted of it, and its console.
ghost use Rattle.std.specs.Prelude.{◌≡◌, ◌++◌, ◌∷◌, [], OnOk, codes, length, map, string_bytes};
ghost use Rattle.std.specs.List.{zip};
ghost use Rattle.report.specs.ReportText.{console_line, core_line, core_lines, count_text, counts_fetches, fetches_text, halt_text, labelled, numbered_lines};

use crate::fields::{write_hexadecimal, write_labelled};
use crate::printed::write_printed;
use bound_core::BoundCore;
use rv_core::Why;
use stats::{CoreCount, Counters};
use std::alloc::AllocError;

/// Writes the lines of all cores, of which there are so many, for a version of the machine's
/// description.
pub fn write_cores(
    text: &mut String,
    version: u32,
    count: u16,
    cores: &[BoundCore],
    counters: &Counters,
) -> Result<(), AllocError>
    requires cores { length cores.now ≡ count }
    requires counts { length counters.now.core_counts ≡ count }
    ensures { OnOk result (string_bytes text.new ≡ string_bytes text.old
        ++ numbered_lines (core_lines version) 0 (zip (map (λ c. c.timed) cores.now) counters.now.core_counts)) }
{
    for n in 0..count {
        write_core(text, version, n, &cores[usize::from(n)], &counters.core(n))?;
    }
    Ok(())
}

fn write_core(
    text: &mut String,
    version: u32,
    number: u16,
    core: &BoundCore,
    count: &CoreCount,
) -> Result<(), AllocError>
    ensures { OnOk result (string_bytes text.new ≡ string_bytes text.old
        ++ core_lines version number (core.now.timed, count.now)) }
{
    write_core_line(text, version, number, core, count)?;
    write_console_line(text, number, core.console())
}

/// Writes what a core did and what was counted of it.
#[tactic(auto, unfolding(crate::specs::ReportText::core_line))]
pub fn write_core_line(
    text: &mut String,
    version: u32,
    number: u16,
    core: &BoundCore,
    count: &CoreCount,
) -> Result<(), AllocError>
    ensures { OnOk result (string_bytes text.new ≡ string_bytes text.old
        ++ core_line version number core.now.timed count.now) }
{
    let fields = [
        ("core ", u128::from(number)),
        (" instructions ", u128::from(core.instructions())),
        (" cycles ", u128::from(core.clock())),
    ];
    write_labelled(text, &fields)?;
    write_count(text, version, count)?;
    text.push_str(" halt ")?;
    write_halt(text, core.halted())?;
    text.push_str("\n")
}

#[tactic(auto, unfolding(crate::specs::ReportText::count_text))]
fn write_count(text: &mut String, version: u32, count: &CoreCount) -> Result<(), AllocError>
    ensures { OnOk result (string_bytes text.new ≡ string_bytes text.old ++ count_text version count.now) }
{
    write_accesses(text, count)?;
    write_fetches(text, counts_fetches(version), count.fetches)?;
    write_outcomes(text, count)
}

/// Whether fetches are counted on the machine of a description of this version.
fn counts_fetches(version: u32) -> bool
    ensures { result ≡ counts_fetches version }
{
    version >= 2
}

/// Writes the delay and what a core asked of memory, but for fetches.
fn write_accesses(text: &mut String, count: &CoreCount) -> Result<(), AllocError>
    ensures { OnOk result (string_bytes text.new ≡ string_bytes text.old
        ++ labelled ((codes " delay ", count.now.delay) ∷ (codes " loads ", count.now.loads) ∷ (codes " stores ", count.now.stores) ∷ (codes " atomics ", count.now.atomics) ∷ [])) }
{
    let fields = [
        (" delay ", count.delay),
        (" loads ", u128::from(count.loads)),
        (" stores ", u128::from(count.stores)),
        (" atomics ", u128::from(count.atomics)),
    ];
    write_labelled(text, &fields)
}

/// Writes how many fetches there were, where they are counted.
fn write_fetches(text: &mut String, counted: bool, fetches: u64) -> Result<(), AllocError>
    ensures { OnOk result (string_bytes text.new ≡ string_bytes text.old ++ fetches_text counted fetches) }
{
    if counted {
        write_labelled(text, &[(" fetches ", u128::from(fetches))])
    } else {
        Ok(())
    }
}

/// Writes how a core's accesses were met.
fn write_outcomes(text: &mut String, count: &CoreCount) -> Result<(), AllocError>
    ensures { OnOk result (string_bytes text.new ≡ string_bytes text.old
        ++ labelled ((codes " hits ", count.now.hits) ∷ (codes " upgrades ", count.now.upgrades) ∷ (codes " l2hits ", count.now.l2hits) ∷ (codes " misses ", count.now.misses) ∷ [])) }
{
    let fields = [
        (" hits ", u128::from(count.hits)),
        (" upgrades ", u128::from(count.upgrades)),
        (" l2hits ", u128::from(count.l2hits)),
        (" misses ", u128::from(count.misses)),
    ];
    write_labelled(text, &fields)
}

/// Writes why a core halted.
#[tactic(auto, unfolding(crate::specs::ReportText::halt_text))]
pub fn write_halt(text: &mut String, halted: Option<Why>) -> Result<(), AllocError>
    ensures { OnOk result (string_bytes text.new ≡ string_bytes text.old ++ halt_text halted) }
{
    match halted {
        None => text.push_str("running"),
        Some(Why::Exit(number)) => write!(text, "exit {number}"),
        Some(Why::Illegal { word }) => write_hexadecimal(text, "illegal ", 8, u64::from(word)),
        Some(Why::Misaligned { target }) => write_hexadecimal(text, "misaligned ", 16, target),
        Some(Why::AtomicAlign { addr }) => write_hexadecimal(text, "atomic ", 16, addr),
        Some(Why::Fetch { addr }) => write_hexadecimal(text, "fetch ", 16, addr),
        Some(Why::Access { addr }) => write_hexadecimal(text, "access ", 16, addr),
        Some(Why::Break) => text.push_str("break"),
    }
}

/// Writes how many bytes a core wrote on its console, and the bytes.
#[tactic(auto, unfolding(crate::specs::ReportText::console_line))]
pub fn write_console_line(text: &mut String, number: u16, console: &[u8]) -> Result<(), AllocError>
    ensures { OnOk result (string_bytes text.new ≡ string_bytes text.old
        ++ console_line number console.now) }
{
    write_labelled(
        text,
        &[
            ("core ", u128::from(number)),
            (" console ", console.len() as u128),
        ],
    )?;
    text.push_str(" \"")?;
    write_printed(text, console)?;
    text.push_str("\"\n")
}
