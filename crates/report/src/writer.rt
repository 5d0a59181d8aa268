//! The whole text, or its summary alone.
ghost use Rattle.std.specs.Prelude.{◌≡◌, ◌++◌, IfOk, OnOk, length, map, string_bytes};
ghost use Rattle.machine_desc.specs.Components.{component_count};
ghost use Rattle.report.specs.ReportText.{details, report_text};

use crate::component_lines::write_components;
use crate::core_lines::write_cores;
use crate::summary::write_summary;
use bound_core::BoundCore;
use machine_desc::Machine;
use stats::Counters;
use std::alloc::{AllocError, Global};
use zs_num::{Bytes, NoMemory};

/// The report of a run of so many intervals on this machine, from the counters and the cores at its
/// end. Where it is to be brief, it is the seven lines of the summary.
pub fn text(
    alloc: Global,
    machine: &Machine,
    counters: &Counters,
    cores: &[BoundCore],
    intervals: u32,
    brief: bool,
) -> Result<Bytes, NoMemory>
    requires cores { length cores.now ≡ machine.now.cores }
    requires core_counts { length counters.now.core_counts ≡ machine.now.cores }
    requires comp_counts { length counters.now.comp_counts ≡ component_count machine.now }
    ensures { IfOk result (λ text. text ≡ report_text machine.now counters.now
        (map (λ c. c.timed) cores.now) intervals brief) }
{
    let mut text = String::new(alloc);
    write_summary(&mut text, machine.version, counters, cores, intervals)?;
    text.push_str("\n")?;
    if !brief {
        write_details(&mut text, machine, counters, cores)?;
    }
    Ok(Bytes::of(text.into_bytes()))
}

/// Writes what follows the summary: the lines of the cores, of the banks, of the controllers and of
/// the links, of which a machine without a mesh has none.
fn write_details(
    text: &mut String,
    machine: &Machine,
    counters: &Counters,
    cores: &[BoundCore],
) -> Result<(), AllocError>
    requires cores { length cores.now ≡ machine.now.cores }
    requires core_counts { length counters.now.core_counts ≡ machine.now.cores }
    requires comp_counts { length counters.now.comp_counts ≡ component_count machine.now }
    ensures { OnOk result (string_bytes text.new ≡ string_bytes text.old
        ++ details machine.now counters.now (map (λ c. c.timed) cores.now)) }
{
    let counts = counters.comp_counts();
    let (banks, others) = counts.split_at(usize::from(machine.l2.banks));
    let (controllers, links) = others.split_at(usize::from(machine.controllers.count));
    write_cores(text, machine.version, machine.cores, cores, counters)?;
    write_components(text, "bank", banks)?;
    write_components(text, "controller", controllers)?;
    write_components(text, "link", links)
}
