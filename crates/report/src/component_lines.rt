//! The line of each bank, of each controller and of each link.
ghost use Rattle.std.specs.Prelude.{◌≡◌, ◌++◌, OnOk, string_bytes};
ghost use Rattle.report.specs.ReportText.{component_line, numbered_lines};

use crate::fields::write_labelled;
use stats::CompCount;
use std::alloc::AllocError;

/// Writes the lines of components of a kind, which are numbered from 0 on.
pub fn write_components(
    text: &mut String,
    kind: &str,
    components: &[CompCount],
) -> Result<(), AllocError>
    ensures { OnOk result (string_bytes text.new ≡ string_bytes text.old
        ++ numbered_lines (component_line kind.now) 0 components.now) }
{
    for (n, component) in components.iter().enumerate() {
        write_component(text, kind, n, component)?;
    }
    Ok(())
}

#[tactic(auto, unfolding(crate::specs::ReportText::component_line))]
fn write_component(
    text: &mut String,
    kind: &str,
    number: usize,
    component: &CompCount,
) -> Result<(), AllocError>
    ensures { OnOk result (string_bytes text.new ≡ string_bytes text.old
        ++ component_line kind.now number component.now) }
{
    let fields = [
        (" ", number as u128),
        (" events ", u128::from(component.events)),
        (" waited ", component.waited),
        (" free ", u128::from(component.free)),
    ];
    text.push_str(kind)?;
    write_labelled(text, &fields)?;
    text.push_str("\n")
}
