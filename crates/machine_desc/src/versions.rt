//! Which checks a document has: those of its version, and of the tables that it may have and has.
ghost use Rattle.std.specs.Prelude.{◌≡◌, ◌++◌, map, IfOk, OnOk};
ghost use Rattle.toml.specs.View.{table_view};
ghost use Rattle.machine_desc.specs.Description.{is_version, has_optional, has_l1i, has_mesh, has_dram, has_pipe, checks_if, checks_of, ratios_of};
ghost use Rattle.machine_desc.specs.Rows.{check_of, ratio_of};
ghost use Rattle.machine_desc.specs.Text.{version_of};

use crate::document::{integer_at, value_at};
use crate::keys::{
    Check, Ratio, all_ratios, controller_checks, data_ratios, domain_checks, dram_checks,
    l1_checks, l1i_checks, l2_checks, memory_checks, mesh_checks, pipe_checks, top_checks,
    version_check,
};
use std::alloc::{AllocError, Global};
use toml::Table;

/// The checks of a document, in order: those of its version. Of a version that there is not, the
/// check of the version alone, which fails.
#[tactic(auto, unfolding(crate::specs::Description::checks_of))]
pub(crate) fn checks(alloc: Global, document: &Table) -> Result<Vec<Check>, AllocError>
    ensures { IfOk result (λ checks. map check_of checks.items ≡ checks_of (table_view document.now)) }
{
    if !is_version(version(document)) {
        return Vec::from_slice(alloc, version_check());
    }
    let mut checks = Vec::from_slice(alloc, top_checks())?;
    add(&mut checks, memory_checks())?;
    add(&mut checks, l1_checks())?;
    add_if(&mut checks, has_l1i(document), l1i_checks())?;
    add(&mut checks, l2_checks())?;
    add(&mut checks, controller_checks())?;
    add(&mut checks, domain_checks())?;
    add_if(&mut checks, has_mesh(document), mesh_checks())?;
    add_if(&mut checks, has_dram(document), dram_checks())?;
    add_if(&mut checks, has_pipe(document), pipe_checks())?;
    Ok(checks)
}

/// Adds the checks of a table to those of the tables before it.
fn add(checks: &mut Vec<Check>, more: &[Check]) -> Result<(), AllocError>
    ensures { OnOk result (map check_of checks.new.items ≡ map check_of checks.old.items ++ map check_of more.now) }
{
    checks.extend_from_slice(more)
}

/// Adds those of a table that is there, and none of one that is not.
fn add_if(checks: &mut Vec<Check>, there: bool, more: &[Check]) -> Result<(), AllocError>
    ensures { OnOk result (map check_of checks.new.items ≡ map check_of checks.old.items ++ checks_if there (map check_of more.now)) }
{
    if there { add(checks, more) } else { Ok(()) }
}

/// The ratios of a document, in order.
#[tactic(auto, unfolding(crate::specs::Description::ratios_of))]
pub(crate) fn ratios(document: &Table) -> &'static [Ratio]
    ensures { map ratio_of result.now ≡ ratios_of (table_view document.now) }
{
    if has_l1i(document) {
        all_ratios()
    } else {
        data_ratios()
    }
}

/// Whether the machine of a document has instruction caches.
pub(crate) fn has_l1i(document: &Table) -> bool
    ensures { result ≡ has_l1i (table_view document.now) }
{
    version(document) == 2 || has_optional(document, "l1i")
}

/// Whether it has a mesh.
pub(crate) fn has_mesh(document: &Table) -> bool
    ensures { result ≡ has_mesh (table_view document.now) }
{
    has_optional(document, "mesh")
}

/// Whether the banks of its memory keep rows open.
pub(crate) fn has_dram(document: &Table) -> bool
    ensures { result ≡ has_dram (table_view document.now) }
{
    has_optional(document, "dram")
}

/// Whether its cores have pipelines.
pub(crate) fn has_pipe(document: &Table) -> bool
    ensures { result ≡ has_pipe (table_view document.now) }
{
    has_optional(document, "pipe")
}

/// Whether a document of version 3 has a table that it may have: something stands at its name.
fn has_optional(document: &Table, table: &str) -> bool
    ensures { result ≡ has_optional (table_view document.now) table.now }
{
    version(document) == 3 && value_at(document, "", table).is_some()
}

/// Whether there is such a version.
fn is_version(version: u64) -> bool
    ensures { result ≡ is_version version }
{
    1 <= version && version <= 3
}

/// The version that a document says it is of: 0 where it says none.
fn version(document: &Table) -> u64
    ensures { result ≡ version_of (table_view document.now) }
{
    integer_at(document, "", "version")
}
