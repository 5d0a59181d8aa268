//! The reader of machine descriptions.
ghost use Rattle.std.specs.Prelude.{IfOk};
ghost use Rattle.toml.specs.View.{table_view};
ghost use Rattle.machine_desc.specs.Description.{document_refusal, machine_of, machine_of_document};
ghost use Rattle.machine_desc.specs.Machine.{IsMachine};
ghost use Rattle.machine_desc.specs.Answers.{Answers, passed_unless};

use crate::checks::check_keys;
use crate::document::parse;
use crate::domains::check_domains;
use crate::numbers::numbers;
use crate::ratios::check_ratios;
use crate::unknown::check_names;
use crate::versions::{checks, ratios};
use crate::{Machine, MachineFail};
use std::alloc::Global;
use toml::Table;

/// Reads a machine description, of version 1 to 3: the machine of the text, or the first check that
/// fails.
#[tactic(auto, unfolding(crate::specs::Description::machine_of))]
pub fn read(alloc: Global, text: &[u8]) -> Result<Machine, MachineFail>
    // The answer is that of the text, unless memory runs out.
    ensures answer { Answers result (machine_of text.now) }
    ensures valid { IfOk result IsMachine }
{
    let document = parse(alloc, text)?;
    read_document(alloc, &document)
}

/// The machine of a document, or the first check that fails.
#[tactic(auto, using(crate::proofs::Accepted::accepted), unfolding(crate::specs::Description::machine_of_document))]
fn read_document(alloc: Global, document: &Table) -> Result<Machine, MachineFail>
    ensures answer { Answers result (machine_of_document (table_view document.now)) }
    ensures valid { IfOk result IsMachine }
{
    check_document(alloc, document)?;
    Ok(numbers(alloc, document)?)
}

/// No check of a document fails, or the first that does.
#[tactic(auto, unfolding(crate::specs::Description::document_refusal))]
fn check_document(alloc: Global, document: &Table) -> Result<(), MachineFail>
    ensures { Answers result (passed_unless (document_refusal (table_view document.now))) }
{
    let checks = checks(alloc, document)?;
    check_keys(alloc, document, &checks)?;
    check_names(alloc, document, &checks)?;
    check_ratios(alloc, document, ratios(document))?;
    check_domains(alloc, document)
}
