//! The keys that no check names: the first of the top level, and then of the tables.
ghost use Rattle.std.specs.Prelude.{◌≡◌, map};
ghost use Rattle.toml.specs.View.{table_view};
ghost use Rattle.machine_desc.specs.Description.{is_named, is_known, members_refusal, table_refusal, tables_refusal, inside_refusal, names_refusal};
ghost use Rattle.machine_desc.specs.Answers.{Answers, passed_unless};
ghost use Rattle.machine_desc.specs.Rows.{check_of};

use crate::document::table_at;
use crate::keys::{Check, Rule, full_name};
use crate::{BadMachine, MachineFail};
use std::alloc::Global;
use toml::Table;

/// No key of the document is unknown, or the first that is.
pub(crate) fn check_names(
    alloc: Global,
    document: &Table,
    checks: &[Check],
) -> Result<(), MachineFail>
    ensures { Answers result
        (passed_unless (names_refusal (table_view document.now) (map check_of checks.now))) }
{
    check_table(alloc, document, checks, "")?;
    check_tables(alloc, document, checks)
}

fn check_tables(alloc: Global, document: &Table, checks: &[Check]) -> Result<(), MachineFail>
    ensures { let rows = map check_of checks.now in
        Answers result (passed_unless (tables_refusal (table_view document.now) rows rows)) }
{
    for check in checks {
        check_inside(alloc, document, checks, check)?;
    }
    Ok(())
}

/// The table that a check asks for, if it asks for one.
fn check_inside(
    alloc: Global,
    document: &Table,
    checks: &[Check],
    check: &Check,
) -> Result<(), MachineFail>
    ensures { Answers result (passed_unless
        (inside_refusal (table_view document.now) (map check_of checks.now) (check_of check.now))) }
{
    match check.rule {
        Rule::Table => check_table(alloc, document, checks, check.key.name),
        _ => Ok(()),
    }
}

/// The table of a name, where it is there.
#[tactic(auto, unfolding(crate::specs::Description::table_refusal))]
fn check_table(
    alloc: Global,
    document: &Table,
    checks: &[Check],
    table: &str,
) -> Result<(), MachineFail>
    ensures { Answers result (passed_unless
        (table_refusal (table_view document.now) (map check_of checks.now) table.now)) }
{
    match table_at(document, table) {
        Some(members) => check_members(alloc, checks, table, members),
        None => Ok(()),
    }
}

fn check_members(
    alloc: Global,
    checks: &[Check],
    table: &str,
    members: &Table,
) -> Result<(), MachineFail>
    ensures { Answers result (passed_unless
        (members_refusal (map check_of checks.now) table.now (table_view members.now))) }
{
    for (name, _) in members.iter() {
        if !is_known(checks, table, name.as_str()) {
            let key = full_name(alloc, table, name.as_str())?;
            return Err(MachineFail::Bad(BadMachine::Unknown { key }));
        }
    }
    Ok(())
}

/// Some check is of this name in this table.
fn is_known(checks: &[Check], table: &str, name: &str) -> bool
    ensures { result ≡ is_known (map check_of checks.now) table.now name.now }
{
    for check in checks {
        if is_named(check, table, name) {
            return true;
        }
    }
    false
}

fn is_named(check: &Check, table: &str, name: &str) -> bool
    ensures { result ≡ is_named table.now name.now (check_of check.now) }
{
    check.key.table == table && check.key.name == name
}
