//! The checks of the keys that have to be there: the first that fails.
ghost use Rattle.std.specs.Prelude.{◌≡◌, ◌&&◌, map, IfOk, is_some};
ghost use Rattle.toml.specs.Data.{as_table};
ghost use Rattle.toml.specs.View.{view, table_view};
ghost use Rattle.machine_desc.specs.Description.{is_in_range, is_share_of, is_no_less, unless, bad_integer, bad_array, bad_value, refusal_of, check_refusal, checks_refusal};
ghost use Rattle.machine_desc.specs.Answers.{Answers, passed_unless};
ghost use Rattle.machine_desc.specs.Rows.{key_path_of, range_of, rule_of, check_of};
ghost use Rattle.machine_desc.specs.Text.{integer_at};

use crate::document::{array_integers, integer_at, natural, value_at};
use crate::keys::{Check, KeyPath, Range, Rule, full_name};
use crate::{BadMachine, MachineFail};
use std::alloc::{AllocError, Global};
use toml::{Table, Value};

/// What is wrong with a value.
#[derive(Clone, Copy)]
pub(crate) enum BadValue {
    OtherKind,
    /// The integer, or the length of the array.
    OutOfRange(i64),
}

/// The first of the checks that fails, with its cause.
pub(crate) fn check_keys(
    alloc: Global,
    document: &Table,
    checks: &[Check],
) -> Result<(), MachineFail>
    ensures { Answers result
        (passed_unless (checks_refusal (table_view document.now) (map check_of checks.now))) }
{
    for check in checks {
        check_key(alloc, document, check)?;
    }
    Ok(())
}

/// The key is there, and its value meets its rule.
#[tactic(auto, unfolding(crate::specs::Description::check_refusal))]
fn check_key(alloc: Global, document: &Table, check: &Check) -> Result<(), MachineFail>
    ensures { Answers result
        (passed_unless (check_refusal (table_view document.now) (check_of check.now))) }
{
    match value_at(document, check.key.table, check.key.name) {
        Some(value) => match bad_value(alloc, document, &check.rule, value)? {
            Some(wrong) => Err(MachineFail::Bad(refusal(alloc, &check.key, wrong)?)),
            None => Ok(()),
        },
        None => {
            let key = full_name(alloc, check.key.table, check.key.name)?;
            Err(MachineFail::Bad(BadMachine::Missing { key }))
        }
    }
}

/// The refusal of a key's value.
fn refusal(alloc: Global, key: &KeyPath, wrong: BadValue) -> Result<BadMachine, AllocError>
    ensures { IfOk result (λ bad. bad ≡ refusal_of (key_path_of key.now) wrong) }
{
    let key = full_name(alloc, key.table, key.name)?;
    Ok(match wrong {
        BadValue::OtherKind => BadMachine::Kind { key },
        BadValue::OutOfRange(value) => BadMachine::Range { key, value },
    })
}

/// What the rule of a key says against a value.
#[tactic(auto, unfolding(crate::specs::Description::bad_value))]
fn bad_value(
    alloc: Global,
    document: &Table,
    rule: &Rule,
    value: &Value,
) -> Result<Option<BadValue>, AllocError>
    ensures { IfOk result (λ wrong.
        wrong ≡ bad_value (table_view document.now) (rule_of rule.now) (view value.now)) }
{
    match rule {
        Rule::Table => Ok(bad_table(value)),
        Rule::Integer(range) => Ok(bad_integer(range, value)),
        Rule::Share {
            range,
            times,
            whole,
        } => {
            let times = integer_at(document, times.table, times.name);
            let whole = integer_at(document, whole.table, whole.name);
            Ok(bad_share(range, times, whole, value))
        }
        Rule::AtLeast { range, least } => {
            let least = integer_at(document, least.table, least.name);
            Ok(bad_at_least(range, least, value))
        }
        Rule::Array(count) => {
            let count = integer_at(document, count.table, count.name);
            bad_array(alloc, count, value)
        }
    }
}

fn bad_table(value: &Value) -> Option<BadValue>
    ensures { result ≡ unless (is_some (as_table (view value.now))) BadValue.OtherKind }
{
    if value.is_table() {
        None
    } else {
        Some(BadValue::OtherKind)
    }
}

fn bad_integer(range: &Range, value: &Value) -> Option<BadValue>
    ensures { result ≡ bad_integer (is_in_range (range_of range.now)) (view value.now) }
{
    match value.as_integer() {
        Some(integer) if range.contains(integer) => None,
        Some(integer) => Some(BadValue::OutOfRange(integer)),
        None => Some(BadValue::OtherKind),
    }
}

fn bad_share(range: &Range, times: u64, whole: u64, value: &Value) -> Option<BadValue>
    ensures { result ≡ bad_integer
        (λ z. is_in_range (range_of range.now) z && is_share_of times whole z) (view value.now) }
{
    match value.as_integer() {
        Some(integer) if range.contains(integer) && is_share(times, whole, integer) => None,
        Some(integer) => Some(BadValue::OutOfRange(integer)),
        None => Some(BadValue::OtherKind),
    }
}

/// The integer, taken so often, is at most the whole.
fn is_share(times: u64, whole: u64, integer: i64) -> bool
    ensures { result ≡ is_share_of times whole integer }
{
    match times.checked_mul(natural(integer)) {
        Some(product) => product <= whole,
        None => false,
    }
}

fn bad_at_least(range: &Range, least: u64, value: &Value) -> Option<BadValue>
    ensures { result ≡ bad_integer
        (λ z. is_in_range (range_of range.now) z && is_no_less least z) (view value.now) }
{
    match value.as_integer() {
        Some(integer) if range.contains(integer) && least <= natural(integer) => None,
        Some(integer) => Some(BadValue::OutOfRange(integer)),
        None => Some(BadValue::OtherKind),
    }
}

fn bad_array(alloc: Global, count: u64, value: &Value) -> Result<Option<BadValue>, AllocError>
    ensures { IfOk result (λ wrong. wrong ≡ bad_array count (view value.now)) }
{
    match array_integers(alloc, value)? {
        Some(integers) if integers.len() as u64 == count => Ok(None),
        Some(integers) => Ok(Some(BadValue::OutOfRange(integers.len() as i64))),
        None => Ok(Some(BadValue::OtherKind)),
    }
}
