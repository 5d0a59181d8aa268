//! What stands at the keys of a TOML document.
ghost use Rattle.std.specs.Prelude.{◌≡◌, option_map, IfOk};
ghost use Rattle.toml.specs.Data.{get_member};
ghost use Rattle.toml.specs.View.{view, table_view};
ghost use Rattle.machine_desc.specs.Keys.{at};
ghost use Rattle.machine_desc.specs.Answers.{ReadsDocument};
ghost use Rattle.machine_desc.specs.Text.{table_at, value_at, integer_at, integers_at, array_integers, natural_of, natural};

use crate::{BadMachine, MachineFail};
use std::alloc::{AllocError, Global};
use toml::{Table, Value};

/// The document that the bytes are.
pub(crate) fn parse(alloc: Global, text: &[u8]) -> Result<Table, MachineFail>
    ensures { ReadsDocument text.now result }
{
    match toml::table_from_slice(alloc, text) {
        Ok(document) => Ok(document),
        Err(error) if error.is_memory() => Err(MachineFail::NoMemory),
        Err(_) => Err(MachineFail::Bad(BadMachine::Text)),
    }
}

/// The value of a name in a table.
fn get<'a>(table: &'a Table, name: &str) -> Option<&'a Value>
    ensures { option_map (λ v. view v.now) result ≡ get_member name.now (table_view table.now) }
{
    table.get(name)
}

/// The table of a name: the document itself where the name is empty.
#[tactic(auto, unfolding(crate::specs::Text::table_at))]
pub(crate) fn table_at<'a>(document: &'a Table, table: &str) -> Option<&'a Table>
    ensures { option_map (λ t. table_view t.now) result
        ≡ table_at (table_view document.now) table.now }
{
    if table.is_empty() {
        return Some(document);
    }
    match get(document, table) {
        Some(value) => value.as_table(),
        None => None,
    }
}

/// The value at a key.
#[tactic(auto, unfolding(crate::specs::Text::value_at))]
pub(crate) fn value_at<'a>(document: &'a Table, table: &str, name: &str) -> Option<&'a Value>
    ensures { option_map (λ v. view v.now) result
        ≡ value_at (table_view document.now) (at table.now name.now) }
{
    match table_at(document, table) {
        Some(members) => get(members, name),
        None => None,
    }
}

/// An integer as a natural number: 0 where it is negative.
pub(crate) fn natural(integer: i64) -> u64
    ensures { result ≡ natural integer }
{
    if integer < 0 { 0 } else { integer as u64 }
}

/// A value as a natural number: 0 where it is no integer, or negative.
fn natural_of(value: &Value) -> u64
    ensures { result ≡ natural_of (view value.now) }
{
    match value.as_integer() {
        Some(integer) => natural(integer),
        None => 0,
    }
}

/// The integer at a key, as a natural number: 0 where no integer stands there, or a negative one.
#[tactic(auto, unfolding(crate::specs::Text::integer_at))]
pub(crate) fn integer_at(document: &Table, table: &str, name: &str) -> u64
    ensures { result ≡ integer_at (table_view document.now) (at table.now name.now) }
{
    match value_at(document, table, name) {
        Some(value) => natural_of(value),
        None => 0,
    }
}

/// The integers of an array, if the value is one and all its elements are integers.
pub(crate) fn array_integers(alloc: Global, value: &Value) -> Result<Option<Vec<i64>>, AllocError>
    ensures { IfOk result (λ o. option_map (λ v. v.items) o ≡ array_integers (view value.now)) }
{
    let Some(array) = value.as_array() else {
        return Ok(None);
    };
    let mut integers = Vec::new(alloc);
    for element in array {
        match element.as_integer() {
            Some(integer) => integers.push(integer)?,
            None => return Ok(None),
        }
    }
    Ok(Some(integers))
}

/// The integers at a key: none where no array of integers stands there.
#[tactic(auto, unfolding(crate::specs::Text::integers_at))]
pub(crate) fn integers_at(
    alloc: Global,
    document: &Table,
    table: &str,
    name: &str,
) -> Result<Vec<i64>, AllocError>
    ensures { IfOk result (λ v.
        v.items ≡ integers_at (table_view document.now) (at table.now name.now)) }
{
    let integers = match value_at(document, table, name) {
        Some(value) => array_integers(alloc, value)?,
        None => None,
    };
    match integers {
        Some(integers) => Ok(integers),
        None => Ok(Vec::new(alloc)),
    }
}
