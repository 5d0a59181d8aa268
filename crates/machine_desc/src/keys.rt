//! The checks of a description as data, one list for each table.
ghost use Rattle.std.specs.Prelude.{◌≡◌, ◌∷◌, [], map, codes, IfOk, string_bytes};
ghost use Rattle.machine_desc.specs.Description.{is_in_range};
ghost use Rattle.machine_desc.specs.Keys.{at, version_check, top_checks, memory_checks, l1_checks, l1i_checks, l2_checks, controller_checks, domain_checks, mesh_checks, dram_checks, pipe_checks, sets_ratio};
ghost use Rattle.machine_desc.specs.Rows.{range_of, check_of, ratio_of};
ghost use Rattle.machine_desc.specs.Text.{full_name};

use crate::KeyName;
use crate::document::natural;
use std::alloc::{AllocError, Global};

/// Where a value stands: the name of its table, which is empty at the top level, and its own name.
#[derive(Clone, Copy)]
pub(crate) struct KeyPath {
    pub table: &'static str,
    pub name: &'static str,
}

/// The integers from `low` to `high` that are multiples of `step`.
#[derive(Clone, Copy)]
pub(crate) struct Range {
    pub low: u64,
    pub high: u64,
    pub step: u64,
}

impl Range {
    pub fn contains(&self, integer: i64) -> bool
        ensures { result ≡ is_in_range (range_of self.now) integer }
    {
        let number = natural(integer);
        integer >= 0
            && self.low <= number
            && number <= self.high
            && number.is_multiple_of(self.step)
    }
}

/// What a value has to be.
#[derive(Clone, Copy)]
pub(crate) enum Rule {
    /// A table.
    Table,
    /// An integer in the range.
    Integer(Range),
    /// An integer in the range that, as often as the number at `times` says, is at most the number
    /// at `whole`.
    Share {
        range: Range,
        times: KeyPath,
        whole: KeyPath,
    },
    /// An integer in the range that is no less than the number at `least`.
    AtLeast {
        range: Range,
        least: KeyPath,
    },
    /// An array of integers, as many as the number at the key says.
    Array(KeyPath),
}

/// A key that has to be there, and what its value has to be.
#[derive(Clone, Copy)]
pub(crate) struct Check {
    pub key: KeyPath,
    pub rule: Rule,
}

/// A key whose number has to be a multiple of the number at `divisor`.
#[derive(Clone, Copy)]
pub(crate) struct Ratio {
    pub key: KeyPath,
    pub divisor: KeyPath,
}

macro_rules! key {
    ($table:literal, $name:literal) => {
        KeyPath {
            table: $table,
            name: $name,
        }
    };
}

macro_rules! table {
    ($name:literal) => {
        Check {
            key: key!("", $name),
            rule: Rule::Table,
        }
    };
}

macro_rules! range {
    ($low:literal, $high:literal, $step:literal) => {
        Range {
            low: $low,
            high: $high,
            step: $step,
        }
    };
}

macro_rules! integer {
    ($table:literal, $name:literal, $low:literal, $high:literal) => {
        integer!($table, $name, $low, $high, 1)
    };
    ($table:literal, $name:literal, $low:literal, $high:literal, $step:literal) => {
        Check {
            key: key!($table, $name),
            rule: Rule::Integer(range!($low, $high, $step)),
        }
    };
}

macro_rules! at_least {
    ($table:literal, $name:literal, $low:literal, $high:literal, $least:literal) => {
        Check {
            key: key!($table, $name),
            rule: Rule::AtLeast {
                range: range!($low, $high, 1),
                least: key!($table, $least),
            },
        }
    };
}

macro_rules! array {
    ($table:literal, $name:literal, $count:expr) => {
        Check {
            key: key!($table, $name),
            rule: Rule::Array($count),
        }
    };
}

macro_rules! own_cache {
    ($table:literal) => {
        [
            table!($table),
            integer!($table, "sets", 1, 4096),
            integer!($table, "ways", 1, 16),
            integer!($table, "latency", 1, 65536),
        ]
    };
}

macro_rules! sets_ratio {
    ($table:literal) => {
        Ratio {
            key: key!($table, "sets"),
            divisor: key!("l2", "banks"),
        }
    };
}

// The keys of each table, in the order in which they are checked.

static TOP: [Check; 4] = [
    integer!("", "version", 1, 3),
    integer!("", "cores", 1, 256),
    integer!("", "interval", 1, 10000),
    integer!("", "intervals", 1, 1048576),
];

static MEMORY: [Check; 4] = [
    table!("memory"),
    integer!("memory", "base", 0, 0x100_0000_0000, 4096),
    integer!("memory", "size", 4096, 0x1000_0000, 4096),
    Check {
        key: key!("memory", "stack"),
        rule: Rule::Share {
            range: range!(16, 0x10_0000, 16),
            times: key!("", "cores"),
            whole: key!("memory", "size"),
        },
    },
];

static L1: [Check; 4] = own_cache!("l1");

static L1I: [Check; 4] = own_cache!("l1i");

static L2: [Check; 8] = [
    table!("l2"),
    integer!("l2", "banks", 1, 64),
    integer!("l2", "sets", 1, 65536),
    integer!("l2", "ways", 1, 32),
    integer!("l2", "latency", 1, 65536),
    integer!("l2", "remote", 0, 65536),
    integer!("l2", "fill", 1, 65536),
    integer!("l2", "occupancy", 1, 65536),
];

static CONTROLLERS: [Check; 5] = [
    table!("controllers"),
    integer!("controllers", "count", 1, 16),
    integer!("controllers", "read", 1, 65536),
    integer!("controllers", "write", 1, 65536),
    integer!("controllers", "occupancy", 1, 65536),
];

static DOMAINS: [Check; 4] = [
    table!("domains"),
    integer!("domains", "count", 1, 64),
    array!("domains", "banks", key!("l2", "banks")),
    array!("domains", "controllers", key!("controllers", "count")),
];

static MESH: [Check; 5] = [
    table!("mesh"),
    integer!("mesh", "width", 1, 8),
    integer!("mesh", "height", 1, 8),
    integer!("mesh", "hop", 1, 256),
    integer!("mesh", "occupancy", 1, 256),
];

static DRAM: [Check; 6] = [
    table!("dram"),
    integer!("dram", "banks", 1, 16),
    integer!("dram", "row_lines", 1, 4096),
    integer!("dram", "hit", 1, 65536),
    at_least!("dram", "closed", 1, 65536, "hit"),
    at_least!("dram", "conflict", 1, 65536, "closed"),
];

static PIPE: [Check; 5] = [
    table!("pipe"),
    integer!("pipe", "mul", 1, 64),
    integer!("pipe", "div", 1, 128),
    integer!("pipe", "entries", 1, 4096),
    integer!("pipe", "penalty", 0, 64),
];

static DATA_RATIOS: [Ratio; 2] = [sets_ratio!("l1"), sets_ratio!("l2")];

static ALL_RATIOS: [Ratio; 3] = [sets_ratio!("l1"), sets_ratio!("l1i"), sets_ratio!("l2")];

pub(crate) fn version_check() -> &'static [Check]
    ensures { map check_of result.now ≡ version_check ∷ [] }
{
    &TOP[..1]
}

#[tactic(auto, unfolding(crate::specs::Keys::top_checks))]
pub(crate) fn top_checks() -> &'static [Check]
    ensures { map check_of result.now ≡ top_checks }
{
    &TOP
}

#[tactic(auto, unfolding(crate::specs::Keys::memory_checks))]
pub(crate) fn memory_checks() -> &'static [Check]
    ensures { map check_of result.now ≡ memory_checks }
{
    &MEMORY
}

#[tactic(auto, unfolding(crate::specs::Keys::own_cache_checks))]
pub(crate) fn l1_checks() -> &'static [Check]
    ensures { map check_of result.now ≡ l1_checks }
{
    &L1
}

#[tactic(auto, unfolding(crate::specs::Keys::own_cache_checks))]
pub(crate) fn l1i_checks() -> &'static [Check]
    ensures { map check_of result.now ≡ l1i_checks }
{
    &L1I
}

#[tactic(auto, unfolding(crate::specs::Keys::l2_checks))]
pub(crate) fn l2_checks() -> &'static [Check]
    ensures { map check_of result.now ≡ l2_checks }
{
    &L2
}

#[tactic(auto, unfolding(crate::specs::Keys::controller_checks))]
pub(crate) fn controller_checks() -> &'static [Check]
    ensures { map check_of result.now ≡ controller_checks }
{
    &CONTROLLERS
}

#[tactic(auto, unfolding(crate::specs::Keys::domain_checks))]
pub(crate) fn domain_checks() -> &'static [Check]
    ensures { map check_of result.now ≡ domain_checks }
{
    &DOMAINS
}

#[tactic(auto, unfolding(crate::specs::Keys::mesh_checks))]
pub(crate) fn mesh_checks() -> &'static [Check]
    ensures { map check_of result.now ≡ mesh_checks }
{
    &MESH
}

#[tactic(auto, unfolding(crate::specs::Keys::dram_checks))]
pub(crate) fn dram_checks() -> &'static [Check]
    ensures { map check_of result.now ≡ dram_checks }
{
    &DRAM
}

#[tactic(auto, unfolding(crate::specs::Keys::pipe_checks))]
pub(crate) fn pipe_checks() -> &'static [Check]
    ensures { map check_of result.now ≡ pipe_checks }
{
    &PIPE
}

/// The ratios of a machine without instruction caches, in order.
pub(crate) fn data_ratios() -> &'static [Ratio]
    ensures { map ratio_of result.now ≡ sets_ratio (codes "l1") ∷ sets_ratio (codes "l2") ∷ [] }
{
    &DATA_RATIOS
}

/// Those of a machine with them.
pub(crate) fn all_ratios() -> &'static [Ratio]
    ensures { map ratio_of result.now ≡ sets_ratio (codes "l1") ∷ sets_ratio (codes "l1i") ∷ sets_ratio (codes "l2") ∷ [] }
{
    &ALL_RATIOS
}

/// The name of a key as it stands in a refusal: `table.key`, and at the top level `key`.
pub(crate) fn full_name(alloc: Global, table: &str, name: &str) -> Result<KeyName, AllocError>
    ensures { IfOk result (λ k. k ≡ full_name (at table.now name.now)) }
{
    let text = full_text(alloc, table, name)?;
    let _utf8 = text.as_str();
    Ok(KeyName::of(text.into_bytes()))
}

#[tactic(auto, unfolding(crate::specs::Text::full_name))]
fn full_text(alloc: Global, table: &str, name: &str) -> Result<String, AllocError>
    ensures { IfOk result (λ text. string_bytes text ≡ full_name (at table.now name.now)) }
{
    if table.is_empty() {
        return String::from_str(alloc, name);
    }
    let mut text = String::from_str(alloc, table)?;
    text.push_str(".")?;
    text.push_str(name)?;
    Ok(text)
}
