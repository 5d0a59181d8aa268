//! The machine with the numbers of a document that passed the checks.
ghost use Rattle.std.specs.Prelude.{◌≡◌, ◌<◌, ◌^◌, All, IfOk, IfSome, length, map, codes};
ghost use Rattle.toml.specs.View.{table_view};
ghost use Rattle.machine_desc.specs.Description.{memory_of, own_cache_of, l1i_of, l2_of, controllers_of, domains_of, mesh_numbers, mesh_of, dram_numbers, dram_of, pipe_numbers, pipe_of, numbers_of};
ghost use Rattle.machine_desc.specs.Keys.{at};
ghost use Rattle.machine_desc.specs.Machine.{IsL1, IsL2, IsControllers, IsDomains, IsMesh, IsDram, IsPipe, IsMachine};
ghost use Rattle.machine_desc.specs.Text.{natural, integer_at, integers_at};

use crate::document::{integer_at, integers_at, natural};
use crate::versions::{has_dram, has_l1i, has_mesh, has_pipe};
use crate::{Controllers, Domains, Dram, L1, L2, Machine, Memory, Mesh, Pipe, Places};
use std::alloc::{AllocError, Global};
use toml::Table;

/// The machine with the numbers of a document.
#[tactic(auto, unfolding(crate::specs::Description::numbers_of))]
pub(crate) fn numbers(alloc: Global, document: &Table) -> Result<Machine, AllocError>
    requires { IsMachine (numbers_of (table_view document.now)) }
    ensures { IfOk result (λ m. m ≡ numbers_of (table_view document.now)) }
{
    Ok(Machine {
        version: small(document, "", "version"),
        cores: short(document, "", "cores"),
        interval: integer_at(document, "", "interval"),
        intervals: small(document, "", "intervals"),
        memory: memory(document),
        l1: own_cache(document, "l1"),
        l1i: l1i(document),
        l2: l2(document),
        controllers: controllers(document),
        domains: domains(alloc, document)?,
        mesh: mesh(document),
        dram: dram(document),
        pipe: pipe(document),
    })
}

/// An integer of at most 32 bits.
fn small(document: &Table, table: &str, name: &str) -> u32
    requires { integer_at (table_view document.now) (at table.now name.now) < 2 ^ 32 }
    ensures { result ≡ integer_at (table_view document.now) (at table.now name.now) }
{
    integer_at(document, table, name) as u32
}

/// An integer of at most 16 bits.
fn short(document: &Table, table: &str, name: &str) -> u16
    requires { integer_at (table_view document.now) (at table.now name.now) < 2 ^ 16 }
    ensures { result ≡ integer_at (table_view document.now) (at table.now name.now) }
{
    integer_at(document, table, name) as u16
}

#[tactic(auto, unfolding(crate::specs::Description::memory_of))]
fn memory(document: &Table) -> Memory
    ensures { result ≡ memory_of (table_view document.now) }
{
    Memory {
        base: integer_at(document, "memory", "base"),
        size: integer_at(document, "memory", "size"),
        stack: integer_at(document, "memory", "stack"),
    }
}

/// The cache with this table.
#[tactic(auto, unfolding(crate::specs::Description::own_cache_of))]
fn own_cache(document: &Table, table: &str) -> L1
    requires { IsL1 (l2_of (table_view document.now)).banks (own_cache_of (table_view document.now) table.now) }
    ensures { result ≡ own_cache_of (table_view document.now) table.now }
{
    L1 {
        sets: small(document, table, "sets"),
        ways: short(document, table, "ways"),
        latency: small(document, table, "latency"),
    }
}

/// The instruction cache, if the machine has them.
#[tactic(auto, unfolding(crate::specs::Description::l1i_of))]
fn l1i(document: &Table) -> Option<L1>
    requires { IfSome (l1i_of (table_view document.now)) (IsL1 (l2_of (table_view document.now)).banks) }
    ensures { result ≡ l1i_of (table_view document.now) }
{
    if has_l1i(document) {
        Some(own_cache(document, "l1i"))
    } else {
        None
    }
}

#[tactic(auto, unfolding(crate::specs::Description::l2_of))]
fn l2(document: &Table) -> L2
    requires { IsL2 (l2_of (table_view document.now)) }
    ensures { result ≡ l2_of (table_view document.now) }
{
    L2 {
        banks: short(document, "l2", "banks"),
        sets: small(document, "l2", "sets"),
        ways: short(document, "l2", "ways"),
        latency: small(document, "l2", "latency"),
        remote: small(document, "l2", "remote"),
        fill: small(document, "l2", "fill"),
        occupancy: small(document, "l2", "occupancy"),
    }
}

#[tactic(auto, unfolding(crate::specs::Description::controllers_of))]
fn controllers(document: &Table) -> Controllers
    requires { IsControllers (controllers_of (table_view document.now)) }
    ensures { result ≡ controllers_of (table_view document.now) }
{
    Controllers {
        count: short(document, "controllers", "count"),
        read: small(document, "controllers", "read"),
        write: small(document, "controllers", "write"),
        occupancy: small(document, "controllers", "occupancy"),
    }
}

#[tactic(auto, unfolding(crate::specs::Description::domains_of))]
fn domains(alloc: Global, document: &Table) -> Result<Domains, AllocError>
    requires { let d = domains_of (table_view document.now) in
        IsDomains (length d.banks) (length d.controllers) d }
    ensures { IfOk result (λ d. d ≡ domains_of (table_view document.now)) }
{
    Ok(Domains {
        count: short(document, "domains", "count"),
        banks: places(alloc, document, "banks")?,
        controllers: places(alloc, document, "controllers")?,
    })
}

/// The domains of the banks, or of the controllers.
fn places(alloc: Global, document: &Table, name: &str) -> Result<Places, AllocError>
    requires { All (λ z. natural z < 2 ^ 16)
        (integers_at (table_view document.now) (at (codes "domains") name.now)) }
    ensures { IfOk result (λ p.
        p ≡ map natural (integers_at (table_view document.now) (at (codes "domains") name.now))) }
{
    let integers = integers_at(alloc, document, "domains", name)?;
    Ok(Places::of(shorts(alloc, &integers)?))
}

/// The integers as numbers of at most 16 bits.
fn shorts(alloc: Global, integers: &[i64]) -> Result<Vec<u16>, AllocError>
    requires { All (λ z. natural z < 2 ^ 16) integers.now }
    ensures { IfOk result (λ v. v.items ≡ map natural integers.now) }
{
    let mut shorts = Vec::new(alloc);
    for integer in integers {
        shorts.push(natural(*integer) as u16)?;
    }
    Ok(shorts)
}

/// The mesh, if the machine has one.
#[tactic(auto, unfolding(crate::specs::Description::mesh_of))]
fn mesh(document: &Table) -> Option<Mesh>
    requires { IfSome (mesh_of (table_view document.now)) IsMesh }
    ensures { result ≡ mesh_of (table_view document.now) }
{
    if has_mesh(document) {
        Some(mesh_numbers(document))
    } else {
        None
    }
}

#[tactic(auto, unfolding(crate::specs::Description::mesh_numbers))]
fn mesh_numbers(document: &Table) -> Mesh
    requires { IsMesh (mesh_numbers (table_view document.now)) }
    ensures { result ≡ mesh_numbers (table_view document.now) }
{
    Mesh {
        width: short(document, "mesh", "width"),
        height: short(document, "mesh", "height"),
        hop: small(document, "mesh", "hop"),
        occupancy: small(document, "mesh", "occupancy"),
    }
}

/// The open rows, if the machine has them.
#[tactic(auto, unfolding(crate::specs::Description::dram_of))]
fn dram(document: &Table) -> Option<Dram>
    requires { IfSome (dram_of (table_view document.now)) IsDram }
    ensures { result ≡ dram_of (table_view document.now) }
{
    if has_dram(document) {
        Some(dram_numbers(document))
    } else {
        None
    }
}

#[tactic(auto, unfolding(crate::specs::Description::dram_numbers))]
fn dram_numbers(document: &Table) -> Dram
    requires { IsDram (dram_numbers (table_view document.now)) }
    ensures { result ≡ dram_numbers (table_view document.now) }
{
    Dram {
        banks: short(document, "dram", "banks"),
        row_lines: small(document, "dram", "row_lines"),
        hit: small(document, "dram", "hit"),
        closed: small(document, "dram", "closed"),
        conflict: small(document, "dram", "conflict"),
    }
}

/// The pipeline of each core, if the cores have one.
#[tactic(auto, unfolding(crate::specs::Description::pipe_of))]
fn pipe(document: &Table) -> Option<Pipe>
    requires { IfSome (pipe_of (table_view document.now)) IsPipe }
    ensures { result ≡ pipe_of (table_view document.now) }
{
    if has_pipe(document) {
        Some(pipe_numbers(document))
    } else {
        None
    }
}

#[tactic(auto, unfolding(crate::specs::Description::pipe_numbers))]
fn pipe_numbers(document: &Table) -> Pipe
    requires { IsPipe (pipe_numbers (table_view document.now)) }
    ensures { result ≡ pipe_numbers (table_view document.now) }
{
    Pipe {
        mul: small(document, "pipe", "mul"),
        div: small(document, "pipe", "div"),
        entries: small(document, "pipe", "entries"),
        penalty: small(document, "pipe", "penalty"),
    }
}
