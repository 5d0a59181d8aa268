//! The components of a machine.
ghost use Rattle.std.specs.Prelude.{◌≡◌, IfOk, OnOk};
ghost use Rattle.machine_desc.specs.Components.{links_of};
ghost use Rattle.machine_desc.specs.Machine.{IsMachine, IsL2, IsControllers, IsDram, IsMesh};
ghost use Rattle.dram_rows.specs.Conditions.{IsNew};
ghost use Rattle.component.specs.ComponentStep.{free_of};
ghost use Rattle.component.specs.Components.{AreFresh, HasBankTimes, HasControllerTimes, HasLinkTimes, HasNoOpenRow, HasRowTimes, IsBankOf, IsControllerOf, IsLinkOf};
ghost use Rattle.component.specs.Gained.{Gains};

use crate::{Bank, Comp, Comps, Controller, Link};
use dram_rows::Rows;
use machine_desc::{Controllers, Dram, L2, Machine, Mesh, node_count};
use std::alloc::Global;
use zs_num::NoMemory;

/// The components of a machine in order of their numbers, all free: the banks, then the
/// controllers, and then the links.
pub fn components(alloc: Global, machine: &Machine) -> Result<Comps<Comp>, NoMemory>
    requires { IsMachine machine.now }
    ensures { IfOk result (AreFresh machine.now) }
{
    let mut list = Vec::new(alloc);
    add_banks(&mut list, machine)?;
    add_controllers(&mut list, machine)?;
    add_links(&mut list, machine)?;
    Ok(Comps::of(list))
}

/// Adds the banks of a machine.
fn add_banks(list: &mut Vec<Comp>, machine: &Machine) -> Result<(), NoMemory>
    requires { IsMachine machine.now }
    ensures { OnOk result (Gains (IsBankOf machine.now) machine.now.l2.banks list.old.items list.new.items) }
{
    for _bank in 0..machine.l2.banks {
        list.push(Comp::Bank(fresh_bank(&machine.l2)))?;
    }
    Ok(())
}

/// Adds its controllers, which keep rows open where its memory has rows.
fn add_controllers(list: &mut Vec<Comp>, machine: &Machine) -> Result<(), NoMemory>
    requires { IsMachine machine.now }
    ensures { OnOk result (Gains (IsControllerOf machine.now) machine.now.controllers.count list.old.items list.new.items) }
{
    for _controller in 0..machine.controllers.count {
        list.push(controller_of(machine))?;
    }
    Ok(())
}

/// A controller of a machine before its first event.
fn controller_of(machine: &Machine) -> Comp
    requires { IsMachine machine.now }
    ensures controller { IsControllerOf machine.now result }
    ensures free { free_of result ≡ 0 }
    ensures closed { HasNoOpenRow result }
{
    match &machine.dram {
        Some(dram) => Comp::Rows(fresh_rows(&machine.controllers, dram)),
        None => Comp::Controller(fresh_controller(&machine.controllers)),
    }
}

/// Adds its links, where it has a mesh.
fn add_links(list: &mut Vec<Comp>, machine: &Machine) -> Result<(), NoMemory>
    requires { IsMachine machine.now }
    ensures { OnOk result (Gains (IsLinkOf machine.now) (links_of machine.now) list.old.items list.new.items) }
{
    if let Some(mesh) = &machine.mesh {
        for _link in 0..4 * node_count(mesh) {
            list.push(Comp::Link(fresh_link(mesh)))?;
        }
    }
    Ok(())
}

/// A bank before its first event.
fn fresh_bank(l2: &L2) -> Bank
    requires { IsL2 l2.now }
    ensures times { HasBankTimes l2.now result }
    ensures free { result.free ≡ 0 }
{
    Bank {
        lookup: u64::from(l2.latency),
        remote: u64::from(l2.latency) + u64::from(l2.remote),
        fill: u64::from(l2.fill),
        occupancy: u64::from(l2.occupancy),
        free: 0,
    }
}

/// A controller before its first event.
fn fresh_controller(controllers: &Controllers) -> Controller
    requires { IsControllers controllers.now }
    ensures times { HasControllerTimes controllers.now result }
    ensures free { result.free ≡ 0 }
{
    Controller {
        read: u64::from(controllers.read),
        write: u64::from(controllers.write),
        occupancy: u64::from(controllers.occupancy),
        free: 0,
    }
}

/// A link before its first event.
fn fresh_link(mesh: &Mesh) -> Link
    requires { IsMesh mesh.now }
    ensures times { HasLinkTimes mesh.now result }
    ensures free { result.free ≡ 0 }
{
    Link {
        hop: u64::from(mesh.hop),
        occupancy: u64::from(mesh.occupancy),
        free: 0,
    }
}

/// A controller with open rows before its first event.
fn fresh_rows(controllers: &Controllers, dram: &Dram) -> Rows
    requires controllers { IsControllers controllers.now }
    requires dram { IsDram dram.now }
    ensures times { HasRowTimes controllers.now dram.now result }
    ensures new { IsNew result }
{
    Rows::new(
        dram.banks,
        u64::from(dram.hit),
        u64::from(dram.closed),
        u64::from(dram.conflict),
        u64::from(controllers.write),
        u64::from(controllers.occupancy),
    )
}
