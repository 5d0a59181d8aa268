//! The components of a machine: its banks, then its memory controllers, and then the links of its
//! mesh.
ghost use Rattle.std.specs.Prelude.{◌≡◌, ◌<◌, ◌≤◌, slice_get, Some, IfSome};
ghost use Rattle.machine_desc.specs.Components.{nodes_of, links_of, component_count};
ghost use Rattle.machine_desc.specs.ComponentDomains.{component_domains, domain_of_link};
ghost use Rattle.machine_desc.specs.Machine.{IsBetween, IsMesh, IsMachine};

use crate::{Machine, Mesh};

/// How many components a machine has: 2 to 80, and up to 336 with a mesh.
pub fn component_count(machine: &Machine) -> u16
    requires { IsMachine machine.now }
    ensures { result ≡ component_count machine.now }
{
    machine.l2.banks + machine.controllers.count + link_count(machine)
}

/// How many links the mesh of a machine has, four of each node: 4 to 256, and 0 without a mesh.
pub fn link_count(machine: &Machine) -> u16
    requires { IfSome machine.now.mesh IsMesh }
    ensures count { result ≡ links_of machine.now }
    ensures few { result ≤ 256 }
{
    match &machine.mesh {
        Some(mesh) => 4 * node_count(mesh),
        None => 0,
    }
}

/// How many nodes a mesh has: 1 to 64.
#[tactic(auto, using(crate::proofs::Links::few_nodes))]
pub fn node_count(mesh: &Mesh) -> u16
    requires { IsMesh mesh.now }
    ensures count { result ≡ nodes_of mesh.now }
    ensures few { IsBetween 1 result 64 }
{
    mesh.width * mesh.height
}

/// The domain of a component, below the number of domains.
pub fn domain_of(machine: &Machine, component: u16) -> u16
    requires machine { IsMachine machine.now }
    requires there { component < component_count machine.now }
    ensures listed { slice_get (component_domains machine.now) component ≡ Some result }
    ensures below { result < machine.now.domains.count }
{
    let banks = machine.l2.banks;
    let controllers = machine.controllers.count;
    if component < banks {
        machine.domains.banks.as_slice()[component as usize]
    } else if component - banks < controllers {
        machine.domains.controllers.as_slice()[(component - banks) as usize]
    } else {
        domain_of_link(machine, component - banks - controllers)
    }
}

/// The domain of a link, by the number that it has in the mesh.
fn domain_of_link(machine: &Machine, link: u16) -> u16
    requires { IsMachine machine.now }
    ensures link { result ≡ domain_of_link machine.now link }
    ensures below { result < machine.now.domains.count }
{
    let node = link / 4;
    machine.domains.banks.as_slice()[usize::from(node % machine.l2.banks)]
}
