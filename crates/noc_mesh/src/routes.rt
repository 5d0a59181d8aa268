//! The route from a node to another: along x first, and then along y.
ghost use Rattle.std.specs.Prelude.{◌≡◌, ◌<◌, ◌≤◌, length, slice_get};
ghost use Rattle.machine_desc.specs.Components.{nodes_of};
ghost use Rattle.machine_desc.specs.Machine.{IsMesh};
ghost use Rattle.noc_mesh.specs.RouteLaws.{apart as the_distance};
ghost use Rattle.noc_mesh.specs.Routes.{along_x as links_along_x, along_y as links_along_y, link_from as the_link_from, route as the_route};

use crate::Direction;
use machine_desc::Mesh;

/// The link at a place of the route between two nodes of a mesh, or None where the place is the
/// length of the route or more.
#[tactic(auto, using(crate::specs::RouteFacts::x_below, crate::specs::RouteFacts::y_below, crate::proofs::Places::get_across, crate::proofs::Places::get_along))]
pub fn route(m: &Mesh, source: u16, target: u16, place: u16) -> Option<u16>
    requires mesh { IsMesh m.now }
    requires source { source < nodes_of m.now }
    requires target { target < nodes_of m.now }
    ensures { result ≡ slice_get (the_route m.now source target) place }
{
    let (x, y) = (source % m.width, source / m.width);
    let (to_x, to_y) = (target % m.width, target / m.width);
    let across = apart(x, to_x);
    if place < across {
        along_x(m, y, x, to_x, place)
    } else {
        along_y(m, to_x, y, to_y, place - across)
    }
}

/// How many links the route between two nodes has: 0 to 14.
#[tactic(auto, using(crate::specs::RouteFacts::length_route, crate::specs::RouteFacts::route_short))]
pub(crate) fn distance(m: &Mesh, source: u16, target: u16) -> u16
    requires mesh { IsMesh m.now }
    requires source { source < nodes_of m.now }
    requires target { target < nodes_of m.now }
    ensures length { result ≡ length (the_route m.now source target) }
    ensures short { result ≤ 14 }
{
    apart(source % m.width, target % m.width) + apart(source / m.width, target / m.width)
}

/// How far apart two numbers are.
fn apart(a: u16, b: u16) -> u16
    ensures { result ≡ the_distance a b }
{
    a.saturating_sub(b) + b.saturating_sub(a)
}

/// The link at a place of the part of a route that goes along x, from a node to one of its y.
#[tactic(auto, using(crate::proofs::Places::get_east, crate::proofs::Places::get_west, crate::proofs::Places::past_x))]
fn along_x(m: &Mesh, y: u16, from: u16, to: u16, place: u16) -> Option<u16>
    requires mesh { IsMesh m.now }
    requires y { y < m.now.height }
    requires from { from < m.now.width }
    requires to { to < m.now.width }
    ensures { result ≡ slice_get (links_along_x m.now y from to) place }
{
    if place < to.saturating_sub(from) {
        Some(link_from(m, from + place, y, Direction::East))
    } else if place < from.saturating_sub(to) {
        Some(link_from(m, from - place, y, Direction::West))
    } else {
        None
    }
}

/// The link at a place of the part that goes along y, from a node to one of its x.
#[tactic(auto, using(crate::proofs::Places::get_north, crate::proofs::Places::get_south, crate::proofs::Places::past_y))]
fn along_y(m: &Mesh, x: u16, from: u16, to: u16, place: u16) -> Option<u16>
    requires mesh { IsMesh m.now }
    requires x { x < m.now.width }
    requires from { from < m.now.height }
    requires to { to < m.now.height }
    ensures { result ≡ slice_get (links_along_y m.now x from to) place }
{
    if place < from.saturating_sub(to) {
        Some(link_from(m, x, from - place, Direction::North))
    } else if place < to.saturating_sub(from) {
        Some(link_from(m, x, from + place, Direction::South))
    } else {
        None
    }
}

/// The link that leads from there in a direction, by its number in the mesh.
#[tactic(auto, using(crate::specs::RouteFacts::node_below, crate::specs::RouteFacts::few_nodes))]
fn link_from(m: &Mesh, x: u16, y: u16, direction: Direction) -> u16
    requires mesh { IsMesh m.now }
    requires x { x < m.now.width }
    requires y { y < m.now.height }
    ensures { result ≡ the_link_from m.now x y direction }
{
    4 * (y * m.width + x) + direction.number()
}
